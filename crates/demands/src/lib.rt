// Demands: what the user asked for, as theorems over the answers of the crates below; there is nothing to run.
#![tactic(auto)]
