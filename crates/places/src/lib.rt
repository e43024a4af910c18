// Places: where and why the fourth stage refuses, as theorems over the relation between programs and rows; there is nothing to run.
#![tactic(auto)]
