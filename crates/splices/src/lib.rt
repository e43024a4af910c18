// Splices and dressing: no functions; what the readers answer of tapes that are glued and dressed stands in proofs/.
#![tactic(auto)]
