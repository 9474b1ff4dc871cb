// Lists of entries, and laws of lists and of cases that many proofs cite: no code.
#![tactic(auto)]
