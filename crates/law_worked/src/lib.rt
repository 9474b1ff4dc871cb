// Theorems: worked histories, computed.
#![tactic(auto)]
