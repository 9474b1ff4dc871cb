// Each participant that a history reaches is well formed: theorems about the definitions, no code.
#![tactic(auto)]
