// What holds after any history of calls: theorems about the definitions, no code.
#![tactic(auto)]
