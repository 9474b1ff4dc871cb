// What holds of every call: theorems about the definitions, no code.
#![tactic(auto)]
