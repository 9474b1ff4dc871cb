// What a send wrote, read again: theorems about the definitions, no code.
#![tactic(auto)]
