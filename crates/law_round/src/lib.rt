// The round trip of the frame codec: theorems about the definitions, no code.
#![tactic(auto)]
