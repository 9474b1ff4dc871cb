// From contract to history: what each call's contract says is what the theorems play; no code.
#![tactic(auto)]
