// The bench cases: one table under one theorem about the definitions, no code.
#![tactic(auto)]
