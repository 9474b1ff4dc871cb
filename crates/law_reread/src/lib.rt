// Theorems: a record of the port image reads back as it was written, and is written again as it was read.
#![tactic(auto)]
