// Theorems: the image of a well-formed participant reads back to it, and each image accepted is written again octet for octet.
#![tactic(auto)]
