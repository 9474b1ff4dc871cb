// What expiry and entering keep of the table: theorems about the definitions, no code.
#![tactic(auto)]
