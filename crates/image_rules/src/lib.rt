// The rules of a well-formed image that its participant shows: phrase by phrase, record by record, and that both are the same.
#![tactic(auto)]
