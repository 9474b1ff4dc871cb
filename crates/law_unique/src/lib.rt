// Every public function asks nothing, and any two answers that its statement allows are the same: the laws, and their citations for
// every public function; no code.
#![tactic(auto)]
