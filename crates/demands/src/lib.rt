// The demands on one page each, with the theorems that prove them. No code: see specs/.
#![tactic(auto)]
