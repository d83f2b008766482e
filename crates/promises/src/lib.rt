// The demands as theorems over the definitions that the operations promise to equal. It has no code.
#![tactic(auto)]
