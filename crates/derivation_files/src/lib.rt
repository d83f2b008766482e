// What derivation files are and what checking answers, on trees. It has no code.
#![tactic(auto)]
