// No code: the term around a part, as the machine has it, and its next step.
#![tactic(auto)]
