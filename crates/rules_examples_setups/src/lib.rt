// Worked examples of what is read from bytes: setups, and a recorded run. It has no code of its own.

#![tactic(auto)]
