// Worked examples of turns: how many calls serve the last in line. It has no code of its own.

#![tactic(auto)]
