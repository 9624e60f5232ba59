// Worked examples of the calls on tasks, each with the paper's words above it. It has no code of its own.

#![tactic(auto)]
