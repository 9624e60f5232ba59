// Worked examples of damaged states: the code and the id that are told. It has no code of its own.

#![tactic(auto)]
