// Whether the last in line is ever served: the claim (specs/) and its proof over every run of the rules. It has no code of its own.

#![tactic(auto)]
