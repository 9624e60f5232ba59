// What holds of every run of the rules: who runs, by arrival numbers; demand 3; blocks worn evenly. It has no code of its own.

#![tactic(auto)]
