// Worked cases of the rules: what a case says and gives, and the bench sheet as one table of them (specs/). Both kernels give what it says
// (proofs/). The examples by subject are the crates rules_examples_...; none of them has code of its own.

#![tactic(auto)]
