// The rules of the kernel: the definitions (specs/) and the theorems about them (proofs/). It has no code of its own.
#![tactic(auto)]
