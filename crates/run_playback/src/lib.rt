// The text of a whole input, by both kernels and in worked examples. Nothing runs here: the functions are those of `run_recorder`.
#![tactic(auto)]
