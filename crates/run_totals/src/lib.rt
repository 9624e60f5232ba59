// What the figures of runs add up to: theorems about the definitions of `run_figures` and `run_month`. There is no code here.
#![tactic(auto)]
