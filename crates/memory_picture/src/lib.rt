// The kernel's memory as a picture: what any words show (specs/Picture.antt), and that each act, done on them, shows the act of the rules
// (proofs/Perform.antt). It has no code: the acts stand in `memory_tasks`, `memory_waits`, `memory_objects` and
// `memory_time`.
#![tactic(auto)]
