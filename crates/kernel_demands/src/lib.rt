// The customer's demands, as theorems on every chain of events (specs/Demands.antt), and from what the public functions promise to these
// (specs/Uses.antt). It has no code of its own.
#![tactic(auto)]
