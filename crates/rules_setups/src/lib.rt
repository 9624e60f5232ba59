// What the reader of setups refuses, said without the reader (specs/), and what it makes of the setup of a recorded run. It has no code of
// its own.

#![tactic(auto)]
