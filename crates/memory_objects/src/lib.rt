// The acts on messages, blocks, handlers and alarms, and what a flag's pattern meets. Each is a total function on
// the words (specs/Moves.antt).
#![tactic(auto)]

pub mod alarms;
pub mod flags;
pub mod handlers;
pub mod marks;
