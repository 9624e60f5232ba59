// What the calls on objects share: the first waiter (crates `call_semaphores`, `call_flags`, `call_mailboxes`, `call_pools`,
// `call_status`).
#![tactic(auto)]

ghost use Rattle.std.specs.Prelude.{◌≡◌};
ghost use Rattle.call_objects.specs.Waiting.{first_waiter};

use memory_columns::{Rings, STATE_WORDS};
use memory_queues::{first, wait_anchor};

// The first task that waits on object o of a kind, 0 if none does.
pub fn first_waiter(words: &[u32; STATE_WORDS], kind: u32, o: u32) -> u32
    ensures { result ≡ first_waiter kind o words.now }
{
    first(words, Rings::Tasks, wait_anchor(kind, o))
}
