// The calls that look at an object, 28 sem_sts, 29 flg_sts, 30 mbx_sts and 31 mpl_sts, once for all kinds. `i` is the
// object that the call names. The contract speaks of an accepted memory, where what is named is there (`TellsStatus`).
#![tactic(auto)]

ghost use Rattle.std.specs.Prelude.{◌≡◌};
ghost use Rattle.call_status.specs.Status.{stored_at, TellsStatus};

use call_mailboxes::first_message;
use call_objects::first_waiter;
use call_pools::count_blocks;
use call_words::{Outcome, gives};
use memory_columns::{Column, FLAG, MAILBOX, SEMAPHORE, STATE_WORDS};

// What lies in object i of a kind: the count, the pattern, the first message, the number of free blocks.
fn stored(words: &[u32; STATE_WORDS], kind: u32, i: u32) -> u32
    ensures { result ≡ stored_at kind i words.now }
{
    match kind {
        SEMAPHORE => Column::Semaphore.get(words, i),
        FLAG => Column::Flag.get(words, i),
        MAILBOX => first_message(words, i),
        _ => count_blocks(Column::Free.get(words, i)),
    }
}

// The first waiter, and what is stored.
pub fn obj_sts(words: &[u32; STATE_WORDS], kind: u32, i: u32) -> Outcome
    ensures { TellsStatus kind i result words.now }
{
    let x = first_waiter(words, kind, i);
    let n = stored(words, kind, i);
    gives(x, n)
}
