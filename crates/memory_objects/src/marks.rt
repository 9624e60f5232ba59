// The marks of messages and blocks: in which mailbox a message lies, whether a block is free. (A semaphore's count and
// a flag's pattern are columns.)
ghost use Rattle.std.specs.Prelude.{◌≡◌};
ghost use Rattle.rules.specs.Ids.{of, put};
ghost use Rattle.memory_columns.specs.declared.Rings.TheVariants.{Messages};
ghost use Rattle.memory_queues.specs.Moves.{linked, unlinked, mail_anchor};
ghost use Rattle.memory_objects.specs.Moves.{listed, marked};

use memory_columns::bits::with_bit;
use memory_columns::{Column, MAX_BLOCKS, MESSAGE_WORDS, Rings, STATE_WORDS};
use memory_queues::{block_node, free_anchor, link, mail_anchor, unlink};

// The mailbox in which message j lies, 0 if in none.
pub fn mark_of(messages: &[u32; MESSAGE_WORDS], j: u32) -> u32
    ensures { result ≡ of messages.now j 0 }
{
    if j == 0 {
        return 0;
    }
    messages.get((j - 1) as usize).copied().unwrap_or(0)
}

// Writes in which mailbox message j lies.
fn set_mark(messages: &mut [u32], j: u32, mailbox: u32)
    ensures { messages.new ≡ put messages.old j mailbox }
{
    if j == 0 {
        return;
    }
    let k = (j - 1) as usize;
    if k < messages.len() {
        messages[k] = mailbox;
    }
}

// Message j, which lies in no mailbox, is laid last in a mailbox.
pub fn post(
    words: &mut [u32; STATE_WORDS],
    messages: &mut [u32; MESSAGE_WORDS],
    j: u32,
    mailbox: u32,
)
    ensures { (words.new ≡ linked Messages (mail_anchor mailbox) j words.old) ×
        (messages.new ≡ put messages.old j mailbox) }
{
    set_mark(messages, j, mailbox);
    link(words, Rings::Messages, mail_anchor(mailbox), j);
}

// Message j is taken out of the mailbox in which it lies.
pub fn receive(words: &mut [u32; STATE_WORDS], messages: &mut [u32; MESSAGE_WORDS], j: u32)
    ensures { (words.new ≡ unlinked Messages j words.old) ×
        (messages.new ≡ put messages.old j 0) }
{
    set_mark(messages, j, 0);
    unlink(words, Rings::Messages, j);
}

// Block k of a pool goes last in its queue of free blocks, or stands in none.
fn list_block(words: &mut [u32; STATE_WORDS], pool: u32, k: u32, yes: bool)
    ensures { words.new ≡ listed pool k yes words.old }
{
    let node = block_node(pool, k);
    unlink(words, Rings::Blocks, node);
    if yes {
        link(words, Rings::Blocks, free_anchor(pool), node);
    }
}

// Block k of a pool is marked as free, and is then the last of the free ones, or as out.
pub fn mark_block(words: &mut [u32; STATE_WORDS], pool: u32, k: u32, yes: bool)
    ensures { words.new ≡ marked pool k yes words.old }
{
    if 1 <= k && k <= MAX_BLOCKS {
        let mask = Column::Free.get(words, pool);
        Column::Free.set(words, pool, with_bit(mask, k - 1, yes));
        list_block(words, pool, k, yes);
    }
}
