// The queues: rings of tasks, of messages and of free blocks, over the crate `memory_rings`. One set of functions
// serves all three; the tasks' queues have the word of nonempty ready queues beside them.
#![tactic(auto)]

ghost use Rattle.std.specs.Prelude.{cond, leb, ◌≡◌, ◌+◌, ◌<◌, ◌^◌};
ghost use Rattle.memory_rings.specs.Links.{nexts, first_of};
ghost use Rattle.memory_columns.specs.Layout.{words as words_of};
ghost use Rattle.memory_columns.specs.Layout.{next_of, links_of, entry};
ghost use Rattle.memory_queues.specs.Moves.{ready_anchor, wait_anchor, mail_anchor, free_anchor, node_of_block, linked};
ghost use Rattle.memory_queues.specs.Moves.{unlinked, emptied, annotated, queued, unqueued};

use memory_columns::bits::with_bit;
use memory_columns::{
    BLOCK_LINKS, BLOCK_LINKS_END, Column, FIRST_READY, FREE_ANCHORS, LAST_READY, LINKS, LINKS_END,
    MAIL_ANCHORS, MAIL_LINKS, MAIL_LINKS_END, MAX_BLOCKS, MAX_OBJECTS, MAX_POOLS, MAX_PRIORITIES,
    POOL, READY_ANCHORS, Rings, STATE_WORDS, WAIT_ANCHORS,
};
use std::ops::Range;

// The anchor of queue i of `most`, which stand behind `before`; 0 for a number that is none.
fn anchor(before: u32, most: u32, i: u32) -> u32
    requires { before + most < 2 ^ 32 }
    ensures { result ≡ cond (leb i most) (before + i) 0 }
{
    if i <= most { before + i } else { 0 }
}

// The anchor of the ready queue of a priority; 0 for a number that is none.
pub fn ready_anchor(priority: u32) -> u32
    ensures { result ≡ ready_anchor priority }
{
    anchor(READY_ANCHORS, MAX_PRIORITIES, priority)
}

// The anchor of the waiters on an object of a kind.
pub fn wait_anchor(kind: u32, object: u32) -> u32
    ensures { result ≡ wait_anchor kind object }
{
    if kind <= POOL && object <= MAX_OBJECTS {
        WAIT_ANCHORS + (MAX_OBJECTS * kind + object)
    } else {
        0
    }
}

// The anchor of a mailbox's messages.
pub fn mail_anchor(mailbox: u32) -> u32
    ensures { result ≡ mail_anchor mailbox }
{
    anchor(MAIL_ANCHORS, MAX_OBJECTS, mailbox)
}

// The anchor of a pool's free blocks.
pub fn free_anchor(pool: u32) -> u32
    ensures { result ≡ free_anchor pool }
{
    anchor(FREE_ANCHORS, MAX_POOLS, pool)
}

// The node of block k of a pool; 0 for a number that is no pool's or no block's.
pub fn block_node(pool: u32, k: u32) -> u32
    ensures { result ≡ node_of_block pool k }
{
    if 1 <= pool && pool <= MAX_POOLS && k <= MAX_BLOCKS {
        MAX_BLOCKS * (pool - 1) + k
    } else {
        0
    }
}

// ---- rings of any sort

// Where their links stand.
fn part(rings: Rings) -> Range<usize>
    ensures { (result.start ≡ (links_of rings).at) × (result.end ≡ (links_of rings).at + (links_of rings).width) }
{
    match rings {
        Rings::Tasks => LINKS..LINKS_END,
        Rings::Messages => MAIL_LINKS..MAIL_LINKS_END,
        Rings::Blocks => BLOCK_LINKS..BLOCK_LINKS_END,
    }
}

// Id i goes last behind an anchor.
pub fn link(words: &mut [u32; STATE_WORDS], rings: Rings, anchor: u32, i: u32)
    ensures { words.new ≡ linked rings anchor i words.old }
{
    memory_rings::push(&mut words[part(rings)], anchor, i);
}

// Id i leaves the ring in which it stands, if it stands in one.
pub fn unlink(words: &mut [u32; STATE_WORDS], rings: Rings, i: u32)
    ensures { words.new ≡ unlinked rings i words.old }
{
    memory_rings::leave(&mut words[part(rings)], i);
}

// The queue of an anchor is made empty, where no id has a link yet.
pub fn clear(words: &mut [u32; STATE_WORDS], rings: Rings, anchor: u32)
    ensures { words.new ≡ emptied rings anchor words.old }
{
    memory_rings::clear(&mut words[part(rings)], anchor);
}

// The links of the rings; the first half has the next links.
pub fn links(words: &[u32; STATE_WORDS], rings: Rings) -> &[u32]
    ensures { (result.now ≡ words_of (links_of rings) words.now) ×
        (nexts result.now ≡ words_of (next_of rings) words.now) }
{
    &words[part(rings)]
}

// The first in the queue of an anchor, 0 if it is empty.
pub fn first(words: &[u32; STATE_WORDS], rings: Rings, anchor: u32) -> u32
    ensures { result ≡ first_of (words_of (next_of rings) words.now) anchor }
{
    memory_rings::first(links(words, rings), anchor)
}

// The node behind x in its queue: an id, or the anchor.
pub fn follow(words: &[u32; STATE_WORDS], rings: Rings, x: u32) -> u32
    ensures { result ≡ entry (next_of rings) words.now x }
{
    memory_rings::follow(links(words, rings), x)
}

// ---- the queues of tasks

// The mark of an anchor in the word of nonempty ready queues; an anchor that is no ready queue's has none.
fn note(words: &mut [u32; STATE_WORDS], anchor: u32, yes: bool)
    ensures { words.new ≡ annotated anchor yes words.old }
{
    if FIRST_READY <= anchor && anchor <= LAST_READY {
        let marks = Column::Nonempty.get(words, 0);
        Column::Nonempty.set(words, 0, with_bit(marks, anchor - FIRST_READY, yes));
    }
}

// Task t goes last in the queue of an anchor.
pub fn push(words: &mut [u32; STATE_WORDS], anchor: u32, t: u32)
    ensures { words.new ≡ queued anchor t words.old }
{
    link(words, Rings::Tasks, anchor, t);
    note(words, anchor, true);
}

// Task t leaves the queue in which it stands, if it stands in one. Only if it was the last one there, its queue may be
// empty then, and the node behind it was the anchor.
pub fn leave(words: &mut [u32; STATE_WORDS], t: u32)
    ensures { words.new ≡ unqueued t words.old }
{
    let behind = follow(words, Rings::Tasks, t);
    unlink(words, Rings::Tasks, t);
    let more = first(words, Rings::Tasks, behind) != 0;
    note(words, behind, more);
}
