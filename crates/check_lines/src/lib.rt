// Which ids stand where in the lines of a memory that may be damaged, for any words: whether all entries are known, and
// whether a task, a message or a free block stands where it belongs. It is plain rather than fast, since it runs on
// damaged memories alone: each id is looked for in every line.
#![tactic(auto)]

mod lines;

ghost use Rattle.std.specs.Prelude.{◌≡◌, ◌+◌, ◌≤◌, ◌<◌, ◌^◌};
ghost use Rattle.memory_rings.specs.Links.{nexts};
ghost use Rattle.memory_rings.specs.Rings.{line_of};
ghost use Rattle.memory_columns.specs.declared.Rings.TheVariants.{Tasks};
ghost use Rattle.memory_columns.specs.Layout as Layout;
ghost use Rattle.memory_columns.specs.Layout.{max_messages, next_of, words as words_of};
ghost use Rattle.check_ranges.specs.Ranges.{every};
ghost use Rattle.check_queues.specs.Queues.{home as home_of, ids_in};
ghost use Rattle.check_lines.specs.Lists.{known, stands_right, at_most_once};
ghost use Rattle.check_lines.specs.Lines as Lines;

use crate::lines::{line_known, stands_right, times_in};
use check_queues::{block_home, home, ids_in};
use check_state::in_range;
use memory_columns::{
    Column, FLAG, FLAGS, FREE_ANCHORS, MAIL_ANCHORS, MAILBOX, MAILBOXES, MAX_BLOCKS, MAX_MESSAGES,
    MAX_OBJECTS, MESSAGE_WORDS, POOL, POOLS, PRIORITIES, READY_ANCHORS, Rings, SEMAPHORE,
    SEMAPHORES, STATE_WORDS, WAIT_ANCHORS, at_most,
};
use memory_queues::{block_node, free_anchor, links};

// The nodes before the first anchors of the waiters on each kind of object.
const SEMAPHORE_ANCHORS: u32 = WAIT_ANCHORS + MAX_OBJECTS * SEMAPHORE;

const FLAG_ANCHORS: u32 = WAIT_ANCHORS + MAX_OBJECTS * FLAG;

const MAILBOX_ANCHORS: u32 = WAIT_ANCHORS + MAX_OBJECTS * MAILBOX;

const POOL_ANCHORS: u32 = WAIT_ANCHORS + MAX_OBJECTS * POOL;

// How many, none where the count is out of range.
pub fn few(words: &[u32; STATE_WORDS], k: u32) -> u32
    ensures { (result ≡ Lines.few words.now k) × (result ≤ max_messages) }
{
    at_most(Column::System.get(words, k), MAX_MESSAGES)
}

// ---- the lines of the anchors behind `before`, so many

// Each of them lists ids alone.
fn all_known(links: &[u32], n: u32, before: u32, count: u32) -> bool
    requires { before + count < 2 ^ 32 }
    ensures { result ≡ every count 1 (λ o. known 0 n (line_of n (nexts links.now) (before + o))) }
{
    (0..count).all(|o| line_known(links, n, before + o + 1, 0, n))
}

// The id i stands in each of them as often as it belongs there.
fn all_right(links: &[u32], n: u32, before: u32, count: u32, home: u32, i: u32) -> bool
    requires { before + count < 2 ^ 32 }
    ensures { result ≡ every count 1 (λ o. stands_right n (nexts links.now) home i (before + o)) }
{
    (0..count).all(|o| stands_right(links, n, before + o + 1, home, i))
}

// The id i stands at most once in all of them together.
fn at_most_once(links: &[u32], n: u32, before: u32, count: u32, i: u32) -> bool
    requires { before + count < 2 ^ 32 }
    ensures { result ≡ at_most_once n (nexts links.now) i before 0 1 count }
{
    let mut found: usize = 0;
    for o in 0..count {
        found += times_in(links, n, before + o + 1, i);
        if 1 < found {
            return false;
        }
    }
    true
}

// ---- numbers

// Nobody but those that exist in the queues behind `before`, as many as the count k says.
fn queues_known(words: &[u32; STATE_WORDS], rings: Rings, before: u32, k: u32) -> bool
    requires { before ≤ max_messages }
    ensures { result ≡ every (Lines.few words.now k) 1 (λ o. known 0 (ids_in words.now rings)
        (line_of (ids_in words.now rings) (words_of (next_of rings) words.now) (before + o))) }
{
    all_known(
        links(words, rings),
        ids_in(words, rings),
        before,
        few(words, k),
    )
}

#[tactic(auto, unfolding(crate::specs::Lines::every_in))]
fn tasks_known(words: &[u32; STATE_WORDS]) -> bool
    ensures { result ≡ Lines.tasks_known words.now }
{
    queues_known(words, Rings::Tasks, READY_ANCHORS, PRIORITIES)
        && queues_known(words, Rings::Tasks, SEMAPHORE_ANCHORS, SEMAPHORES)
        && queues_known(words, Rings::Tasks, FLAG_ANCHORS, FLAGS)
        && queues_known(words, Rings::Tasks, MAILBOX_ANCHORS, MAILBOXES)
        && queues_known(words, Rings::Tasks, POOL_ANCHORS, POOLS)
}

#[tactic(auto, unfolding(crate::specs::Lines::every_in))]
fn mails_known(words: &[u32; STATE_WORDS]) -> bool
    ensures { result ≡ Lines.mails_known words.now }
{
    queues_known(words, Rings::Messages, MAIL_ANCHORS, MAILBOXES)
}

// Nothing but blocks of pool p, as many as it has, in its queue of free blocks.
fn pool_known(words: &[u32; STATE_WORDS], p: u32) -> bool
    requires { (1 ≤ p) × (p ≤ max_messages) }
    ensures { result ≡ Lines.pool_known words.now p }
{
    line_known(
        links(words, Rings::Blocks),
        ids_in(words, Rings::Blocks),
        FREE_ANCHORS + p,
        MAX_BLOCKS * (p - 1),
        Column::Size.get(words, p),
    )
}

fn pools_known(words: &[u32; STATE_WORDS]) -> bool
    ensures { result ≡ Lines.pools_known words.now }
{
    (1..few(words, POOLS) + 1).all(|p| pool_known(words, p))
}

// Every number lies in its range, those that stand in queues too.
#[tactic(auto, unfolding(crate::specs::Lines::numbers_ok))]
pub fn numbers_ok(words: &[u32; STATE_WORDS], messages: &[u32; MESSAGE_WORDS]) -> bool
    ensures { result ≡ Lines.numbers_ok words.now messages.now }
{
    in_range(words, messages) && tasks_known(words) && mails_known(words) && pools_known(words)
}

// ---- the rules that name an id

// Task t stands as often as it belongs there in the queues behind `before`, as many as the count k says.
fn placed_in(words: &[u32; STATE_WORDS], before: u32, k: u32, home: u32, t: u32) -> bool
    requires { before ≤ max_messages }
    ensures { result ≡ every (Lines.few words.now k) 1 (λ o. stands_right
        (ids_in words.now Tasks) (words_of Layout.next words.now) home t (before + o)) }
{
    all_right(
        links(words, Rings::Tasks),
        ids_in(words, Rings::Tasks),
        before,
        few(words, k),
        home,
        t,
    )
}

// The same in all queues.
#[tactic(auto, unfolding(crate::specs::Lines::placed, crate::specs::Lines::every_in))]
fn placed(words: &[u32; STATE_WORDS], home: u32, t: u32) -> bool
    ensures { result ≡ Lines.placed words.now home t }
{
    placed_in(words, READY_ANCHORS, PRIORITIES, home, t)
        && placed_in(words, SEMAPHORE_ANCHORS, SEMAPHORES, home, t)
        && placed_in(words, FLAG_ANCHORS, FLAGS, home, t)
        && placed_in(words, MAILBOX_ANCHORS, MAILBOXES, home, t)
        && placed_in(words, POOL_ANCHORS, POOLS, home, t)
}

// Task t is not missing, not doubled and not foreign in any queue.
pub fn task_placed(words: &[u32; STATE_WORDS], t: u32) -> bool
    ensures { result ≡ Lines.placed words.now (home_of words.now t) t }
{
    placed(words, home(words, t), t)
}

// Message j is not held twice.
#[tactic(auto, unfolding(crate::specs::Lines::message_once))]
pub fn message_once(words: &[u32; STATE_WORDS], j: u32) -> bool
    ensures { result ≡ Lines.message_once words.now j }
{
    at_most_once(
        links(words, Rings::Messages),
        ids_in(words, Rings::Messages),
        MAIL_ANCHORS,
        few(words, MAILBOXES),
        j,
    )
}

// Block k of pool p stands in the pool's queue once if it is free, else not at all.
fn block_listed(words: &[u32; STATE_WORDS], p: u32, k: u32) -> bool
    ensures { result ≡ Lines.block_listed words.now p k }
{
    let x = block_node(p, k);
    stands_right(
        links(words, Rings::Blocks),
        ids_in(words, Rings::Blocks),
        free_anchor(p),
        block_home(words, x),
        x,
    )
}

// No free block of pool p is missing or doubled in its queue, and no other stands there.
#[tactic(auto, unfolding(crate::specs::Lines::pool_listed))]
pub fn pool_listed(words: &[u32; STATE_WORDS], p: u32) -> bool
    ensures { result ≡ Lines.pool_listed words.now p }
{
    (0..Column::Size.get(words, p)).all(|k| block_listed(words, p, k + 1))
}
