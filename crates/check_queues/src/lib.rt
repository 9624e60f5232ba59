// The second part of the check of a memory: each task, message and free block stands where it belongs, once, and
// nowhere else. Each ring is walked once. One set of functions serves the rings of every sort, told to whose ring each
// id belongs: by a table of homes, or by the masks of the pools.
#![tactic(auto)]

ghost use Rattle.std.specs.Prelude.{◌≡◌, ℕ, [], ◌+◌, ◌≤◌, ◌<◌, length, get_or};
ghost use Rattle.memory_columns.specs.declared.Rings.TheVariants.{Tasks, Messages, Blocks};
ghost use Rattle.check_queues.specs.Queues as Queues;

use check_links::{Table, budget};
use memory_columns::{
    Column, FIRST_FLAG, FIRST_FREE, FIRST_MAIL, FIRST_MAILBOX, FIRST_POOL, FIRST_READY,
    FIRST_SEMAPHORE, FLAGS, MAILBOXES, MAX_BLOCKS, MAX_MESSAGES, MAX_POOLS, MAX_TASKS,
    MESSAGE_WORDS, MESSAGES, POOLS, PRIORITIES, READY, Rings, SEMAPHORE, SEMAPHORES, STATE_WORDS,
    TASKS, WAIT, WAIT_SUSPEND, at_most,
};
use memory_queues::{free_anchor, links, ready_anchor, wait_anchor};

// The most tasks, and the most pools.
const TASK_HOMES: usize = 32;

const POOL_MASKS: usize = 8;

// ---- homes: the anchor of the queue to which one belongs, 0 if to none

// Of a wait; a sleeper's is 0.
#[tactic(auto, unfolding(crate::specs::Queues::wait_home))]
fn wait_home(kind: u32, object: u32) -> u32
    ensures { result ≡ Queues.wait_home kind object }
{
    if SEMAPHORE <= kind {
        wait_anchor(kind, object)
    } else {
        0
    }
}

// Of a task.
#[tactic(auto, unfolding(crate::specs::Queues::home))]
pub fn home(words: &[u32; STATE_WORDS], t: u32) -> u32
    ensures { result ≡ Queues.home words.now t }
{
    match Column::Status.get(words, t) {
        READY => ready_anchor(Column::Priority.get(words, t)),
        WAIT | WAIT_SUSPEND => wait_home(Column::Kind.get(words, t), Column::Object.get(words, t)),
        _ => 0,
    }
}

// Of the block of a node, by its mark: it is free.
#[tactic(auto, unfolding(crate::specs::Queues::block_home))]
pub fn block_home(words: &[u32; STATE_WORDS], x: u32) -> u32
    ensures { result ≡ Queues.block_home words.now x }
{
    if x == 0 {
        return 0;
    }
    let p = (x - 1) / MAX_BLOCKS + 1;
    if (Column::Free.get(words, p) >> ((x - 1) % MAX_BLOCKS)) % 2 == 1 {
        free_anchor(p)
    } else {
        0
    }
}

// ---- the rings of a sort

// How many of their nodes are ids; of a number of pools out of range none.
pub fn ids_in(words: &[u32; STATE_WORDS], rings: Rings) -> u32
    ensures { result ≡ Queues.ids_in words.now rings }
{
    match rings {
        Rings::Tasks => Column::System.get(words, TASKS),
        Rings::Messages => Column::System.get(words, MESSAGES),
        Rings::Blocks => MAX_BLOCKS * at_most(Column::System.get(words, POOLS), MAX_POOLS),
    }
}

// ---- tables, one entry after the other

// Each entry that f gives for the ids 1 to n.
fn lay<F: Fn(u32) -> u32>(n: u32, f: F, table: &mut [u32])
    requires room { n ≤ length table.old }
    requires callable { F.IsAlwaysCallable f }
    ensures { (j : ℕ) → j < n → F.post f (j + 1) (get_or table.new j 0) }
{
    for i in 0..n {
        table[i as usize] = f(i + 1);
    }
}

// ---- surveys; what is left of a budget

// What the table of a sort has. The home of a message is its mailbox, of which the anchor is so much larger.
fn table_of(rings: Rings) -> Table
    ensures { result ≡ Queues.table_of rings }
{
    match rings {
        Rings::Tasks => Table::Homes(0),
        Rings::Messages => Table::Homes(FIRST_MAIL - 1),
        Rings::Blocks => Table::Masks,
    }
}

// The rings of the anchors from `anchor` on, as many as the count k says.
fn survey_queues(
    words: &[u32; STATE_WORDS],
    rings: Rings,
    table: &[u32],
    anchor: u32,
    k: u32,
    budget: u32,
) -> u32
    ensures { result ≡ Queues.range_in words.now rings table.now anchor k budget }
{
    check_links::survey(
        links(words, rings),
        table,
        table_of(rings),
        anchor,
        Column::System.get(words, k),
        budget,
    )
}

// All ready queues and wait queues in use.
#[tactic(auto, unfolding(crate::specs::Queues::ranges))]
fn survey_tasks(words: &[u32; STATE_WORDS], homes: &[u32], budget: u32) -> u32
    ensures { result ≡ Queues.ranges_in words.now Tasks homes.now budget }
{
    let ready = survey_queues(words, Rings::Tasks, homes, FIRST_READY, PRIORITIES, budget);
    let semaphores = survey_queues(
        words,
        Rings::Tasks,
        homes,
        FIRST_SEMAPHORE,
        SEMAPHORES,
        ready,
    );
    let flags = survey_queues(words, Rings::Tasks, homes, FIRST_FLAG, FLAGS, semaphores);
    let mailboxes = survey_queues(words, Rings::Tasks, homes, FIRST_MAILBOX, MAILBOXES, flags);
    survey_queues(words, Rings::Tasks, homes, FIRST_POOL, POOLS, mailboxes)
}

// ---- the sorts

// The budget of all that belong to a queue.
fn budget_of(words: &[u32; STATE_WORDS], rings: Rings, table: &[u32]) -> u32
    ensures { result ≡ Queues.budget_in words.now rings table.now }
{
    budget(links(words, rings), table, table_of(rings))
}

// The rings of a sort, one range after the other.
#[tactic(auto, unfolding(crate::specs::Queues::ranges))]
fn survey_all(words: &[u32; STATE_WORDS], rings: Rings, table: &[u32], budget: u32) -> u32
    ensures { result ≡ Queues.ranges_in words.now rings table.now budget }
{
    match rings {
        Rings::Tasks => survey_tasks(words, table, budget),
        Rings::Messages => survey_queues(words, rings, table, FIRST_MAIL, MAILBOXES, budget),
        Rings::Blocks => survey_queues(words, rings, table, FIRST_FREE, POOLS, budget),
    }
}

// Whether as many are linked as belong to a queue, and all of those stand there. It is laid into the test of each sort,
// where the compiler knows which rings and how long a table.
#[inline(always)]
fn settled(words: &[u32; STATE_WORDS], rings: Rings, table: &[u32]) -> bool
    ensures { result ≡ Queues.settled words.now rings table.now }
{
    survey_all(words, rings, table, budget_of(words, rings, table)) == 1
}

fn tasks_queued(words: &[u32; STATE_WORDS]) -> bool
    ensures { result ≡ Queues.queued_in words.now [] Tasks }
{
    let mut homes = [0u32; TASK_HOMES];
    let n = at_most(ids_in(words, Rings::Tasks), MAX_TASKS);
    lay(n, |t| home(words, t), &mut homes);
    settled(words, Rings::Tasks, &homes[..n as usize])
}

fn mail_queued(words: &[u32; STATE_WORDS], messages: &[u32; MESSAGE_WORDS]) -> bool
    ensures { result ≡ Queues.queued_in words.now messages.now Messages }
{
    let n = at_most(ids_in(words, Rings::Messages), MAX_MESSAGES);
    settled(words, Rings::Messages, &messages[..n as usize])
}

fn blocks_queued(words: &[u32; STATE_WORDS]) -> bool
    ensures { result ≡ Queues.queued_in words.now [] Blocks }
{
    let mut masks = [0u32; POOL_MASKS];
    let n = at_most(Column::System.get(words, POOLS), MAX_POOLS);
    lay(n, |p| Column::Free.get(words, p), &mut masks);
    settled(words, Rings::Blocks, &masks[..n as usize])
}

// Whether each of a sort stands where it belongs, once, and nowhere else.
#[tactic(auto, unfolding(crate::specs::Queues::queued_in))]
pub fn queued(words: &[u32; STATE_WORDS], messages: &[u32; MESSAGE_WORDS], rings: Rings) -> bool
    ensures { result ≡ Queues.queued_in words.now messages.now rings }
{
    match rings {
        Rings::Tasks => tasks_queued(words),
        Rings::Messages => mail_queued(words, messages),
        Rings::Blocks => blocks_queued(words),
    }
}
