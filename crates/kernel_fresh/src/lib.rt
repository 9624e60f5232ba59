// A plan laid into the memory: the counts, the entries that the bytes of a setup have, and empty queues. No block is
// free and no task started yet.
#![tactic(auto)]

ghost use Rattle.std.specs.Prelude.{◌≡◌, ◌+◌, ◌≤◌, ◌<◌, length};
ghost use Rattle.rules.specs.Setup.{word_at};
ghost use Rattle.setup_plan.specs.Layout.{plan_of, PlanFits};
ghost use Rattle.memory_columns.specs.Layout.{max_priorities, max_objects, max_pools};
ghost use Rattle.memory_queues.specs.Moves.{emptied as emptied_at};
ghost use Rattle.kernel_fresh.specs.Laying.{in_turn, counted, word_of_id, laid_task, laid_alarm, laid_counter};
ghost use Rattle.kernel_fresh.specs.Laying.{entered, emptied, laid};

use memory_columns::{
    COUNTER_SIZE, Column, FIRST_FLAG, FIRST_FREE, FIRST_MAIL, FIRST_MAILBOX, FIRST_POOL,
    FIRST_READY, FIRST_SEMAPHORE, FLAGS, MAILBOXES, MAX_ALARMS, MESSAGES, POOLS, PRIORITIES, Rings,
    SEMAPHORES, STATE_WORDS, TASKS, WAKES, at_most,
};
use memory_queues::clear;
use setup_plan::Plan;

// The word `k` bytes behind an offset, 0 past the end, also where their sum is no offset. It is laid into none of its callers: a recorder
// starts a kernel in its loop over bytes, which then had no room for serving an event.
#[inline(never)]
pub fn word_at(bytes: &[u8], at: usize, k: usize) -> u32
    ensures { result ≡ word_at bytes.now (at + k) }
{
    let end = bytes.len();
    if end <= at || end - at <= k {
        0
    } else {
        setup_sections::word(bytes, at + k)
    }
}

// How many there are of each; the clock is 0.
#[tactic(auto, unfolding(crate::specs::Laying::counted))]
fn lay_counts(words: &mut [u32; STATE_WORDS], p: Plan)
    ensures { words.new ≡ counted p words.old }
{
    Column::System.set(words, PRIORITIES, p.priorities);
    Column::System.set(words, TASKS, p.tasks);
    Column::System.set(words, SEMAPHORES, p.semaphores);
    Column::System.set(words, FLAGS, p.flags);
    Column::System.set(words, MAILBOXES, p.mailboxes);
    Column::System.set(words, POOLS, p.pools);
    Column::System.set(words, MESSAGES, p.messages);
}

// ---- entries: the first lies at the offset `at`

// Entry i, where each is one word.
fn word_of(bytes: &[u8], at: usize, i: u32) -> u32
    requires { 1 ≤ i }
    ensures { result ≡ word_of_id bytes.now at 4 i }
{
    word_at(bytes, at, 4 * (i - 1) as usize)
}

// Task i rests at its starting priority.
#[tactic(auto, unfolding(crate::specs::Laying::laid_task))]
fn lay_task(bytes: &[u8], at: usize, i: u32, words: &mut [u32; STATE_WORDS])
    requires { 1 ≤ i }
    ensures { words.new ≡ laid_task bytes.now at i words.old }
{
    let p = word_at(bytes, at, 8 * (i - 1) as usize);
    Column::Priority.set(words, i, p);
    Column::Start.set(words, i, p);
}

// Alarm k of the counter whose entry lies at `at`: its task, and 1 if it wakes it. It is idle.
#[tactic(auto, unfolding(crate::specs::Laying::laid_alarm))]
fn lay_alarm(bytes: &[u8], at: usize, k: u32, words: &mut [u32; STATE_WORDS])
    requires { 1 ≤ k }
    ensures { words.new ≡ laid_alarm bytes.now at k words.old }
{
    let behind = 8 * (k - 1) as usize;
    Column::AlarmTask.set(words, k, word_at(bytes, at, behind + 4));
    Column::AlarmWakes.set(words, k, at_most(word_at(bytes, at, behind + 8), WAKES));
}

// The counter, if there is one: m, its count 0, and its alarms.
fn lay_counter(bytes: &[u8], at: usize, n: u32, words: &mut [u32; STATE_WORDS])
    ensures { words.new ≡ laid_counter bytes.now at n words.old }
{
    if n == 0 {
        return;
    }
    Column::Counter.set(words, COUNTER_SIZE, setup_sections::word(bytes, at));
    for k in 1..MAX_ALARMS + 1 {
        lay_alarm(bytes, at, k, words);
    }
}

// The entries of each section: of a semaphore its count, of a flag its pattern, of a pool how many blocks, all out.
fn lay_entries(bytes: &[u8], p: Plan, words: &mut [u32; STATE_WORDS])
    requires { PlanFits p (length bytes.now) }
    ensures { words.new ≡ entered bytes.now p words.old }
{
    for task in 1..p.tasks + 1 {
        lay_task(bytes, p.at.tasks, task, words);
    }
    for semaphore in 1..p.semaphores + 1 {
        let count = word_of(bytes, p.at.semaphores, semaphore);
        Column::Semaphore.set(words, semaphore, count);
    }
    for flag in 1..p.flags + 1 {
        let pattern = word_of(bytes, p.at.flags, flag);
        Column::Flag.set(words, flag, pattern);
    }
    for pool in 1..p.pools + 1 {
        let blocks = word_of(bytes, p.at.pools, pool);
        Column::Size.set(words, pool, blocks);
    }
    lay_counter(bytes, p.at.counter, p.counters, words);
}

// ---- queues: the anchors that are in use

// The queues of n anchors are made empty.
fn empty_queues(words: &mut [u32; STATE_WORDS], rings: Rings, first: u32, n: u32)
    requires { first + n < 4294967296 }
    ensures { words.new ≡ in_turn (emptied_at rings) n first words.old }
{
    for anchor in first..first + n {
        clear(words, rings, anchor);
    }
}

#[tactic(auto, unfolding(crate::specs::Laying::emptied, crate::specs::Laying::emptied_queues))]
fn empty_all(words: &mut [u32; STATE_WORDS], p: Plan)
    requires { (p.priorities ≤ max_priorities) × (p.semaphores ≤ max_objects) × (p.flags ≤ max_objects) ×
        (p.mailboxes ≤ max_objects) × (p.pools ≤ max_pools) }
    ensures { words.new ≡ emptied p words.old }
{
    empty_queues(words, Rings::Tasks, FIRST_READY, p.priorities);
    empty_queues(words, Rings::Tasks, FIRST_SEMAPHORE, p.semaphores);
    empty_queues(words, Rings::Tasks, FIRST_FLAG, p.flags);
    empty_queues(words, Rings::Tasks, FIRST_MAILBOX, p.mailboxes);
    empty_queues(words, Rings::Tasks, FIRST_POOL, p.pools);
    empty_queues(words, Rings::Messages, FIRST_MAIL, p.mailboxes);
    empty_queues(words, Rings::Blocks, FIRST_FREE, p.pools);
}

// ---- the whole

// The plan of a setup's bytes in a memory of zeros, whatever it held. Gives the plan.
pub fn lay_plan(bytes: &[u8], words: &mut [u32; STATE_WORDS]) -> Plan
    ensures { (result ≡ plan_of bytes.now 0) ×
        (words.new ≡ laid bytes.now (plan_of bytes.now 0)) }
{
    *words = [0; STATE_WORDS];
    let p = setup_plan::plan_of(bytes, 0);
    lay_counts(words, p);
    lay_entries(bytes, p, words);
    empty_all(words, p);
    p
}
