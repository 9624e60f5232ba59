// Where the parts of a setup lie, by counts and offsets, once its bytes are accepted.
#![tactic(auto)]

ghost use Rattle.std.specs.Prelude.{◌≡◌, ◌≤◌};
ghost use Rattle.setup_plan.specs.Layout.{count_at, part_at, plan_of};

use setup::{COUNTERS, FLAGS, MAILBOXES, MESSAGES, POOLS, PRIORITIES, SEMAPHORES, TASKS};
use setup_sections::{onward, word};

// A section by the offset of its count: how many it counts, where its first entry lies, and where the next section begins.
#[derive(Clone, Copy)]
struct Part {
    count: u32,
    first: usize,
    next: usize,
}

// The offsets of the first entries.
#[derive(Clone, Copy)]
pub struct Offsets {
    pub tasks: usize,
    pub semaphores: usize,
    pub flags: usize,
    pub pools: usize,
    pub counter: usize,
}

// What the counts of a setup say, and where the entries lie.
#[derive(Clone, Copy)]
pub struct Plan {
    pub priorities: u32,
    pub tasks: u32,
    pub semaphores: u32,
    pub flags: u32,
    pub mailboxes: u32,
    pub messages: u32,
    pub pools: u32,
    pub counters: u32,
    pub at: Offsets,
}

// At most `most` are counted, whatever the bytes are: tables that hold so many are never left.
fn count_at(bytes: &[u8], most: u32, at: usize) -> u32
    ensures { result ≡ count_at bytes.now most at }
{
    word(bytes, at).min(most)
}

// A section whose count stands at an offset, with entries of `size` bytes.
#[tactic(auto, unfolding(crate::specs::Layout::part_at))]
fn part_at(bytes: &[u8], most: u32, size: usize, at: usize) -> Part
    requires { size ≤ 68 }
    ensures { result ≡ part_at bytes.now most size at }
{
    let count = count_at(bytes, most, at);
    let first = onward(bytes, at, 4);
    let next = onward(bytes, first, size * count as usize);
    Part { count, first, next }
}

// The layout of a setup that begins at an offset. Of a setup that is not accepted it says nothing of use, and is total all the same.
#[tactic(auto, unfolding(crate::specs::Layout::plan_of))]
pub fn plan_of(bytes: &[u8], at: usize) -> Plan
    ensures { result ≡ plan_of bytes.now at }
{
    let priorities = part_at(bytes, PRIORITIES, 0, at);
    let tasks = part_at(bytes, TASKS, 8, priorities.next);
    let semaphores = part_at(bytes, SEMAPHORES, 4, tasks.next);
    let flags = part_at(bytes, FLAGS, 4, semaphores.next);
    let mailboxes = part_at(bytes, MAILBOXES, 0, flags.next);
    let messages = part_at(bytes, MESSAGES, 0, mailboxes.next);
    let pools = part_at(bytes, POOLS, 4, messages.next);
    let counters = part_at(bytes, COUNTERS, 68, pools.next);
    let first = Offsets {
        tasks: tasks.first,
        semaphores: semaphores.first,
        flags: flags.first,
        pools: pools.first,
        counter: counters.first,
    };
    Plan {
        priorities: priorities.count,
        tasks: tasks.count,
        semaphores: semaphores.count,
        flags: flags.count,
        mailboxes: mailboxes.count,
        messages: messages.count,
        pools: pools.count,
        counters: counters.count,
        at: first,
    }
}
