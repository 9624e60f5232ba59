// The fresh state of a setup, laid into the memory that the caller lends. The setup is judged whole before a word is written, so a
// refusal leaves the memory as it was.
#![tactic(auto)]

ghost use Rattle.std.specs.Prelude.{◌≡◌, ◌≤◌, replicate};
ghost use Rattle.memory_columns.specs.Layout.{max_tasks, max_messages, max_pools, max_blocks};
ghost use Rattle.memory_picture.specs.Picture.{memory};
ghost use Rattle.kernel_fresh.specs.Laying.{in_turn};
ghost use Rattle.kernel_start.specs.Starting.{freed, freed_pool, begun, fresh_words, Starts};

use kernel_fresh::{lay_plan, word_at};
use memory_columns::{MAX_BLOCKS, MESSAGE_WORDS, STATE_WORDS, at_most};
use memory_objects::marks::mark_block;
use memory_tasks::begin;
use setup_sections::Refusal;

// ---- the free blocks

// The blocks 1 to k of pool p are free, in the order of their numbers.
fn free_blocks(words: &mut [u32; STATE_WORDS], p: u32, k: u32)
    requires { k ≤ max_blocks }
    ensures { words.new ≡ in_turn (freed p) k 1 words.old }
{
    for i in 1..k + 1 {
        mark_block(words, p, i, true);
    }
}

// Those of pool p, as many as its entry says.
#[tactic(auto, unfolding(crate::specs::Starting::freed_pool))]
fn free_pool(bytes: &[u8], at: usize, p: u32, words: &mut [u32; STATE_WORDS])
    requires { 1 ≤ p }
    ensures { words.new ≡ freed_pool bytes.now at p words.old }
{
    let k = at_most(word_at(bytes, at, 4 * (p - 1) as usize), MAX_BLOCKS);
    free_blocks(words, p, k);
}

fn free_pools(bytes: &[u8], at: usize, n: u32, words: &mut [u32; STATE_WORDS])
    requires { n ≤ max_pools }
    ensures { words.new ≡ in_turn (freed_pool bytes.now at) n 1 words.old }
{
    for p in 1..n + 1 {
        free_pool(bytes, at, p, words);
    }
}

// ---- the started tasks

// Task i is started if its entry says so.
#[tactic(auto, unfolding(crate::specs::Starting::begun))]
fn begin_task(bytes: &[u8], at: usize, i: u32, words: &mut [u32; STATE_WORDS])
    requires { 1 ≤ i }
    ensures { words.new ≡ begun bytes.now at i words.old }
{
    if word_at(bytes, at, 8 * (i - 1) as usize + 4) == 1 {
        begin(words, i);
    }
}

// In id order: so they stand in the ready queues.
fn begin_tasks(bytes: &[u8], at: usize, n: u32, words: &mut [u32; STATE_WORDS])
    requires { n ≤ max_tasks }
    ensures { words.new ≡ in_turn (begun bytes.now at) n 1 words.old }
{
    for i in 1..n + 1 {
        begin_task(bytes, at, i, words);
    }
}

// ---- the whole

// The fresh state of a setup that was accepted, whatever the memory held.
fn lay_fresh(bytes: &[u8], words: &mut [u32; STATE_WORDS], messages: &mut [u32; MESSAGE_WORDS])
    ensures { (words.new ≡ fresh_words bytes.now) × (messages.new ≡ replicate max_messages 0) }
{
    *messages = [0; MESSAGE_WORDS];
    let p = lay_plan(bytes, words);
    free_pools(bytes, p.at.pools, p.pools, words);
    begin_tasks(bytes, p.at.tasks, p.tasks, words);
}

// The memory of a fresh kernel, from the bytes of a setup. A refusal leaves the memory as it was.
pub fn start(
    bytes: &[u8],
    words: &mut [u32; STATE_WORDS],
    messages: &mut [u32; MESSAGE_WORDS],
) -> Result<(), Refusal>
    ensures { Starts bytes.now result (memory words.old messages.old)
        (memory words.new messages.new) }
{
    setup::judge_whole(bytes)?;
    lay_fresh(bytes, words, messages);
    Ok(())
}
