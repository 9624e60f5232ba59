// The calls on pools: what is left of each once the common refusals are out of the way (crate `call_judging`). `i` is the
// object that the call names. The contracts speak of an accepted memory, where what is named is there (`DoesOnWords`).
#![tactic(auto)]

ghost use Rattle.std.specs.Prelude.{MatchOption, false, ◌≡◌, ◌≢◌, pos};
ghost use Rattle.rules.specs.State.{pool};
ghost use Rattle.rules.specs.Objects.{polls, wait_on, take_blk, rel_blk};
ghost use Rattle.memory_objects.specs.Moves.{marked};
ghost use Rattle.call_words.specs.Doing.{DoesOnWords};
ghost use Rattle.call_words.specs.Naming.{NamesObject};
ghost use Rattle.call_objects.specs.Waiting.{first_block};
ghost use Rattle.call_pools.specs.Blocks.{bit_count, not_out};

use call_objects::first_waiter;
use call_words::codes::{H_ILBLK, H_POLL};
use call_words::{Outcome, done, gives, refuse, releases, waits};
use memory_columns::{CELL_OK, Column, MAX_BLOCKS, POOL, Rings, STATE_WORDS};
use memory_objects::marks::mark_block;
use memory_queues::{block_node, first, free_anchor};
use memory_waits::{release, wait};

// The block of a pool that is longest free, the first in its queue of free blocks; 0 if none is.
fn first_block(words: &[u32; STATE_WORDS], pool: u32) -> u32
    ensures { result ≡ first_block pool words.now }
{
    first(words, Rings::Blocks, free_anchor(pool)).saturating_sub(block_node(pool, 0))
}

// How many blocks are free in a mask.
pub fn count_blocks(mask: u32) -> u32
    ensures { result ≡ bit_count 32 mask }
{
    mask.count_ones()
}

// Block k of a pool cannot be given back: there is no such block, or it is free.
fn is_not_out(words: &[u32; STATE_WORDS], pool: u32, k: u32) -> bool
    ensures { result ≡ not_out words.now pool k }
{
    k == 0
        || Column::Size.get(words, pool) < k
        || MAX_BLOCKS < k
        || (Column::Free.get(words, pool) >> (k - 1)) % 2 == 1
}

// The block longest free is taken, if there is one.
fn take(words: &mut [u32; STATE_WORDS], i: u32) -> Option<u32>
    ensures { MatchOption result ((first_block i words.old ≡ 0) × (words.new ≡ words.old))
        (λ k. (k ≡ first_block i words.old) × (k ≢ 0) × (words.new ≡ marked i k false words.old)) }
{
    let k = first_block(words, i);
    if k == 0 {
        return None;
    }
    mark_block(words, i, k, false);
    Some(k)
}

// 23 get_blk: the caller takes the block longest free, or waits.
pub fn get_blk(words: &mut [u32; STATE_WORDS], me: u32, i: u32) -> Outcome
    ensures { DoesOnWords (NamesObject pool i) (λ v. take_blk v (pos i) (wait_on me pool (pos i))) result
        words.old words.new }
{
    if let Some(k) = take(words, i) {
        return gives(k, 0);
    }
    wait(words, me, POOL, i, 0, 0);
    waits()
}

// 24 pget_blk: the block longest free is taken, if there is one.
pub fn pget_blk(words: &mut [u32; STATE_WORDS], i: u32) -> Outcome
    ensures { DoesOnWords (NamesObject pool i) (λ v. take_blk v (pos i) polls) result words.old words.new }
{
    match take(words, i) {
        Some(k) => gives(k, 0),
        None => refuse(H_POLL),
    }
}

// 25 rel_blk: block k goes to the first waiter, else it is free, behind the other free ones.
pub fn rel_blk(words: &mut [u32; STATE_WORDS], i: u32, k: u32) -> Outcome
    ensures { DoesOnWords (NamesObject pool i) (λ v. rel_blk v (pos i) (pos k)) result words.old words.new }
{
    if is_not_out(words, i, k) {
        return refuse(H_ILBLK);
    }
    let x = first_waiter(words, POOL, i);
    if x != 0 {
        release(words, x, CELL_OK, k);
        return releases(1);
    }
    mark_block(words, i, k, true);
    done()
}
