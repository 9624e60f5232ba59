// The calls on mailboxes: what is left of each once the common refusals are out of the way (crate `call_judging`). `i`
// is the object that the call names, `me` the caller. The contracts speak of an accepted memory, where what is named is
// there (`DoesOnBoth`).
#![tactic(auto)]

ghost use Rattle.std.specs.Prelude.{MatchOption, ◌≡◌, ◌≢◌, pos};
ghost use Rattle.rules.specs.Ids.{put};
ghost use Rattle.rules.specs.State.{mailbox};
ghost use Rattle.rules.specs.Objects.{polls, wait_on, snd_msg, take_msg};
ghost use Rattle.memory_columns.specs.declared.Rings.TheVariants.{Messages};
ghost use Rattle.memory_queues.specs.Moves.{unlinked};
ghost use Rattle.call_words.specs.Doing.{DoesOnBoth};
ghost use Rattle.call_words.specs.Naming.{NamesObject, NamesMessage};
ghost use Rattle.call_objects.specs.Waiting.{first_message};

use call_objects::first_waiter;
use call_words::codes::{H_MSG, H_POLL};
use call_words::{Outcome, done, gives, refuse, releases, waits};
use memory_columns::{CELL_OK, MAILBOX, MESSAGE_WORDS, Rings, STATE_WORDS};
use memory_objects::marks::{mark_of, post, receive};
use memory_queues::{first, mail_anchor};
use memory_waits::{release, wait};

// The first message in a mailbox, 0 if it is empty.
pub fn first_message(words: &[u32; STATE_WORDS], mailbox: u32) -> u32
    ensures { result ≡ first_message mailbox words.now }
{
    first(words, Rings::Messages, mail_anchor(mailbox))
}

// 20 snd_msg: message j goes to the first waiter, else last in the mailbox.
pub fn snd_msg(
    words: &mut [u32; STATE_WORDS],
    messages: &mut [u32; MESSAGE_WORDS],
    i: u32,
    j: u32,
) -> Outcome
    ensures { DoesOnBoth (λ v. NamesObject mailbox i v × NamesMessage j v) (λ v. snd_msg v (pos i) (pos j)) result
        words.old messages.old words.new messages.new }
{
    if mark_of(messages, j) != 0 {
        return refuse(H_MSG);
    }
    let x = first_waiter(words, MAILBOX, i);
    if x != 0 {
        release(words, x, CELL_OK, j);
        return releases(1);
    }
    post(words, messages, j, i);
    done()
}

// The first message is taken, if there is one.
fn take(words: &mut [u32; STATE_WORDS], messages: &mut [u32; MESSAGE_WORDS], i: u32) -> Option<u32>
    ensures { MatchOption result ((first_message i words.old ≡ 0) × (words.new ≡ words.old) × (messages.new ≡ messages.old))
        (λ j. (j ≡ first_message i words.old) × (j ≢ 0) ×
        ((words.new ≡ unlinked Messages j words.old) × (messages.new ≡ put messages.old j 0))) }
{
    let j = first_message(words, i);
    if j == 0 {
        return None;
    }
    receive(words, messages, j);
    Some(j)
}

// 21 rcv_msg: the caller takes the first message, or waits.
pub fn rcv_msg(
    words: &mut [u32; STATE_WORDS],
    messages: &mut [u32; MESSAGE_WORDS],
    me: u32,
    i: u32,
) -> Outcome
    ensures { DoesOnBoth (NamesObject mailbox i) (λ v. take_msg v (pos i) (wait_on me mailbox (pos i))) result
        words.old messages.old words.new messages.new }
{
    if let Some(j) = take(words, messages, i) {
        return gives(j, 0);
    }
    wait(words, me, MAILBOX, i, 0, 0);
    waits()
}

// 22 prcv_msg: the first message is taken, if there is one.
pub fn prcv_msg(
    words: &mut [u32; STATE_WORDS],
    messages: &mut [u32; MESSAGE_WORDS],
    i: u32,
) -> Outcome
    ensures { DoesOnBoth (NamesObject mailbox i) (λ v. take_msg v (pos i) polls) result words.old
        messages.old words.new messages.new }
{
    match take(words, messages, i) {
        Some(j) => gives(j, 0),
        None => refuse(H_POLL),
    }
}
