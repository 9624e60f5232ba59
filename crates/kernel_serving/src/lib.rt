// Events on a memory of which it is known that it is sound and who runs, or what is broken: what is promised is as much as that
// knowledge (`Serves`, `ServesAll`). `kernel_events` and `kernel_batches` look first.
#![tactic(auto)]

ghost use Rattle.std.specs.Prelude.{◌≡◌, suc, ◌+◌, ◌*◌, ◌/◌, ◌≤◌, length, set};
ghost use Rattle.rules.specs.Events as Events;
ghost use Rattle.rules.specs.Events.{event_of};
ghost use Rattle.memory_picture.specs.Picture.{memory};
ghost use Rattle.kernel_steps.specs.Steps.{reply_of};
ghost use Rattle.kernel_steps.specs.Serving.{Serves, ServesCall};
ghost use Rattle.kernel_steps.specs.Written.{lent, answered, ServesAt, ServesAll};
ghost use Rattle.kernel_serving.specs.Acting.{Acts};

use call_dispatch::dispatch;
use call_judging::{Caller, is_above};
use call_words::{Outcome, named};
use check_damage::Breach;
use kernel_steps::{Answer, answer_of, caller, damaged, handles, misnamed};
use memory_columns::STATE_WORDS;
use memory_running::{is_open, running_task};

// The last context of a call (0 task, 1 handler), or the kind of an event. Kinds come in as words from outside, and any word may: so they are
// numbers here.
pub const HANDLER: u32 = 1;

const TICK: i32 = 2;

const ENTRY: i32 = 3;

const RETURN: i32 = 4;

// An event of five words: kind (0 task, 1 handler, 2 tick, 3 entry, 4 return), call, a, b, c.
#[derive(Clone, Copy)]
pub struct Event {
    pub kind: i32,
    pub number: i32,
    pub a: i32,
    pub b: i32,
    pub c: i32,
}

// A call from a context that is one. It is known that the state is sound and that `me` runs.
fn serve_call(
    words: &mut [u32; STATE_WORDS],
    messages: &mut [u32; 256],
    me: u32,
    event: Event,
) -> Answer
    ensures { ServesCall event.kind event.number event.a event.b event.c me (memory words.old messages.old)
        (reply_of result) (memory words.new messages.new) }
{
    let Event {
        kind,
        number,
        a,
        b,
        c,
    } = event;
    let handler = named(kind) == HANDLER;
    let n = named(number);
    let inside = is_open(words);
    let who = Caller {
        handler: handles(handler, inside),
        me: caller(handler, inside, me),
    };
    let o = dispatch(words, messages, who, n, a, b, c);
    let runs = running_task(words);
    answer_of(o, runs)
}

// An act of an event that names no words, where it is known that the state is sound and who runs, or what is broken.
fn serve_act<F: FnOnce(&mut [u32; STATE_WORDS], u32) -> Outcome>(
    words: &mut [u32; STATE_WORDS],
    known: Result<u32, Breach>,
    act: F,
) -> Answer
    requires { F.IsAlwaysCallable act }
    ensures { Acts (F.post act) known words.old (reply_of result) words.new }
{
    match known {
        Ok(me) => {
            let o = act(words, me);
            let runs = running_task(words);
            answer_of(o, runs)
        }
        Err(broken) => damaged(broken),
    }
}

// A tick, where the same is known.
pub fn serve_tick(
    words: &mut [u32; STATE_WORDS],
    messages: &[u32; 256],
    known: Result<u32, Breach>,
) -> Answer
    ensures { Serves Events.tick known (memory words.old messages.now)
        (reply_of result) (memory words.new messages.now) }
{
    serve_act(words, known, |words, _| call_tick::tick(words))
}

// The entry of a handler.
pub fn serve_enter(
    words: &mut [u32; STATE_WORDS],
    messages: &[u32; 256],
    known: Result<u32, Breach>,
) -> Answer
    ensures { Serves Events.enter known (memory words.old messages.now)
        (reply_of result) (memory words.new messages.now) }
{
    serve_act(words, known, call_handlers::enter)
}

// The return of one.
pub fn serve_leave(
    words: &mut [u32; STATE_WORDS],
    messages: &[u32; 256],
    known: Result<u32, Breach>,
) -> Answer
    ensures { Serves Events.exit known (memory words.old messages.now)
        (reply_of result) (memory words.new messages.now) }
{
    serve_act(words, known, |words, _| call_handlers::leave(words))
}

// By its kind. Calls are tried for before the rest.
fn serve_event(
    words: &mut [u32; STATE_WORDS],
    messages: &mut [u32; 256],
    known: Result<u32, Breach>,
    event: Event,
) -> Answer
    ensures { Serves (event_of event.kind event.number event.a event.b event.c) known (memory words.old messages.old)
        (reply_of result) (memory words.new messages.new) }
{
    if !is_above(event.kind, HANDLER) {
        return match known {
            Ok(me) => serve_call(words, messages, me, event),
            Err(broken) => damaged(broken),
        };
    }
    match event.kind {
        TICK => serve_tick(words, messages, known),
        ENTRY => serve_enter(words, messages, known),
        RETURN => serve_leave(words, messages, known),
        _ => misnamed(known),
    }
}

// ---- many, one after the other

// The words of the answer to event i: w1, w2, the running task, the number released.
fn write_words(answers: &mut [u32], i: usize, r: Answer)
    requires { 4 * i + 4 ≤ length answers.old }
    ensures { answers.new ≡ answered i r.w1 r.w2 r.running r.released answers.old }
{
    let at = 4 * i;
    answers[at] = r.w1;
    answers[at + 1] = r.w2;
    answers[at + 2] = r.running;
    answers[at + 3] = r.released;
}

// The code of the answer to event i.
fn write_code(codes: &mut [i32], i: usize, code: i32)
    requires { suc i ≤ length codes.old }
    ensures { codes.new ≡ set codes.old i code }
{
    codes[i] = code;
}

// Event i is served and its answer written. It is known that the state is sound and who runs, or what is broken. Gives who runs after it.
fn serve_one(
    words: &mut [u32; STATE_WORDS],
    messages: &mut [u32; 256],
    known: Result<u32, Breach>,
    events: &[i32],
    i: usize,
    codes: &mut [i32],
    answers: &mut [u32],
) -> u32
    requires { (5 * i + 5 ≤ length events.now) × (suc i ≤ length codes.old) × (4 * i + 4 ≤ length answers.old) }
    ensures { ServesAt events.now i known
        (lent (memory words.old messages.old) codes.old answers.old)
        (lent (memory words.new messages.new) codes.new answers.new) result }
{
    let at = 5 * i;
    let event = Event {
        kind: events[at],
        number: events[at + 1],
        a: events[at + 2],
        b: events[at + 3],
        c: events[at + 4],
    };
    let r = serve_event(words, messages, known, event);
    write_code(codes, i, r.code);
    write_words(answers, i, r);
    r.running
}

// How many events there are, from the numbers of event words, and of codes and answer words that there is place for; 0
// where there is no place for all.
fn count(events: usize, codes: usize, answers: usize) -> usize
    ensures { (result ≤ events / 5) × (result ≤ codes) × (4 * result ≤ answers) ×
        (events / 5 ≤ codes → 4 * (events / 5) ≤ answers → result ≡ events / 5) }
{
    let n = events / 5;
    if codes < n || answers / 4 < n { 0 } else { n }
}

// The events, five words each, one after the other, where there is place for their answers. Whoever serves an event
// serves it here: so all that a call does stands in this one loop.
pub fn serve_all(
    words: &mut [u32; STATE_WORDS],
    messages: &mut [u32; 256],
    known: Result<u32, Breach>,
    events: &[i32],
    codes: &mut [i32],
    answers: &mut [u32],
)
    ensures { ServesAll events.now known
        (lent (memory words.old messages.old) codes.old answers.old)
        (lent (memory words.new messages.new) codes.new answers.new) }
{
    let n = count(events.len(), codes.len(), answers.len());
    let mut now = known;
    for i in 0..n {
        let runs = serve_one(words, messages, now, events, i, codes, answers);
        now = now.and(Ok(runs));
    }
}

// One event, as a batch of one.
pub fn serve(
    words: &mut [u32; STATE_WORDS],
    messages: &mut [u32; 256],
    known: Result<u32, Breach>,
    event: Event,
) -> Answer
    ensures { Serves (event_of event.kind event.number event.a event.b event.c) known (memory words.old messages.old)
        (reply_of result) (memory words.new messages.new) }
{
    let event = [event.kind, event.number, event.a, event.b, event.c];
    let mut code = [0i32; 1];
    let mut answer = [0u32; 4];
    serve_all(words, messages, known, &event, &mut code, &mut answer);
    Answer {
        code: code[0],
        w1: answer[0],
        w2: answer[1],
        running: answer[2],
        released: answer[3],
    }
}
