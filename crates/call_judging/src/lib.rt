// What of a call is judged before its own rule: the words, then E_CTX, E_NOEXS of a task that is not there, E_SELF and
// E_DMT. The contracts speak of an accepted memory (`Judges`).
#![tactic(auto)]

ghost use Rattle.std.specs.Prelude.{◌≡◌, [], ◌∷◌, eqb, pos};
ghost use Rattle.rules.specs.Codes.{number};
ghost use Rattle.rules.specs.Events.{outside, above};
ghost use Rattle.rules.specs.Rows.{T, both, unnamed, task_id, priority, queue, time, object_id, asked, mode, message, alarm_number, ticks};
ghost use Rattle.rules.specs.State as Kind;
ghost use Rattle.rules.specs.State.{alarm_count};
ghost use Rattle.rules.specs.Table as Table;
ghost use Rattle.memory_columns.specs.Layout as Layout;
ghost use Rattle.memory_columns.specs.Layout.{entry};
ghost use Rattle.call_judging.specs.declared.Target.{Target};
ghost use Rattle.call_judging.specs.Judging.{code_of, context_of, numbered, target_of, absent_if, dormant_if, told, common_code, Judges, JudgesObject};

use call_words::codes::{E_CTX, E_DMT, E_ILTIME, E_NOEXS, E_SELF, E_TPRI, H_PAR};
use call_words::named;
use memory_columns::{
    ABSENT, COUNTER_SIZE, Column, DORMANT, FLAGS, MAILBOXES, MAX_ALARMS, MESSAGES, PRIORITIES,
    STATE_WORDS, TASKS,
};

// Why a call is refused before its own rule, each with its code.
#[derive(Clone, Copy, PartialEq, Eq)]
pub enum Reason {
    // E_CTX
    Misplaced,
    // E_NOEXS
    Absent,
    // E_SELF
    Oneself,
    // E_DMT
    Dormant,
    // E_TPRI
    BadPriority,
    // E_ILTIME
    BadTime,
    // H_PAR
    BadParameter,
}

impl Reason {
    pub fn code(self) -> i32
        ensures { result ≡ number (code_of self) }
    {
        match self {
            Reason::Misplaced => E_CTX,
            Reason::Absent => E_NOEXS,
            Reason::Oneself => E_SELF,
            Reason::Dormant => E_DMT,
            Reason::BadPriority => E_TPRI,
            Reason::BadTime => E_ILTIME,
            Reason::BadParameter => H_PAR,
        }
    }
}

// Where a call may come from: from a task alone, or from both contexts.
#[derive(Clone, Copy, PartialEq, Eq)]
pub enum Context {
    TaskOnly,
    Both,
}

// Which task the call names: none (or one that is not to be there), one that is there, one that is not dormant either,
// one that is not oneself either.
#[derive(Clone, Copy, PartialEq, Eq)]
pub enum Target {
    Unnamed,
    Anyone,
    Alive,
    Another,
}

// By a number: 0 none, 1 one that is there, 2 one that is not dormant either, any other one that is not oneself either.
impl From<u32> for Target {
    ghost from_gives = { λ n t. t ≡ numbered n };

    fn from(n: u32) -> Target {
        match n {
            0 => Target::Unnamed,
            1 => Target::Anyone,
            2 => Target::Alive,
            _ => Target::Another,
        }
    }
}

// What a caller may give for a target: one itself, or any number.
pub trait IntoTarget {
    // the target that it stands for
    ghost target: { Self → Target };

    fn into_target(self) -> Target
        ensures { result ≡ target self };
}

impl IntoTarget for Target {
    ghost target = { λ t. t };

    fn into_target(self) -> Target {
        self
    }
}

impl IntoTarget for u32 {
    ghost target = { numbered };

    fn into_target(self) -> Target {
        Target::from(self)
    }
}

// Who calls: an open handler, or not; and the task that calls, 0 if none does.
#[derive(Clone, Copy)]
pub struct Caller {
    pub handler: bool,
    pub me: u32,
}

pub const MOST_MODE: u32 = 3;

// The time that waits for ever; no time is below it.
pub const FOR_EVER: i32 = -1;

// ---- one test

// Not one of 1 to n.
pub fn is_outside(i: u32, n: u32) -> bool
    ensures { result ≡ outside (pos i) n }
{
    i == 0 || n < i
}

// Not one of 0 to n.
pub fn is_above(a: i32, n: u32) -> bool
    ensures { result ≡ above a n }
{
    a < 0 || n < named(a)
}

// E_CTX: a task-only call while no task calls; any other while neither a task nor an open handler calls.
fn misplaced(context: Context, caller: Caller) -> bool
    ensures { result ≡ Table.misplaced (context_of context) caller.handler caller.me }
{
    match context {
        Context::TaskOnly => caller.me == 0,
        Context::Both => !caller.handler && caller.me == 0,
    }
}

// E_NOEXS: on a task that is not there.
fn names_absent(words: &[u32; STATE_WORDS], target: Target, i: u32) -> bool
    ensures { result ≡ absent_if (target_of target i) (eqb (entry Layout.status words.now i) 6) }
{
    match target {
        Target::Unnamed => false,
        Target::Anyone | Target::Alive | Target::Another => Column::Status.get(words, i) == ABSENT,
    }
}

// E_SELF: on oneself.
fn names_self(target: Target, me: u32, i: u32) -> bool
    ensures { result ≡ Table.names_self (target_of target i) me }
{
    match target {
        Target::Another => i == me,
        Target::Unnamed | Target::Anyone | Target::Alive => false,
    }
}

// E_DMT: on a dormant task.
fn names_dormant(words: &[u32; STATE_WORDS], target: Target, i: u32) -> bool
    ensures { result ≡ dormant_if (target_of target i) (eqb (entry Layout.status words.now i) 0) }
{
    match target {
        Target::Unnamed | Target::Anyone => false,
        Target::Alive | Target::Another => Column::Status.get(words, i) == DORMANT,
    }
}

// ---- after the words

fn common(
    words: &[u32; STATE_WORDS],
    context: Context,
    target: Target,
    caller: Caller,
    i: u32,
) -> Result<(), Reason>
    ensures { told result ≡ common_code (context_of context) (target_of target i) caller.handler caller.me
        (entry Layout.status words.now i) }
{
    if misplaced(context, caller) {
        return Err(Reason::Misplaced);
    }
    if names_absent(words, target, i) {
        return Err(Reason::Absent);
    }
    if names_self(target, caller.me, i) {
        return Err(Reason::Oneself);
    }
    if names_dormant(words, target, i) {
        return Err(Reason::Dormant);
    }
    Ok(())
}

// ---- by what the words are

// No word is judged.
pub fn on_nothing(
    words: &[u32; STATE_WORDS],
    context: Context,
    caller: Caller,
) -> Result<(), Reason>
    ensures { Judges (λ v. []) (context_of context) unnamed caller.handler caller.me (told result) words.now }
{
    common(words, context, Target::Unnamed, caller, 0)
}

// Task i.
pub fn on_task<T: IntoTarget>(
    words: &[u32; STATE_WORDS],
    context: Context,
    target: T,
    caller: Caller,
    i: u32,
) -> Result<(), Reason>
    ensures { Judges (λ v. task_id v (pos i) ∷ []) (context_of context) (target_of (T.target target) i)
        caller.handler caller.me (told result) words.now }
{
    let target = target.into_target();
    if is_outside(i, Column::System.get(words, TASKS)) {
        return Err(Reason::Absent);
    }
    common(words, context, target, caller, i)
}

// Task i and priority p.
pub fn on_priority<T: IntoTarget>(
    words: &[u32; STATE_WORDS],
    context: Context,
    target: T,
    caller: Caller,
    i: u32,
    p: u32,
) -> Result<(), Reason>
    ensures { Judges (λ v. task_id v (pos i) ∷ priority v (pos p) ∷ []) (context_of context)
        (target_of (T.target target) i) caller.handler caller.me (told result) words.now }
{
    let target = target.into_target();
    if is_outside(i, Column::System.get(words, TASKS)) {
        return Err(Reason::Absent);
    }
    if is_outside(p, Column::System.get(words, PRIORITIES)) {
        return Err(Reason::BadPriority);
    }
    common(words, context, target, caller, i)
}

// A ready queue, or 0.
pub fn on_queue(words: &[u32; STATE_WORDS], caller: Caller, a: i32) -> Result<(), Reason>
    ensures { Judges (λ v. queue v a ∷ []) both unnamed caller.handler caller.me (told result) words.now }
{
    if is_above(a, Column::System.get(words, PRIORITIES)) {
        return Err(Reason::BadPriority);
    }
    common(words, Context::Both, Target::Unnamed, caller, 0)
}

// A time.
pub fn on_time(words: &[u32; STATE_WORDS], caller: Caller, a: i32) -> Result<(), Reason>
    ensures { Judges (λ v. time a ∷ []) T unnamed caller.handler caller.me (told result) words.now }
{
    if a < FOR_EVER {
        return Err(Reason::BadTime);
    }
    common(words, Context::TaskOnly, Target::Unnamed, caller, 0)
}

// Object i of a kind, given by the kind's number.
pub fn on_object(
    words: &[u32; STATE_WORDS],
    kind: u32,
    context: Context,
    caller: Caller,
    i: u32,
) -> Result<(), Reason>
    ensures { JudgesObject kind (context_of context) caller.handler caller.me i (told result) words.now }
{
    if is_outside(i, Column::System.get(words, kind)) {
        return Err(Reason::Absent);
    }
    common(words, context, Target::Unnamed, caller, 0)
}

// Flag i, the pattern p that is asked of it, and a mode.
pub fn on_flag(
    words: &[u32; STATE_WORDS],
    context: Context,
    caller: Caller,
    i: u32,
    p: u32,
    c: i32,
) -> Result<(), Reason>
    ensures { Judges (λ v. object_id v Kind.flag (pos i) ∷ asked (pos p) ∷ mode c ∷ []) (context_of context)
        unnamed caller.handler caller.me (told result) words.now }
{
    if is_outside(i, Column::System.get(words, FLAGS)) {
        return Err(Reason::Absent);
    }
    if p == 0 {
        return Err(Reason::BadParameter);
    }
    if is_above(c, MOST_MODE) {
        return Err(Reason::BadParameter);
    }
    common(words, context, Target::Unnamed, caller, 0)
}

// Mailbox i and message j.
pub fn on_message(words: &[u32; STATE_WORDS], caller: Caller, i: u32, j: u32) -> Result<(), Reason>
    ensures { Judges (λ v. object_id v Kind.mailbox (pos i) ∷ message v (pos j) ∷ []) both unnamed caller.handler caller.me
        (told result) words.now }
{
    if is_outside(i, Column::System.get(words, MAILBOXES)) {
        return Err(Reason::Absent);
    }
    if is_outside(j, Column::System.get(words, MESSAGES)) {
        return Err(Reason::BadParameter);
    }
    common(words, Context::Both, Target::Unnamed, caller, 0)
}

// How many alarms there are: none without a counter.
fn alarms(words: &[u32; STATE_WORDS]) -> u32
    ensures { result ≡ alarm_count (entry Layout.counter words.now Layout.counter_size) }
{
    if Column::Counter.get(words, COUNTER_SIZE) == 0 {
        0
    } else {
        MAX_ALARMS
    }
}

// Alarm k.
pub fn on_alarm(words: &[u32; STATE_WORDS], caller: Caller, k: u32) -> Result<(), Reason>
    ensures { Judges (λ v. alarm_number v (pos k) ∷ []) both unnamed caller.handler caller.me (told result) words.now }
{
    if is_outside(k, alarms(words)) {
        return Err(Reason::BadParameter);
    }
    common(words, Context::Both, Target::Unnamed, caller, 0)
}

// Alarm k, a count and a period.
pub fn on_setting(
    words: &[u32; STATE_WORDS],
    caller: Caller,
    k: u32,
    b: i32,
    c: i32,
) -> Result<(), Reason>
    ensures { Judges (λ v. alarm_number v (pos k) ∷ ticks v b ∷ ticks v c ∷ []) both unnamed caller.handler caller.me
        (told result) words.now }
{
    if is_outside(k, alarms(words)) {
        return Err(Reason::BadParameter);
    }
    let size = Column::Counter.get(words, COUNTER_SIZE);
    if is_above(b, size) {
        return Err(Reason::BadParameter);
    }
    if is_above(c, size) {
        return Err(Reason::BadParameter);
    }
    common(words, Context::Both, Target::Unnamed, caller, 0)
}
