// The first part of the check of a memory: numbers lie in their ranges. Each task, object and message that the counts
// name is looked at once, the interrupted task once more; each alarm, where there is a counter.
#![tactic(auto)]

ghost use Rattle.std.specs.Prelude.{◌≡◌, ◌&&◌, ◌||◌, ◌≤◌};
ghost use Rattle.memory_columns.specs.Layout.{max_messages, max_alarms};
ghost use Rattle.check_ranges.specs.Ranges as Ranges;
ghost use Rattle.check_ranges.specs.Ranges.{every};

use memory_columns::{
    ABSENT, ASLEEP, CELL_OK, CELL_RLWAI, CELL_TMOUT, CLOCK_HIGH, CLOCK_LOW, COUNTER_NOW,
    COUNTER_SIZE, Column, DEPTH, DORMANT, FLAG, FLAGS, INTERRUPTED, KEPT_DMT, KEPT_NODMT,
    KEPT_NOEXS, KEPT_OK, KEPT_QOVR, MAILBOX, MAILBOXES, MAX_ALARMS, MAX_BLOCKS, MAX_DEPTH,
    MAX_MESSAGES, MAX_OBJECTS, MAX_POOLS, MAX_PRIORITIES, MAX_TASKS, MESSAGE_WORDS, MESSAGES, POOL,
    POOLS, PRIORITIES, READY, SEMAPHORE, SEMAPHORES, STATE_WORDS, SUSPEND, TASKS, TIMED, WAIT,
    WAIT_SUSPEND, WAKES,
};

// One of 1 to n.
pub fn within(i: u32, n: u32) -> bool
    ensures { result ≡ Ranges.within i n }
{
    1 <= i && i <= n
}

// The numbers of things, and the clock.
#[tactic(auto, unfolding(crate::specs::Ranges::sizes_ok))]
fn sizes_ok(words: &[u32; STATE_WORDS]) -> bool
    ensures { result ≡ Ranges.sizes_ok words.now }
{
    within(Column::System.get(words, PRIORITIES), MAX_PRIORITIES)
        && within(Column::System.get(words, TASKS), MAX_TASKS)
        && Column::System.get(words, SEMAPHORES) <= MAX_OBJECTS
        && Column::System.get(words, FLAGS) <= MAX_OBJECTS
        && Column::System.get(words, MAILBOXES) <= MAX_OBJECTS
        && Column::System.get(words, MESSAGES) <= MAX_MESSAGES
        && Column::System.get(words, POOLS) <= MAX_POOLS
        // Always so of a 32-bit word; said because a definition's number could be larger.
        && Column::System.get(words, CLOCK_LOW) <= 4294967295
        && Column::System.get(words, CLOCK_HIGH) < 65536
}

#[tactic(auto, unfolding(crate::specs::Ranges::cell_ok))]
fn cell_ok(code: u32, word: u32) -> bool
    ensures { result ≡ Ranges.cell_ok code word }
{
    match code {
        CELL_OK => true,
        CELL_TMOUT | CELL_RLWAI => word == 0,
        _ => false,
    }
}

#[tactic(auto, unfolding(crate::specs::Ranges::wish_ok))]
fn wish_ok(wish: u32, mode: u32) -> bool
    ensures { result ≡ Ranges.wish_ok wish mode }
{
    wish != 0 && mode <= 3
}

#[tactic(auto, unfolding(crate::specs::Ranges::ticks_ok))]
fn ticks_ok(wakeups: u32, ticks: u32) -> bool
    ensures { result ≡ Ranges.ticks_ok wakeups ticks }
{
    wakeups == 0 && within(ticks, 2147483647)
}

#[tactic(auto, unfolding(crate::specs::Ranges::flag_wait_ok))]
fn flag_wait_ok(object: u32, flags: u32, wish: u32, mode: u32) -> bool
    ensures { result ≡ Ranges.flag_wait_ok object flags wish mode }
{
    within(object, flags) && wish_ok(wish, mode)
}

// The wait of task t.
#[tactic(auto, unfolding(crate::specs::Ranges::wait_ok))]
fn wait_ok(words: &[u32; STATE_WORDS], t: u32) -> bool
    ensures { result ≡ Ranges.wait_at words.now t }
{
    match Column::Kind.get(words, t) {
        ASLEEP => Column::Wakeups.get(words, t) == 0,
        TIMED => ticks_ok(Column::Wakeups.get(words, t), Column::Ticks.get(words, t)),
        SEMAPHORE => within(
            Column::Object.get(words, t),
            Column::System.get(words, SEMAPHORES),
        ),
        FLAG => flag_wait_ok(
            Column::Object.get(words, t),
            Column::System.get(words, FLAGS),
            Column::Wish.get(words, t),
            Column::Mode.get(words, t),
        ),
        MAILBOX => within(
            Column::Object.get(words, t),
            Column::System.get(words, MAILBOXES),
        ),
        POOL => within(
            Column::Object.get(words, t),
            Column::System.get(words, POOLS),
        ),
        _ => false,
    }
}

fn rest_ok(words: &[u32; STATE_WORDS], t: u32) -> bool
    ensures { result ≡ Ranges.rest_ok words.now t }
{
    Column::Wakeups.get(words, t) == 0
        && Column::Priority.get(words, t) == Column::Start.get(words, t)
}

#[tactic(auto, unfolding(crate::specs::Ranges::state_ok))]
fn state_ok(words: &[u32; STATE_WORDS], t: u32) -> bool
    ensures { result ≡ Ranges.state_ok words.now t }
{
    match Column::Status.get(words, t) {
        DORMANT => rest_ok(words, t),
        READY | SUSPEND => true,
        WAIT | WAIT_SUSPEND => wait_ok(words, t),
        _ => false,
    }
}

// A task that is there.
#[tactic(auto, unfolding(crate::specs::Ranges::present_ok))]
fn present_ok(words: &[u32; STATE_WORDS], t: u32) -> bool
    ensures { result ≡ Ranges.present_ok words.now t }
{
    let most = Column::System.get(words, PRIORITIES);
    within(Column::Priority.get(words, t), most)
        && within(Column::Start.get(words, t), most)
        && Column::Wakeups.get(words, t) <= 15
        && cell_ok(Column::Code.get(words, t), Column::Word.get(words, t))
        && state_ok(words, t)
}

// One that is not: no priority, no wake-ups, cell 0 and 0.
#[tactic(auto, unfolding(crate::specs::Ranges::vacant_ok))]
fn vacant_ok(words: &[u32; STATE_WORDS], t: u32) -> bool
    ensures { result ≡ Ranges.vacant_ok words.now t }
{
    Column::Priority.get(words, t) == 0
        && Column::Start.get(words, t) == 0
        && Column::Wakeups.get(words, t) == 0
        && Column::Code.get(words, t) == CELL_OK
        && Column::Word.get(words, t) == 0
}

#[tactic(auto, unfolding(crate::specs::Ranges::task_ok))]
fn task_ok(words: &[u32; STATE_WORDS], t: u32) -> bool
    ensures { result ≡ Ranges.task_ok words.now t }
{
    if Column::Status.get(words, t) == ABSENT {
        vacant_ok(words, t)
    } else {
        present_ok(words, t)
    }
}

#[tactic(auto, unfolding(crate::specs::Ranges::pool_ok))]
fn pool_ok(words: &[u32; STATE_WORDS], p: u32) -> bool
    ensures { result ≡ Ranges.pool_ok words.now p }
{
    let k = Column::Size.get(words, p);
    // In 64 bits, since a pool can have all 32 blocks.
    within(k, MAX_BLOCKS) && u64::from(Column::Free.get(words, p)) >> k == 0
}

fn tasks_ok(words: &[u32; STATE_WORDS], n: u32) -> bool
    requires { n ≤ max_messages }
    ensures { result ≡ every n 1 (Ranges.task_ok words.now) }
{
    (1..n + 1).all(|i| task_ok(words, i))
}

// Object i of a kind: a count, a pattern, which is a word of 32 bits, or a pool.
#[tactic(auto, unfolding(crate::specs::Ranges::object_ok))]
fn object_ok(words: &[u32; STATE_WORDS], kind: u32, i: u32) -> bool
    ensures { result ≡ Ranges.object_ok words.now kind i }
{
    match kind {
        SEMAPHORES => Column::Semaphore.get(words, i) <= 65535,
        FLAGS => Column::Flag.get(words, i) <= 4294967295,
        _ => pool_ok(words, i),
    }
}

// All n of a kind.
fn objects_ok(words: &[u32; STATE_WORDS], kind: u32, n: u32) -> bool
    requires { n ≤ max_messages }
    ensures { result ≡ every n 1 (Ranges.object_ok words.now kind) }
{
    (1..n + 1).all(|i| object_ok(words, kind, i))
}

// All are tried, whatever the first ones said: so the compiler can take several at once.
fn messages_ok(words: &[u32; STATE_WORDS], messages: &[u32; MESSAGE_WORDS], n: u32) -> bool
    requires { n ≤ max_messages }
    ensures { result ≡ every n 1 (Ranges.message_ok words.now messages.now) }
{
    let mailboxes = Column::System.get(words, MAILBOXES);
    messages[..n as usize]
        .iter()
        .fold(true, |fine, mark| fine & (*mark <= mailboxes))
}

// Task t can be the interrupted one, 0 where nobody ran: it does not wait while the handler is open, but can be suspended.
#[tactic(auto, unfolding(crate::specs::Ranges::interrupted_ok))]
fn interrupted_ok(words: &[u32; STATE_WORDS], t: u32) -> bool
    ensures { result ≡ Ranges.interrupted_ok words.now t }
{
    t == 0
        || (within(t, Column::System.get(words, TASKS))
            && matches!(Column::Status.get(words, t), READY | SUSPEND))
}

// The open handlers. While none is open, the interrupted task says nothing.
#[tactic(auto, unfolding(crate::specs::Ranges::open_ok))]
fn handling_ok(words: &[u32; STATE_WORDS]) -> bool
    ensures { result ≡ Ranges.handling_ok words.now }
{
    let depth = Column::Handling.get(words, DEPTH);
    depth == 0
        || (depth <= MAX_DEPTH && interrupted_ok(words, Column::Handling.get(words, INTERRUPTED)))
}

// The kept code, without its sign, of an alarm that wakes its task, or starts it.
#[tactic(auto, using(crate::proofs::Steps::kept_codes))]
fn kept_ok(wakes: bool, kept: u32) -> bool
    ensures { result ≡ Ranges.kept_ok wakes kept }
{
    let of_both = (kept == KEPT_OK) | (kept == KEPT_NOEXS);
    let of_start = !wakes & (kept == KEPT_NODMT);
    let of_wake = wakes & ((kept == KEPT_DMT) | (kept == KEPT_QOVR));
    of_both | of_start | of_wake
}

// One more than the expiry, and the period; of an idle alarm the period says nothing.
#[tactic(auto, unfolding(crate::specs::Ranges::setting_ok))]
fn setting_ok(size: u32, due: u32, period: u32) -> bool
    ensures { result ≡ Ranges.setting_ok size due period }
{
    (due == 0) | ((due <= size) & (period <= size))
}

// Alarm k of a counter of that size.
#[tactic(auto, unfolding(crate::specs::Ranges::alarm_ok))]
fn alarm_ok(words: &[u32; STATE_WORDS], size: u32, k: u32) -> bool
    ensures { result ≡ Ranges.alarm_ok words.now size k }
{
    let wakes = Column::AlarmWakes.get(words, k);
    let known = (wakes <= WAKES)
        & within(
            Column::AlarmTask.get(words, k),
            Column::System.get(words, TASKS),
        );
    let kept = kept_ok(wakes == WAKES, Column::AlarmCode.get(words, k));
    let set = setting_ok(
        size,
        Column::AlarmDue.get(words, k),
        Column::AlarmPeriod.get(words, k),
    );
    known & kept & set
}

// All are tried, as the messages are. Which code is kept and which alarm is idle changes from event to event: no branch
// is taken on it.
fn alarms_ok(words: &[u32; STATE_WORDS], size: u32) -> bool
    ensures { result ≡ every max_alarms 1 (Ranges.alarm_ok words.now size) }
{
    (1..MAX_ALARMS + 1).fold(true, |fine, k| fine & alarm_ok(words, size, k))
}

// The counter and its alarms. Where there is none, nothing of them is looked at.
#[tactic(auto, unfolding(crate::specs::Ranges::count_ok))]
fn counter_ok(words: &[u32; STATE_WORDS]) -> bool
    ensures { result ≡ Ranges.counter_ok words.now }
{
    let size = Column::Counter.get(words, COUNTER_SIZE);
    size == 0
        || (size <= 65535
            && Column::Counter.get(words, COUNTER_NOW) < size
            && alarms_ok(words, size))
}

// All ranges. The counts have been judged before a loop is run over them.
#[tactic(auto, using(crate::proofs::Steps::counts), unfolding(crate::specs::Ranges::ranges_ok))]
pub fn ranges_ok(words: &[u32; STATE_WORDS], messages: &[u32; MESSAGE_WORDS]) -> bool
    ensures { result ≡ Ranges.ranges_ok words.now messages.now }
{
    if !sizes_ok(words) {
        return false;
    }
    tasks_ok(words, Column::System.get(words, TASKS))
        && objects_ok(words, SEMAPHORES, Column::System.get(words, SEMAPHORES))
        && objects_ok(words, FLAGS, Column::System.get(words, FLAGS))
        && objects_ok(words, POOLS, Column::System.get(words, POOLS))
        && messages_ok(words, messages, Column::System.get(words, MESSAGES))
        && handling_ok(words)
        && counter_ok(words)
}
