// The columns of the memory: total reads and writes by id. An id that a column does not have reads 0 and writes nothing.
#![tactic(auto)]

pub mod bits;

ghost use Rattle.std.specs.Prelude.{◌≡◌, ◌+◌, ◌≤◌, get_or};
ghost use Rattle.memory_rings.specs.Columns.{col, store};
ghost use Rattle.memory_columns.specs.Layout as Layout;
ghost use Rattle.memory_columns.specs.Layout.{state_words, column_of, entry, put, at_most};

// The rings in which tasks, messages and free blocks stand.
#[derive(Clone, Copy)]
pub enum Rings {
    Tasks,
    Messages,
    Blocks,
}

// Entries of a column of tasks, of objects, of pools, of alarms, of the system, of the handlers, of the word of nonempty queues and of the
// counter, and nodes of the rings of tasks, of messages and of blocks. Entry 0 is unused.
const TASK_ENTRIES: usize = 33;

const OBJECT_ENTRIES: usize = 17;

const POOL_ENTRIES: usize = 9;

const SYSTEM_ENTRIES: usize = 9;

const HANDLING_ENTRIES: usize = 2;

const NONEMPTY_ENTRIES: usize = 1;

const COUNTER_ENTRIES: usize = 2;

const ALARM_ENTRIES: usize = 9;

const TASK_NODES: usize = 105;

const MAIL_NODES: usize = 273;

const BLOCK_NODES: usize = 265;

// Where each column begins: behind the one before it. Of the rings also where they end; both directions stand there.
const AT_STATUS: usize = 0;

const AT_PRIORITY: usize = AT_STATUS + TASK_ENTRIES;

const AT_START: usize = AT_PRIORITY + TASK_ENTRIES;

const AT_WAKEUPS: usize = AT_START + TASK_ENTRIES;

const AT_CODE: usize = AT_WAKEUPS + TASK_ENTRIES;

const AT_WORD: usize = AT_CODE + TASK_ENTRIES;

const AT_KIND: usize = AT_WORD + TASK_ENTRIES;

const AT_OBJECT: usize = AT_KIND + TASK_ENTRIES;

const AT_WISH: usize = AT_OBJECT + TASK_ENTRIES;

const AT_MODE: usize = AT_WISH + TASK_ENTRIES;

const AT_TICKS: usize = AT_MODE + TASK_ENTRIES;

pub const LINKS: usize = AT_TICKS + TASK_ENTRIES;

pub const LINKS_END: usize = LINKS + 2 * TASK_NODES;

const AT_SEMAPHORE: usize = LINKS_END;

const AT_FLAG: usize = AT_SEMAPHORE + OBJECT_ENTRIES;

const AT_FREE: usize = AT_FLAG + OBJECT_ENTRIES;

const AT_SIZE: usize = AT_FREE + POOL_ENTRIES;

pub const MAIL_LINKS: usize = AT_SIZE + POOL_ENTRIES;

pub const MAIL_LINKS_END: usize = MAIL_LINKS + 2 * MAIL_NODES;

const AT_SYSTEM: usize = MAIL_LINKS_END;

const AT_HANDLING: usize = AT_SYSTEM + SYSTEM_ENTRIES;

const AT_NONEMPTY: usize = AT_HANDLING + HANDLING_ENTRIES;

pub const BLOCK_LINKS: usize = AT_NONEMPTY + NONEMPTY_ENTRIES;

pub const BLOCK_LINKS_END: usize = BLOCK_LINKS + 2 * BLOCK_NODES;

const AT_COUNTER: usize = BLOCK_LINKS_END;

const AT_ALARM_TASK: usize = AT_COUNTER + COUNTER_ENTRIES;

const AT_ALARM_WAKES: usize = AT_ALARM_TASK + ALARM_ENTRIES;

const AT_ALARM_CODE: usize = AT_ALARM_WAKES + ALARM_ENTRIES;

const AT_ALARM_DUE: usize = AT_ALARM_CODE + ALARM_ENTRIES;

const AT_ALARM_PERIOD: usize = AT_ALARM_DUE + ALARM_ENTRIES;

// How many words the kernel's state has, and how many marks of messages beside it.
pub const STATE_WORDS: usize = AT_ALARM_PERIOD + ALARM_ENTRIES;

pub const MESSAGE_WORDS: usize = 256;

// The greatest number of each. MAX_OBJECTS: of semaphores, flags and mailboxes each.
pub const MAX_PRIORITIES: u32 = 16;

pub const MAX_TASKS: u32 = 32;

pub const MAX_OBJECTS: u32 = 16;

pub const MAX_MESSAGES: u32 = 256;

pub const MAX_POOLS: u32 = 8;

pub const MAX_BLOCKS: u32 = 32;

pub const MAX_DEPTH: u32 = 15;

pub const MAX_ALARMS: u32 = 8;

// The states of a task, as tsk_sts tells them; RUN is not kept.
pub const DORMANT: u32 = 0;

pub const READY: u32 = 1;

pub const RUN: u32 = 2;

pub const WAIT: u32 = 3;

pub const SUSPEND: u32 = 4;

pub const WAIT_SUSPEND: u32 = 5;

pub const ABSENT: u32 = 6;

// What a task waits for: a wake-up, a wake-up for so many ticks, or an object of a kind.
pub const ASLEEP: u32 = 0;

pub const TIMED: u32 = 1;

pub const SEMAPHORE: u32 = 2;

pub const FLAG: u32 = 3;

pub const MAILBOX: u32 = 4;

pub const POOL: u32 = 5;

// Anchors: that of priority p is READY_ANCHORS + p, of object o of kind k WAIT_ANCHORS + (MAX_OBJECTS * k + o), of
// mailbox m MAIL_ANCHORS + m, of the free blocks of pool p FREE_ANCHORS + p.
pub const READY_ANCHORS: u32 = 32;

pub const WAIT_ANCHORS: u32 = 16;

pub const MAIL_ANCHORS: u32 = 256;

pub const FREE_ANCHORS: u32 = MAX_BLOCKS * MAX_POOLS;

// The first of each, and the last of the ready queues: of the ready queues, of the waiters on each kind of object, of
// the messages in mailboxes, of the free blocks of pools.
pub const FIRST_READY: u32 = READY_ANCHORS + 1;

pub const LAST_READY: u32 = READY_ANCHORS + MAX_PRIORITIES;

pub const FIRST_SEMAPHORE: u32 = WAIT_ANCHORS + (MAX_OBJECTS * SEMAPHORE + 1);

pub const FIRST_FLAG: u32 = WAIT_ANCHORS + (MAX_OBJECTS * FLAG + 1);

pub const FIRST_MAILBOX: u32 = WAIT_ANCHORS + (MAX_OBJECTS * MAILBOX + 1);

pub const FIRST_POOL: u32 = WAIT_ANCHORS + (MAX_OBJECTS * POOL + 1);

pub const FIRST_MAIL: u32 = MAIL_ANCHORS + 1;

pub const FIRST_FREE: u32 = FREE_ANCHORS + 1;

// The entries of the system's column: how many there are, the objects by their kind, and the clock's halves.
pub const PRIORITIES: u32 = 0;

pub const TASKS: u32 = 1;

pub const SEMAPHORES: u32 = 2;

pub const FLAGS: u32 = 3;

pub const MAILBOXES: u32 = 4;

pub const POOLS: u32 = 5;

pub const MESSAGES: u32 = 6;

pub const CLOCK_LOW: u32 = 7;

pub const CLOCK_HIGH: u32 = 8;

// The entries of the handlers' column: how many are open, and the task that the outermost one interrupted.
pub const DEPTH: u32 = 0;

pub const INTERRUPTED: u32 = 1;

// The entries of the counter's column: its size, 0 if there is no counter, and the present count.
pub const COUNTER_SIZE: u32 = 0;

pub const COUNTER_NOW: u32 = 1;

// What an alarm does to its task.
pub const STARTS: u32 = 0;

pub const WAKES: u32 = 1;

// The codes that an alarm keeps, without their sign: 0, H_NODMT, E_NOEXS, E_DMT, E_QOVR.
pub const KEPT_OK: u32 = 0;

pub const KEPT_NODMT: u32 = 3;

pub const KEPT_NOEXS: u32 = 2100;

pub const KEPT_DMT: u32 = 2101;

pub const KEPT_QOVR: u32 = 2889;

// The codes that a cell keeps, by their numbers: 0, E_TMOUT, E_RLWAI.
pub const CELL_OK: u32 = 0;

pub const CELL_TMOUT: u32 = 1;

pub const CELL_RLWAI: u32 = 2;

// The columns, each with what its entry i is.
#[derive(Clone, Copy)]
pub enum Column {
    // The state of task i.
    Status,
    // Its priority.
    Priority,
    // Its starting priority.
    Start,
    // Its wake-up count.
    Wakeups,
    // The code of its cell, by its number.
    Code,
    // The word of its cell.
    Word,
    // What it waits for.
    Kind,
    // The object that it waits on.
    Object,
    // The pattern that it asks of a flag.
    Wish,
    // The mode in which it asks.
    Mode,
    // The ticks that are left of a timed wait.
    Ticks,
    // The count of semaphore i.
    Semaphore,
    // The pattern of flag i.
    Flag,
    // The marks of the free blocks of pool i: bit k - 1 is block k.
    Free,
    // The number of blocks of pool i.
    Size,
    // How many there are, and the clock.
    System,
    // The handlers that are open.
    Handling,
    // The word of nonempty ready queues: bit p - 1 is that of priority p.
    Nonempty,
    // The counter.
    Counter,
    // The task of alarm i.
    AlarmTask,
    // What it does to its task.
    AlarmWakes,
    // Its kept code, without the sign.
    AlarmCode,
    // One more than its expiry, 0 if it is idle.
    AlarmDue,
    // Its period.
    AlarmPeriod,
}

// Where a column begins among the words, and how many entries it has.
#[derive(Clone, Copy)]
struct Place {
    at: usize,
    width: usize,
}

impl Place {
    // Entry i of the words there, 0 where there is none.
    fn read(self, words: &[u32; STATE_WORDS], i: u32) -> u32
        requires { self.at + self.width ≤ state_words }
        ensures { result ≡ get_or (col self.at self.width words.now) i 0 }
    {
        let k = i as usize;
        if k < self.width {
            words[self.at + k]
        } else {
            0
        }
    }

    // Entry i becomes v; where there is none nothing is written.
    fn write(self, words: &mut [u32; STATE_WORDS], i: u32, v: u32)
        requires { self.at + self.width ≤ state_words }
        ensures { words.new ≡ store self.at self.width i v words.old }
    {
        let k = i as usize;
        if k < self.width {
            words[self.at + k] = v;
        }
    }
}

impl Column {
    fn place(self) -> Place
        ensures lies { (result.at ≡ (column_of self).at) × (result.width ≡ (column_of self).width) }
        ensures inside { result.at + result.width ≤ state_words }
    {
        let (at, width) = match self {
            Column::Status => (AT_STATUS, TASK_ENTRIES),
            Column::Priority => (AT_PRIORITY, TASK_ENTRIES),
            Column::Start => (AT_START, TASK_ENTRIES),
            Column::Wakeups => (AT_WAKEUPS, TASK_ENTRIES),
            Column::Code => (AT_CODE, TASK_ENTRIES),
            Column::Word => (AT_WORD, TASK_ENTRIES),
            Column::Kind => (AT_KIND, TASK_ENTRIES),
            Column::Object => (AT_OBJECT, TASK_ENTRIES),
            Column::Wish => (AT_WISH, TASK_ENTRIES),
            Column::Mode => (AT_MODE, TASK_ENTRIES),
            Column::Ticks => (AT_TICKS, TASK_ENTRIES),
            Column::Semaphore => (AT_SEMAPHORE, OBJECT_ENTRIES),
            Column::Flag => (AT_FLAG, OBJECT_ENTRIES),
            Column::Free => (AT_FREE, POOL_ENTRIES),
            Column::Size => (AT_SIZE, POOL_ENTRIES),
            Column::System => (AT_SYSTEM, SYSTEM_ENTRIES),
            Column::Handling => (AT_HANDLING, HANDLING_ENTRIES),
            Column::Nonempty => (AT_NONEMPTY, NONEMPTY_ENTRIES),
            Column::Counter => (AT_COUNTER, COUNTER_ENTRIES),
            Column::AlarmTask => (AT_ALARM_TASK, ALARM_ENTRIES),
            Column::AlarmWakes => (AT_ALARM_WAKES, ALARM_ENTRIES),
            Column::AlarmCode => (AT_ALARM_CODE, ALARM_ENTRIES),
            Column::AlarmDue => (AT_ALARM_DUE, ALARM_ENTRIES),
            Column::AlarmPeriod => (AT_ALARM_PERIOD, ALARM_ENTRIES),
        };
        Place { at, width }
    }

    // Entry i, 0 where there is none.
    pub fn get(self, words: &[u32; STATE_WORDS], i: u32) -> u32
        ensures { result ≡ entry (column_of self) words.now i }
    {
        self.place().read(words, i)
    }

    // Entry i becomes v; where there is none nothing is written.
    pub fn set(self, words: &mut [u32; STATE_WORDS], i: u32, v: u32)
        ensures { words.new ≡ put (column_of self) i v words.old }
    {
        self.place().write(words, i, v);
    }
}

// A count that a damaged memory cannot make long.
pub fn at_most(n: u32, most: u32) -> u32
    ensures { (result ≡ at_most n most) × (result ≤ most) }
{
    if n <= most { n } else { 0 }
}
