//! The calls that a task begins, the one of them that is under way, and what an advance of it tells.

use bit_wait::BitEnd;
use bit_wait::lock_waits::{LockRun, LockTurn};
use bit_wait::waits::{BitRun, BitTurn};
use completion_cell::awaits::{AwaitRun, AwaitTurn};
use completion_cell::cell_turns::{CellCall, CellRun, CellStage};
use page_lock::waits::{PageRun, PageTurn};
use swait_queue::swake_turns::{SwakeRun, SwakeStage};
use wait_event::wait_events::WaitEnd;
use wait_event::waits::{WaitRun, WaitTurn};
use wait_model::queues::Walked;
use wait_model::tasks::{How, SleepState, Taken};
use wait_model::watches::Mode;
use wq_head::wakes::{WakeRun, WakeStage};

/// A call that begins, with its numbers. Conditions are below `FIRST_SIMPLE`, and those of simple queues from there on
/// and below `PLAIN_CONDITIONS`; bits are below `WORD_BITS` and their words below `BIT_WORDS`, as are pages, each of
/// which is bit 0 of its word; completions are below `COMPLETIONS`.
#[derive(Clone, Copy)]
pub enum Call {
    /// A wait until a condition is set (`wait_event`, `wait_event_interruptible`, `wait_event_killable` and the
    /// exclusive ones), which answers `Answer::Waited`.
    Wait {
        cond: u8,
        how: How,
    },
    /// One in the condition's simple queue (`swait_event_exclusive`, `swait_event_interruptible_exclusive`).
    SimpleWait {
        cond: u8,
        state: SleepState,
    },
    /// A wait until a variable, below `VARIABLES`, differs from `old` (`wait_var_event`), which answers
    /// `Answer::Changed`, with the value that its last load found.
    WaitVar {
        var: u8,
        old: u64,
        state: SleepState,
    },
    /// A wait until a bit is clear (`wait_on_bit`), which does not take it and answers `Answer::Bit`.
    WaitBit {
        word: u8,
        bit: u8,
        state: SleepState,
    },
    /// One to take a bit (`wait_on_bit_lock`): where it answers Ok the task keeps the bit.
    LockBit {
        word: u8,
        bit: u8,
        state: SleepState,
    },
    /// The same for a page (`lock_page`, `lock_page_killable`).
    LockPage {
        page: u8,
        state: SleepState,
    },
    /// A wait until a completion is done, of which it takes one (`wait_for_completion`,
    /// `wait_for_completion_interruptible`, `wait_for_completion_killable`), which answers `Answer::Waited`.
    WaitFor {
        cell: u8,
        state: SleepState,
    },
    /// A call about a completion that waits for its lock alone (`complete`, `complete_all`, `reinit_completion`,
    /// `try_wait_for_completion`, `completion_done`). It answers `Answer::Cell`: false exactly where one of the last two
    /// found it not done.
    Cell {
        call: CellCall,
        cell: u8,
    },
    /// A wake of those who wait for a condition in the states of the mode (`__wake_up`), which answers
    /// `Answer::Walked`. A count of 0 stops at no entry; another ends the wake after so many exclusive entries whose
    /// tasks were woken.
    Wake {
        cond: u8,
        mode: Mode,
        count: u32,
    },
    /// The same with NORMAL, of a condition that is set to a value first.
    SetAndWake {
        cond: u8,
        value: u64,
        count: u32,
    },
    /// A wake of the first task in the simple queue of a condition, or of all (`swake_up_one`, `swake_up_all`), which
    /// answers `Answer::Selected`.
    SimpleWake {
        cond: u8,
        all: bool,
    },
    /// The same of a condition that is set to a value first.
    SetAndSimpleWake {
        cond: u8,
        value: u64,
        all: bool,
    },
    /// A store of a variable, from `CLAIMS` on and below `VARIABLES`, and a wake of those who wait for it
    /// (`wake_up_var`), where its head has members. It answers `Answer::Walked`.
    SetVar {
        var: u8,
        value: u64,
    },
    /// The same for a bit or a page that the task keeps, and gives back (`clear_and_wake_up_bit`, `unlock_page`).
    ClearBit {
        word: u8,
        bit: u8,
    },
    /// A bit or a page is taken where it is clear (`test_and_set_bit`, `trylock_page`). It answers `Answer::Tried`: true
    /// exactly where it was, and then the task keeps it. False comes for one that the task keeps, too. This call and
    /// those that follow are over at once.
    TryBit {
        word: u8,
        bit: u8,
    },
    /// An amount for the tally of a page that the task keeps, which answers `Answer::Value`: the tally before.
    AddTally {
        page: u8,
        amount: u64,
    },
    /// A condition of either kind is taken: 0 is exchanged for its value, which `Answer::Value` has.
    Take {
        cond: u8,
    },
    /// A signal is raised, a fatal one or not, at task `who`, which is woken where its state admits the signal
    /// (`send_sig`, `signal_wake_up_state`). It answers `Answer::Raised`.
    Signal {
        who: u8,
        fatal: bool,
    },
    /// Task `who` is woken where its state is that of a sleep, whether it sleeps or is about to (`wake_up_process`), and
    /// goes on as after any wake: it looks again at what it waits for. It answers `Answer::Kicked`.
    Kick {
        who: u8,
    },
    /// The task's own pending signals are taken (`flush_signals`), which answers `Answer::Accepted`.
    Accept,
}

/// The call that is under way, with its numbers and what its last stretch did: none; a wait for a plain condition or a
/// variable; a wait for a bit; one to take a bit; one for a page; one for a completion; a wake; a wake of a simple
/// queue; a call about a completion that waits for its lock alone. `Starved` is a wake that came to no end.
#[derive(Clone, Copy)]
pub enum Running {
    Idle,
    Event(WaitRun, WaitTurn),
    Bit(BitRun, BitTurn),
    Lock(LockRun, LockTurn),
    Page(PageRun, PageTurn),
    Await(AwaitRun, AwaitTurn),
    Wake(WakeRun, WakeStage),
    Swake(SwakeRun, SwakeStage),
    Cell(CellRun, CellStage),
    Starved,
}

/// What a call answered: a wait for a plain condition or a completion; a wait for a variable, with the value that its
/// last load found; a wait for a bit, or to take a bit or a page; a wait that its task left (`CheckedTask::leave`), whose
/// entry is off, and whose last look found `seen`, in which what it waited for was not set, and, of a wait for a condition
/// or a variable, whether a wake had chosen its entry (else `selected` is false); a wake; a wake of a simple queue, with the number of
/// entries that it took off; a call about a completion, which is true but where one that asks found it not done; whether
/// a bit was taken; a value; a signal that was raised, with the task whose thread is to be roused, if any is; whether a
/// task was kicked out of the state of a sleep, and the task whose thread is to be roused, which is so where it slept; and
/// the signals that were taken: Fatal where a fatal one was pending, else Plain where one was, else Nothing.
#[derive(Clone, Copy)]
pub enum Answer {
    Waited(Result<(), WaitEnd>),
    Changed(Result<u64, WaitEnd>),
    Bit(Result<(), BitEnd>),
    Left { seen: u64, selected: bool },
    Walked(Walked),
    Selected(u32),
    Cell(bool),
    Tried(bool),
    Value(u64),
    Raised(Option<u8>),
    Kicked { woke: bool, rouse: Option<u8> },
    Accepted(Taken),
}

/// The lock that a call waits for: its head, below `HEADS`, the number of the ticket that the task has drawn of it, and
/// the one that the last look found served in its place.
#[derive(Clone, Copy)]
pub struct Awaited {
    pub head: u16,
    pub ticket: u64,
    pub served: u64,
}

/// What an advance did. Again: the call goes on at once, by the next advance. Locked: it waits for the lock of a head,
/// and goes on once its ticket is served; an advance before that does no harm. Park: the task was put asleep, and the
/// call goes on once the task was roused; an advance before that does no harm. Done: the call is over, with this answer,
/// and another may begin. Starved: the wake came to no end, as no run does.
#[derive(Clone, Copy)]
pub enum Progress {
    Again,
    Locked(Awaited),
    Park,
    Done(Answer),
    Starved,
}
