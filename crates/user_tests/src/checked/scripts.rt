//! Scripts of two tasks on one thread: what one of them does at a time, and what is to be seen of it.

use super::{begins, doze, finish, go_to_pass, refuses_to_go_on};
use bit_wait::BitEnd;
use completion_cell::cell_turns::CellCall;
use std::alloc::{AllocError, Global};
use std::process::Abort;
use std::test::Fail;
use wait_event::WaitEnd;
use wait_model::heads::head_of;
use wait_model::tasks::{How, SleepState, Taken};
use wait_model::watches::Watch;
use wq_checked::calls::{Answer, Call, Progress};
use wq_checked::reasons::Refused;
use wq_checked::tasks::{CheckedTask, NoFork};

/// The states of the waits, and how those for a condition wait.
pub(super) const LIGHT: SleepState = SleepState::Interruptible;

pub(super) const DEEP: SleepState = SleepState::Uninterruptible;

pub(super) const KILLABLE: SleepState = SleepState::Killable;

pub(super) const SHARED: How = How {
    state: LIGHT,
    exclusive: false,
};

/// Which task it is: the first one of a new Domain, whose number is 0, or the one that was forked off it, whose number
/// is 1.
#[derive(Clone, Copy)]
pub(super) enum Who {
    First,
    Other,
}

/// What is told where a call begins: nothing, since it is under way; why it is refused; or the answer of one that is
/// over at once.
#[derive(Clone, Copy)]
pub(super) enum Told {
    Begun,
    Refused(Refused),
    Took,
    Value(u64),
    Raised(Option<u8>),
    Accepted(Taken),
}

/// How a call ends that is gone on with: its wait has what it waited for, or its bit or page; it woke so many; it
/// selected so many in a simple queue; it told this of a completion; a signal ended a wait for what was not set, and
/// which no wake had selected, or one for a bit whose word held this. Or it was over at once, so that there is none to
/// go on with.
#[derive(Clone, Copy)]
pub(super) enum End {
    Waited,
    Got,
    Woke(u32),
    Selected(u32),
    Cell(bool),
    Signalled,
    Interrupted(u64),
    None,
}

/// What a task does, or what is to be seen of it.
#[derive(Clone, Copy)]
pub(super) enum Deed {
    /// It begins a call.
    Begins(Call, Told),
    /// It begins one about completion 3.
    BeginsCell(CellCall),
    /// It goes on with its call until it is put asleep.
    Dozes,
    /// It goes on with its call to the end.
    Ends(End),
    /// It goes on with its call by one stretch, which gives back the lock of the head of this, or none.
    Passes(Option<Watch>),
    /// It has no call to go on with.
    IsIdle,
    /// It makes no further task to which so many numbers are spare: its call is under way, or there are not as many.
    ForksNot { share: u8, busy: bool },
    /// It keeps this bit of this word, or does not.
    Keeps(u8, u8, bool),
    /// It has this number.
    HasNumber(u8),
}

/// What two tasks do one after the other, and what one does alone. A script is a constant: so the check of what plays it
/// takes as long however many rows it has.
pub(super) type Script = &'static [(Who, Deed)];

pub(super) type Alone = &'static [Deed];

fn is_same(taken: Taken, wanted: Taken) -> bool {
    match wanted {
        Taken::Nothing => matches!(taken, Taken::Nothing),
        Taken::Plain => matches!(taken, Taken::Plain),
        Taken::Fatal => matches!(taken, Taken::Fatal),
    }
}

/// Whether this answer came at once.
fn is_answer(answer: Answer, wanted: Told) -> bool {
    match (wanted, answer) {
        (Told::Took, Answer::Tried(took)) => took,
        (Told::Value(wanted), Answer::Value(value)) => value == wanted,
        (Told::Raised(wanted), Answer::Raised(roused)) => roused == wanted,
        (Told::Accepted(wanted), Answer::Accepted(taken)) => is_same(taken, wanted),
        _ => false,
    }
}

/// Whether this was told of a call that began.
fn is_told(begun: Result<Progress, Refused>, wanted: Told) -> bool {
    match (wanted, begun) {
        (Told::Begun, Ok(_)) => true,
        (Told::Refused(wanted), Err(reason)) => reason == wanted,
        (_, Ok(Progress::Done(answer))) => is_answer(answer, wanted),
        _ => false,
    }
}

/// Whether this answer came in the end.
fn is_end(answer: Option<Answer>, wanted: End) -> bool {
    match wanted {
        End::Waited => matches!(answer, Some(Answer::Waited(Ok(())))),
        End::Got => matches!(answer, Some(Answer::Bit(Ok(())))),
        End::Woke(wanted) =>
            matches!(answer, Some(Answer::Walked(walked)) if walked.woken == wanted),
        End::Selected(wanted) =>
            matches!(answer, Some(Answer::Selected(number)) if number == wanted),
        End::Cell(wanted) => matches!(answer, Some(Answer::Cell(hit)) if hit == wanted),
        End::Signalled => matches!(
            answer,
            Some(Answer::Waited(Err(WaitEnd::Signal {
                seen: 0,
                selected: false
            })))
        ),
        End::Interrupted(wanted) => matches!(
            answer,
            Some(Answer::Bit(Err(BitEnd::Interrupted { seen }))) if seen == wanted
        ),
        End::None => answer.is_none(),
    }
}

/// Whether no further task is made, for this reason.
fn forks_not(task: &mut CheckedTask, share: u8, busy: bool) -> bool {
    match task.fork(share) {
        Err(NoFork::Busy) => busy,
        Err(NoFork::Numbers) => !busy,
        _ => false,
    }
}

/// Whether one stretch gave back the lock of this head, or none.
fn passes(task: &mut CheckedTask, watch: Option<Watch>) -> bool {
    let passed = go_to_pass(task);
    match watch {
        Some(watch) => passed == Some(head_of(watch)),
        None => passed.is_none(),
    }
}

/// Whether a task does it, and all is as it is to be.
fn does(task: &mut CheckedTask, deed: Deed) -> bool {
    match deed {
        Deed::Begins(call, told) => is_told(task.begin(call), told),
        Deed::BeginsCell(call) => begins(task, Call::Cell { call, cell: 3 }),
        Deed::Dozes => doze(task),
        Deed::Ends(end) => is_end(finish(task), end),
        Deed::Passes(watch) => passes(task, watch),
        Deed::IsIdle => refuses_to_go_on(task),
        Deed::ForksNot { share, busy } => forks_not(task, share, busy),
        Deed::Keeps(word, bit, kept) => task.keeps(word, bit) == kept,
        Deed::HasNumber(number) => task.number() == number,
    }
}

/// A new Domain's first task, and one that was forked off it.
pub(super) fn start_two(
    rt: &impl Abort,
    alloc: Global,
) -> Result<(CheckedTask, CheckedTask), AllocError> {
    let mut first = CheckedTask::start(alloc)?;
    match first.fork(0) {
        Ok(second) => Ok((first, second)),
        Err(_) => panic!(rt; "a number is spare"),
    }
}

/// Plays a script in a new Domain.
pub(super) fn play(rt: &impl Abort, alloc: Global, script: Script) -> Result<(), Fail> {
    let (mut first, mut other) = start_two(rt, alloc)?;
    let mut at: u64 = 0;
    for row in script {
        let (who, deed) = *row;
        let well = match who {
            Who::First => does(&mut first, deed),
            Who::Other => does(&mut other, deed),
        };
        assert!(rt; well, "row {at}, counted from 0");
        at = at.saturating_add(1);
    }
    Ok(())
}

/// Plays a script of one task alone, in a new Domain.
pub(super) fn play_alone(rt: &impl Abort, alloc: Global, script: Alone) -> Result<(), Fail> {
    let mut task = CheckedTask::start(alloc)?;
    let mut at: u64 = 0;
    for deed in script {
        assert!(rt; does(&mut task, *deed), "row {at}, counted from 0");
        at = at.saturating_add(1);
    }
    Ok(())
}
