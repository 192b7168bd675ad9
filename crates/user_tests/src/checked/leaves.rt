//! Waits that their task leaves, at each moment, against nobody and against a waker.

use super::scripts::start_two;
use super::{MOST, begins, took};
use completion_cell::cell_turns::CellCall;
use std::alloc::Global;
use std::process::Abort;
use std::test::Fail;
use test_tasks::wants::all_so;
use wait_model::tasks::{How, SleepState};
use wq_checked::calls::{Answer, Call, Progress};
use wq_checked::tasks::CheckedTask;
use wq_head::Rousing;

/// More stretches than a wait has before its task is asleep.
pub(super) const MOMENTS: u32 = 8;

/// How many kinds of waits there are.
pub(super) const KINDS: u8 = 8;

const STATE: SleepState = SleepState::Uninterruptible;

/// A wait of each kind: of conditions, exclusive, simple, for a variable, a bit, to take it, a page, and a completion.
pub(super) fn wait_of(kind: u8) -> Call {
    match kind {
        0 => Call::Wait {
            cond: 3,
            how: How {
                state: STATE,
                exclusive: false,
            },
        },
        1 => Call::Wait {
            cond: 4,
            how: How {
                state: STATE,
                exclusive: true,
            },
        },
        2 => Call::SimpleWait {
            cond: 50,
            state: STATE,
        },
        3 => Call::WaitVar {
            var: 100,
            old: 0,
            state: STATE,
        },
        4 => Call::WaitBit {
            word: 2,
            bit: 5,
            state: STATE,
        },
        5 => Call::LockBit {
            word: 2,
            bit: 5,
            state: STATE,
        },
        6 => Call::LockPage {
            page: 3,
            state: STATE,
        },
        _ => Call::WaitFor {
            cell: 1,
            state: STATE,
        },
    }
}

/// What makes so that a wait of each kind has what it waits for.
pub(super) fn wake_of(kind: u8) -> Call {
    match kind {
        0 => Call::SetAndWake {
            cond: 3,
            value: 1,
            count: 0,
        },
        1 => Call::SetAndWake {
            cond: 4,
            value: 1,
            count: 1,
        },
        2 => Call::SetAndSimpleWake {
            cond: 50,
            value: 1,
            all: false,
        },
        3 => Call::SetVar { var: 100, value: 1 },
        4 => Call::ClearBit { word: 2, bit: 5 },
        5 => Call::ClearBit { word: 2, bit: 5 },
        6 => Call::ClearBit { word: 3, bit: 0 },
        _ => Call::Cell {
            call: CellCall::Complete,
            cell: 1,
        },
    }
}

/// Goes on with a call by so many stretches, until its task is asleep, or to its end.
pub(super) fn go_on(
    task: &mut CheckedTask,
    stretches: u32,
    rousing: &mut Rousing,
) -> Option<Answer> {
    let mut passed = None;
    for _ in 0..stretches {
        match task.advance(rousing, &mut passed) {
            Ok(Progress::Park) => return None,
            Ok(Progress::Done(answer)) => return Some(answer),
            _ => {}
        }
    }
    None
}

/// Makes a call to its end, if it is not over at once.
pub(super) fn make(task: &mut CheckedTask, call: Call, rousing: &mut Rousing) -> Option<Answer> {
    match task.begin(call) {
        Ok(Progress::Done(answer)) => Some(answer),
        Ok(_) => go_on(task, MOST, rousing),
        Err(_) => None,
    }
}

/// Leaves a wait to its end, kicked by another task where it is asleep.
fn leave(
    waiter: &mut CheckedTask,
    other: &mut CheckedTask,
    rousing: &mut Rousing,
) -> Option<Answer> {
    let mut passed = None;
    let who = waiter.number();
    for _ in 0..MOST {
        match waiter.leave(rousing, &mut passed) {
            Ok(Progress::Done(answer)) => return Some(answer),
            Ok(Progress::Park) => {
                let _ = make(other, Call::Kick { who }, rousing);
            }
            Ok(_) => {}
            Err(_) => return None,
        }
    }
    None
}

fn is_left(answer: Option<Answer>) -> bool {
    matches!(answer, Some(Answer::Left { .. }))
}

/// Whether a wait got what it waited for.
pub(super) fn has_got(answer: Option<Answer>) -> bool {
    matches!(
        answer,
        Some(Answer::Waited(Ok(())) | Answer::Changed(Ok(_)) | Answer::Bit(Ok(())))
    )
}

/// Whether a task was kicked out of its sleep, and its thread is to be roused.
fn was_kicked(answer: Option<Answer>) -> bool {
    matches!(
        answer,
        Some(Answer::Kicked {
            woke: true,
            rouse: Some(_),
        },)
    )
}

/// A wait that is left after so many stretches, for which nobody makes anything.
fn leave_unset(keeper: &mut CheckedTask, waiter: &mut CheckedTask, kind: u8, after: u32) -> bool {
    let mut rousing = Rousing::new();
    let begun = begins(waiter, wait_of(kind));
    let gone = go_on(waiter, after, &mut rousing);
    let answer = leave(waiter, keeper, &mut rousing);
    rousing.hand_on();
    rousing.end();
    begun && gone.is_none() && is_left(answer) && waiter.refusal().is_none()
}

/// Whether what was made for a wait of each kind is still there, and is taken by the keeper then.
pub(super) fn takes_back(keeper: &mut CheckedTask, kind: u8, rousing: &mut Rousing) -> bool {
    match kind {
        0 => make(keeper, Call::Take { cond: 3 }, rousing).is_some(),
        1 => make(keeper, Call::Take { cond: 4 }, rousing).is_some(),
        2 => make(keeper, Call::Take { cond: 50 }, rousing).is_some(),
        3 => make(keeper, Call::SetVar { var: 100, value: 0 }, rousing).is_some(),
        4 => took(keeper.begin(Call::TryBit { word: 2, bit: 5 })),
        5 => took(keeper.begin(Call::TryBit { word: 2, bit: 5 })),
        6 => took(keeper.begin(Call::TryBit { word: 3, bit: 0 })),
        _ => {
            let call = Call::Cell {
                call: CellCall::TryWait,
                cell: 1,
            };
            matches!(make(keeper, call, rousing), Some(Answer::Cell(true)))
        }
    }
}

/// A task that has taken a bit, a page or a permit gives it back.
pub(super) fn gives_back(task: &mut CheckedTask, kind: u8, rousing: &mut Rousing) -> bool {
    match kind {
        5..=7 => make(task, wake_of(kind), rousing).is_some(),
        _ => true,
    }
}

/// A wait that is left after so many stretches, and behind a wake: it has got what it waited for, or leaves it there.
fn leave_woken(keeper: &mut CheckedTask, waiter: &mut CheckedTask, kind: u8, after: u32) -> bool {
    let mut rousing = Rousing::new();
    let begun = begins(waiter, wait_of(kind));
    let gone = go_on(waiter, after, &mut rousing);
    let woken = make(keeper, wake_of(kind), &mut rousing);
    rousing.hand_on();
    let answer = leave(waiter, keeper, &mut rousing);
    let ended = has_got(answer) && gives_back(waiter, kind, &mut rousing) || is_left(answer);
    let there = takes_back(keeper, kind, &mut rousing);
    rousing.hand_on();
    rousing.end();
    begun && gone.is_none() && woken.is_some() && ended && there && waiter.refusal().is_none()
}

/// Each kind of wait is left at each moment, behind a wake or not.
fn leave_each(rt: &impl Abort, alloc: Global, woken: bool) -> Result<(), Fail> {
    let (mut keeper, mut waiter) = start_two(rt, alloc)?;
    let kept = [
        took(keeper.begin(Call::TryBit { word: 2, bit: 5 })),
        took(keeper.begin(Call::TryBit { word: 3, bit: 0 })),
    ];
    all_so(&kept)?;
    for kind in 0..KINDS {
        for after in 0..MOMENTS {
            let left = if woken {
                leave_woken(&mut keeper, &mut waiter, kind, after)
            } else {
                leave_unset(&mut keeper, &mut waiter, kind, after)
            };
            assert!(rt; left);
        }
    }
    Ok(())
}

/// Each kind of wait is left at each moment, kicked where it sleeps, and its task begins the next one.
#[test]
fn waits_are_left_at_each_moment(rt: HostRuntime) -> Result<(), Fail> {
    leave_each(&rt, rt.alloc(), false)
}

/// The same behind a wake: nothing that was made is lost, and nothing is taken twice.
#[test]
fn waits_that_were_woken_are_left_at_each_moment(rt: HostRuntime) -> Result<(), Fail> {
    leave_each(&rt, rt.alloc(), true)
}

/// A task that sleeps is not left before it was kicked, and a kick of one that does not sleep rouses nobody. Who was
/// kicked and does not leave looks again, and sleeps on.
#[test]
fn sleepers_are_kicked(rt: HostRuntime) -> Result<(), Fail> {
    let (mut keeper, mut waiter) = start_two(&rt, rt.alloc())?;
    let who = waiter.number();
    let mut rousing = Rousing::new();
    let mut passed = None;
    let seen = [
        !was_kicked(make(&mut keeper, Call::Kick { who }, &mut rousing)),
        begins(&mut waiter, wait_of(0)),
        go_on(&mut waiter, MOST, &mut rousing).is_none(),
        matches!(waiter.leave(&mut rousing, &mut passed), Ok(Progress::Park)),
        was_kicked(make(&mut keeper, Call::Kick { who }, &mut rousing)),
        go_on(&mut waiter, MOST, &mut rousing).is_none(),
        was_kicked(make(&mut keeper, Call::Kick { who }, &mut rousing)),
        is_left(leave(&mut waiter, &mut keeper, &mut rousing)),
        waiter.leave(&mut rousing, &mut passed).is_err(),
    ];
    rousing.hand_on();
    rousing.end();
    all_so(&seen)
}
