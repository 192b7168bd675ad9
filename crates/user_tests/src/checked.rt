//! Two tasks on one thread, which go on with one of them at a time; and calls that are refused.

mod completions;
mod leave_orders;
mod leaves;
mod limits;
mod scripts;
mod signals;

use crate::checked::scripts::{
    Alone, DEEP, Deed, End, KILLABLE, SHARED, Script, Told, Who, play, play_alone,
};
use std::test::Fail;
use wq_checked::calls::{Answer, Call, Progress};
use wq_checked::reasons::Refused;
use wq_checked::tasks::CheckedTask;
use wq_head::Rousing;

/// How many stretches a call has at most.
const MOST: u32 = 100;

/// Goes on with a call to its end: its answer. None where it does not end. Its task sleeps in no thread, so that nobody
/// is roused.
fn finish(task: &mut CheckedTask) -> Option<Answer> {
    let mut rousing = Rousing::new();
    let answer = go_to_end(task, &mut rousing);
    rousing.hand_on();
    rousing.end();
    answer
}

fn go_to_end(task: &mut CheckedTask, rousing: &mut Rousing) -> Option<Answer> {
    let mut passed = None;
    for _ in 0..MOST {
        match task.advance(rousing, &mut passed) {
            Ok(Progress::Done(answer)) => return Some(answer),
            Ok(_) => {}
            Err(_) => return None,
        }
    }
    None
}

/// Goes on with a call until its task was put asleep: false where it was not.
fn doze(task: &mut CheckedTask) -> bool {
    let mut rousing = Rousing::new();
    let asleep = go_to_sleep(task, &mut rousing);
    rousing.hand_on();
    rousing.end();
    asleep
}

fn go_to_sleep(task: &mut CheckedTask, rousing: &mut Rousing) -> bool {
    let mut passed = None;
    for _ in 0..MOST {
        match task.advance(rousing, &mut passed) {
            Ok(Progress::Park) => return true,
            Ok(_) => {}
            Err(_) => return false,
        }
    }
    false
}

/// One advance: the head whose lock it gave back.
fn go_to_pass(task: &mut CheckedTask) -> Option<u16> {
    let mut rousing = Rousing::new();
    let mut passed = None;
    let _ = task.advance(&mut rousing, &mut passed);
    rousing.hand_on();
    rousing.end();
    passed
}

/// Goes on with no call.
fn refuses_to_go_on(task: &mut CheckedTask) -> bool {
    let mut rousing = Rousing::new();
    let refused = matches!(task.advance(&mut rousing, &mut None), Err(Refused::Nothing));
    rousing.hand_on();
    rousing.end();
    refused
}

/// Begins a call: false where it is refused.
fn begins(task: &mut CheckedTask, call: Call) -> bool {
    task.begin(call).is_ok()
}

/// Whether a bit or a page was taken.
fn took(tried: Result<Progress, Refused>) -> bool {
    matches!(tried, Ok(Progress::Done(Answer::Tried(true))))
}

const WAITED_FOR_AND_SET: Script = &[
    (
        Who::Other,
        Deed::Begins(
            Call::Wait {
                cond: 3,
                how: SHARED,
            },
            Told::Begun,
        ),
    ),
    (Who::Other, Deed::Dozes),
    (
        Who::First,
        Deed::Begins(
            Call::SetAndWake {
                cond: 3,
                value: 7,
                count: 0,
            },
            Told::Begun,
        ),
    ),
    (Who::First, Deed::Ends(End::Woke(1))),
    (Who::Other, Deed::Ends(End::Waited)),
    (
        Who::Other,
        Deed::Begins(Call::Take { cond: 3 }, Told::Value(7)),
    ),
];

#[test]
fn a_condition_is_waited_for_and_set(rt: HostRuntime) -> Result<(), Fail> {
    play(&rt, rt.alloc(), WAITED_FOR_AND_SET)
}

/// The calls about bit 16 of word 2, and about page 5.
const TAKES_BIT: Deed = Deed::Begins(Call::TryBit { word: 2, bit: 16 }, Told::Took);

const LOCKS_BIT: Deed = Deed::Begins(
    Call::LockBit {
        word: 2,
        bit: 16,
        state: DEEP,
    },
    Told::Begun,
);

const CLEARS_BIT: Deed = Deed::Begins(Call::ClearBit { word: 2, bit: 16 }, Told::Begun);

const TAKES_PAGE: Deed = Deed::Begins(Call::TryBit { word: 5, bit: 0 }, Told::Took);

const LOCKS_PAGE: Deed = Deed::Begins(
    Call::LockPage {
        page: 5,
        state: KILLABLE,
    },
    Told::Begun,
);

const CLEARS_PAGE: Deed = Deed::Begins(Call::ClearBit { word: 5, bit: 0 }, Told::Begun);

const HANDED_ON: Script = &[
    (Who::First, TAKES_BIT),
    (Who::Other, LOCKS_BIT),
    (Who::Other, Deed::Dozes),
    (Who::First, CLEARS_BIT),
    (Who::First, Deed::Ends(End::Woke(1))),
    (Who::Other, Deed::Ends(End::Got)),
    (Who::Other, Deed::Keeps(2, 16, true)),
    (Who::First, TAKES_PAGE),
    (Who::Other, LOCKS_PAGE),
    (Who::Other, Deed::Dozes),
    (Who::First, CLEARS_PAGE),
    (Who::First, Deed::Ends(End::Woke(1))),
    (Who::Other, Deed::Ends(End::Got)),
    (
        Who::Other,
        Deed::Begins(Call::AddTally { page: 5, amount: 2 }, Told::Value(0)),
    ),
    (Who::First, Deed::Keeps(5, 0, false)),
    (Who::Other, Deed::Keeps(5, 0, true)),
];

/// A bit that its keeper clears is taken by the other one, who waited for it; and so is a page, whose tally the other
/// one then adds to.
#[test]
fn a_bit_and_a_page_are_handed_on(rt: HostRuntime) -> Result<(), Fail> {
    play(&rt, rt.alloc(), HANDED_ON)
}

const OUT: Told = Told::Refused(Refused::OutOfRange);

const NOT_HELD: Told = Told::Refused(Refused::NotHeld);

const BUSY: Told = Told::Refused(Refused::Busy);

/// Refused are numbers beyond their ends, a killable wait in a simple queue, what the task does not keep, and waits for a
/// bit that it keeps itself and for one that is not there; to go on with no call, and to make a task with more numbers
/// than are spare; and what is asked of a task while a call of it is under way.
const WRONG_CALLS: Alone = &[
    Deed::Begins(
        Call::Wait {
            cond: 48,
            how: SHARED,
        },
        OUT,
    ),
    Deed::Begins(
        Call::SimpleWait {
            cond: 48,
            state: KILLABLE,
        },
        Told::Refused(Refused::NotListed),
    ),
    Deed::Begins(
        Call::WaitVar {
            var: 128,
            old: 0,
            state: KILLABLE,
        },
        OUT,
    ),
    Deed::Begins(Call::ClearBit { word: 1, bit: 1 }, NOT_HELD),
    Deed::Begins(Call::AddTally { page: 1, amount: 1 }, NOT_HELD),
    Deed::Begins(Call::TryBit { word: 1, bit: 1 }, Told::Took),
    Deed::Begins(
        Call::LockBit {
            word: 1,
            bit: 1,
            state: KILLABLE,
        },
        Told::Refused(Refused::Held),
    ),
    Deed::Begins(
        Call::WaitBit {
            word: 1,
            bit: 64,
            state: KILLABLE,
        },
        OUT,
    ),
    Deed::IsIdle,
    Deed::ForksNot {
        share: 255,
        busy: false,
    },
    Deed::Begins(
        Call::Wait {
            cond: 0,
            how: SHARED,
        },
        Told::Begun,
    ),
    Deed::ForksNot {
        share: 0,
        busy: true,
    },
    Deed::Begins(
        Call::LockPage {
            page: 0,
            state: KILLABLE,
        },
        BUSY,
    ),
    Deed::Begins(Call::Take { cond: 0 }, BUSY),
];

#[test]
fn wrong_calls_are_refused(rt: HostRuntime) -> Result<(), Fail> {
    play_alone(&rt, rt.alloc(), WRONG_CALLS)
}
