//! Completions, simple queues and signals: two tasks on one thread.

use super::scripts::{
    Alone, DEEP, Deed, End, KILLABLE, SHARED, Script, Told, Who, play, play_alone,
};
use super::{BUSY, OUT};
use completion_cell::cell_turns::CellCall;
use std::test::Fail;
use wait_model::layout::{COMPLETIONS, FIRST_SIMPLE};
use wait_model::tasks::Taken;
use wait_model::watches::Watch;
use wq_checked::calls::Call;

/// A completion that is not there, and the first condition with a simple head.
const NONE: u8 = COMPLETIONS as u8;

const SIMPLE: u8 = FIRST_SIMPLE as u8;

const WAITED_FOR_AND_MADE: Script = &[
    (
        Who::First,
        Deed::Begins(
            Call::WaitFor {
                cell: 3,
                state: DEEP,
            },
            Told::Begun,
        ),
    ),
    (Who::First, Deed::Dozes),
    (Who::Other, Deed::BeginsCell(CellCall::IsDone)),
    (Who::Other, Deed::Ends(End::Cell(false))),
    (Who::Other, Deed::BeginsCell(CellCall::Complete)),
    (Who::Other, Deed::Ends(End::Cell(true))),
    (Who::First, Deed::Ends(End::Waited)),
    (Who::Other, Deed::BeginsCell(CellCall::TryWait)),
    (Who::Other, Deed::Ends(End::Cell(false))),
    (Who::Other, Deed::BeginsCell(CellCall::CompleteAll)),
    (Who::Other, Deed::Ends(End::Cell(true))),
    (Who::First, Deed::BeginsCell(CellCall::TryWait)),
    (Who::First, Deed::Ends(End::Cell(true))),
    (Who::First, Deed::BeginsCell(CellCall::Reinit)),
    (Who::First, Deed::Ends(End::Cell(true))),
    (Who::First, Deed::BeginsCell(CellCall::IsDone)),
    (Who::First, Deed::Ends(End::Cell(false))),
];

/// A completion that is waited for is made, and taken by who waited; and all that are made are taken again and again,
/// until they are begun anew.
#[test]
fn a_completion_is_waited_for_and_made(rt: HostRuntime) -> Result<(), Fail> {
    play(&rt, rt.alloc(), WAITED_FOR_AND_MADE)
}

const GIVEN_BACK: Alone = &[
    Deed::BeginsCell(CellCall::Complete),
    Deed::Passes(Some(Watch::Done { cell: 3 })),
    Deed::Begins(
        Call::WaitFor {
            cell: 3,
            state: DEEP,
        },
        Told::Begun,
    ),
    Deed::Passes(Some(Watch::Done { cell: 3 })),
    Deed::BeginsCell(CellCall::TryWait),
    Deed::Passes(None),
    Deed::Begins(
        Call::WaitBit {
            word: 3,
            bit: 4,
            state: DEEP,
        },
        Told::Begun,
    ),
    Deed::Passes(None),
];

#[test]
fn a_lock_that_was_given_back_is_told(rt: HostRuntime) -> Result<(), Fail> {
    play_alone(&rt, rt.alloc(), GIVEN_BACK)
}

const SIMPLE_WOKEN: Script = &[
    (
        Who::First,
        Deed::Begins(
            Call::SimpleWait {
                cond: SIMPLE,
                state: DEEP,
            },
            Told::Begun,
        ),
    ),
    (Who::First, Deed::Dozes),
    (
        Who::Other,
        Deed::Begins(
            Call::SetAndSimpleWake {
                cond: SIMPLE,
                value: 1,
                all: false,
            },
            Told::Begun,
        ),
    ),
    (Who::Other, Deed::Ends(End::Selected(1))),
    (Who::First, Deed::Ends(End::Waited)),
    (
        Who::Other,
        Deed::Begins(
            Call::SimpleWake {
                cond: SIMPLE,
                all: true,
            },
            Told::Begun,
        ),
    ),
    (Who::Other, Deed::Ends(End::Selected(0))),
];

#[test]
fn a_simple_queue_is_woken(rt: HostRuntime) -> Result<(), Fail> {
    play(&rt, rt.alloc(), SIMPLE_WOKEN)
}

const SIGNALLED: Script = &[
    (Who::First, Deed::HasNumber(0)),
    (
        Who::First,
        Deed::Begins(
            Call::Wait {
                cond: 1,
                how: SHARED,
            },
            Told::Begun,
        ),
    ),
    (Who::First, Deed::Dozes),
    (
        Who::Other,
        Deed::Begins(
            Call::Signal {
                who: 0,
                fatal: false,
            },
            Told::Raised(Some(0)),
        ),
    ),
    (Who::First, Deed::Ends(End::Signalled)),
    (
        Who::First,
        Deed::Begins(Call::Accept, Told::Accepted(Taken::Plain)),
    ),
    (
        Who::First,
        Deed::Begins(Call::Accept, Told::Accepted(Taken::Nothing)),
    ),
    (
        Who::Other,
        Deed::Begins(
            Call::Signal {
                who: 0,
                fatal: true,
            },
            Told::Raised(None),
        ),
    ),
    (
        Who::First,
        Deed::Begins(Call::Accept, Told::Accepted(Taken::Fatal)),
    ),
];

#[test]
fn a_signal_ends_a_wait(rt: HostRuntime) -> Result<(), Fail> {
    play(&rt, rt.alloc(), SIGNALLED)
}

/// Calls whose numbers are not below their ends; and what is asked of a task while a call of it is under way.
const WRONG_NUMBERS: Alone = &[
    Deed::Begins(
        Call::WaitFor {
            cell: NONE,
            state: KILLABLE,
        },
        OUT,
    ),
    Deed::Begins(
        Call::Cell {
            call: CellCall::Complete,
            cell: NONE,
        },
        OUT,
    ),
    Deed::Begins(
        Call::Cell {
            call: CellCall::CompleteAll,
            cell: NONE,
        },
        OUT,
    ),
    Deed::Begins(
        Call::Cell {
            call: CellCall::Reinit,
            cell: NONE,
        },
        OUT,
    ),
    Deed::Begins(
        Call::Cell {
            call: CellCall::TryWait,
            cell: NONE,
        },
        OUT,
    ),
    Deed::Begins(
        Call::Cell {
            call: CellCall::IsDone,
            cell: NONE,
        },
        OUT,
    ),
    Deed::Begins(Call::SimpleWake { cond: 0, all: true }, OUT),
    Deed::Begins(
        Call::SetAndSimpleWake {
            cond: 64,
            value: 1,
            all: true,
        },
        OUT,
    ),
    Deed::Begins(
        Call::Cell {
            call: CellCall::Complete,
            cell: 0,
        },
        Told::Begun,
    ),
    Deed::Begins(
        Call::Cell {
            call: CellCall::Complete,
            cell: 0,
        },
        BUSY,
    ),
    Deed::Begins(
        Call::SimpleWake {
            cond: SIMPLE,
            all: true,
        },
        BUSY,
    ),
    Deed::Begins(
        Call::Signal {
            who: 0,
            fatal: false,
        },
        BUSY,
    ),
    Deed::Begins(Call::Accept, BUSY),
];

#[test]
fn wrong_numbers_are_refused(rt: HostRuntime) -> Result<(), Fail> {
    play_alone(&rt, rt.alloc(), WRONG_NUMBERS)
}
