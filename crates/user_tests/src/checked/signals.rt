//! Waits that were put asleep, and the signals that end them or don't: a task whose stretches go on one by one, so that
//! each of these waits has slept.

use super::scripts::{Deed, End, KILLABLE, LIGHT, Script, Told, Who, play};
use std::test::Fail;
use wait_model::layout::FIRST_SIMPLE;
use wait_model::tasks::{How, Taken};
use wq_checked::calls::Call;

/// A plain signal at the first task, and a fatal one; and so at the other one.
const PLAIN: Call = Call::Signal {
    who: 0,
    fatal: false,
};

const FATAL: Call = Call::Signal {
    who: 0,
    fatal: true,
};

const PLAIN_AT_OTHER: Call = Call::Signal {
    who: 1,
    fatal: false,
};

const FATAL_AT_OTHER: Call = Call::Signal {
    who: 1,
    fatal: true,
};

const TAKES_PLAIN: Deed = Deed::Begins(Call::Accept, Told::Accepted(Taken::Plain));

const TAKES_FATAL: Deed = Deed::Begins(Call::Accept, Told::Accepted(Taken::Fatal));

const SHARED_KILLABLE: How = How {
    state: KILLABLE,
    exclusive: false,
};

const ONE_KILLABLE: How = How {
    state: KILLABLE,
    exclusive: true,
};

const FATAL_ALONE: Script = &[
    (
        Who::First,
        Deed::Begins(
            Call::Wait {
                cond: 2,
                how: SHARED_KILLABLE,
            },
            Told::Begun,
        ),
    ),
    (Who::First, Deed::Dozes),
    (Who::Other, Deed::Begins(PLAIN, Told::Raised(None))),
    (Who::First, Deed::Dozes),
    (Who::Other, Deed::Begins(FATAL, Told::Raised(Some(0)))),
    (Who::First, Deed::Ends(End::Signalled)),
    (Who::First, TAKES_FATAL),
];

/// A killable wait sleeps on under plain signals, and a fatal one ends it.
#[test]
fn fatal_signal_alone_ends_a_killable_wait(rt: HostRuntime) -> Result<(), Fail> {
    play(&rt, rt.alloc(), FATAL_ALONE)
}

const PLAIN_STAYS: Script = &[
    (Who::Other, Deed::Begins(PLAIN, Told::Raised(None))),
    (
        Who::First,
        Deed::Begins(
            Call::Wait {
                cond: 2,
                how: ONE_KILLABLE,
            },
            Told::Begun,
        ),
    ),
    (Who::First, Deed::Dozes),
    (
        Who::Other,
        Deed::Begins(
            Call::SetAndWake {
                cond: 2,
                value: 1,
                count: 1,
            },
            Told::Begun,
        ),
    ),
    (Who::Other, Deed::Ends(End::Woke(1))),
    (Who::First, Deed::Ends(End::Waited)),
    (Who::First, TAKES_PLAIN),
];

/// One that began under a plain signal sleeps until its condition is set, and the signal is pending still.
#[test]
fn plain_signal_stays_pending_over_a_killable_wait(rt: HostRuntime) -> Result<(), Fail> {
    play(&rt, rt.alloc(), PLAIN_STAYS)
}

/// A signal that rouses the other task: a plain one, and a fatal one.
const ROUSES_OTHER: Deed = Deed::Begins(PLAIN_AT_OTHER, Told::Raised(Some(1)));

const KILLS_OTHER: Deed = Deed::Begins(FATAL_AT_OTHER, Told::Raised(Some(1)));

/// The calls about bit 5 of word 2, and about page 5.
const TAKES_BIT: Deed = Deed::Begins(Call::TryBit { word: 2, bit: 5 }, Told::Took);

const WAITS_FOR_BIT: Deed = Deed::Begins(
    Call::WaitBit {
        word: 2,
        bit: 5,
        state: LIGHT,
    },
    Told::Begun,
);

const LOCKS_BIT: Deed = Deed::Begins(
    Call::LockBit {
        word: 2,
        bit: 5,
        state: KILLABLE,
    },
    Told::Begun,
);

const TAKES_PAGE: Deed = Deed::Begins(Call::TryBit { word: 5, bit: 0 }, Told::Took);

const LOCKS_PAGE: Deed = Deed::Begins(
    Call::LockPage {
        page: 5,
        state: LIGHT,
    },
    Told::Begun,
);

const CLEARS_PAGE: Deed = Deed::Begins(Call::ClearBit { word: 5, bit: 0 }, Told::Begun);

const BIT_WAITS: Script = &[
    (Who::First, TAKES_BIT),
    (Who::Other, WAITS_FOR_BIT),
    (Who::Other, Deed::Dozes),
    (Who::First, ROUSES_OTHER),
    (Who::Other, Deed::Ends(End::Interrupted(32))),
    (Who::Other, TAKES_PLAIN),
    (Who::Other, LOCKS_BIT),
    (Who::Other, Deed::Dozes),
    (Who::First, Deed::Begins(PLAIN_AT_OTHER, Told::Raised(None))),
    (Who::First, KILLS_OTHER),
    (Who::Other, Deed::Ends(End::Interrupted(32))),
    (Who::First, Deed::Keeps(2, 5, true)),
    (Who::Other, Deed::Keeps(2, 5, false)),
];

/// A signal that its state admits ends a wait for a bit that has slept, and one to take it, which is killable, so that a
/// fatal one alone ends it; and the bit stays with its keeper.
#[test]
fn signals_end_waits_for_a_bit(rt: HostRuntime) -> Result<(), Fail> {
    play(&rt, rt.alloc(), BIT_WAITS)
}

const PAGE_LOCK: Script = &[
    (Who::First, TAKES_PAGE),
    (Who::Other, LOCKS_PAGE),
    (Who::Other, Deed::Dozes),
    (Who::First, ROUSES_OTHER),
    (Who::Other, Deed::Ends(End::Interrupted(1))),
    (Who::First, Deed::Keeps(5, 0, true)),
    (Who::Other, Deed::Keeps(5, 0, false)),
    (Who::First, CLEARS_PAGE),
    (Who::First, Deed::Ends(End::None)),
    (Who::Other, TAKES_PLAIN),
    (Who::Other, LOCKS_PAGE),
    (Who::Other, Deed::Ends(End::Got)),
];

/// It ends a lock of a page that has slept. The page stays with its holder, whose unlock then finds nobody, so that it is
/// over at once, and the other one takes its signal and then the page.
#[test]
fn signal_ends_a_lock_of_a_page(rt: HostRuntime) -> Result<(), Fail> {
    play(&rt, rt.alloc(), PAGE_LOCK)
}

const COUNT_AND_SIMPLE: Script = &[
    (
        Who::First,
        Deed::Begins(
            Call::WaitFor {
                cell: 3,
                state: KILLABLE,
            },
            Told::Begun,
        ),
    ),
    (Who::First, Deed::Dozes),
    (Who::Other, Deed::Begins(PLAIN, Told::Raised(None))),
    (Who::Other, Deed::Begins(FATAL, Told::Raised(Some(0)))),
    (Who::First, Deed::Ends(End::Signalled)),
    (Who::First, TAKES_FATAL),
    (
        Who::First,
        Deed::Begins(
            Call::SimpleWait {
                cond: FIRST_SIMPLE as u8,
                state: LIGHT,
            },
            Told::Begun,
        ),
    ),
    (Who::First, Deed::Dozes),
    (Who::Other, Deed::Begins(PLAIN, Told::Raised(Some(0)))),
    (Who::First, Deed::Ends(End::Signalled)),
];

/// A fatal one alone ends a killable wait for a completion that has slept, and a plain one ends one in a simple queue.
#[test]
fn signals_end_waits_for_counts_and_in_simple_queues(rt: HostRuntime) -> Result<(), Fail> {
    play(&rt, rt.alloc(), COUNT_AND_SIMPLE)
}
