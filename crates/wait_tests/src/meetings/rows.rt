//! The meetings of the tests, by the names of the tests that play them.

use crate::leaves::threads::Left;
use crate::meetings::shares::Late;
use crate::meetings::{Found, Meeting, Part};

/// A waker of all who wait for condition 0, and of one.
const SETS: Part = Part::Sets {
    late: Late::AtOnce,
    count: 0,
};

const SETS_ONE: Part = Part::Sets {
    late: Late::AtOnce,
    count: 1,
};

/// One who asks task 1 to leave, so late.
const ASKS: Part = Part::Asks {
    who: 1,
    late: Late::Each(10),
};

pub(crate) const WAITERS: &[Meeting] = &[Meeting {
    before: Part::Rests,
    own: (SETS, Part::Rests),
    others: Some((Part::Waits, Part::Waits)),
    found: Found::Anything,
}];

pub(crate) const WAITERS_BY_TURNS: &[Meeting] = &[Meeting {
    before: Part::Rests,
    own: (SETS, Part::Rests),
    others: Some((Part::WaitsByTurns, Part::WaitsByTurns)),
    found: Found::Anything,
}];

pub(crate) const SELECTED: &[Meeting] = &[Meeting {
    before: Part::Rests,
    own: (SETS_ONE, Part::WaitsExclusively),
    others: Some((Part::Signals { who: 1 }, Part::Rests)),
    found: Found::Anything,
}];

pub(crate) const HEARERS: &[Meeting] = &[Meeting {
    before: Part::Rests,
    own: (SETS, Part::Hears),
    others: None,
    found: Found::Anything,
}];

pub(crate) const VALUES: &[Meeting] = &[Meeting {
    before: Part::Rests,
    own: (Part::AnnouncesTwice, Part::WaitsTwice),
    others: None,
    found: Found::Anything,
}];

pub(crate) const VALUES_BY_TURNS: &[Meeting] = &[Meeting {
    before: Part::Rests,
    own: (Part::AnnouncesTwice, Part::SeesByTurns),
    others: None,
    found: Found::Anything,
}];

pub(crate) const SWAITERS: &[Meeting] = &[
    Meeting {
        before: Part::Rests,
        own: (Part::Swakes { all: true }, Part::Rests),
        others: Some((Part::Swaits, Part::Swaits)),
        found: Found::Anything,
    },
    Meeting {
        before: Part::Rests,
        own: (Part::Swakes { all: false }, Part::Rests),
        others: Some((Part::Swaits, Part::Swaits)),
        found: Found::Anything,
    },
];

pub(crate) const PLAIN_SIGNAL: &[Meeting] = &[Meeting {
    before: Part::GetsSignal,
    own: (Part::WaitsKillable { is_set: true }, SETS),
    others: None,
    found: Found::Anything,
}];

pub(crate) const FATAL_SIGNAL: &[Meeting] = &[Meeting {
    before: Part::Rests,
    own: (
        Part::WaitsKillable { is_set: false },
        Part::WakesThenSignals {
            who: 0,
            fatal: true,
        },
    ),
    others: None,
    found: Found::Anything,
}];

pub(crate) const PERMITS: &[Meeting] = &[Meeting {
    before: Part::Rests,
    own: (Part::CompletesThrice, Part::TakesOne),
    others: Some((Part::TakesOne, Part::TakesOne)),
    found: Found::NoPermit,
}];

/// One who asks task 2 to leave, one who completes once, and two who wait for it.
pub(crate) const LEFT_PERMIT: Meeting = Meeting {
    before: Part::Rests,
    own: (
        Part::Asks {
            who: 2,
            late: Late::Each(7),
        },
        Part::Completes {
            late: Late::Slowly(7),
        },
    ),
    others: Some((Part::TakesUntil, Part::TakesOne)),
    found: Found::NoPermit,
};

pub(crate) const BIT_TURNS: &[Meeting] = &[Meeting {
    before: Part::Rests,
    own: (Part::TakesTurns, Part::TakesTurns),
    others: None,
    found: Found::ClearBit,
}];

pub(crate) const BIT_TALLY: &[Meeting] = &[Meeting {
    before: Part::Rests,
    own: (
        Part::AddsAmount { amount: 5 },
        Part::AddsAmount { amount: u64::MAX },
    ),
    others: None,
    found: Found::Tally { sum: 100 },
}];

pub(crate) const PAGE_OF_TWO: &[Meeting] = &[Meeting {
    before: Part::Rests,
    own: (
        Part::AddsToPage { times: 25 },
        Part::AddsToPage { times: 25 },
    ),
    others: None,
    found: Found::Tally { sum: 50 },
}];

/// What each of four does with one page.
const OFTEN: Part = Part::AddsToPage { times: 1_000 };

pub(crate) const PAGE_OF_FOUR: &[Meeting] = &[Meeting {
    before: Part::Rests,
    own: (OFTEN, OFTEN),
    others: Some((OFTEN, OFTEN)),
    found: Found::Tally { sum: 4_000 },
}];

pub(crate) const PASSED_WAKE: &[Meeting] = &[Meeting {
    before: Part::Rests,
    own: (
        Part::Sets {
            late: Late::Each(5),
            count: 1,
        },
        Part::LeavesOrPasses,
    ),
    others: Some((
        Part::TakesIt,
        Part::Asks {
            who: 1,
            late: Late::Slowly(5),
        },
    )),
    found: Found::Anything,
}];

/// One who asks task 1 to leave, so late.
const ASKS_SLEEPER: Part = Part::Asks {
    who: 1,
    late: Late::Each(8),
};

pub(crate) const SLEEPERS: &[Meeting] = &[
    Meeting {
        before: Part::Rests,
        own: (ASKS_SLEEPER, Part::Leaves(Left::Plain)),
        others: None,
        found: Found::NobodyWaits,
    },
    Meeting {
        before: Part::Rests,
        own: (ASKS_SLEEPER, Part::Leaves(Left::Simple)),
        others: None,
        found: Found::NobodyWaits,
    },
    Meeting {
        before: Part::Rests,
        own: (ASKS_SLEEPER, Part::Leaves(Left::Variable)),
        others: None,
        found: Found::NobodyWaits,
    },
];

pub(crate) const HOLDERS: &[Meeting] = &[
    Meeting {
        before: Part::Rests,
        own: (Part::HoldsPage, Part::HoldsPageUntil),
        others: Some((Part::HoldsPage, ASKS)),
        found: Found::NobodyKeeps,
    },
    Meeting {
        before: Part::Rests,
        own: (Part::HoldsBit, Part::HoldsBitUntil),
        others: Some((Part::HoldsBit, ASKS)),
        found: Found::NobodyKeeps,
    },
    Meeting {
        before: Part::Rests,
        own: (Part::HoldsBit, Part::SeesBitUntil),
        others: Some((Part::HoldsBit, ASKS)),
        found: Found::NobodyKeeps,
    },
];

/// Each job is done once: a job adds to a digit of its own.
pub(crate) const POOL: &[Meeting] = &[Meeting {
    before: Part::OpensPool,
    own: (
        Part::PostsJobs {
            late: Late::Each(6),
        },
        Part::DoesJobs,
    ),
    others: Some((Part::DoesJobs, Part::DoesJobs)),
    found: Found::Counted { sum: 0x1111_1111 },
}];
