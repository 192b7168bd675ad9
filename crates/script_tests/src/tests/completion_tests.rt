use crate::tests::steps::{Row, Step, plays_all};
use std::test::Fail;
use wait_model::calls::Call;
use wait_model::layout::{CONDITION_AT, ENTRY_AT, FIRST_DONE, FIRST_DONE_HEAD, HEAD_AT};
use wait_model::tasks::SleepState;

/// An uninterruptible and an interruptible wait for completion 0.
const WAIT: Call = Call::WaitFor {
    cell: 0,
    state: SleepState::Uninterruptible,
};

const SIGNALLED_WAIT: Call = Call::WaitFor {
    cell: 0,
    state: SleepState::Interruptible,
};

/// Where the done count of completion 0 stands, and the word of its head.
const DONE: u32 = CONDITION_AT + FIRST_DONE as u32;

const HEAD: u32 = HEAD_AT + FIRST_DONE_HEAD as u32;

const COMPLETE: Call = Call::Complete { cell: 0 };

const TRY: Call = Call::TryWait { cell: 0 };

const RAISE: Call = Call::Signal {
    who: 1,
    fatal: false,
};

/// A wait and wakes in a simple queue.
const SIMPLE_WAIT: Call = Call::SimpleWait {
    cond: 50,
    state: SleepState::Uninterruptible,
};

const ONE: Call = Call::SimpleWake {
    cond: 50,
    all: false,
};

const ALL: Call = Call::SimpleWake {
    cond: 50,
    all: true,
};

/// Calls whose numbers are out of their ranges.
const LOW: Call = Call::SimpleWake {
    cond: 47,
    all: true,
};

const HIGH: Call = Call::SimpleWait {
    cond: 64,
    state: SleepState::Interruptible,
};

const ROWS: &[Row] = &[
    Row {
        name: "completions_are_counted",
        steps: &[
            Step::Runs(1, COMPLETE, 4, Some(0)),
            Step::Runs(1, COMPLETE, 4, Some(0)),
            Step::Has(DONE, 2),
            Step::Runs(2, WAIT, 4, Some(0)),
            Step::Has(DONE, 1),
            Step::Runs(2, TRY, 5, Some(1)),
            Step::Has(DONE, 0),
            Step::Runs(2, TRY, 1, Some(0)),
            Step::Runs(1, Call::CompleteAll { cell: 0 }, 3, Some(0)),
            Step::Has(DONE, 4_294_967_295),
            Step::Runs(2, SIGNALLED_WAIT, 3, Some(0)),
            Step::Runs(1, COMPLETE, 3, Some(0)),
            Step::Has(DONE, 4_294_967_295),
            Step::Runs(2, Call::IsDone { cell: 0 }, 3, Some(1)),
            Step::Runs(1, Call::Reinit { cell: 0 }, 3, Some(0)),
            Step::Has(DONE, 0),
        ],
    },
    Row {
        name: "one_permit_wakes_the_first_of_two_waiters",
        steps: &[
            Step::Runs(1, WAIT, 6, None),
            Step::Runs(2, WAIT, 6, None),
            Step::Opens(3, COMPLETE),
            Step::Says(3, "lock h320; load d0 0; set d0 1; wake t1 yes; unqueue t1"),
            Step::Goes(3, 1, Some(0)),
            Step::Has(HEAD, 4),
            Step::Has(ENTRY_AT + 2, 0),
            Step::HasSome(ENTRY_AT + 4),
            Step::Goes(1, 5, Some(0)),
            Step::Has(DONE, 0),
        ],
    },
    Row {
        name: "a_signal_ends_a_wait_that_took_nothing",
        steps: &[
            Step::Runs(1, SIGNALLED_WAIT, 7, None),
            Step::Runs(2, RAISE, 2, Some(0)),
            Step::Goes(1, 6, Some(-512)),
            Step::Runs(1, SIGNALLED_WAIT, 5, Some(-512)),
            Step::Runs(2, COMPLETE, 4, Some(0)),
            Step::Runs(1, SIGNALLED_WAIT, 4, Some(0)),
        ],
    },
    Row {
        name: "simple_wakes_take_entries_off_whatever_they_answer",
        steps: &[
            Step::Runs(1, SIMPLE_WAIT, 7, None),
            Step::Runs(2, SIMPLE_WAIT, 7, None),
            Step::Runs(3, SIMPLE_WAIT, 7, None),
            Step::Runs(4, Call::Kick { who: 1 }, 1, Some(1)),
            Step::Opens(4, ONE),
            Step::Says(4, "lock h306; wake t1 no"),
            Step::Goes(4, 2, Some(1)),
            Step::Runs(4, ALL, 6, Some(2)),
            Step::Runs(4, ONE, 2, Some(0)),
            Step::Has(HEAD_AT + 306, 4),
        ],
    },
    Row {
        name: "numbers_of_simple_calls_have_their_ranges",
        steps: &[
            Step::Refuses(1, LOW, "t1 refused 3\n"),
            Step::Refuses(1, HIGH, "t1 refused 3\n"),
            Step::Refuses(1, Call::IsDone { cell: 64 }, "t1 refused 3\n"),
            Step::Runs(1, Call::IsDone { cell: 63 }, 1, Some(0)),
        ],
    },
];

#[test]
fn completions_and_simple_queues(rt: HostRuntime) -> Result<(), Fail> {
    plays_all(&rt, rt.alloc(), ROWS)
}
