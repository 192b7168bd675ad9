use crate::tests::steps::{Row, Step, plays_all};
use std::test::Fail;
use wait_model::calls::Call;
use wait_model::layout::{BOOKMARK_AT, CONDITION_AT, ENTRY_AT, FLAG_AT, HEAD_AT};
use wait_model::queues::Form;
use wait_model::tasks::{How, SleepState};
use wait_model::watches::{Kind, Mode};

/// An uninterruptible wait for condition 0, that is not exclusive.
const PLAIN: Call = Call::Wait {
    cond: 0,
    how: How {
        state: SleepState::Uninterruptible,
        exclusive: false,
    },
};

/// An interruptible wait for condition 0, that is exclusive.
const EXCLUSIVE: Call = Call::Wait {
    cond: 0,
    how: How {
        state: SleepState::Interruptible,
        exclusive: true,
    },
};

/// An add of an entry of kind Woken to condition 0.
const ADD: Call = Call::Add {
    cond: 0,
    kind: Kind::Woken,
    form: Form::Front,
};

/// A wake of all tasks of condition 0, and one of those up to the first exclusive one.
const WAKE: Call = Call::Wake {
    cond: 0,
    mode: Mode::Normal,
    count: 0,
};

const WAKE_ONE: Call = Call::Wake {
    cond: 0,
    mode: Mode::Normal,
    count: 1,
};

const WOKEN: Call = Call::Woken {
    state: SleepState::Interruptible,
};

const ROWS: &[Row] = &[
    Row {
        name: "one_waiter_set_and_wake",
        steps: &[
            Step::Runs(1, PLAIN, 7, None),
            Step::Runs(2, Call::Set { cond: 0, value: 1 }, 1, Some(0)),
            Step::Runs(2, WAKE, 4, None),
            Step::Goes(1, 10, Some(0)),
            Step::Ran(25),
            Step::Has(CONDITION_AT, 1),
        ],
    },
    Row {
        name: "wake_of_one_passes_plain_waiters_and_stops_behind_an_exclusive_one",
        steps: &[
            Step::Runs(1, EXCLUSIVE, 8, None),
            Step::Runs(2, EXCLUSIVE, 8, None),
            Step::Runs(3, PLAIN, 7, None),
            Step::Opens(4, WAKE_ONE),
            Step::Says(
                4,
                "lock h256; wake t3 yes; unqueue t3; wake t1 yes; unqueue t1",
            ),
            Step::Writes(
                4,
                "t4 unlock h256 spent\nt4 = woken 2 selected 1 holds 1 spent\n",
            ),
            Step::Has(HEAD_AT + 256, 4),
            Step::Has(ENTRY_AT + 2, 0),
            Step::HasSome(ENTRY_AT + 4),
        ],
    },
    Row {
        name: "flag_that_was_set_before_the_state_is_found",
        steps: &[
            Step::Runs(1, ADD, 3, Some(0)),
            Step::Opens(2, WAKE),
            Step::Says(2, "lock h256; woken t1; wake t1 no"),
            Step::Writes(2, "t2 unlock h256\nt2 = woken 0 selected 0 holds 1 end\n"),
            Step::Opens(1, WOKEN),
            Step::Says(1, "state int; flag yes; state run"),
            Step::Writes(1, "t1 unflag\nt1 = 0\n"),
            Step::Runs(1, Call::Remove, 3, Some(0)),
            Step::Has(FLAG_AT + 2, 0),
        ],
    },
    Row {
        name: "calls_on_the_own_entry_are_refused_where_it_is_not_as_they_want",
        steps: &[
            Step::Refuses(1, Call::Remove, "t1 refused 6\n"),
            Step::Runs(1, ADD, 3, Some(0)),
            Step::Refuses(1, PLAIN, "t1 refused 5\n"),
            Step::Refuses(1, Call::Set { cond: 64, value: 1 }, "t1 refused 3\n"),
        ],
    },
    // a walk of 67 events, and one of 72
    Row {
        name: "walk_of_65_does_not_break",
        steps: &[
            Step::Adds(65),
            Step::Opens(100, WAKE),
            Step::Makes(100, 66),
            Step::Writes(
                100,
                "t100 unlock h256\nt100 = woken 0 selected 0 holds 1 end\n",
            ),
        ],
    },
    Row {
        name: "walk_of_66_breaks_once",
        steps: &[
            Step::Adds(66),
            Step::Opens(100, WAKE),
            Step::Makes(100, 71),
            Step::Writes(
                100,
                "t100 unlock h256\nt100 = woken 0 selected 0 holds 2 end\n",
            ),
        ],
    },
    Row {
        name: "entry_that_moves_during_a_break_is_not_called",
        steps: &[
            Step::Adds(66),
            Step::Opens(100, WAKE),
            Step::Makes(100, 68),
            Step::HasSome(BOOKMARK_AT + 100),
            Step::Runs(0, Call::Remove, 3, Some(0)),
            Step::Adds(1),
            Step::Goes(100, 3, None),
            Step::Has(BOOKMARK_AT + 100, 0),
        ],
    },
];

#[test]
fn waits_and_walks(rt: HostRuntime) -> Result<(), Fail> {
    plays_all(&rt, rt.alloc(), ROWS)
}
