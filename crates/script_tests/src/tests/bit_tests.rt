use crate::tests::steps::{Row, Step, plays_all};
use std::test::Fail;
use wait_model::calls::Call;
use wait_model::layout::{CONDITION_AT, ENTRY_AT, FIRST_BIT_WORD};
use wait_model::tasks::SleepState;

/// Bit 63 of the last bit word, and its word.
const TRY: Call = Call::TryBit { word: 127, bit: 63 };

const CLEAR: Call = Call::ClearBit { word: 127, bit: 63 };

const TAKE: Call = Call::LockBit {
    word: 127,
    bit: 63,
    state: SleepState::Uninterruptible,
};

const WORD: u32 = CONDITION_AT + FIRST_BIT_WORD as u32 + 127;

const WAIT: Call = Call::WaitVar {
    var: 0,
    old: 0,
    state: SleepState::Uninterruptible,
};

const ROWS: &[Row] = &[
    Row {
        name: "a_bit_is_cleared_by_the_task_that_keeps_it",
        steps: &[
            Step::Refuses(1, CLEAR, "t1 refused 4\n"),
            Step::Runs(1, TRY, 1, Some(1)),
            Step::Has(WORD, 1 << 63),
            Step::Runs(2, TRY, 1, Some(0)),
            Step::Refuses(2, CLEAR, "t2 refused 4\n"),
            Step::Runs(1, CLEAR, 2, None),
            Step::Has(WORD, 0),
            Step::Refuses(1, CLEAR, "t1 refused 4\n"),
        ],
    },
    Row {
        name: "the_last_task_keeps_a_bit_until_it_clears_it",
        steps: &[
            Step::Refuses(255, CLEAR, "t255 refused 4\n"),
            Step::Runs(255, TRY, 1, Some(1)),
            Step::Refuses(254, CLEAR, "t254 refused 4\n"),
            Step::Runs(255, CLEAR, 2, None),
            Step::Refuses(255, CLEAR, "t255 refused 4\n"),
        ],
    },
    Row {
        name: "a_clear_wakes_one_that_waits_to_take_the_bit",
        steps: &[
            Step::Runs(1, TRY, 1, Some(1)),
            Step::Opens(2, TAKE),
            Step::GoesOn(2, 0, None),
            Step::Opens(1, CLEAR),
            Step::GoesOn(1, 2, None),
            Step::GoesOn(2, 0, Some(0)),
            Step::Has(WORD, 1 << 63),
            Step::Refuses(1, CLEAR, "t1 refused 4\n"),
            Step::Runs(2, CLEAR, 2, None),
            Step::Has(WORD, 0),
        ],
    },
    Row {
        name: "a_look_for_members_names_no_word",
        steps: &[
            Step::Opens(0, WAIT),
            Step::GoesOn(0, 0, None),
            Step::HasSome(ENTRY_AT),
            Step::Runs(1, TRY, 1, Some(1)),
            Step::Runs(1, CLEAR, 2, None),
            Step::Looked(0, false),
            Step::Opens(1, Call::SetVar { var: 0, value: 7 }),
            Step::GoesOn(1, 2, None),
            Step::Looked(0, true),
            Step::Has(0, 0),
        ],
    },
];

#[test]
fn bits_are_kept_by_tasks(rt: HostRuntime) -> Result<(), Fail> {
    plays_all(&rt, rt.alloc(), ROWS)
}
