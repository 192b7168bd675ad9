use crate::tests::steps::{Row, Step, plays_all};
use std::test::Fail;
use wait_model::calls::Call;
use wait_model::layout::{CONDITION_AT, ENTRY_AT, FIRST_BIT_WORD, FLAG_AT, HANDED};
use wait_model::tasks::SleepState;

/// The last page, whose head is 158, and its word.
const TRY: Call = Call::TryBit { word: 127, bit: 0 };

const CLEAR: Call = Call::ClearBit { word: 127, bit: 0 };

const WORD: u32 = CONDITION_AT + FIRST_BIT_WORD as u32 + 127;

const LOCK: Call = Call::LockPage {
    word: 127,
    state: SleepState::Interruptible,
};

/// The entry word and the flag word of task 2.
const ENTRY: u32 = ENTRY_AT + 4;

const FLAG: u32 = FLAG_AT + 4;

const RAISE: Call = Call::Signal {
    who: 2,
    fatal: false,
};

const ROWS: &[Row] = &[
    Row {
        name: "a_free_page_is_locked_by_its_first_exchange",
        steps: &[
            Step::Runs(2, LOCK, 1, Some(0)),
            Step::Has(WORD, 1),
            Step::Runs(2, CLEAR, 2, None),
            Step::Has(WORD, 0),
        ],
    },
    Row {
        name: "a_page_is_handed_to_the_task_that_waits_for_it",
        steps: &[
            Step::Runs(1, TRY, 1, Some(1)),
            Step::Runs(2, LOCK, 10, None),
            Step::Opens(1, CLEAR),
            Step::Says(
                1,
                "clear b127.0; active h158 yes; lock h158; load b127 0; tas b127.0 0 t2",
            ),
            Step::Has(WORD, 1),
            Step::Has(FLAG, 0),
            Step::Says(1, "handed t2"),
            Step::Has(FLAG, HANDED),
            Step::Says(1, "wake t2 yes; unqueue t2"),
            Step::Has(ENTRY, 0),
            Step::Goes(1, 1, None),
            Step::Refuses(1, CLEAR, "t1 refused 4\n"),
            Step::Refuses(2, CLEAR, "t2 refused 2\n"),
            Step::Goes(2, 6, Some(0)),
            Step::Has(FLAG, 0),
            Step::Has(WORD, 1),
            Step::Runs(2, CLEAR, 2, None),
            Step::Has(WORD, 0),
        ],
    },
    Row {
        name: "a_page_is_tried_again_after_the_entry_is_queued",
        steps: &[
            Step::Runs(1, TRY, 1, Some(1)),
            Step::Opens(2, LOCK),
            Step::Says(2, "tas b127.0 1; unflag; lock h158; queue h158 tail"),
            Step::Opens(1, CLEAR),
            Step::Says(1, "clear b127.0"),
            Step::Says(2, "tas b127.0 0; unqueue t2"),
            Step::Goes(2, 1, Some(0)),
            Step::Goes(1, 1, None),
            Step::Runs(2, CLEAR, 2, None),
        ],
    },
    Row {
        name: "a_signal_ends_a_wait_for_a_page",
        steps: &[
            Step::Runs(1, TRY, 1, Some(1)),
            Step::Runs(2, LOCK, 10, None),
            Step::Runs(3, RAISE, 2, Some(0)),
            Step::Goes(2, 9, Some(-4)),
            Step::Has(ENTRY, 0),
            Step::Refuses(2, CLEAR, "t2 refused 4\n"),
            Step::Runs(1, CLEAR, 2, None),
        ],
    },
    Row {
        name: "a_walk_stops_at_a_page_that_is_set",
        steps: &[
            Step::Runs(1, TRY, 1, Some(1)),
            Step::Runs(2, LOCK, 10, None),
            Step::Runs(3, LOCK, 10, None),
            Step::Opens(1, CLEAR),
            Step::Says(1, "clear b127.0"),
            Step::Runs(4, TRY, 1, Some(1)),
            Step::Goes(1, 4, None),
            Step::HasSome(ENTRY),
            Step::Runs(4, CLEAR, 9, None),
            Step::Goes(2, 6, Some(0)),
        ],
    },
];

#[test]
fn pages_are_handed_on(rt: HostRuntime) -> Result<(), Fail> {
    plays_all(&rt, rt.alloc(), ROWS)
}
