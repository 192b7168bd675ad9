//! What wakes do at heads: by counts, over waiters of which some are exclusive, over more entries than one hold calls,
//! over entries for a bit and for a variable that have one head, and over entries for pages.

use crate::heads::scripts::{Case, Deed, Did, Page, What, play};
use std::test::Fail;
use wait_model::queues::End;
use wait_model::watches::Mode;
use wait_rule::Domain;

/// A waiter that is asleep and not exclusive, an exclusive one, and one that is awake.
const SHARED: Deed = Deed::Queues {
    exclusive: false,
    asleep: true,
};

const ONE: Deed = Deed::Queues {
    exclusive: true,
    asleep: true,
};

const AWAKE: Deed = Deed::Queues {
    exclusive: true,
    asleep: false,
};

/// What a wake does in one hold: it wakes nobody, or calls nobody behind a page that is taken; it wakes one that is not
/// exclusive.
const NOBODY: Did = Did {
    woken: 0,
    selected: 0,
    holds: 1,
    end: End::End,
};

const STOPPED: Did = Did {
    end: End::Stopped,
    ..NOBODY
};

const FREE: Did = Did { woken: 1, ..NOBODY };

/// It wakes one exclusive waiter, and has used up its count; also with a plain waiter before it.
const SPENT: Did = Did {
    woken: 1,
    selected: 1,
    holds: 1,
    end: End::Spent,
};

const BEHIND: Did = Did { woken: 2, ..SPENT };

/// It wakes one plain and two exclusive waiters, and its count is not used up, or is.
const ALL: Did = Did {
    woken: 3,
    selected: 2,
    ..NOBODY
};

const ALL_SPENT: Did = Did {
    end: End::Spent,
    ..ALL
};

/// It hands a page to one, and ends at the next one who waits for it, or with the last entry; or it wakes another one
/// before it.
const HANDED: Did = Did {
    end: End::Stopped,
    ..SPENT
};

const HANDED_LAST: Did = Did {
    end: End::End,
    ..SPENT
};

const HANDED_BEHIND: Did = Did { woken: 2, ..ALL };

const CASES: &[Case] = &[
    // Nobody is there, and the wake makes one hold.
    Case {
        name: "wake_alone",
        script: &[Deed::Wakes(What::Condition, 0, NOBODY)],
    },
    // Count 0 wakes all, 1 and 2 are used up, and of more some is left: it goes by the exclusive waiters alone.
    Case {
        name: "counts_go_by_exclusive_waiters: 0",
        script: &[SHARED, ONE, ONE, Deed::Wakes(What::Condition, 0, ALL)],
    },
    Case {
        name: "counts_go_by_exclusive_waiters: 1",
        script: &[SHARED, ONE, ONE, Deed::Wakes(What::Condition, 1, BEHIND)],
    },
    Case {
        name: "counts_go_by_exclusive_waiters: 2",
        script: &[SHARED, ONE, ONE, Deed::Wakes(What::Condition, 2, ALL_SPENT)],
    },
    Case {
        name: "counts_go_by_exclusive_waiters: 3",
        script: &[SHARED, ONE, ONE, Deed::Wakes(What::Condition, 3, ALL)],
    },
    Case {
        name: "counts_go_by_exclusive_waiters: 255",
        script: &[SHARED, ONE, ONE, Deed::Wakes(What::Condition, 255, ALL)],
    },
    // An exclusive waiter that is awake uses up nothing, in one wake after another, until nobody sleeps.
    Case {
        name: "awake_waiters_use_up_nothing",
        script: &[
            AWAKE,
            ONE,
            ONE,
            Deed::Wakes(What::Condition, 1, SPENT),
            Deed::Wakes(What::Condition, 1, SPENT),
            Deed::Wakes(What::Condition, 1, NOBODY),
        ],
    },
    // A hold calls 65 entries.
    Case {
        name: "walk_ends_with_65",
        script: &[
            Deed::QueuesMany(65),
            Deed::Wakes(What::Condition, 0, NOBODY),
            Deed::Counts {
                entries: 65,
                marks: 0,
            },
        ],
    },
    // It breaks before the next, and the walk goes on in another hold, and leaves all entries and no bookmark.
    Case {
        name: "walk_breaks_over_66",
        script: &[
            Deed::QueuesMany(66),
            Deed::Wakes(What::Condition, 0, Did { holds: 2, ..NOBODY }),
            Deed::Counts {
                entries: 66,
                marks: 0,
            },
        ],
    },
    // A hold that breaks selects nobody, and keeps the count for the next one, which uses it up.
    Case {
        name: "count_is_kept_over_a_break",
        script: &[
            Deed::QueuesMany(66),
            ONE,
            ONE,
            Deed::Wakes(What::Condition, 1, Did { holds: 2, ..SPENT }),
        ],
    },
    // A head is active while it has a member.
    Case {
        name: "active_with_a_member",
        script: &[
            Deed::IsActive(false),
            Deed::Queues {
                exclusive: false,
                asleep: false,
            },
            Deed::IsActive(true),
        ],
    },
    // The wake of a bit passes over the entry in front of its own, and that of the variable wakes this one then, whatever
    // its old value is.
    Case {
        name: "strangers_on_one_head",
        script: &[
            Deed::HaveOneHead,
            Deed::QueuesForBit,
            Deed::QueuesForVariable,
            Deed::Wakes(What::Bit, 0, FREE),
            Deed::Wakes(What::Bit, 0, NOBODY),
            Deed::Wakes(What::Newer, 1, FREE),
            Deed::Wakes(What::Newer, 1, NOBODY),
        ],
    },
    // Of those who wait to take a bit one is selected at a time, behind a stranger that uses up nothing: a wake of a bit
    // uses up its count at the first who can be woken.
    Case {
        name: "lockers_are_selected_one_by_one",
        script: &[
            Deed::LocksBit,
            Deed::LocksBit,
            Deed::QueuesForVariable,
            Deed::Wakes(What::Bit, 1, SPENT),
            Deed::Wakes(What::Bit, 1, SPENT),
            Deed::Wakes(What::Bit, 1, NOBODY),
        ],
    },
    // Who is handed a page counts as woken whether the wake met the task, which has not gone to sleep yet where it is
    // awake, or not; and also where the walk's mode would not meet it.
    Case {
        name: "pages_are_handed_over",
        script: &[
            Deed::IsHanded {
                page: Page::One,
                mode: Mode::Normal,
                asleep: true,
            },
            Deed::IsHanded {
                page: Page::Two,
                mode: Mode::Normal,
                asleep: false,
            },
            Deed::IsHanded {
                page: Page::Three,
                mode: Mode::Interruptible,
                asleep: true,
            },
        ],
    },
    // Of two who wait for a page the first gets it, and the second stops the walk: its entry stays, and stops the next
    // one.
    Case {
        name: "taken_page_stops_the_walk",
        script: &[
            Deed::QueuesForPage(Page::Five),
            Deed::QueuesForPage(Page::Five),
            Deed::Wakes(What::Page(Page::Five), 0, HANDED),
            Deed::Wakes(What::Page(Page::Five), 1, STOPPED),
        ],
    },
    // Entries of kind Bit and Page for one bit: in front of the page's entry the other one is woken, behind it it is not,
    // since the bit is taken by then.
    Case {
        name: "bits_and_pages_on_one_head",
        script: &[
            Deed::LocksPageBit(Page::Seven),
            Deed::QueuesForPage(Page::Seven),
            Deed::Wakes(What::Page(Page::Seven), 0, HANDED_BEHIND),
            Deed::QueuesForPage(Page::Nine),
            Deed::LocksPageBit(Page::Nine),
            Deed::Wakes(What::Page(Page::Nine), 0, HANDED_LAST),
        ],
    },
];

/// Each case in a new Domain.
#[test]
fn wakes_go_by_cases(rt: HostRuntime) -> Result<(), Fail> {
    for case in CASES {
        let (domain, task) = Domain::new(rt.alloc())?;
        play(&rt, &domain, task, case);
    }
    Ok(())
}
