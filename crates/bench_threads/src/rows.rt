//! What each program times, as rows of tables that one function plays: its check takes as long however many rows they
//! have.

use crate::tasks::Retry;
use wait_rule::running::LOOKS;

/// What is timed. Round trips are made in a Domain whose tasks look so often before they park.
pub(crate) enum Timed {
    /// Loads of the own word, and wakes of the own task.
    Steps,
    /// Round trips of two threads by sleeps and wakes.
    Naps(u32, Retry),
    /// Holds of a head by one, two and four threads.
    Holds,
    HoldsOfTwo,
    HoldsOfFour,
    /// Looks for members of a head under its lock, and without it.
    Looks,
    /// Wakes that call so many entries.
    Walks(u8),
    /// Round trips of two threads by conditions, by completions and by semaphores.
    Trips(u32),
    Permits(u32),
    Downs(u32),
    /// One wake of so many sleepers: the call, and until the last of them has gone on.
    Crowd(u8),
    /// Sets of a condition for which nobody waits, and waits for what is set.
    Calls,
    /// Permits of a semaphore that one thread gives back and takes.
    Pairs,
    /// A mutex, and a page, that so many threads take in turn.
    Mutex(u8),
    Page(u8),
    /// A number that two threads hand to and fro under a mutex.
    Hands(u32),
    /// Wakes of a futex on which nobody sleeps.
    FutexWakes,
}

/// How many calls each thread makes where times are asked for, and where none are.
pub(crate) struct Count(pub(crate) u64, pub(crate) u64);

/// A row: the name of its line, that of the second line where two times are found, what is timed, and how often.
pub(crate) struct Row(
    pub(crate) &'static str,
    pub(crate) &'static str,
    pub(crate) Timed,
    pub(crate) &'static Count,
);

/// A part of a program.
pub(crate) enum Part {
    /// So many rounds, each of all rows; one where no times are asked for.
    Rounds(u32, &'static [Row]),
    /// When so many threads came for a page.
    Comings(u8),
}

/// How often each is done.
const ONCE: &Count = &Count(1, 1);

const LOADS: &Count = &Count(20_000_000, 100);

const NAPS: &Count = &Count(5_000, 10);

const CALLS: &Count = &Count(100_000, 100);

const TURNS: &Count = &Count(20_000, 100);

const SURVEYS: &Count = &Count(2_000, 10);

const PAIRS: &Count = &Count(100_000, 10);

const SHARED: &Count = &Count(20_000, 10);

const HANDS: &Count = &Count(4_000, 10);

/// The steps of a Domain.
pub(crate) const STEPS: &[Part] = &[Part::Rounds(
    1,
    &[
        Row("load", "exchange", Timed::Steps, LOADS),
        Row("trip_parked", "", Timed::Naps(0, Retry::Pause), NAPS),
        Row("trip_yielding", "", Timed::Naps(0, Retry::Yield), NAPS),
        Row("trip_looked", "", Timed::Naps(LOOKS, Retry::Pause), NAPS),
    ],
)];

/// The lock of a head.
pub(crate) const HEADS: &[Part] = &[Part::Rounds(
    40,
    &[
        Row("lock", "", Timed::Holds, CALLS),
        Row("two", "", Timed::HoldsOfTwo, TURNS),
        Row("four", "", Timed::HoldsOfFour, TURNS),
        Row("look", "active", Timed::Looks, SURVEYS),
        Row("wake_1", "", Timed::Walks(1), SURVEYS),
        Row("wake_8", "", Timed::Walks(8), SURVEYS),
        Row("wake_65", "", Timed::Walks(65), SURVEYS),
    ],
)];

/// Round trips by conditions and completions.
const PARKED: Row = Row("trip_parked", "", Timed::Trips(0), SURVEYS);

const LOOKED: Row = Row("trip_looked", "", Timed::Trips(LOOKS), SURVEYS);

const PERMITS: Row = Row("permit_parked", "", Timed::Permits(0), SURVEYS);

/// They alone, and what else there is of conditions.
pub(crate) const TRIPS: &[Part] = &[Part::Rounds(10, &[PARKED, LOOKED, PERMITS])];

pub(crate) const EVENTS: &[Part] = &[Part::Rounds(
    10,
    &[
        PARKED,
        LOOKED,
        PERMITS,
        Row("wake_8", "last_8", Timed::Crowd(8), ONCE),
        Row("wake_64", "last_64", Timed::Crowd(64), ONCE),
        Row("set", "wait", Timed::Calls, CALLS),
    ],
)];

/// A page that one, two and four threads take in turn.
pub(crate) const PAGES: &[Part] = &[
    Part::Rounds(10, &[Row("lock_1", "", Timed::Page(1), SHARED)]),
    Part::Comings(1),
    Part::Rounds(10, &[Row("lock_2", "", Timed::Page(2), SHARED)]),
    Part::Comings(2),
    Part::Rounds(10, &[Row("lock_4", "", Timed::Page(4), SHARED)]),
    Part::Comings(4),
];

/// A mutex and a condition variable of futexes, and wakes of a futex.
pub(crate) const FUTEXES: &[Part] = &[Part::Rounds(
    10,
    &[
        Row("lock", "", Timed::Mutex(1), CALLS),
        Row("two", "", Timed::Mutex(2), SHARED),
        Row("four", "", Timed::Mutex(4), SHARED),
        Row("hand_parked", "", Timed::Hands(0), HANDS),
        Row("hand_looked", "", Timed::Hands(LOOKS), HANDS),
        Row("wake_none", "", Timed::FutexWakes, CALLS),
    ],
)];

/// Permits of semaphores.
pub(crate) const SEMS: &[Part] = &[Part::Rounds(
    10,
    &[
        Row("sem_pair", "", Timed::Pairs, PAIRS),
        Row("sem_parked", "", Timed::Downs(0), SURVEYS),
    ],
)];

/// All of them, for a run in which no times are asked for.
pub(crate) const ALL: &[&[Part]] = &[STEPS, HEADS, EVENTS, PAGES, SEMS, FUTEXES];

/// How many threads make as many calls as the row says.
pub(crate) fn threads_of(timed: &Timed) -> u64 {
    match timed {
        Timed::HoldsOfTwo => 2,
        Timed::HoldsOfFour => 4,
        Timed::Mutex(threads) | Timed::Page(threads) => u64::from(*threads),
        _ => 1,
    }
}
