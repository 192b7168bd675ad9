//! What a test makes the tasks of a new Domain do, of which what stands in the module of its calls: the Domain and its tasks
//! are made here for all of them, since the proof of each test takes as long as it has calls and ways out.

use crate::heads::leaving::{waiter_wakes, waker_ends, woken_leaves};
use crate::heads::listed::queues_two;
use crate::heads::pages::hand_to_sleeper;
use crate::heads::sleepers::walk_over_three;
use crate::heads::turns::{waits_its_turn, wake_over_66, wake_sleeper, wake_waits};
use crate::heads::{Place, adds, holds_twice, removes_added};
use crate::steps::pages::gets_page;
use crate::steps::parks::{three_go, two_go};
use crate::steps::pipes::{claim_ends, pass_by_both};
use crate::steps::queues::{
    clears_flag, comes_and_leaves, passes_twice, publish_and_load, sees_no_bits_twice,
    serves_second, spends_count,
};
use crate::steps::tallies::count_up;
use crate::steps::{
    cuts_off_all, gives_share, goes_alone, meets_by_mode, stops_sleeps, takes_fatal, tries_once,
};
use crate::words::is_at;
use std::alloc::Global;
use std::process::Abort;
use std::sync::Wait;
use std::test::Fail;
use std::thread::Threads;
use test_tasks::wants::all_so;
use wait_model::watches::Kind;
use wait_rule::Domain;

/// What the first task does, which shows one thing.
#[derive(Clone, Copy)]
pub(crate) enum Alone {
    HoldsTwice,
    RemovesAdded,
    WakesOver66,
    WakesSleeper,
    GoesAlone,
    CutsOffAll,
    PassesTwice,
    ClearsFlag,
    ComesAndLeaves,
    SpendsCount,
    Sums,
    SumsWrap,
}

/// Wants it to be so.
pub(crate) fn want<R: Wait>(rt: &R, alloc: Global, alone: Alone) -> Result<(), Fail> {
    let (domain, mut task) = Domain::new(alloc)?;
    let so = match alone {
        Alone::HoldsTwice => holds_twice(rt, &domain, &mut task),
        Alone::RemovesAdded => removes_added(rt, &domain, &mut task),
        Alone::WakesOver66 => wake_over_66(rt, &domain, &mut task),
        Alone::WakesSleeper => wake_sleeper(rt, &domain, &mut task),
        Alone::GoesAlone => goes_alone(rt, &domain, &mut task),
        Alone::CutsOffAll => cuts_off_all(&domain, &mut task),
        Alone::PassesTwice => passes_twice(&domain, &mut task),
        Alone::ClearsFlag => clears_flag(&domain, &mut task),
        Alone::ComesAndLeaves => comes_and_leaves(&domain, &mut task),
        Alone::SpendsCount => spends_count(rt, &domain, &mut task),
        Alone::Sums => is_at(count_up(&domain, &mut task, 127, 5, 7), 12),
        Alone::SumsWrap => is_at(count_up(&domain, &mut task, 0, 5, u64::MAX), 4),
    };
    all_so(&[so])
}

/// What it does, which shows several.
#[derive(Clone, Copy)]
pub(crate) enum Seen {
    AddsInFront,
    AddsAtTail,
    AddsWithPriority,
    GivesShare,
    StopsSleeps,
    Publishes,
    PassesCells,
}

/// Wants all of them to be so.
pub(crate) fn want_all<R: Wait>(rt: &R, alloc: Global, seen: Seen) -> Result<(), Fail> {
    let (domain, mut task) = Domain::new(alloc)?;
    match seen {
        Seen::AddsInFront => all_so(&adds(rt, &domain, &mut task, Place::Front)),
        Seen::AddsAtTail => all_so(&adds(rt, &domain, &mut task, Place::Tail)),
        Seen::AddsWithPriority => all_so(&adds(rt, &domain, &mut task, Place::Prior)),
        Seen::GivesShare => all_so(&gives_share(&domain, &mut task)),
        Seen::StopsSleeps => {
            all_so(&stops_sleeps(rt, &domain, &mut task))?;
            all_so(&takes_fatal(&domain, &mut task))
        }
        Seen::Publishes => all_so(&publish_and_load(&domain, &mut task)),
        Seen::PassesCells => all_so(&pass_by_both(&domain, &mut task)),
    }
}

/// What it does beside another one.
#[derive(Clone, Copy)]
pub(crate) enum Beside {
    WaitsItsTurn,
    WakeWaits,
    GetsPage,
    SeesNoBits,
    ServesSecond,
    Tries,
    MeetsByMode,
    ClaimsEnds,
    QueuesTwo,
}

/// Wants all that it shows to be so.
pub(crate) fn want_beside<R: Wait>(rt: &R, alloc: Global, beside: Beside) -> Result<(), Fail> {
    let (domain, mut task) = Domain::new(alloc)?;
    let mut other = task.fork(&domain, 0)?;
    let (one, two) = (&mut task, &mut other);
    match beside {
        Beside::WaitsItsTurn => all_so(&[waits_its_turn(rt, &domain, one, two)]),
        Beside::WakeWaits => all_so(&[wake_waits(rt, &domain, one, two)]),
        Beside::GetsPage => all_so(&[gets_page(rt, &domain, one, two)]),
        Beside::SeesNoBits => all_so(&[sees_no_bits_twice(&domain, one, two)]),
        Beside::ServesSecond => all_so(&[serves_second(&domain, one, two)]),
        Beside::Tries => all_so(&tries_once(&domain, one, two)),
        Beside::MeetsByMode => all_so(&meets_by_mode(rt, &domain, one, two)),
        Beside::ClaimsEnds => all_so(&claim_ends(&domain, one, two)),
        Beside::QueuesTwo => all_so(&queues_two(rt, &domain, one, two)),
    }
}

/// What another one does, which is joined then.
#[derive(Clone, Copy)]
pub(crate) enum Joined {
    Waker,
    WakingWaiter,
    WokenWaiter,
    WokenDefault,
}

/// Wants all that it shows to be so.
pub(crate) fn want_joined<R: Abort + Wait>(
    rt: &R,
    alloc: Global,
    joined: Joined,
) -> Result<(), Fail> {
    let (domain, mut task) = Domain::new(alloc)?;
    let other = task.fork(&domain, 0)?;
    match joined {
        Joined::Waker => all_so(&[waker_ends(rt, &domain, &mut task, other)]),
        Joined::WakingWaiter => all_so(&[waiter_wakes(rt, &domain, &mut task, other)]),
        Joined::WokenWaiter => {
            all_so(&woken_leaves(rt, &domain, &mut task, other, Kind::Autoremove))
        }
        Joined::WokenDefault => {
            all_so(&woken_leaves(rt, &domain, &mut task, other, Kind::Default))
        }
    }
}

/// What tasks do in threads of their own, in Domains whose tasks park at once when they are put asleep.
#[derive(Clone, Copy)]
pub(crate) enum Batch {
    TwoGo,
    ThreeGo,
    WalksOverArrivals,
    WalksOverSleepers,
    HandsPages,
}

/// Wants all that it shows to be so in each of so many rounds, each in a Domain of its own.
pub(crate) fn want_often<R: Threads + Wait + Sync>(
    rt: &R,
    alloc: Global,
    batch: Batch,
    rounds: u32,
) -> Result<(), Fail> {
    for round in 0..rounds {
        let (domain, task) = Domain::with_looks(alloc, 0)?;
        match batch {
            Batch::TwoGo => all_so(&two_go(rt, &domain, task)),
            Batch::ThreeGo => all_so(&three_go(rt, &domain, task)),
            Batch::WalksOverArrivals => walk_over_three(rt, &domain, task, 0, round % 100),
            Batch::WalksOverSleepers => walk_over_three(rt, &domain, task, 100_000, round % 20),
            Batch::HandsPages => all_so(&hand_to_sleeper(rt, &domain, task, round % 20)),
        }?;
    }
    Ok(())
}
