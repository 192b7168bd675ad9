//! Entries for pages: a walk takes the page for the first task that waits for it and hands it over, whatever that task
//! does by then, and the next one stops the walk.

ghost use Rattle.std.specs.Prelude.{◌≡◌, ◌<◌};
ghost use Rattle.wait_model.specs.{declared.layout.TheConstants.BIT_WORDS, Tasks.IsState};
ghost use Rattle.wq_head.specs.Readied.{IsUpAndIdle};
ghost use Rattle.head_tests.specs.Ready.{IsFreeIn, IsReadyIn};

use crate::heads::errands::{Errand, run_two};
use crate::heads::scripts::Did;
use crate::heads::sleepers::sees_queued;
use crate::heads::strangers::{wake_for, wakes};
use crate::scenes::{Batch, want_often};
use std::sync::Wait;
use std::test::Fail;
use std::thread;
use std::thread::Threads;
use test_tasks::late::yield_often;
use wait_model::heads::head_of;
use wait_model::layout::{HANDED, UNINTERRUPTIBLE};
use wait_model::queues::End;
use wait_model::watches::{Mode, Watch};
use wait_rule::pages::flag_load;
use wait_rule::queues::entry_load;
use wait_rule::tasks::set_state;
use wait_rule::{Domain, Task, schedule};
use wq_head::adds::add_for_page;
use wq_head::locks::{lock, unlock};

/// How many rounds the test with threads makes.
const ROUNDS: u32 = 300;

/// Queues the own entry for a page, and stores a state in the same hold: false where there is no place.
pub(crate) fn queue_page<R: Wait>(
    rt: &R,
    domain: &Domain,
    task: &mut Task,
    page: u8,
    state: u32,
) -> bool
    requires ready { IsReadyIn domain.now task.old }
    requires page { page < BIT_WORDS }
    requires state { IsState state }
    ensures there { IsFreeIn domain.now task.new }
{
    lock(rt, domain, task, head_of(Watch::Bit { word: page, bit: 0 }));
    let queued = add_for_page(domain, task, page).is_ok();
    set_state(domain, task, state);
    unlock(rt, domain, task, false);
    queued
}

/// Whether the own entry is off, and the own flag word tells that a page was taken for the task.
fn was_handed(domain: &Domain, task: &mut Task) -> bool
    requires there { IsFreeIn domain.now task.old }
{
    let number = task.number();
    let queued = entry_load(domain, task, number, 0).queued();
    flag_load(domain, task, 0) == HANDED && !queued
}

/// A walk of this mode hands the page over to a new task that has stored this state.
pub(crate) fn hands_to<R: Wait>(
    rt: &R,
    domain: &Domain,
    task: &mut Task,
    page: u8,
    mode: Mode,
    state: u32,
) -> bool
    requires ready { IsReadyIn domain.now task.old }
    requires page { page < BIT_WORDS }
    requires state { IsState state }
    ensures ready { IsReadyIn domain.now task.new }
{
    match task.fork(domain, 0) {
        Ok(mut other) => {
            let queued = queue_page(rt, domain, &mut other, page, state);
            let did = Did {
                woken: 1,
                selected: 1,
                holds: 1,
                end: End::Spent,
            };
            let watch = Watch::Bit { word: page, bit: 0 };
            let walked = wakes(rt, domain, task, watch, mode, 1, did);
            queued && walked && was_handed(domain, &mut other)
        }
        Err(_) => false,
    }
}

/// Sleeps once its entry for page 11 is queued: true where the page was handed over to it as it was woken.
pub(crate) fn sleep_for<R: Wait>(rt: &R, domain: &Domain, mut task: Task) -> bool
    requires ready { IsReadyIn domain.now task }
{
    if !queue_page(rt, domain, &mut task, 11, UNINTERRUPTIBLE) {
        return false;
    }
    schedule(rt, domain, &mut task);
    flag_load(domain, &mut task, 0) == HANDED
}

/// Looks until the entry of task `who` is queued.
fn look_for<R: Wait>(rt: &R, domain: &Domain, task: &mut Task, who: u8)
    requires of { task.old.domain ≡ domain.now }
    requires rests { IsUpAndIdle task.old }
{
    for _ in rt.forever() {
        if sees_queued(domain, task, who) {
            return;
        }
        thread::yield_now();
    }
}

/// A new task looks so.
fn other_looks<R: Wait>(rt: &R, domain: &Domain, task: &mut Task, who: u8)
    requires ready { IsReadyIn domain.now task.old }
    ensures ready { IsReadyIn domain.now task.new }
{
    if let Ok(mut looker) = task.fork(domain, 0) {
        look_for(rt, domain, &mut looker, who);
    }
}

/// Wakes for page 11 once another task has seen that the entry of task `who` is queued, after so many yields: true where
/// it has woken one, and used up its count.
pub(crate) fn wake_once<R: Wait>(
    rt: &R,
    domain: &Domain,
    mut task: Task,
    who: u8,
    yields: u32,
) -> bool
    requires ready { IsReadyIn domain.now task }
{
    other_looks(rt, domain, &mut task, who);
    yield_often(yields);
    let watch = Watch::Bit { word: 11, bit: 0 };
    let walked = wake_for(rt, domain, &mut task, watch, Mode::Normal, 1);
    walked.woken == 1 && matches!(walked.end, End::Spent)
}

/// A new task sleeps for the page, and another one hands it over after so many yields: whether the first was told, and
/// one was woken.
pub(crate) fn hand_to_sleeper<R: Threads + Wait + Sync>(
    rt: &R,
    domain: &Domain,
    mut task: Task,
    yields: u32,
) -> [bool; 2]
    requires ready { IsReadyIn domain.now task }
{
    let Ok(sleeper) = task.fork(domain, 0) else {
        return [false; 2];
    };
    let who = sleeper.number();
    let errands = (Errand::Sleeps, Errand::Hands { who, yields });
    let (told, woken) = run_two(rt, domain, sleeper, task, errands);
    [told == 1, woken == 1]
}

/// Whenever the walk comes, while the task goes to sleep or once it sleeps, it is told and wakes up.
#[test]
fn sleepers_are_handed_their_page(rt: HostRuntime) -> Result<(), Fail> {
    want_often(&rt, rt.alloc(), Batch::HandsPages, ROUNDS)
}
