//! The wake of a head: its walk goes over the queue in one hold or in several, and waits for nobody in between.

ghost use Rattle.std.specs.Prelude.{◌≡◌, ◌<◌, ◌^◌, []};
ghost use Rattle.wait_model.specs.Watches.{head_of};
ghost use Rattle.wait_rule.specs.{Known.Known, PassedLocks.PassesNone, Says.IsUp, Queues.IsIdle};
ghost use Rattle.wait_rule.specs.Stays.{Carries, StaysOwing, wake_all_change};
ghost use Rattle.wq_head.specs.declared.wakes.WakeStage.{WakeStage};
ghost use Rattle.wq_head.specs.Roused.{IsRousing, RousesNone, tasks_in};
ghost use Rattle.wq_head.specs.Walks.{IsFull, MayWake, HasWoken, HasEnded};
ghost use Rattle.wq_head.specs.Turns.{InWalk, IsAtWake, IsServed, IsTurnStage, HasTurned, WakeRests, first_counts};
ghost use Rattle.wq_head.specs.Turns.{IsRefused, drawn_by, passed_by_wake};

use crate::locks::{give_back, pause};
use crate::rousing::Rousing;
use crate::walks::{Hold, break_off, walk_hold, walked};
use std::hint::spin_loop;
use std::sync::Wait;
use wait_model::heads::head_of;
use wait_model::queues::{End, Walked, Walking};
use wait_model::watches::{Aim, Mode, Watch};
use wait_rule::queues::{Passing, draw, lock_step, mark_member, serving_load};
use wait_rule::tries::FailedTries;
use wait_rule::{Domain, Task};

/// Where a wake stands between two of its holds: before the first one, or after a break, with a bookmark out, before
/// the next one. At `FirstTurn` and `NextTurn` the ticket of the lock is drawn.
#[derive(Clone, Copy)]
pub enum WakeStage {
    First,
    FirstTurn,
    Next,
    NextTurn,
}

/// What a turn of a wake did: the lock is not its turn yet; a hold broke, and the bookmark is out; the wake is over; or
/// `TRIES` tries to wake one task failed, and it does not end.
#[derive(Clone, Copy)]
pub enum WakeTurn {
    Locked(WakeStage),
    Broken,
    Done(Walked),
    Starved(FailedTries),
}

/// The numbers of a wake under way.
#[derive(Clone, Copy)]
pub struct WakeRun {
    /// The watch, one with a full head, the mode, and the count with which the wake began.
    pub aim: Aim,
    /// The number of the ticket that is drawn, and the one that was found served last.
    pub ticket: u64,
    pub served: u64,
    /// The place from which the walk goes on, and its counts.
    pub walk: Walking,
}

impl WakeRun {
    /// A wake that has not begun, of a watch with a full head: a plain condition below `FIRST_SIMPLE`, a bit, or a
    /// variable.
    pub fn new(watch: Watch, mode: Mode, count: u32) -> WakeRun
        ensures aim { result.aim ≡ record { watch = watch; mode = mode; count = count } }
        ensures small { result.aim.count < 2 ^ 32 }
    {
        let aim = Aim { watch, mode, count };
        WakeRun {
            aim,
            ticket: 0,
            served: 0,
            walk: begun(aim),
        }
    }
}

/// A walk before its first call.
fn begun(aim: Aim) -> Walking
    ensures { result ≡ first_counts aim }
{
    Walking {
        place: 0,
        woken: 0,
        selected: 0,
        left: aim.count,
        spent: false,
        calls: 0,
        holds: 1,
    }
}

/// Calls the functions of the entries that wait for `watch`, in the order of the queue (kernel/sched/wait.c,
/// `__wake_up_common_lock`), and answers how many of them answered yes, and how many of those were exclusive. The
/// watch is a plain condition below `FIRST_SIMPLE`, a bit (`__wake_up_bit` in kernel/sched/wait_bit.c), or a variable,
/// whatever its old value is (`wake_up_var` there). Entries for others that have the same head are passed over, and
/// each counts as called for a break alone. Who wakes for a bit has no exclusive entry of kind Bit queued, which would
/// wait for that very wake. A count of 0 stops at no entry. Another is lowered by one at each
/// exclusive entry whose task was woken, and where none is left the walk ends: it answers `Spent`, and raises the
/// spent count of the head. An entry for a page is exclusive, and counts as woken where the walk has taken the page for
/// its task and handed it over, whatever the state of that task; the first that finds the page taken ends the walk,
/// which answers `Stopped`. A hold that has called more than `BREAK` entries puts a bookmark before the next member,
/// gives the lock back and goes on there, with what is left of the count. Afterwards the task owes no wake of the
/// watch to the tasks in the states of the mode, and leaves none of them asleep (`laws::wake_loses_none`).
pub fn wake<R: Wait>(
    rt: &R,
    domain: &Domain,
    task: &mut Task,
    watch: Watch,
    mode: Mode,
    count: u32,
) -> Walked
    requires of { task.old.domain ≡ domain.now }
    requires up { IsUp task.old }
    requires idle { IsIdle task.old }
    requires full { IsFull watch }
    requires tries { MayWake watch task.old }
    ensures woken { HasWoken task.old task.new (record { watch = watch; mode = mode; count = count }) result }
    ensures ended { HasEnded task.old task.new (record { watch = watch; mode = mode; count = count }) }
    ensures idle { IsIdle task.new }
    ensures up { IsUp task.new }
    ensures carries { Carries (wake_all_change watch mode task.new.at) task.old task.new }
    ensures owing { StaysOwing task.old task.new }
{
    let head = head_of(watch);
    let mut rousing = Rousing::new();
    let mut passing = Passing::none();
    let mut run = WakeRun::new(watch, mode, count);
    let mut stage = WakeStage::First;
    let mut looks = 0;
    for _ in rt.forever() {
        let turn = wake_stretch(domain, task, &mut run, stage, &mut rousing, &mut passing);
        passing.wake(domain);
        rousing.rouse_all(domain);
        match turn {
            WakeTurn::Locked(next) => {
                looks = pause(rt, domain, head, run.served, looks);
                stage = next;
            }
            WakeTurn::Broken => {
                looks = 0;
                stage = WakeStage::Next;
            }
            WakeTurn::Done(walked) => {
                passing.end();
                rousing.end();
                return walked;
            }
            WakeTurn::Starved(_) => {
                for _ in rt.forever() {
                    spin_loop();
                }
                unreachable!()
            }
        }
    }
    unreachable!()
}

/// Goes on with a wake by one hold at most, for who may not wait for a lock: an executor, or a caller from another
/// language. It waits for nobody and wakes no thread: `rousing`, in which none is left before, names the tasks that
/// were put asleep and that this turn has woken, in the order of their wakes, for the caller to rouse. It ends with no
/// head held. Locked: the ticket of the lock is drawn and not served, and the wake goes on at the stage that is
/// answered once another number of the head is served. Broken: the hold has called more than `BREAK` entries, and its
/// bookmark is out; the wake goes on at `Next`, at once. Done: the wake is over, with the answer of `wake`. In between
/// the task makes nothing else. Starved: the word of one task changed before each of 2^64 - 1 tries to wake it, as the
/// count says, which no run comes to; the head is held then, and the wake does not end. `passing`, in which no lock is
/// left before, has the one that was given back, for the caller to wake the threads that park for it.
pub fn wake_stretch(
    domain: &Domain,
    task: &mut Task,
    run: &mut WakeRun,
    stage: WakeStage,
    rousing: &mut Rousing,
    passing: &mut Passing,
) -> WakeTurn
    requires of { task.old.domain ≡ domain.now }
    requires passes { PassesNone passing.old }
    requires at { (start : Known) × IsAtWake start task.old run.old stage }
    requires none { tasks_in rousing.old ≡ [] }
    ensures of { task.new.domain ≡ domain.now }
    ensures turned { (start : Known) → IsAtWake start task.old run.old stage
        → HasTurned start task.new run.old run.new result }
    ensures rests { WakeRests task.new run.new result }
    ensures refused { IsRefused task.old task.new run.new stage result }
    ensures passes { passing.new.head ≡ passed_by_wake run.new result }
    ensures rouses { IsRousing task.old task.new rousing.new }
{
    let head = head_of(run.aim.watch);
    let at = draw_turn(domain, task, run, stage, head);
    run.served = serving_load(domain, task, head);
    if run.served != run.ticket {
        return WakeTurn::Locked(at);
    }
    begin_hold(domain, task, run, at, head);
    hold(domain, task, run, rousing, passing)
}

/// Draws the ticket of the next hold's lock, unless it is drawn, and answers the stage at which it is.
fn draw_turn(
    domain: &Domain,
    task: &mut Task,
    run: &mut WakeRun,
    stage: WakeStage,
    head: u16,
) -> WakeStage
    requires of { task.old.domain ≡ domain.now }
    requires at { (start : Known) × IsAtWake start task.old run.old stage }
    requires head { head ≡ head_of run.old.aim.watch }
    ensures of { task.new.domain ≡ domain.now }
    ensures aim { run.new.aim ≡ run.old.aim }
    ensures drawn { (start : Known) → IsAtWake start task.old run.old stage → IsAtWake start task.new run.new result }
    ensures turn { IsTurnStage result }
    ensures draws { task.new ≡ drawn_by task.old run.new stage }
    ensures rouses { RousesNone task.old task.new }
{
    match stage {
        WakeStage::First => {
            run.ticket = draw(domain, task, head);
            WakeStage::FirstTurn
        }
        WakeStage::Next => {
            run.ticket = draw(domain, task, head);
            WakeStage::NextTurn
        }
        WakeStage::FirstTurn => WakeStage::FirstTurn,
        WakeStage::NextTurn => WakeStage::NextTurn,
    }
}

/// Takes the lock by the ticket that was found served. Behind a break it takes the bookmark out, and goes on where that
/// stood, with what is left of the count.
fn begin_hold(domain: &Domain, task: &mut Task, run: &mut WakeRun, stage: WakeStage, head: u16)
    requires of { task.old.domain ≡ domain.now }
    requires head { head ≡ head_of run.old.aim.watch }
    requires served { (start : Known) × IsServed start task.old run.old stage }
    ensures of { task.new.domain ≡ domain.now }
    ensures aim { run.new.aim ≡ run.old.aim }
    ensures walks { (start : Known) → IsServed start task.old run.old stage
        → InWalk run.old.aim start task.new run.new.walk }
    ensures rouses { RousesNone task.old task.new }
{
    match stage {
        WakeStage::NextTurn => {
            let rest = Aim {
                watch: run.aim.watch,
                mode: run.aim.mode,
                count: run.walk.left,
            };
            lock_step(domain, task, head, Some(rest));
            mark_member(domain, task, 0);
        }
        _ => {
            lock_step(domain, task, head, Some(run.aim));
            run.walk = begun(run.aim);
        }
    }
}

/// Makes a hold whose lock is taken, to its end or its break.
fn hold(
    domain: &Domain,
    task: &mut Task,
    run: &mut WakeRun,
    rousing: &mut Rousing,
    passing: &mut Passing,
) -> WakeTurn
    requires of { task.old.domain ≡ domain.now }
    requires passes { PassesNone passing.old }
    requires full { IsFull run.old.aim.watch }
    requires small { run.old.aim.count < 2 ^ 32 }
    requires walks { (start : Known) × InWalk run.old.aim start task.old run.old.walk }
    requires none { tasks_in rousing.old ≡ [] }
    ensures of { task.new.domain ≡ domain.now }
    ensures turned { (start : Known) → IsUp start → IsIdle start → MayWake run.old.aim.watch start
        → InWalk run.old.aim start task.old run.old.walk → HasTurned start task.new run.old run.new result }
    ensures refused { (k : Known) (s : WakeStage) → IsRefused k task.new run.new s result }
    ensures passes { passing.new.head ≡ passed_by_wake run.new result }
    ensures rouses { IsRousing task.old task.new rousing.new }
{
    match walk_hold(domain, task, run.aim, run.walk, rousing) {
        Hold::Passed(walk) => {
            passing.put(give_back(domain, task, false));
            WakeTurn::Done(walked(walk, End::End))
        }
        Hold::Spent(walk) => {
            passing.put(give_back(domain, task, true));
            WakeTurn::Done(walked(walk, End::Spent))
        }
        Hold::Stopped(walk) => {
            passing.put(give_back(domain, task, false));
            WakeTurn::Done(walked(walk, End::Stopped))
        }
        Hold::Breaks(walk, before) => {
            run.walk = break_off(domain, task, run.aim, walk, before, passing);
            WakeTurn::Broken
        }
        Hold::Starved(failed) => WakeTurn::Starved(failed),
    }
}
