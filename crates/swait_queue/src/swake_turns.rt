//! Wakes of simple queues by stretches, for who may not wait.

ghost use Rattle.std.specs.Prelude.{◌≡◌, [], MatchResult};
ghost use Rattle.wait_rule.specs.{Known.Known, PassedLocks.PassesNone};
ghost use Rattle.wq_head.specs.Roused.{IsRousing, RousesNone, tasks_in};
ghost use Rattle.swait_queue.specs.declared.swake_turns.SwakeStage.TheVariants as stages;
ghost use Rattle.swait_queue.specs.SwakeTurns.{HasSwakeStarved, HasSwakeTurned, HoldsForSwake, IsAtSwake, IsFreshSwake, IsSwakeOver, SwakeRests};
ghost use Rattle.swait_queue.specs.SwakeTurns.{FoundOther, passed_by_swake, swake_head};
ghost use Rattle.swait_queue.specs.SimpleWakes.{is_swake_spent, most_of};

use wait_model::heads::head_of;
use wait_model::watches::Watch;
use wait_rule::queues::Passing;
use wait_rule::tries::FailedTries;
use wait_rule::{Domain, Task};
use wq_head::locks::give_back;
use wq_head::{Rousing, draw_lock, lock_turn, select_tries};

/// Where a wake stands between two of its stretches: before it, or with the ticket of its lock drawn.
#[derive(Clone, Copy)]
pub enum SwakeStage {
    First,
    Turn,
}

/// What a stretch of a wake did: another ticket is served, and it goes on at `Turn`; it is over, and has selected so
/// many entries; or `TRIES` tries to wake one task failed, and it does not end.
#[derive(Clone, Copy)]
pub enum SwakeTurn {
    Locked,
    Done(u32),
    Starved(FailedTries),
}

/// The numbers of a wake of a simple queue under way.
#[derive(Clone, Copy)]
pub struct SwakeRun {
    /// The condition, and whether all who wait for it are to be woken, and not the first alone.
    pub cond: u8,
    pub all: bool,
    /// The number of the ticket that is drawn, and the one that was found served last.
    pub ticket: u64,
    pub served: u64,
}

impl SwakeRun {
    /// A wake that has not begun, of condition `cond`, from `FIRST_SIMPLE` on and below `PLAIN_CONDITIONS`: of the
    /// first who waits for it, or of all.
    pub fn new(cond: u8, all: bool) -> SwakeRun
        ensures { IsFreshSwake result cond all }
    {
        SwakeRun {
            cond,
            all,
            ticket: 0,
            served: 0,
        }
    }
}

/// Goes on with a wake by one look at its ticket, and by its hold where that is served, for who may not wait for a
/// lock: an executor, or a caller from another language. It waits for nobody and wakes no thread: `rousing`, in which
/// none is left before, names the tasks that were put asleep and that this stretch has woken, in the order of their
/// wakes, for the caller to rouse. Locked: the ticket is drawn and not served; the wake goes on at `Turn` once another
/// number of the head is served, no head is held, and in between the task makes nothing else. Done: the wake is over,
/// as by `swake_one`, which answers true where this is 1, or by `swake_all`. Starved: the word of one task changed
/// before each of `TRIES` tries to wake it, which no run comes to; the head is held then, and the wake does not end.
/// `passing`, in which no lock is left before, has the one that was given back, for the caller to wake the threads that
/// park for it.
pub fn swake_stretch(
    domain: &Domain,
    task: &mut Task,
    run: &mut SwakeRun,
    stage: SwakeStage,
    rousing: &mut Rousing,
    passing: &mut Passing,
) -> SwakeTurn
    requires of { task.old.domain ≡ domain.now }
    requires passes { PassesNone passing.old }
    requires at { (start : Known) × IsAtSwake start task.old run.old stage }
    requires none { tasks_in rousing.old ≡ [] }
    ensures of { task.new.domain ≡ domain.now }
    ensures turned { (start : Known) → IsAtSwake start task.old run.old stage
        → HasSwakeTurned start task.new run.old run.new result }
    ensures rests { SwakeRests task.new run.new result }
    ensures refused { FoundOther task.new run.new result }
    ensures passes { passing.new.head ≡ passed_by_swake run.new result }
    ensures rouses { IsRousing task.old task.new rousing.new }
{
    draw_turn(domain, task, run, stage);
    let head = head_of(Watch::Plain { cond: run.cond });
    match lock_turn(domain, task, head, run.ticket) {
        Err(served) => {
            run.served = served;
            SwakeTurn::Locked
        }
        Ok(()) => match hold(domain, task, *run, rousing, passing) {
            Ok(selected) => SwakeTurn::Done(selected),
            Err(failed) => SwakeTurn::Starved(failed),
        },
    }
}

/// Draws the ticket of the wake's lock, unless it is drawn.
fn draw_turn(domain: &Domain, task: &mut Task, run: &mut SwakeRun, stage: SwakeStage)
    requires of { task.old.domain ≡ domain.now }
    requires at { (start : Known) × IsAtSwake start task.old run.old stage }
    ensures of { task.new.domain ≡ domain.now }
    ensures fresh { IsFreshSwake run.new run.old.cond run.old.all }
    ensures drawn { (start : Known) → IsAtSwake start task.old run.old stage → IsAtSwake start task.new run.new stages.Turn }
    ensures rouses { RousesNone task.old task.new }
{
    match stage {
        SwakeStage::First => {
            run.ticket = draw_lock(domain, task, head_of(Watch::Plain { cond: run.cond }));
        }
        SwakeStage::Turn => {}
    }
}

/// The hold of a wake: its selection, and the unlock, by which the spent count rises where one was selected of one.
fn hold(
    domain: &Domain,
    task: &mut Task,
    run: SwakeRun,
    rousing: &mut Rousing,
    passing: &mut Passing,
) -> Result<u32, FailedTries>
    requires of { task.old.domain ≡ domain.now }
    requires passes { PassesNone passing.old }
    requires holds { (start : Known) × HoldsForSwake start task.old run }
    requires none { tasks_in rousing.old ≡ [] }
    ensures of { task.new.domain ≡ domain.now }
    ensures over { (start : Known) → HoldsForSwake start task.old run
        → MatchResult result (IsSwakeOver start task.new run.cond run.all) (HasSwakeStarved run.cond task.new) }
    ensures passes { MatchResult result (λ _. passing.new.head ≡ swake_head run) (λ _. PassesNone passing.new) }
    ensures rouses { IsRousing task.old task.new rousing.new }
{
    let head = head_of(Watch::Plain { cond: run.cond });
    let selected = select_tries(domain, task, head, most_of(run.all), rousing)?;
    passing.put(give_back(domain, task, is_swake_spent(run.all, selected)));
    Ok(selected)
}

/// How many entries are to be selected: 0 is all.
fn most_of(all: bool) -> u32
    ensures { result ≡ most_of all }
{
    if all { 0 } else { 1 }
}

/// Whether as many were selected as were asked for.
fn is_swake_spent(all: bool, selected: u32) -> bool
    ensures { result ≡ is_swake_spent all selected }
{
    selected != 0 && selected == most_of(all)
}
