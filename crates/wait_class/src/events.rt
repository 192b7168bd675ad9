//! One event at most of a call that waits, which waits for nobody.

ghost use Rattle.std.specs.Prelude.{◌≡◌, ◌⊎◌, true};
ghost use Rattle.wait_model.specs.declared.layout.TheConstants.{HEADS};
ghost use Rattle.wait_rule.specs.{PassedLocks.PassesNone, Says.history_of};
ghost use Rattle.wait_class.specs.declared.stages.Doing.TheVariants as doing;
ghost use Rattle.wait_class.specs.declared.stages.Turn.TheVariants as turn;
ghost use Rattle.wait_class.specs.Handing.{LastGiven};
ghost use Rattle.wait_class.specs.Tables.{Advances, IsAt, IsStop, SleepsNot, Turned, falls, head_in};

use crate::machines::Machine;
use crate::queueing::own_entry;
use crate::stages::{Added, Doing, Run, Turn};
use wait_model::heads::head_of;
use wait_model::task_words::pending_state;
use wait_model::tasks::Sleep;
use wait_rule::queues::{Passing, cond_load, draw, lock_step, serving_load};
use wait_rule::tasks::{load_own, set_state};
use wait_rule::tries::sleep_try;
use wait_rule::{Domain, Task};
use wq_head::locks::give_back;
use wq_head::remove;

/// The condition is loaded.
#[inline(always)]
fn load_event<C: Machine>(
    domain: &Domain,
    task: &mut Task,
    run: &mut Run<C>,
    stage: C::Stage,
) -> Turn<C::Stage, C::Outcome>
    requires of { task.old.domain ≡ domain.now }
    requires here { C.table.doing stage ≡ doing.Load }
    requires at { IsAt C.table task.old run.old stage }
    ensures turned { Turned C.table task.old task.new run.old run.new stage result }
    ensures falls { falls C.table stage result ≡ true }
    ensures given { LastGiven task.old task.new HEADS }
    ensures awake { SleepsNot task.old task.new }
{
    C::lawful();
    let value = cond_load(domain, task, run.of.watch(stage));
    let next = run.of.loaded_to(stage, value);
    run.of.note(stage, value);
    next
}

/// A ticket of the head is drawn, and the head answered.
#[inline(always)]
fn draw_event<C: Machine>(
    domain: &Domain,
    task: &mut Task,
    run: &mut Run<C>,
    stage: C::Stage,
) -> u16
    requires of { task.old.domain ≡ domain.now }
    requires here { C.table.doing stage ≡ doing.Draw }
    requires at { IsAt C.table task.old run.old stage }
    ensures advances { Advances C.table task.old task.new run.old run.new stage (turn.Again (C.table.drawn_to stage)) }
    ensures still { history_of task.new ≡ history_of task.old }
    ensures failed { run.new.failed ≡ run.old.failed }
    ensures head { result ≡ head_in C.table run.new.of (C.table.drawn_to stage) }
    ensures locks { C.table.doing (C.table.drawn_to stage) ≡ doing.Lock }
    ensures depth { C.table.depth (C.table.drawn_to stage) ≡ C.table.depth stage }
{
    C::lawful();
    let head = head_of(run.of.watch(stage));
    run.ticket = draw(domain, task, head);
    head
}

/// One look whether the ticket is served, and the lock where it is.
#[inline(always)]
fn lock_event<C: Machine>(
    domain: &Domain,
    task: &mut Task,
    run: &mut Run<C>,
    stage: C::Stage,
    head: u16,
) -> Turn<C::Stage, C::Outcome>
    requires of { task.old.domain ≡ domain.now }
    requires here { C.table.doing stage ≡ doing.Lock }
    requires head { head ≡ head_in C.table run.old.of stage }
    requires at { IsAt C.table task.old run.old stage }
    ensures turned { Turned C.table task.old task.new run.old run.new stage result }
    ensures falls { falls C.table stage result ≡ true }
    ensures given { LastGiven task.old task.new HEADS }
    ensures awake { SleepsNot task.old task.new }
{
    C::lawful();
    let found = serving_load(domain, task, head);
    run.served = found;
    if found != run.ticket {
        return Turn::Locked(stage);
    }
    lock_step(domain, task, head, None);
    run.of.next_of(stage)
}

/// The head is given back.
#[inline(always)]
fn unlock_event<C: Machine>(
    domain: &Domain,
    task: &mut Task,
    run: &mut Run<C>,
    stage: C::Stage,
    passing: &mut Passing,
) -> Turn<C::Stage, C::Outcome>
    requires of { task.old.domain ≡ domain.now }
    requires passes { PassesNone passing.old }
    requires here { C.table.doing stage ≡ doing.Unlock }
    requires at { IsAt C.table task.old run.old stage }
    ensures turned { Turned C.table task.old task.new run.old run.new stage result }
    ensures passes { PassesNone passing.new ⊎ IsStop C.table result }
    ensures falls { falls C.table stage result ≡ true }
    ensures given { LastGiven task.old task.new passing.new.head }
    ensures awake { SleepsNot task.old task.new }
{
    C::lawful();
    passing.put(give_back(domain, task, false));
    run.of.next_of(stage)
}

/// A state is stored.
#[inline(always)]
fn state_event<C: Machine>(
    domain: &Domain,
    task: &mut Task,
    run: &mut Run<C>,
    stage: C::Stage,
) -> Turn<C::Stage, C::Outcome>
    requires of { task.old.domain ≡ domain.now }
    requires here { C.table.doing stage ≡ doing.State }
    requires at { IsAt C.table task.old run.old stage }
    ensures turned { Turned C.table task.old task.new run.old run.new stage result }
    ensures falls { falls C.table stage result ≡ true }
    ensures given { LastGiven task.old task.new HEADS }
    ensures awake { SleepsNot task.old task.new }
{
    C::lawful();
    set_state(domain, task, run.of.state_at(stage));
    run.of.next_of(stage)
}

/// A look for a signal.
#[inline(always)]
fn look_event<C: Machine>(
    domain: &Domain,
    task: &mut Task,
    run: &mut Run<C>,
    stage: C::Stage,
) -> Turn<C::Stage, C::Outcome>
    requires of { task.old.domain ≡ domain.now }
    requires here { C.table.doing stage ≡ doing.Look }
    requires at { IsAt C.table task.old run.old stage }
    ensures turned { Turned C.table task.old task.new run.old run.new stage result }
    ensures falls { falls C.table stage result ≡ true }
    ensures given { LastGiven task.old task.new HEADS }
    ensures awake { SleepsNot task.old task.new }
{
    C::lawful();
    let own = load_own(domain, task);
    let hit = pending_state(run.of.state().mask(), own);
    run.of.found_to(stage, hit)
}

/// One try to sleep. Where the own word changed meanwhile it is made again in the next turn.
#[inline(always)]
fn sleep_event<C: Machine>(
    domain: &Domain,
    task: &mut Task,
    run: &mut Run<C>,
    stage: C::Stage,
) -> Turn<C::Stage, C::Outcome>
    requires of { task.old.domain ≡ domain.now }
    requires here { C.table.doing stage ≡ doing.Sleep }
    requires at { IsAt C.table task.old run.old stage }
    ensures turned { Turned C.table task.old task.new run.old run.new stage result }
    ensures falls { falls C.table stage result ≡ true }
    ensures given { LastGiven task.old task.new HEADS }
{
    C::lawful();
    let next = run.of.slept_to(stage);
    match sleep_try(domain, task, &mut run.failed) {
        None => Turn::Again(stage),
        Some(Sleep::Asleep) => Turn::Asleep(next),
        Some(Sleep::Stay) => Turn::Again(next),
        Some(Sleep::Signal) => Turn::Again(next),
    }
}

/// A look at the own entry, without the lock.
#[inline(always)]
fn peek_event<C: Machine>(
    domain: &Domain,
    task: &mut Task,
    run: &mut Run<C>,
    stage: C::Stage,
) -> Turn<C::Stage, C::Outcome>
    requires of { task.old.domain ≡ domain.now }
    requires here { C.table.doing stage ≡ doing.Peek }
    requires at { IsAt C.table task.old run.old stage }
    ensures turned { Turned C.table task.old task.new run.old run.new stage result }
    ensures falls { falls C.table stage result ≡ true }
    ensures given { LastGiven task.old task.new HEADS }
    ensures awake { SleepsNot task.old task.new }
{
    C::lawful();
    let entry = own_entry(domain, task);
    run.of.found_to(stage, entry.is_some())
}

/// The own entry is taken off where it is queued, and else the head given back.
#[inline(always)]
fn pare_event<C: Machine>(
    domain: &Domain,
    task: &mut Task,
    run: &mut Run<C>,
    stage: C::Stage,
    passing: &mut Passing,
) -> Turn<C::Stage, C::Outcome>
    requires of { task.old.domain ≡ domain.now }
    requires passes { PassesNone passing.old }
    requires here { C.table.doing stage ≡ doing.Pare }
    requires at { IsAt C.table task.old run.old stage }
    ensures turned { Turned C.table task.old task.new run.old run.new stage result }
    ensures passes { PassesNone passing.new ⊎ IsStop C.table result }
    ensures falls { falls C.table stage result ≡ true }
    ensures given { LastGiven task.old task.new passing.new.head }
    ensures awake { SleepsNot task.old task.new }
{
    C::lawful();
    let me = task.number();
    let entry = own_entry(domain, task);
    if entry.is_some() {
        remove(domain, task, me, 0);
        return run.of.found_to(stage, true);
    }
    passing.put(give_back(domain, task, false));
    run.of.found_to(stage, false)
}

/// A look at the own entry in a hold: where it is queued, a look for a signal, and else the head is given back.
#[inline(always)]
fn heed_event<C: Machine>(
    domain: &Domain,
    task: &mut Task,
    run: &mut Run<C>,
    stage: C::Stage,
    passing: &mut Passing,
) -> Turn<C::Stage, C::Outcome>
    requires of { task.old.domain ≡ domain.now }
    requires passes { PassesNone passing.old }
    requires here { C.table.doing stage ≡ doing.Heed }
    requires at { IsAt C.table task.old run.old stage }
    ensures turned { Turned C.table task.old task.new run.old run.new stage result }
    ensures passes { PassesNone passing.new ⊎ IsStop C.table result }
    ensures falls { falls C.table stage result ≡ true }
    ensures given { LastGiven task.old task.new passing.new.head }
    ensures awake { SleepsNot task.old task.new }
{
    C::lawful();
    let entry = own_entry(domain, task);
    if entry.is_some() {
        let own = load_own(domain, task);
        let hit = pending_state(run.of.state().mask(), own);
        return run.of.heeded_to(stage, hit);
    }
    passing.put(give_back(domain, task, false));
    run.of.found_to(stage, false)
}

/// The own entry is queued where it is off; where it is queued still, the state is stored. Where no place is left for it
/// the head is given back.
#[inline(always)]
fn queue_event<C: Machine>(
    domain: &Domain,
    task: &mut Task,
    run: &mut Run<C>,
    stage: C::Stage,
    passing: &mut Passing,
) -> Turn<C::Stage, C::Outcome>
    requires of { task.old.domain ≡ domain.now }
    requires passes { PassesNone passing.old }
    requires here { C.table.doing stage ≡ doing.Queue }
    requires at { IsAt C.table task.old run.old stage }
    ensures turned { Turned C.table task.old task.new run.old run.new stage result }
    ensures passes { PassesNone passing.new ⊎ IsStop C.table result }
    ensures falls { falls C.table stage result ≡ true }
    ensures given { LastGiven task.old task.new passing.new.head }
    ensures awake { SleepsNot task.old task.new }
{
    C::lawful();
    let entry = own_entry(domain, task);
    if entry.is_some() {
        set_state(domain, task, run.of.state().mask());
        return run.of.added_to(stage, Added::Stayed);
    }
    match run.of.add(domain, task, stage) {
        Ok(()) => {
            let next = run.of.added_to(stage, Added::Joined);
            run.of.note_joined(stage);
            next
        }
        Err(worn) => {
            own_entry(domain, task);
            passing.put(give_back(domain, task, false));
            let next = run.of.added_to(stage, Added::Worn);
            run.of.note_worn(worn.place);
            next
        }
    }
}

/// Makes the event of a wait at a stage, or none where another number of the head is served or where the word of an
/// exchange changed meanwhile. It waits for nobody, and by single tries it needs no runtime value. It answers as
/// `stretch` does, but at the stages of a hold the head is still held. It sleeps where its stage is a sleep, and at no
/// other.
#[inline(always)]
pub fn advance<C: Machine>(
    domain: &Domain,
    task: &mut Task,
    run: &mut Run<C>,
    stage: C::Stage,
    passing: &mut Passing,
) -> Turn<C::Stage, C::Outcome>
    requires of { task.old.domain ≡ domain.now }
    requires passes { PassesNone passing.old }
    requires at { IsAt C.table task.old run.old stage }
    ensures turned { Turned C.table task.old task.new run.old run.new stage result }
    ensures passes { PassesNone passing.new ⊎ IsStop C.table result }
    ensures falls { falls C.table stage result ≡ true }
    ensures given { LastGiven task.old task.new passing.new.head }
    ensures awake { C.table.doing stage ≡ doing.Sleep ⊎ SleepsNot task.old task.new }
{
    C::lawful();
    match C::doing(stage) {
        Doing::Own => C::own(domain, task, run, stage, passing),
        Doing::Load => load_event(domain, task, run, stage),
        Doing::Draw => {
            let head = draw_event(domain, task, run, stage);
            lock_event(domain, task, run, C::drawn_to(stage), head)
        }
        Doing::Lock => {
            let head = head_of(run.of.watch(stage));
            lock_event(domain, task, run, stage, head)
        }
        Doing::Unlock => unlock_event(domain, task, run, stage, passing),
        Doing::State => state_event(domain, task, run, stage),
        Doing::Look => look_event(domain, task, run, stage),
        Doing::Sleep => sleep_event(domain, task, run, stage),
        Doing::Peek => peek_event(domain, task, run, stage),
        Doing::Pare => pare_event(domain, task, run, stage, passing),
        Doing::Heed => heed_event(domain, task, run, stage, passing),
        Doing::Queue => queue_event(domain, task, run, stage, passing),
    }
}
