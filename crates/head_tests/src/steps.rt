//! Single steps on the shared words, by one task and by threads.

pub(crate) mod pages;
pub(crate) mod parks;
pub(crate) mod pipes;
pub(crate) mod queues;
pub(crate) mod tallies;

ghost use Rattle.std.specs.Prelude.{◌≡◌, [], true};
ghost use Rattle.head_tests.specs.Meeting.{SleptOnce, WokeOnce, HaveMet};
ghost use Rattle.wait_rule.specs.Says.{IsClean, IsUp, RestsIn, history_of};

use crate::scenes::{Alone, Beside, Seen, want, want_all, want_beside};
use std::sync::Wait;
use std::test::Fail;
use std::thread;
use std::thread::Threads;
use wait_model::layout::{INTERRUPTIBLE, KILLABLE, NORMAL, RUNNING, UNINTERRUPTIBLE};
use wait_model::tasks::{Sleep, Taken};
use wait_model::watches::Mode;
use wait_rule::NoTask;
use wait_rule::domain::{Domain, Task};
use wait_rule::running::{schedule, send_signal, take_signal, wake_task};
use wait_rule::tasks::{awake, load_own, set_state, sleep_exchange, wake_exchange};
use wait_rule::tries::{FailedTries, Met, sleep_try, wake_try};

/// What became of a sleep, and what was taken: a list of what a test sees has no branches so.
fn stays(sleep: Sleep) -> bool {
    matches!(sleep, Sleep::Stay)
}

fn sleeps(sleep: Sleep) -> bool {
    matches!(sleep, Sleep::Asleep)
}

fn is_stopped(sleep: Sleep) -> bool {
    matches!(sleep, Sleep::Signal)
}

fn is_plain(taken: Taken) -> bool {
    matches!(taken, Taken::Plain)
}

fn is_fatal(taken: Taken) -> bool {
    matches!(taken, Taken::Fatal)
}

fn is_nothing(taken: Taken) -> bool {
    matches!(taken, Taken::Nothing)
}

/// Whether the own sleeps end at once.
fn stays_awake<R: Wait>(rt: &R, domain: &Domain, task: &mut Task) -> bool
    requires rests { RestsIn domain.now task.old }
    ensures of { task.new.domain ≡ domain.now }
    ensures up { result ≡ true → IsUp task.new }
{
    let stayed = stays(schedule(rt, domain, task));
    match sleep_exchange(rt, domain, task) {
        Sleep::Stay => stayed,
        Sleep::Asleep | Sleep::Signal => false,
    }
}

/// Whether the own wakes meet nobody, and the own signal is taken once.
fn meets_nobody<R: Wait>(rt: &R, domain: &Domain, task: &mut Task) -> bool
    requires of { task.old.domain ≡ domain.now }
    requires up { IsUp task.old }
{
    let woke = wake_task(rt, domain, task, 0, Mode::Normal);
    let met = wake_exchange(rt, domain, task, 0, NORMAL);
    send_signal(rt, domain, task, 0, false);
    let first = take_signal(domain, task);
    let second = take_signal(domain, task);
    !woke && !met && is_plain(first) && is_nothing(second)
}

/// Both.
pub(crate) fn goes_alone<R: Wait>(rt: &R, domain: &Domain, task: &mut Task) -> bool
    requires rests { RestsIn domain.now task.old }
{
    stays_awake(rt, domain, task) && meets_nobody(rt, domain, task)
}

/// A task with nobody beside it is never put asleep and wakes nobody.
#[test]
fn alone(rt: HostRuntime) -> Result<(), Fail> {
    want(&rt, rt.alloc(), Alone::GoesAlone)
}

/// Cuts a task with a share of numbers off: true where it has this number.
fn cuts_off(domain: &Domain, task: &mut Task, share: u8, number: u8) -> bool
    requires rests { RestsIn domain.now task.old }
    ensures rests { RestsIn domain.now task.new }
{
    match task.fork(domain, share) {
        Ok(other) => other.number() == number,
        Err(_) => false,
    }
}

/// Whether no number was spare.
fn is_refused(forked: Result<Task, NoTask>) -> bool {
    matches!(forked, Err(none) if none.spare == 0)
}

/// Whether all numbers are given out in their order, and then there is none left.
pub(crate) fn cuts_off_all(domain: &Domain, task: &mut Task) -> bool
    requires rests { RestsIn domain.now task.old }
{
    let own = task.number() == 0;
    for number in 1..256u16 {
        if !cuts_off(domain, task, 0, number as u8) {
            return false;
        }
    }
    own && is_refused(task.fork(domain, 0))
}

/// 255 tasks are cut off the first one, numbered 1 to 255, and then there is no number left.
#[test]
fn numbers_run_out(rt: HostRuntime) -> Result<(), Fail> {
    want(&rt, rt.alloc(), Alone::CutsOffAll)
}

/// What a task and one that it has given a share of 5 numbers give out.
fn share_numbers(domain: &Domain, task: &mut Task, mut second: Task) -> [bool; 5]
    requires rest { RestsIn domain.now task.old × RestsIn domain.now second }
{
    let spare = (second.spare(), task.spare());
    let seen = [
        second.number() == 1,
        spare == (5, 249),
        cuts_off(domain, &mut second, 4, 2),
        is_refused(second.fork(domain, 0)),
        cuts_off(domain, task, 248, 7),
    ];
    task.join(domain, second);
    seen
}

/// Gives such a share.
pub(crate) fn gives_share(domain: &Domain, task: &mut Task) -> [bool; 5]
    requires rests { RestsIn domain.now task.old }
{
    match task.fork(domain, 5) {
        Ok(second) => share_numbers(domain, task, second),
        Err(_) => [false; 5],
    }
}

/// A task's share of numbers is its own, and a share that is too large is refused.
#[test]
fn shares_are_apart(rt: HostRuntime) -> Result<(), Fail> {
    want_all(&rt, rt.alloc(), Seen::GivesShare)
}

/// Whether a try put its task asleep.
fn has_slept(tried: Option<Sleep>) -> bool {
    matches!(tried, Some(Sleep::Asleep))
}

/// Whether a try has met its task and wants its thread woken, or neither of both.
fn has_met(tried: Option<Met>, met: bool) -> bool {
    match tried {
        Some(found) => found.met == met && found.rouse == met,
        None => false,
    }
}

/// What single tries find of a task that goes to sleep, and of one that was woken.
pub(crate) fn tries_once(domain: &Domain, task: &mut Task, other: &mut Task) -> [bool; 4]
    requires rest { RestsIn domain.now task.old × RestsIn domain.now other.old }
{
    set_state(domain, task, UNINTERRUPTIBLE);
    let mut failed = FailedTries::none();
    let slept = sleep_try(domain, task, &mut failed);
    let first = wake_try(domain, other, 0, NORMAL, &mut failed);
    let second = wake_try(domain, other, 0, NORMAL, &mut failed);
    [
        has_slept(slept),
        has_met(first, true),
        has_met(second, false),
        awake(domain, task),
    ]
}

/// A task that was put asleep by one try is met by one try of another, whose answer says that its thread is to be
/// woken; once it is RUNNING no wake meets it.
#[test]
fn single_tries(rt: HostRuntime) -> Result<(), Fail> {
    want_beside(&rt, rt.alloc(), Beside::Tries)
}

/// Whether a fatal signal stops the sleeps that admit it, and stays pending.
pub(crate) fn stops_sleeps<R: Wait>(rt: &R, domain: &Domain, task: &mut Task) -> [bool; 3]
    requires rests { RestsIn domain.now task.old }
    ensures rests { RestsIn domain.now task.new }
{
    send_signal(rt, domain, task, 0, true);
    set_state(domain, task, KILLABLE);
    let killable = schedule(rt, domain, task);
    set_state(domain, task, INTERRUPTIBLE);
    let interruptible = schedule(rt, domain, task);
    let pending = load_own(domain, task).0;
    [
        is_stopped(killable),
        is_stopped(interruptible),
        pending == 0x7_0000,
    ]
}

/// Whether it is taken, and what the own word is without it.
pub(crate) fn takes_fatal(domain: &Domain, task: &mut Task) -> [bool; 3]
    requires rests { RestsIn domain.now task.old }
{
    let taken = take_signal(domain, task);
    set_state(domain, task, UNINTERRUPTIBLE);
    let uninterruptible = load_own(domain, task).0;
    set_state(domain, task, RUNNING);
    [
        is_fatal(taken),
        uninterruptible == 0x1_0002,
        load_own(domain, task).0 == 0x1_0000,
    ]
}

/// A signal that the state admits keeps its task from sleeping, and is taken once.
#[test]
fn signals_stop_sleeps(rt: HostRuntime) -> Result<(), Fail> {
    want_all(&rt, rt.alloc(), Seen::StopsSleeps)
}

/// What wakes by one task find of another that was put asleep.
pub(crate) fn meets_by_mode<R: Wait>(
    rt: &R,
    domain: &Domain,
    task: &mut Task,
    other: &mut Task,
) -> [bool; 7]
    requires rest { RestsIn domain.now task.old × RestsIn domain.now other.old }
{
    set_state(domain, other, UNINTERRUPTIBLE);
    [
        sleeps(sleep_exchange(rt, domain, other)),
        !awake(domain, other),
        !wake_task(rt, domain, task, 1, Mode::Interruptible),
        !awake(domain, other),
        wake_task(rt, domain, task, 1, Mode::Normal),
        !wake_task(rt, domain, task, 1, Mode::Normal),
        awake(domain, other),
    ]
}

/// A wake meets the states of its mask alone, and makes the task runnable.
#[test]
fn wakes_meet_states(rt: HostRuntime) -> Result<(), Fail> {
    want_beside(&rt, rt.alloc(), Beside::MeetsByMode)
}

/// Stores UNINTERRUPTIBLE and sleeps until woken.
fn sleeper<R: Wait>(rt: &R, domain: &Domain, mut task: Task) -> Task
    requires rests { RestsIn domain.now task }
    requires empty { history_of task ≡ [] }
    ensures rests { RestsIn domain.now result }
    ensures number { result.view.number ≡ task.view.number }
    ensures slept { SleptOnce result.view.items }
    ensures joined { result.view.joined ≡ task.view.joined }
{
    set_state(domain, &mut task, UNINTERRUPTIBLE);
    schedule(rt, domain, &mut task);
    task
}

/// Wakes until a wake answers true.
fn waker<R: Wait>(rt: &R, domain: &Domain, mut task: Task, who: u8) -> Task
    requires of { task.domain ≡ domain.now }
    requires up { IsUp task }
    requires empty { history_of task ≡ [] }
    ensures of { result.domain ≡ domain.now }
    ensures woken { WokeOnce who result }
    ensures joined { result.view.joined ≡ task.view.joined }
    ensures up { IsUp result }
{
    for _ in rt.forever() {
        if wake_task(rt, domain, &mut task, who, Mode::Normal) {
            return task;
        }
        thread::yield_now();
    }
    unreachable!()
}

/// A sleeper and its waker in two threads. After the join the two histories hold one wake that met the sleeper,
/// and one sleep.
fn meet<R: Threads + Wait + Sync>(rt: &R, domain: &Domain, first: Task, second: Task) -> Task
    requires rest { RestsIn domain.now first × RestsIn domain.now second }
    requires empty { (history_of first ≡ []) × (history_of second ≡ []) }
    requires alone { (first.view.joined ≡ []) × (second.view.joined ≡ []) }
    ensures { HaveMet second.view.number result }
{
    let who = second.number();
    let (mut one, two) = thread::join(
        rt,
        move || -> Task
            requires { (first.domain ≡ domain.now) × IsUp first × (history_of first ≡ []) × (first.view.joined ≡ []) }
            ensures { (result.domain ≡ domain.entry.now) × WokeOnce who result × (result.view.joined ≡ [])
                × IsUp result }
        { waker(rt, domain, first, who) },
        move || -> Task
            requires { (second.domain ≡ domain.now) × IsClean second × (history_of second ≡ [])
                × (second.view.number ≡ who) × (second.view.joined ≡ []) }
            ensures { (result.domain ≡ domain.entry.now) × IsClean result × SleptOnce result.view.items
                × (result.view.number ≡ who) × (result.view.joined ≡ []) }
        {
            let _ = &who;
            sleeper(rt, domain, second)
        },
    );
    one.join(domain, two);
    one
}

#[test]
fn sleep_and_wake(rt: HostRuntime) -> Result<(), Fail> {
    let (domain, mut task) = Domain::new(rt.alloc())?;
    let second = task.fork(&domain, 0)?;
    let task = meet(&rt, &domain, task, second);
    assert!(rt; task.number() == 0);
    Ok(())
}
