//! Two threads that add to a tally under a mutex, each for a task of its own, and what the first one reads there
//! afterwards: exactly the adds of both. It is proved from the contracts of the calls alone.

ghost use Rattle.std.specs.Prelude.{ℕ, ◌≡◌, ◌≤◌, ◌+◌, ◌-◌, ◌%◌, ◌^◌, IfSome};
ghost use Rattle.wait_model.specs.declared.layout.TheConstants.{TASKS};
ghost use Rattle.wait_rule.specs.{Journals.fresh, Says.IsClean, Says.RestsIn};
ghost use Rattle.futex_table.specs.TalliedTasks.{HasTallied};

use crate::mutexes::{LOCK, TALLY, add_under_mutex, give_mutex, open_mutex, take_mutex};
use futex_table::tallies::{tally_fork, tally_join, tally_read};
use std::sync::Wait;
use std::thread;
use std::thread::Threads;
use wait_rule::{Domain, Task};

/// A task that has added to the tally, and how often.
#[derive(Drop)]
pub struct Adder {
    pub task: Task,
    pub adds: u64,
}

/// What the first one read in the end, how often each of the two added, and the first one, with all histories.
#[derive(Drop)]
pub struct Tallied {
    pub task: Task,
    pub read: u64,
    pub first: u64,
    pub second: u64,
}

/// Adds to the tally this many times; fewer where no place was left for a wait for the mutex.
fn add_times<R: Wait>(rt: &R, domain: &Domain, mut task: Task, times: u32) -> Adder
    requires rests { RestsIn domain.now task }
    ensures rests { RestsIn domain.now result.task }
    ensures most { result.adds ≤ times }
    ensures added { (o h : ℕ) → HasTallied task 6 7 o 0 h → HasTallied result.task 6 7 o result.adds h }
{
    let mut adds = 0;
    for _i in 0..times {
        if !add_under_mutex(rt, domain, &mut task) {
            return Adder { task, adds };
        }
        adds += 1;
    }
    Adder { task, adds }
}

/// The first task of a Domain opens the mutex: nobody has added to the tally yet, and it has all numbers.
fn open_tally<R: Wait>(rt: &R, domain: &Domain, task: &mut Task)
    requires rests { RestsIn domain.now task.old }
    requires first { task.old.view ≡ fresh 0 1 (TASKS - 1) }
    ensures rests { RestsIn domain.now task.new }
    ensures tallied { HasTallied task.new 6 7 0 0 TASKS }
{
    open_mutex(rt, domain, task);
}

/// Cuts a second task off it: None where no number is spare.
fn cut_second(domain: &Domain, task: &mut Task) -> Option<Task>
    requires rests { RestsIn domain.now task.old }
    requires tallied { HasTallied task.old 6 7 0 0 TASKS }
    ensures rests { RestsIn domain.now task.new }
    ensures tallied { IfSome result (λ second. HasTallied task.new 6 7 0 0 (TASKS - 1)) }
    ensures second_of { IfSome result (λ second. second.domain ≡ domain.now) }
    ensures second_clean { IfSome result (λ second. IsClean second) }
    ensures second_tallied { IfSome result (λ second. HasTallied second 6 7 0 0 1) }
{
    match tally_fork(domain, task, 0) {
        Ok(second) => Some(second),
        Err(_none) => None,
    }
}

/// Both add in threads of their own.
fn add_side_by_side<R: Threads + Wait + Sync>(
    rt: &R,
    domain: &Domain,
    first: Task,
    second: Task,
    times: u32,
) -> (Adder, Adder)
    requires of { (first.domain ≡ domain.now) × (second.domain ≡ domain.now) }
    requires clean { IsClean first × IsClean second }
    requires first { HasTallied first 6 7 0 0 (TASKS - 1) }
    requires second { HasTallied second 6 7 0 0 1 }
    ensures of { (result.0.task.domain ≡ domain.now) × (result.1.task.domain ≡ domain.now) }
    ensures clean { IsClean result.0.task × IsClean result.1.task }
    ensures most { (result.0.adds ≤ times) × (result.1.adds ≤ times) }
    ensures first { HasTallied result.0.task 6 7 0 result.0.adds (TASKS - 1) }
    ensures second { HasTallied result.1.task 6 7 0 result.1.adds 1 }
{
    thread::join(
        rt,
        move || add_times(rt, domain, first, times),
        move || add_times(rt, domain, second, times),
    )
}

/// The first one takes the mutex, reads the tally, takes in the history of the second, and gives the mutex back: None
/// where no place was left for a wait for the mutex.
fn read_both<R: Wait>(rt: &R, domain: &Domain, first: Adder, second: Adder) -> Option<Tallied>
    requires of { (first.task.domain ≡ domain.now) × (second.task.domain ≡ domain.now) }
    requires clean { IsClean first.task × IsClean second.task }
    requires first { HasTallied first.task 6 7 0 first.adds (TASKS - 1) }
    requires second { HasTallied second.task 6 7 0 second.adds 1 }
    ensures of { IfSome result (λ t. t.task.domain ≡ domain.now) }
    ensures clean { IfSome result (λ t. IsClean t.task) }
    ensures first { IfSome result (λ t. t.first ≡ first.adds) }
    ensures second { IfSome result (λ t. t.second ≡ second.adds) }
    ensures tallied { IfSome result (λ t. HasTallied t.task 6 7 0 (first.adds + second.adds) TASKS) }
    ensures read { IfSome result (λ t. t.read ≡ (first.adds + second.adds) % 2 ^ 64) }
{
    let mut task = first.task;
    if !take_mutex(rt, domain, &mut task) {
        return None;
    }
    let read = tally_read(domain, &mut task, TALLY, LOCK);
    tally_join(domain, &mut task, second.task);
    give_mutex(rt, domain, &mut task);
    Some(Tallied {
        task,
        read,
        first: first.adds,
        second: second.adds,
    })
}

/// Two threads add to the tally under the mutex, up to `times` times each, in a Domain whose first task this is, before
/// its first step. Then what the first one reads under the mutex is exactly the number of adds of both, which are all
/// that stand in the histories of all tasks. Each has added `times` times but where no place was left for a wait for the
/// mutex; None comes only where that was so at the last take, or no number was spare for the second task.
pub fn add_in_two_threads<R: Threads + Wait + Sync>(
    rt: &R,
    domain: &Domain,
    mut task: Task,
    times: u32,
) -> Option<Tallied>
    requires rests { RestsIn domain.now task }
    requires first { task.view ≡ fresh 0 1 (TASKS - 1) }
    ensures of { IfSome result (λ t. t.task.domain ≡ domain.now) }
    ensures clean { IfSome result (λ t. IsClean t.task) }
    ensures most { IfSome result (λ t. (t.first ≤ times) × (t.second ≤ times)) }
    ensures tallied { IfSome result (λ t. HasTallied t.task 6 7 0 (t.first + t.second) TASKS) }
    ensures exact { IfSome result (λ t. t.read ≡ t.first + t.second) }
{
    open_tally(rt, domain, &mut task);
    let second = cut_second(domain, &mut task)?;
    let (first, second) = add_side_by_side(rt, domain, task, second, times);
    read_both(rt, domain, first, second)
}
