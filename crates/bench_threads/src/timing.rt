//! How long tasks of a new Domain take that play a part again and again.

ghost use Rattle.std.specs.Prelude.{◌≡◌, All};
ghost use Rattle.wait_rule.specs.Says.{IsClean, RestsIn};

use crate::futexes::mutexes::open;
use crate::tasks::{another, crowd};
use std::alloc::Global;
use std::sync::Wait;
use std::thread::Threads;
use std::time::{Clock, Duration, Instant};
use std::{io, thread};
use test_tasks::meetings::{Part, meet_four, meet_two};
use test_tasks::often::Often;
use wait_rule::{Domain, Task};

/// The times that were found: none where something went another way.
#[derive(Clone, Copy)]
pub(crate) struct Times(pub(crate) Option<Duration>, pub(crate) Option<Duration>);

/// One time.
pub(crate) fn only(found: io::Result<Option<Duration>>) -> io::Result<Times> {
    Ok(Times(found?, None))
}

/// The time since then, where all went well.
fn took<R: Clock>(rt: &R, start: Instant, well: bool) -> io::Result<Option<Duration>> {
    let time = start.elapsed(rt)?;
    Ok(if well { Some(time) } else { None })
}

/// How long the first task takes that plays a part `n` times.
pub(crate) fn time_alone<R: Clock + Wait, P: Part + Copy>(
    rt: &R,
    alloc: Global,
    part: P,
    n: u64,
) -> io::Result<Option<Duration>> {
    let (domain, mut task) = Domain::new(alloc)?;
    let start = Instant::now(rt)?;
    let well = often(part, n).play(rt, &domain, &mut task);
    took(rt, start, well)
}

/// And how long for two parts, one after the other: none of both where one of them did not go well each time.
pub(crate) fn time_both<R: Clock + Wait, P: Part + Copy, Q: Part + Copy>(
    rt: &R,
    alloc: Global,
    parts: (P, Q),
    n: u64,
) -> io::Result<Times> {
    let (domain, mut task) = Domain::new(alloc)?;
    let start = Instant::now(rt)?;
    let well = often(parts.0, n).play(rt, &domain, &mut task);
    let first = start.elapsed(rt)?;
    let start = Instant::now(rt)?;
    let both = well && often(parts.1, n).play(rt, &domain, &mut task);
    let second = took(rt, start, both)?;
    Ok(match second {
        None => Times(None, None),
        found => Times(Some(first), found),
    })
}

/// How long two threads take that play their parts `n` times each, in a Domain whose tasks look so often before they
/// park. The mutex is open.
pub(crate) fn time_two<R: Clock + Threads + Wait + Sync, P: Part + Copy>(
    rt: &R,
    alloc: Global,
    looks: u32,
    parts: (P, P),
    n: u64,
) -> io::Result<Option<Duration>> {
    let (domain, mut task) = Domain::with_looks(alloc, looks)?;
    let other = another(&domain, &mut task);
    open(rt, &domain, &mut task);
    let (own, its) = (often(parts.0, n), often(parts.1, n));
    let start = Instant::now(rt)?;
    let (one, two) = meet_two(rt, &domain, task, other, (own, its));
    took(rt, start, one.1 && two.1)
}

/// And how long four do that play the same.
pub(crate) fn time_four<R: Clock + Threads + Wait + Sync, P: Part + Copy>(
    rt: &R,
    alloc: Global,
    part: P,
    n: u64,
) -> io::Result<Option<Duration>> {
    let (domain, mut task) = Domain::new(alloc)?;
    let first = another(&domain, &mut task);
    let second = another(&domain, &mut task);
    let third = another(&domain, &mut task);
    let two = (often(part, n), often(part, n));
    let start = Instant::now(rt)?;
    meet_four(rt, &domain, (task, first), (second, third), two, two);
    took(rt, start, true)
}

fn often<P: Part>(part: P, times: u64) -> Often<P> {
    Often { part, times }
}

/// A task plays a part so often.
fn play_one<R: Wait, P: Part + Copy>(
    rt: &R,
    domain: &Domain,
    mut task: Task,
    part: P,
    n: u64,
) -> bool
    requires rests { RestsIn domain.now task }
{
    often(part, n).play(rt, domain, &mut task)
}

/// Tasks of threads of their own: whether each play went well.
fn play_all<R: Threads + Wait + Sync, P: Part + Copy + Sync>(
    rt: &R,
    domain: &Domain,
    tasks: Vec<Task>,
    part: P,
    n: u64,
) -> bool
    requires clean { All (λ t. (t.domain ≡ domain.now) × IsClean t) tasks.items }
{
    let all = thread::map_vec(
        rt,
        tasks,
        &|task: Task| -> bool
            requires { RestsIn domain.now task }
        { play_one(rt, domain, task, part, n) },
    );
    all.is_ok_and(|all| all.iter().all(|one| *one))
}

/// How long `threads` new tasks take that play a part `n` times each. The mutex is open.
pub(crate) fn time_crowd<R: Clock + Threads + Wait + Sync, P: Part + Copy + Sync>(
    rt: &R,
    alloc: Global,
    threads: u8,
    part: P,
    n: u64,
) -> io::Result<Option<Duration>> {
    let (domain, mut task) = Domain::new(alloc)?;
    open(rt, &domain, &mut task);
    let tasks = crowd(alloc, &domain, &mut task, threads)?;
    let start = Instant::now(rt)?;
    let well = play_all(rt, &domain, tasks, part, n);
    took(rt, start, well)
}
