//! Rounds of tasks that meet in threads of their own, in Domains whose tasks park at once when they are put asleep. What
//! tasks play is a line of a table, and so is what is found then: the rows are `rows`, the calls stand in the modules of
//! their crates.

mod founds;
mod parts;
pub(crate) mod rows;
mod shares;

ghost use Rattle.wait_rule.specs.Says.{RestsIn};

pub(crate) use crate::meetings::founds::Found;
pub(crate) use crate::meetings::parts::Part;
use crate::meetings::parts::Played;
pub(crate) use crate::meetings::shares::Shared;
use std::alloc::Global;
use std::sync::Wait;
use std::sync::atomic::Ordering;
use std::test::Fail;
use std::thread::Threads;
use test_tasks::meetings;
use test_tasks::wants::all_so;
use wait_rule::{Domain, Task};

/// How many rounds most tests make.
pub(crate) const ROUNDS: u32 = 300;

/// What the tasks of a round play.
pub(crate) struct Meeting {
    /// What the first task plays before the others are there.
    pub before: Part,
    /// What it and a new one play.
    pub own: (Part, Part),
    /// What two further ones play, where four tasks meet.
    pub others: Option<(Part, Part)>,
    /// What the first task finds when it has taken the others in.
    pub found: Found,
}

/// So many rounds, each of which plays these meetings one after the other, and each goes as it says.
pub(crate) fn meet_often<R: Threads + Wait + Sync>(
    rt: &R,
    alloc: Global,
    rounds: u32,
    rows: &[Meeting],
) -> Result<(), Fail> {
    for round in 0..rounds {
        for row in rows {
            meet_once(rt, alloc, round, row)?;
        }
    }
    Ok(())
}

/// A round, in a Domain of its own, goes as its row says: what its tasks counted together.
pub(crate) fn meet_once<R: Threads + Wait + Sync>(
    rt: &R,
    alloc: Global,
    round: u32,
    row: &Meeting,
) -> Result<u64, Fail> {
    let (domain, task) = Domain::with_looks(alloc, 0)?;
    let shared = Shared::new(round);
    meet(rt, &domain, task, row, &shared)?;
    Ok(shared.count.load(Ordering::SeqCst))
}

/// The tasks of a round play their parts, and go as these say.
fn meet<R: Threads + Wait + Sync>(
    rt: &R,
    domain: &Domain,
    task: Task,
    row: &Meeting,
    shared: &Shared,
) -> Result<(), Fail>
    requires rests { RestsIn domain.now task }
{
    let mut task = task;
    let began = row.before.play(rt, domain, &mut task, shared);
    let own = both(row.own, shared);
    let task = match row.others {
        None => {
            let (task, went) = meetings::two_meet(rt, domain, task, own);
            all_so(&went)?;
            task
        }
        Some(others) => {
            let others = both(others, shared);
            let (task, went) = meetings::four_meet(rt, domain, task, own, others);
            all_so(&went)?;
            task
        }
    };
    let found = row.found.is_so(rt, domain, task, shared);
    all_so(&[began, found])
}

/// Two parts of a round.
pub(crate) fn both<'a>(parts: (Part, Part), shared: &'a Shared) -> (Played<'a>, Played<'a>) {
    (
        Played {
            part: parts.0,
            shared,
        },
        Played {
            part: parts.1,
            shared,
        },
    )
}
