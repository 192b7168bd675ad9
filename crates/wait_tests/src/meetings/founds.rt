//! What the first task of a round finds when it has taken the others in.

ghost use Rattle.wait_rule.specs.Says.{RestsIn};

use crate::bits::alone::lock;
use crate::completions::threads::nothing_is_left;
use crate::leaves::holders::is_clear;
use crate::leaves::threads::nobody_waits;
use crate::meetings::Shared;
use crate::pages::threads::last_tally;
use std::sync::Wait;
use std::sync::atomic::Ordering;
use wait_rule::{Domain, Task};

/// What is found.
#[derive(Clone, Copy)]
pub(crate) enum Found {
    /// Nothing is looked for.
    Anything,
    /// The completion of the tests has nothing to be taken.
    NoPermit,
    /// Bit 0 of word 0 is clear.
    ClearBit,
    /// The page of the tests is clear, and its tally is this.
    Tally { sum: u64 },
    /// The page and the bit of the tests of leaves are clear, and nobody is woken where they are given back.
    NobodyKeeps,
    /// Nobody waits where one was left.
    NobodyWaits,
    /// The tasks have counted this together.
    Counted { sum: u64 },
}

impl Found {
    /// Whether it is so.
    pub fn is_so<R: Wait>(self, rt: &R, domain: &Domain, task: Task, shared: &Shared) -> bool
        requires rests { RestsIn domain.now task }
    {
        let mut task = task;
        match self {
            Found::Anything => true,
            Found::NoPermit => nothing_is_left(rt, domain, &mut task),
            Found::ClearBit => lock(domain, &mut task, 0, 0),
            Found::Tally { sum } => last_tally(domain, &mut task) == Some(sum),
            Found::NobodyKeeps => is_clear(rt, domain, &mut task),
            Found::NobodyWaits => nobody_waits(rt, domain, &mut task),
            Found::Counted { sum } => shared.count.load(Ordering::SeqCst) == sum,
        }
    }
}
