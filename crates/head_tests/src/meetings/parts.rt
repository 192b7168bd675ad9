//! The parts that tasks play.

use crate::heads::tickets::hold;
use crate::steps::parks::{Round, go_round};
use std::sync::Wait;
use test_tasks::meetings;
use wait_rule::{Domain, Task};

/// What a task does, which owes nothing before it and after it.
#[derive(Clone, Copy)]
pub(crate) enum Part {
    /// It plays none: the others are fewer.
    Rests,
    /// It takes a head's lock and gives it back.
    Holds,
    /// It sleeps or wakes others.
    GoesRound(Round),
}

impl meetings::Part for Part {
    fn play<R: Wait>(self, rt: &R, domain: &Domain, task: &mut Task) -> bool {
        match self {
            Part::Rests => true,
            Part::Holds => hold(rt, domain, task),
            Part::GoesRound(round) => go_round(rt, domain, task, round),
        }
    }
}
