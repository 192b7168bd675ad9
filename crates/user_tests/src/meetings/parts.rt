//! The parts that tasks play.

use crate::pipes::streams::{Stream, receive, send};
use crate::users::rounds::swake_twice;
use crate::users::strangers::{VALUE, change_once};
use std::alloc::AllocError;
use std::sync::Wait;
use test_tasks::meetings;
use wait_model::tasks::SleepState;
use wait_rule::{Domain, Task};
use wq_user::completions::{complete_one, wait_for_one};
use wq_user::hashed::wait_until_changed;
use wq_user::simple::swait;

/// What a task does, which owes nothing before it and after it.
#[derive(Copy)]
pub(crate) enum Part {
    /// A user's task sets the condition of its simple queue and wakes, and wakes again.
    UserSwakes { all: bool },
    /// One waits in it.
    UserSwaits,
    /// One completes for one.
    UserCompletes,
    /// One waits for that.
    UserWaits,
    /// It changes the variable of a user's tests.
    Changes,
    /// It waits for that, and sees the value of the tests.
    SeesChange,
    /// It sends a stream.
    Sends(Stream),
    /// It takes it.
    Receives(Stream),
}

impl Clone for Part {
    fn clone(&self) -> Result<Self, AllocError> {
        Ok(*self)
    }
}

impl meetings::Part for Part {
    fn play<R: Wait>(self, rt: &R, domain: &Domain, task: &mut Task) -> bool {
        match self {
            Part::UserSwakes { all } => swake_twice(rt, domain, task, all),
            Part::UserSwaits => swait(rt, domain, task),
            Part::UserCompletes => {
                complete_one(rt, domain, task);
                true
            }
            Part::UserWaits => wait_for_one(rt, domain, task, SleepState::Uninterruptible),
            Part::Changes => change_once(rt, domain, task),
            Part::SeesChange => wait_until_changed(rt, domain, task) == VALUE,
            Part::Sends(stream) => send(rt, domain, task, stream, None),
            Part::Receives(stream) => receive(rt, domain, task, stream, None),
        }
    }
}
