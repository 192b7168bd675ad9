//! The calls of a driver, each by a task that owes nothing before it and after it.

ghost use Rattle.wait_rule.specs.Says.{RestsIn};

use completion_cell::await_calls::wait_for;
use completion_cell::completes::complete;
use std::sync::Wait;
use var_wait::publishes::publish_var_and_wake;
use wait_event::conds::set_and_wake;
use wait_event::wait_events::wait_event;
use wait_model::tasks::{How, SleepState};
use wait_model::watches::{Mode, Watch};
use wait_rule::{Domain, Task};
use wq_head::wake;
use wq_user::hashed::hold_bit;
use wq_user::pages::hold_page;
use wq_user::parts::wait_by_parts;

/// What the calls are about: a plain condition, a completion, and a variable. The bit and the page are those of
/// `hashed` and `pages`.
pub const COND: u8 = 0;

pub const CELL: u8 = 0;

pub const VAR: u8 = 16;

/// How the condition is waited for.
const HOW: How = How {
    state: SleepState::Killable,
    exclusive: false,
};

/// A call of a driver.
#[derive(Clone, Copy)]
pub enum Call {
    /// It waits for the condition.
    Wait,
    /// It sets the condition and wakes who waits for it.
    Set,
    /// It wakes who waits for the condition.
    Wake,
    /// It completes for one.
    Complete,
    /// It waits for the completion.
    WaitFor,
    /// It locks the bit and gives it back.
    Bit,
    /// It locks the page and gives it back.
    Page,
    /// It publishes the variable and wakes who waits for it.
    Publish,
    /// It waits by parts.
    Parts,
}

/// All of them.
pub const CALLS: [Call; 9] = [
    Call::Wait,
    Call::Set,
    Call::Wake,
    Call::Complete,
    Call::WaitFor,
    Call::Bit,
    Call::Page,
    Call::Publish,
    Call::Parts,
];

/// Makes a call.
pub fn make<R: Wait>(rt: &R, domain: &Domain, task: &mut Task, call: Call)
    requires rests { RestsIn domain.now task.old }
    ensures rests { RestsIn domain.now task.new }
{
    match call {
        Call::Wait => {
            let _ = wait_event(rt, domain, task, COND, HOW);
        }
        Call::Set => {
            set_and_wake(rt, domain, task, COND, 1, Mode::Normal, 0);
        }
        Call::Wake => {
            let watch = Watch::Plain { cond: COND };
            wake(rt, domain, task, watch, Mode::Normal, 0);
        }
        Call::Complete => complete(rt, domain, task, CELL),
        Call::WaitFor => {
            let _ = wait_for(rt, domain, task, CELL, SleepState::Killable);
        }
        Call::Bit => {
            hold_bit(rt, domain, task);
        }
        Call::Page => {
            hold_page(rt, domain, task);
        }
        Call::Publish => {
            publish_var_and_wake(rt, domain, task, VAR, 1);
        }
        Call::Parts => {
            wait_by_parts(rt, domain, task, SleepState::Killable);
        }
    }
}
