//! Calls that are over at once: bits and pages that are taken where they are clear, tallies of pages, conditions that are
//! taken, signals, and tasks that are kicked out of a sleep.

ghost use Rattle.std.specs.Prelude.{◌≡◌, true, None};
ghost use Rattle.wq_checked.specs.{Calls.IsRunningSound, Kept.IsReadyWith, Signals.who_if};
ghost use Rattle.wq_checked.specs.Begins.{IsDone, is_short, numbers_fit, keeping_reason};
ghost use Rattle.wq_checked.specs.declared.calls.Call.TheVariants as task_call;

use crate::advances::note;
use crate::calls::{Answer, Call, Progress, Running};
use crate::kept_bits::KeptBits;
use bit_wait::test_and_set;
use page_lock::add_tally;
use wait_event::conds::take_cond;
use wait_model::tasks::raise_mask;
use wait_model::watches::Mode;
use wait_rule::tasks::{signal_or, take_bits};
use wait_rule::tries::wake_tries;
use wait_rule::{Domain, Task};

/// A signal that is raised. Starved: all tries of the wake failed, as in no run.
fn raise(
    domain: &Domain,
    task: &mut Task,
    kept: &KeptBits,
    who: u8,
    fatal: bool,
) -> (Running, Progress)
    requires of { task.old.domain ≡ domain.now }
    requires ready { IsReadyWith kept.now task.old }
    ensures of { task.new.domain ≡ domain.now }
    ensures sound { IsRunningSound result.0 kept.now task.new }
    ensures does { IsDone (task_call.Signal who fatal) task.old task.new kept.now result.1 result.0 }
{
    let _ = kept;
    signal_or(domain, task, who, fatal);
    match wake_tries(domain, task, who, raise_mask(fatal)) {
        Ok(woke) => {
            let rouse = who_if(who, woke.rouse);
            (Running::Idle, Progress::Done(Answer::Raised(rouse)))
        }
        Err(_) => (Running::Starved, Progress::Starved),
    }
}

/// The task, where its thread is to be roused.
fn who_if(who: u8, rouse: bool) -> Option<u8>
    ensures { result ≡ who_if who rouse }
{
    if rouse { Some(who) } else { None }
}

/// A task that is woken with no signal (kernel/sched/core.c, `wake_up_process`). Starved: all tries of the wake failed,
/// as in no run.
fn kick(domain: &Domain, task: &mut Task, kept: &KeptBits, who: u8) -> (Running, Progress)
    requires of { task.old.domain ≡ domain.now }
    requires ready { IsReadyWith kept.now task.old }
    ensures of { task.new.domain ≡ domain.now }
    ensures sound { IsRunningSound result.0 kept.now task.new }
    ensures does { IsDone (task_call.Kick who) task.old task.new kept.now result.1 result.0 }
{
    let _ = kept;
    match wake_tries(domain, task, who, Mode::Normal.mask()) {
        Ok(tried) => {
            let woke = tried.met;
            let rouse = who_if(who, tried.rouse);
            (
                Running::Idle,
                Progress::Done(Answer::Kicked { woke, rouse }),
            )
        }
        Err(_) => (Running::Starved, Progress::Starved),
    }
}

/// A call that is over at once, and may be made.
pub(crate) fn do_at_once(
    domain: &Domain,
    task: &mut Task,
    kept: &mut KeptBits,
    call: Call,
) -> (Running, Progress)
    requires of { task.old.domain ≡ domain.now }
    requires ready { IsReadyWith kept.old task.old }
    requires within { numbers_fit call ≡ true }
    requires keeps { keeping_reason call kept.old ≡ None }
    requires short { is_short call ≡ true }
    ensures of { task.new.domain ≡ domain.now }
    ensures sound { IsRunningSound result.0 kept.new task.new }
    ensures does { IsDone call task.old task.new kept.new result.1 result.0 }
{
    match call {
        Call::TryBit { word, bit } => {
            let clear = test_and_set(domain, task, word, bit);
            note(kept, word, bit, clear);
            (Running::Idle, Progress::Done(Answer::Tried(clear)))
        }
        Call::AddTally { page, amount } => {
            let value = add_tally(domain, task, page, amount);
            (Running::Idle, Progress::Done(Answer::Value(value)))
        }
        Call::Take { cond } => {
            let value = take_cond(domain, task, cond);
            (Running::Idle, Progress::Done(Answer::Value(value)))
        }
        Call::Signal { who, fatal } => raise(domain, task, kept, who, fatal),
        Call::Kick { who } => kick(domain, task, kept, who),
        Call::Accept => {
            let taken = take_bits(domain, task);
            (Running::Idle, Progress::Done(Answer::Accepted(taken)))
        }
        _ => unreachable!(),
    }
}
