//! Calls by a task that owes nothing before and after each.

ghost use Rattle.std.specs.Prelude.{◌<◌};
ghost use Rattle.wait_model.specs.declared.layout.TheConstants.{FIRST_SIMPLE, WORD_BITS};
ghost use Rattle.wait_rule.specs.Says.{RestsIn};

use crate::cells::repeat_cell;
use crate::names::Call;
use crate::parts::{repeat_parts, repeat_wakes};
use crate::pieces::repeat_pieces;
use bit_wait::{clear_and_wake_bit, test_and_set, wait_on_bit, wait_on_bit_lock};
use page_lock::{lock_page, unlock_page};
use std::alloc::Global;
use std::io;
use std::sync::Wait;
use swait_queue::{swait_event, swake_one};
use var_wait::publishes::publish_var_and_wake;
use var_wait::waits::wait_var;
use wait_event::conds::set_and_wake;
use wait_event::wait_events::wait_event;
use wait_model::layout::{FIRST_PLAIN_HEAD, FIRST_SIMPLE};
use wait_model::tasks::{How, SleepState};
use wait_model::watches::{Mode, Watch};
use wait_rule::queues::publish;
use wait_rule::tasks::set_state;
use wait_rule::{Domain, Task, send_signal};
use wq_head::{lock, unlock};

/// The condition that is set, and the one that never is.
const SET: u8 = 0;

const UNSET: u8 = 1;

/// The condition with a simple queue, which is set.
const SIMPLE: u8 = FIRST_SIMPLE as u8;

/// The word of the bits, the bit that the task takes and gives back, and the one that another task keeps.
const WORD: u8 = 2;

const OWN: u8 = 16;

const TAKEN: u8 = 17;

/// The page, and the variable.
const PAGE: u8 = 3;

const VAR: u8 = 20;

/// Takes the lock of a head, and gives it back.
fn pass<R: Wait>(rt: &R, domain: &Domain, task: &mut Task)
    requires rests { RestsIn domain.now task.old }
    ensures rests { RestsIn domain.now task.new }
{
    lock(rt, domain, task, FIRST_PLAIN_HEAD);
    unlock(rt, domain, task, false);
}

/// Waits for a condition: true where it was set.
fn wait_for<R: Wait>(rt: &R, domain: &Domain, task: &mut Task, of: (u8, SleepState)) -> bool
    requires rests { RestsIn domain.now task.old }
    requires full { of.0 < FIRST_SIMPLE }
    ensures rests { RestsIn domain.now task.new }
{
    let how = How {
        state: of.1,
        exclusive: false,
    };
    wait_event(rt, domain, task, of.0, how).is_ok()
}

/// Takes the bit and gives it back: true where it was clear.
fn set_and_clear<R: Wait>(rt: &R, domain: &Domain, task: &mut Task) -> bool
    requires rests { RestsIn domain.now task.old }
    ensures rests { RestsIn domain.now task.new }
{
    if !test_and_set(domain, task, WORD, OWN) {
        return false;
    }
    clear_and_wake_bit(rt, domain, task, WORD, OWN);
    true
}

/// Waits until it has the bit, and gives it back: true where it had it.
fn lock_bit<R: Wait>(rt: &R, domain: &Domain, task: &mut Task) -> bool
    requires rests { RestsIn domain.now task.old }
    ensures rests { RestsIn domain.now task.new }
{
    if wait_on_bit_lock(rt, domain, task, WORD, OWN, SleepState::Uninterruptible).is_err() {
        return false;
    }
    clear_and_wake_bit(rt, domain, task, WORD, OWN);
    true
}

/// Waits until a bit is clear: true where it was.
fn wait_for_bit<R: Wait>(
    rt: &R,
    domain: &Domain,
    task: &mut Task,
    bit: u8,
    state: SleepState,
) -> bool
    requires rests { RestsIn domain.now task.old }
    requires bit { bit < WORD_BITS }
    ensures rests { RestsIn domain.now task.new }
{
    let over = wait_on_bit(rt, domain, task, WORD, bit, state).is_ok();
    if !over {
        set_state(domain, task, 0);
    }
    over
}

/// Takes the page and gives it back: true where it had it.
fn take_page<R: Wait>(rt: &R, domain: &Domain, task: &mut Task) -> bool
    requires rests { RestsIn domain.now task.old }
    ensures rests { RestsIn domain.now task.new }
{
    if lock_page(rt, domain, task, PAGE, SleepState::Uninterruptible).is_err() {
        return false;
    }
    unlock_page(rt, domain, task, PAGE);
    true
}

/// Makes a call of conditions or heads: true where it went the way that its name says, and so it is of every other.
fn by_conditions<R: Wait>(rt: &R, domain: &Domain, task: &mut Task, call: Call) -> bool
    requires rests { RestsIn domain.now task.old }
    ensures rests { RestsIn domain.now task.new }
{
    match call {
        Call::SetAndWake => { set_and_wake(rt, domain, task, SET, 1, Mode::Normal, 0).woken == 0 }
        Call::WaitMet => wait_for(rt, domain, task, (SET, SleepState::Uninterruptible)),
        Call::WaitSignalled => !wait_for(rt, domain, task, (UNSET, SleepState::Interruptible)),
        Call::SwaitMet => {
            swait_event(rt, domain, task, SIMPLE, SleepState::Uninterruptible).is_ok()
        }
        Call::Swake => !swake_one(rt, domain, task, SIMPLE),
        _ => {
            pass(rt, domain, task);
            true
        }
    }
}

/// Makes a call.
fn once<R: Wait>(rt: &R, domain: &Domain, task: &mut Task, call: Call) -> bool
    requires rests { RestsIn domain.now task.old }
    ensures rests { RestsIn domain.now task.new }
{
    match call {
        Call::Bit => set_and_clear(rt, domain, task),
        Call::BitClear => wait_for_bit(rt, domain, task, OWN, SleepState::Uninterruptible),
        Call::BitSignalled => !wait_for_bit(rt, domain, task, TAKEN, SleepState::Interruptible),
        Call::BitLock => lock_bit(rt, domain, task),
        Call::Page => take_page(rt, domain, task),
        Call::Publish => publish_var_and_wake(rt, domain, task, VAR, 1).woken == 0,
        Call::VarMet => wait_var(rt, domain, task, VAR, 0, SleepState::Uninterruptible).is_ok(),
        _ => by_conditions(rt, domain, task, call),
    }
}

/// Makes a call `n` times: true where each went the way that its name says.
fn often<R: Wait>(rt: &R, domain: &Domain, task: &mut Task, call: Call, n: u64) -> bool
    requires rests { RestsIn domain.now task.old }
    ensures rests { RestsIn domain.now task.new }
{
    let mut all = true;
    for _ in 0..n {
        if !once(rt, domain, task, call) {
            all = false;
        }
    }
    all
}

/// Sets what is to be set before the calls, and raises a signal at the task where the call is to be ended by it.
fn make_ready<R: Wait>(rt: &R, domain: &Domain, task: &mut Task, call: Call)
    requires rests { RestsIn domain.now task.old }
    ensures rests { RestsIn domain.now task.new }
{
    set_and_wake(rt, domain, task, SET, 1, Mode::Normal, 0);
    set_simple(rt, domain, task);
    publish_var_and_wake(rt, domain, task, VAR, 1);
    if matches!(call, Call::WaitSignalled | Call::BitSignalled) {
        let who = task.number();
        send_signal(rt, domain, task, who, false);
    }
}

/// Sets the condition with a simple queue, and wakes who waits for it.
fn set_simple<R: Wait>(rt: &R, domain: &Domain, task: &mut Task)
    requires rests { RestsIn domain.now task.old }
    ensures rests { RestsIn domain.now task.new }
{
    publish(domain, task, Watch::Plain { cond: SIMPLE }, 1);
    swake_one(rt, domain, task, SIMPLE);
}

/// Makes a call `n` times in a Domain of its own: true where each went the way that its name says.
pub(crate) fn repeat<R: Wait>(rt: &R, alloc: Global, call: Call, n: u64) -> io::Result<bool> {
    let (domain, mut task) = Domain::new(alloc)?;
    let Ok(mut other) = task.fork(&domain, 0) else {
        unreachable!()
    };
    let well = match call {
        Call::Complete | Call::CompleteWait | Call::CompleteTry => {
            repeat_cell(rt, &domain, &mut task, call, n)
        }
        Call::Wake => repeat_wakes(rt, &domain, &mut task, n),
        Call::Prepare => repeat_parts(rt, &domain, &mut task, n),
        Call::Piece => repeat_pieces(rt, &domain, &mut task, &mut other, n),
        _ => {
            test_and_set(&domain, &mut other, WORD, TAKEN);
            make_ready(rt, &domain, &mut task, call);
            often(rt, &domain, &mut task, call, n)
        }
    };
    Ok(well)
}
