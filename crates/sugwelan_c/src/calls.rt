//! What C asks for: a call by its kind and its numbers.

ghost use Rattle.std.specs.Prelude.{◌≡◌, Some};
ghost use Rattle.wq_checked.specs.declared.calls.Call.TheVariants as task_call;
ghost use Rattle.sugwelan_c.specs.Asked.{asks, asks_begin, asks_bit, asks_cell, asks_cond, asks_page, asks_var};
ghost use Rattle.sugwelan_c.specs.Asked.{asks_task, byte_in, either, flag_in, mode_in, state_by_number};

use crate::kinds::{
    ADD_TALLY, ADVANCE, CLEAR_AND_WAKE_UP_BIT, COMPLETE, COMPLETE_ALL, COMPLETION_DONE, LEAVE,
    LOCK_PAGE, NUMBER, PUBLISH_VAR_AND_WAKE, RAISE_SIGNAL, REINIT_COMPLETION, SET_AND_SWAKE,
    SET_AND_WAKE, SWAIT_EVENT, SWAKE_UP_ALL, SWAKE_UP_ONE, TAKE_CONDITION, TAKE_SIGNAL,
    TRY_WAIT_FOR_COMPLETION, TRYLOCK_BIT, TRYLOCK_PAGE, UNLOCK_PAGE, WAIT_EVENT,
    WAIT_FOR_COMPLETION, WAIT_ON_BIT, WAIT_ON_BIT_LOCK, WAIT_VAR_EVENT, WAKE_UP, WAKE_UP_PROCESS,
};
use completion_cell::cell_turns::CellCall;
use wait_model::tasks::{How, SleepState};
use wait_model::watches::Mode;
use wq_checked::calls::Call as TaskCall;

/// A call: its kind, and its numbers. Which of them count, and what they are, hangs on the kind.
#[repr(C)]
#[derive(Clone, Copy)]
pub struct Call {
    pub kind: u32,
    pub a: u32,
    pub b: u32,
    pub c: u32,
    pub value: u64,
}

/// What a call asks for: to go on with the call that is under way, or to go on with it and leave it where it is a wait,
/// the task's number, or a call that begins.
#[derive(Clone, Copy)]
pub enum Wanted {
    Advance,
    Leave,
    Number,
    Begin(TaskCall),
}

/// The number as a byte, where it is one.
fn byte_of(number: u32) -> Option<u8>
    ensures { result ≡ byte_in number }
{
    if number < 256 {
        Some(number as u8)
    } else {
        None
    }
}

/// A number that says yes or no.
fn flag_of(number: u32) -> Option<bool>
    ensures { result ≡ flag_in number }
{
    match number {
        0 => Some(false),
        1 => Some(true),
        _ => None,
    }
}

/// The state in which a wait sleeps.
fn state_of(number: u32) -> Option<SleepState>
    ensures { result ≡ state_by_number number }
{
    match number {
        0 => Some(SleepState::Uninterruptible),
        1 => Some(SleepState::Interruptible),
        2 => Some(SleepState::Killable),
        _ => None,
    }
}

/// The states that a wake meets.
fn mode_of(number: u32) -> Option<Mode>
    ensures { result ≡ mode_in number }
{
    match number {
        0 => Some(Mode::Normal),
        1 => Some(Mode::Interruptible),
        _ => None,
    }
}

/// The first of two calls that there is.
fn either(first: Option<TaskCall>, other: Option<TaskCall>) -> Option<TaskCall>
    ensures { result ≡ either first other }
{
    match first {
        Some(call) => Some(call),
        None => other,
    }
}

/// A call about a condition. Here and below, None is for a call about something else, and for one with a number that
/// counts and is not of its type.
fn cond_call(cond: u8, call: &Call) -> Option<TaskCall>
    ensures { result ≡ asks_cond cond call.now }
{
    let value = call.value;
    let count = call.c;
    match call.kind {
        WAIT_EVENT => {
            let state = state_of(call.b)?;
            let exclusive = flag_of(call.c)?;
            let how = How { state, exclusive };
            Some(TaskCall::Wait { cond, how })
        }
        SWAIT_EVENT => {
            let state = state_of(call.b)?;
            Some(TaskCall::SimpleWait { cond, state })
        }
        WAKE_UP => {
            let mode = mode_of(call.b)?;
            Some(TaskCall::Wake { cond, mode, count })
        }
        SET_AND_WAKE => Some(TaskCall::SetAndWake { cond, value, count }),
        SWAKE_UP_ONE => Some(TaskCall::SimpleWake { cond, all: false }),
        SWAKE_UP_ALL => Some(TaskCall::SimpleWake { cond, all: true }),
        SET_AND_SWAKE => {
            let all = flag_of(call.b)?;
            Some(TaskCall::SetAndSimpleWake { cond, value, all })
        }
        TAKE_CONDITION => Some(TaskCall::Take { cond }),
        _ => None,
    }
}

/// A call about a variable.
fn var_call(var: u8, call: &Call) -> Option<TaskCall>
    ensures { result ≡ asks_var var call.now }
{
    let value = call.value;
    match call.kind {
        WAIT_VAR_EVENT => {
            let state = state_of(call.b)?;
            let old = value;
            Some(TaskCall::WaitVar { var, old, state })
        }
        PUBLISH_VAR_AND_WAKE => Some(TaskCall::SetVar { var, value }),
        _ => None,
    }
}

/// A call about a bit.
fn bit_call(word: u8, call: &Call) -> Option<TaskCall>
    ensures { result ≡ asks_bit word call.now }
{
    let bit = byte_of(call.b)?;
    match call.kind {
        WAIT_ON_BIT => {
            let state = state_of(call.c)?;
            Some(TaskCall::WaitBit { word, bit, state })
        }
        WAIT_ON_BIT_LOCK => {
            let state = state_of(call.c)?;
            Some(TaskCall::LockBit { word, bit, state })
        }
        CLEAR_AND_WAKE_UP_BIT => Some(TaskCall::ClearBit { word, bit }),
        TRYLOCK_BIT => Some(TaskCall::TryBit { word, bit }),
        _ => None,
    }
}

/// A call about a page, which is bit 0 of its word.
fn page_call(page: u8, call: &Call) -> Option<TaskCall>
    ensures { result ≡ asks_page page call.now }
{
    let amount = call.value;
    match call.kind {
        LOCK_PAGE => {
            let state = state_of(call.b)?;
            Some(TaskCall::LockPage { page, state })
        }
        UNLOCK_PAGE => Some(TaskCall::ClearBit { word: page, bit: 0 }),
        TRYLOCK_PAGE => Some(TaskCall::TryBit { word: page, bit: 0 }),
        ADD_TALLY => Some(TaskCall::AddTally { page, amount }),
        _ => None,
    }
}

fn on_cell(cell: u8, call: CellCall) -> Option<TaskCall>
    ensures { result ≡ Some (task_call.Cell call cell) }
{
    Some(TaskCall::Cell { call, cell })
}

/// A call about a completion.
fn cell_call(cell: u8, call: &Call) -> Option<TaskCall>
    ensures { result ≡ asks_cell cell call.now }
{
    match call.kind {
        WAIT_FOR_COMPLETION => {
            let state = state_of(call.b)?;
            Some(TaskCall::WaitFor { cell, state })
        }
        COMPLETE => on_cell(cell, CellCall::Complete),
        COMPLETE_ALL => on_cell(cell, CellCall::CompleteAll),
        REINIT_COMPLETION => on_cell(cell, CellCall::Reinit),
        TRY_WAIT_FOR_COMPLETION => on_cell(cell, CellCall::TryWait),
        COMPLETION_DONE => on_cell(cell, CellCall::IsDone),
        _ => None,
    }
}

/// A call about a task: a signal that is raised, or a wake of it alone.
fn call_for_task(who: u8, call: &Call) -> Option<TaskCall>
    ensures { result ≡ asks_task who call.now }
{
    match call.kind {
        RAISE_SIGNAL => {
            let fatal = flag_of(call.b)?;
            Some(TaskCall::Signal { who, fatal })
        }
        WAKE_UP_PROCESS => Some(TaskCall::Kick { who }),
        _ => None,
    }
}

/// The call that begins, by what it is about.
fn begun_by(a: u8, call: &Call) -> Option<TaskCall>
    ensures { result ≡ asks_begin a call.now }
{
    let shared = either(cond_call(a, call), var_call(a, call));
    let kept = either(bit_call(a, call), page_call(a, call));
    let counted = either(cell_call(a, call), call_for_task(a, call));
    either(shared, either(kept, counted))
}

/// What a call asks for: None where it is no call.
pub fn wanted_of(call: &Call) -> Option<Wanted>
    ensures { result ≡ asks call.now }
{
    match call.kind {
        ADVANCE => Some(Wanted::Advance),
        LEAVE => Some(Wanted::Leave),
        NUMBER => Some(Wanted::Number),
        TAKE_SIGNAL => Some(Wanted::Begin(TaskCall::Accept)),
        _ => {
            let a = byte_of(call.a)?;
            let begun = begun_by(a, call)?;
            Some(Wanted::Begin(begun))
        }
    }
}
