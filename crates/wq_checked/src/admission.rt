//! Which calls may begin: by the ranges of their numbers, the call that is under way, and the bits that the task keeps.

ghost use Rattle.std.specs.Prelude.{◌≡◌, true};
ghost use Rattle.wq_checked.specs.declared.calls.Call.TheVariants as task_call;
ghost use Rattle.wq_checked.specs.Begins.{publishes_unclaimed, is_unlisted, numbers_fit, keeping_reason, modelled, refusal_by};

use crate::calls::{Call, Running};
use crate::kept_bits::KeptBits;
use crate::reasons::Refused;
use crate::tasks::refusal_of;
use completion_cell::cell_turns::CellCall;
use wait_model::admission::is_in_range;
use wait_model::calls::Call as Modelled;
use wait_model::layout::CLAIMS;
use wait_model::tasks::SleepState;
use wait_model::watches::Mode;

/// The call of the model about a completion.
fn modelled_cell(call: CellCall, cell: u8) -> Modelled
    ensures { result ≡ modelled (task_call.Cell call cell) }
{
    match call {
        CellCall::Complete => Modelled::Complete { cell },
        CellCall::CompleteAll => Modelled::CompleteAll { cell },
        CellCall::Reinit => Modelled::Reinit { cell },
        CellCall::TryWait => Modelled::TryWait { cell },
        CellCall::IsDone => Modelled::IsDone { cell },
    }
}

/// The call of the model whose ranges the numbers of this one keep. A wake's count may be any, and a page's tally is its
/// who may give the page back.
fn modelled(call: Call) -> Modelled
    ensures { result ≡ modelled call }
{
    let (mode, count) = (Mode::Normal, 0);
    match call {
        Call::Wait { cond, how } => Modelled::Wait { cond, how },
        Call::SimpleWait { cond, state } => Modelled::SimpleWait { cond, state },
        Call::WaitVar { var, old, state } => Modelled::WaitVar { var, old, state },
        Call::WaitBit { word, bit, state } => Modelled::WaitBit { word, bit, state },
        Call::LockBit { word, bit, state } => Modelled::LockBit { word, bit, state },
        Call::LockPage { page, state } => Modelled::LockPage { word: page, state },
        Call::WaitFor { cell, state } => Modelled::WaitFor { cell, state },
        Call::Cell { call, cell } => modelled_cell(call, cell),
        Call::Wake { cond, mode, .. } => Modelled::Wake { cond, mode, count },
        Call::SetAndWake { cond, .. } => Modelled::Wake { cond, mode, count },
        Call::SimpleWake { cond, all } => Modelled::SimpleWake { cond, all },
        Call::SetAndSimpleWake { cond, all, .. } => Modelled::SimpleWake { cond, all },
        Call::SetVar { var, value } => Modelled::SetVar { var, value },
        Call::ClearBit { word, bit } => Modelled::ClearBit { word, bit },
        Call::TryBit { word, bit } => Modelled::TryBit { word, bit },
        Call::AddTally { page, .. } => Modelled::ClearBit { word: page, bit: 0 },
        Call::Take { cond } => Modelled::Take { cond },
        Call::Signal { who, fatal } => Modelled::Signal { who, fatal },
        Call::Kick { who } => Modelled::Kick { who },
        Call::Accept => Modelled::Accept,
    }
}

/// Whether a variable that a call publishes, if it does, belongs to no pipe.
fn publishes_unclaimed(call: Call) -> bool
    ensures { result ≡ publishes_unclaimed call }
{
    match call {
        Call::SetVar { var, .. } => u16::from(var) >= CLAIMS,
        _ => true,
    }
}

/// Whether a call's numbers are in their ranges.
fn numbers_fit(call: Call) -> bool
    ensures { result ≡ numbers_fit call }
{
    publishes_unclaimed(call) && is_in_range(0, modelled(call))
}

/// Whether a call would sleep killable in a simple queue.
fn is_unlisted(call: Call) -> bool
    ensures { result ≡ is_unlisted call }
{
    match call {
        Call::SimpleWait { state, .. } => match state {
            SleepState::Killable => true,
            _ => false,
        },
        _ => false,
    }
}

/// Why the bits that the task keeps stand against a call: None where they don't.
fn keeping_reason(call: Call, kept: &KeptBits) -> Option<Refused>
    requires { numbers_fit call ≡ true }
    ensures { result ≡ keeping_reason call kept.now }
{
    match call {
        Call::WaitBit { word, bit, .. } if kept.has(word, bit) => Some(Refused::Held),
        Call::LockBit { word, bit, .. } if kept.has(word, bit) => Some(Refused::Held),
        Call::LockPage { page, .. } if kept.has(page, 0) => Some(Refused::Held),
        Call::ClearBit { word, bit } if !kept.has(word, bit) => Some(Refused::NotHeld),
        Call::AddTally { page, .. } if !kept.has(page, 0) => Some(Refused::NotHeld),
        _ => None,
    }
}

/// Why a call may not begin: the first reason that holds, and None where it may.
pub(crate) fn refusal_by(call: Call, running: &Running, kept: &KeptBits) -> Option<Refused>
    ensures { result ≡ refusal_by call running.now kept.now }
{
    if !numbers_fit(call) {
        return Some(Refused::OutOfRange);
    }
    if is_unlisted(call) {
        return Some(Refused::NotListed);
    }
    match refusal_of(running) {
        Some(reason) => Some(reason),
        None => keeping_reason(call, kept),
    }
}
