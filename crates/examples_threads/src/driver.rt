//! A driver of a device that takes one command at a time and raises an interrupt when it is done. Its users sleep until
//! the device is theirs, and then until its interrupt comes; the interrupt is a thread of its own.

ghost use Rattle.std.specs.Prelude.{◌<◌, IfErr, IfOk};
ghost use Rattle.examples_threads.specs.Causes.{HasReleased, WaitEnded, IsFailed};
ghost use Rattle.examples_threads.specs.declared.driver.TheConstants.{COMMAND, FOR_ANSWER};

use crate::worker::Worker;
use std::sync::Wait;
use wait_event::WaitEnd;
use wait_model::tasks::{How, SleepState};

/// Set while nobody uses the device.
const IDLE: u8 = 0;

/// The command that the device is to take.
const COMMAND: u8 = 1;

/// The status that its interrupt tells.
const STATUS: u8 = 2;

/// A user's wait for the device: a signal ends it, and one free device wakes one user.
const FOR_DEVICE: How = How {
    state: SleepState::Interruptible,
    exclusive: true,
};

/// A wait that ends only with what it waits for: whoever has the device must give it back.
const FOR_ANSWER: How = How {
    state: SleepState::Uninterruptible,
    exclusive: false,
};

/// Gives the device to its users. It is done once, before them, or by a user who is done.
pub fn release<R: Wait>(worker: &mut Worker, rt: &R)
    ensures { HasReleased worker.old.task worker.new.task }
{
    worker.set(rt, IDLE, 1, 1);
}

/// Hands a command, not 0, to the device and waits for its interrupt: the status, which is not 0. Err Signal comes
/// where a signal ended the wait for the device, and Err Worn where a head had no place left; then no command was
/// handed over, or no status came.
pub fn transfer<R: Wait>(worker: &mut Worker, rt: &R, command: u64) -> Result<u64, WaitEnd>
    requires some { 0 < command }
    ensures some { IfOk result (λ status. 0 < status) }
    ensures failed { IfErr result (IsFailed worker.new.task) }
{
    worker.claim(rt, IDLE, FOR_DEVICE)?;
    worker.set(rt, COMMAND, command, 0);
    let status = worker.claim(rt, STATUS, FOR_ANSWER);
    release(worker, rt);
    status
}

/// The device: takes the next command, and raises its interrupt with a status, which is 1 more than the command, and 1
/// where that is no number of 64 bits. Err Worn comes where the head had no place left, and then it took no command.
pub fn interrupt<R: Wait>(worker: &mut Worker, rt: &R) -> Result<(), WaitEnd>
    ensures ended { IfErr result (WaitEnded worker.new.task COMMAND FOR_ANSWER) }
{
    let command = worker.claim(rt, COMMAND, FOR_ANSWER)?;
    worker.set(rt, STATUS, command.checked_add(1).unwrap_or(1), 0);
    Ok(())
}
