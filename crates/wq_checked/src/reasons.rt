//! Why a call is refused.

use thiserror::Error;

/// Why a call was refused; nothing has changed then. The first reason that holds is told, in the order in which they
/// stand here. OutOfRange: a number is not below its end. NotListed: a wait in a simple queue would sleep killable.
/// Busy: another call of the task is under way, which `advance` ends. Nothing: `advance` was called, and no call is
/// under way. NotHeld: the task does not keep the bit or page that it would give back, or to whose tally it would add.
/// Held: the task keeps the bit or page itself for which it would wait. Starved: a wake of the task came to no end, as
/// no run does, and the task makes no more calls.
#[derive(Clone, Copy, Debug, Drop, PartialEq, Error)]
pub enum Refused {
    #[error("a number is out of its range")]
    OutOfRange,
    #[error("a wait in a simple queue is not killable")]
    NotListed,
    #[error("another call of the task is under way")]
    Busy,
    #[error("no call of the task is under way")]
    Nothing,
    #[error("the task does not keep the bit")]
    NotHeld,
    #[error("the task keeps the bit itself")]
    Held,
    #[error("a wake of the task was starved")]
    Starved,
}
