//! A bounded buffer: one thread puts values, another one takes them in the same order, and each sleeps while it can't
//! go on. A slot is two conditions: the first is its value, or 0 while it is free; the second is 1 while it is free.

ghost use Rattle.std.specs.Prelude.{◌≡◌, ◌<◌, ◌+◌, IfErr, IfOk};
ghost use Rattle.examples_threads.specs.Causes.{WaitEnded};
ghost use Rattle.examples_threads.specs.declared.buffer.TheConstants.{HOW, SLOTS};

use crate::worker::Worker;
use std::sync::Wait;
use wait_event::WaitEnd;
use wait_model::tasks::{How, SleepState};

/// How many values a buffer holds.
pub const SLOTS: u8 = 4;

/// How both sides wait: no signal ends it.
const HOW: How = How {
    state: SleepState::Uninterruptible,
    exclusive: false,
};

/// A side of the buffer, and the slot at which it goes on.
#[derive(Drop)]
pub struct Side<'d> {
    worker: Worker<'d>,
    slot: u8,
    ghost within: { slot < SLOTS },
}

impl<'d> Side<'d> {
    /// The side of a worker, at the first slot.
    pub fn new(worker: Worker<'d>) -> Side<'d> {
        Side { worker, slot: 0 }
    }

    /// Makes all slots free. One side does it once, before both begin.
    pub fn open<R: Wait>(&mut self, rt: &R) {
        for slot in 0..SLOTS {
            self.worker.set(rt, SLOTS + slot, 1, 0);
        }
    }

    /// Puts a value, not 0: waits until the next slot is free, and then wakes who waits for its value. Err Worn comes
    /// where the head has no place left, and then nothing was put.
    pub fn put<R: Wait>(&mut self, rt: &R, value: u64) -> Result<(), WaitEnd>
        requires some { 0 < value }
        ensures ended { IfErr result (WaitEnded self.new.worker.task (SLOTS + self.old.slot) HOW) }
        ensures same { IfErr result (λ _. self.new.slot ≡ self.old.slot) }
    {
        self.worker.claim(rt, SLOTS + self.slot, HOW)?;
        self.worker.set(rt, self.slot, value, 0);
        self.slot = (self.slot + 1) % SLOTS;
        Ok(())
    }

    /// Takes the next value, which is not 0: waits until it is there, and then wakes who waits for its slot. Err Worn
    /// comes where the head has no place left, and then nothing was taken.
    pub fn get<R: Wait>(&mut self, rt: &R) -> Result<u64, WaitEnd>
        ensures some { IfOk result (λ value. 0 < value) }
        ensures ended { IfErr result (WaitEnded self.new.worker.task self.old.slot HOW) }
        ensures same { IfErr result (λ _. self.new.slot ≡ self.old.slot) }
    {
        let value = self.worker.claim(rt, self.slot, HOW)?;
        self.worker.set(rt, SLOTS + self.slot, 1, 0);
        self.slot = (self.slot + 1) % SLOTS;
        Ok(value)
    }
}
