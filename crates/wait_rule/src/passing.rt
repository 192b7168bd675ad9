//! Locks that a turn passes on: whoever goes on with a call turn by turn wakes the threads that park for them.

ghost use Rattle.std.specs.Prelude.{◌≡◌, MatchOption};
ghost use Rattle.wait_rule.specs.PassedLocks.{PassesNone};

use crate::domain::Domain;
use crate::tickets::{Passed, wake_waiters};
use wait_model::layout::HEADS;

/// The lock that a turn has passed on, or none: the threads that park for it are still to be woken. It is linear, and
/// no turn takes one in which a lock is left: between two turns `wake` wakes them, and behind the last one `end` or
/// `hand_on` takes it.
pub struct Passing {
    /// The head whose lock it is, and `HEADS` where there is none.
    head: u16,
}

impl Passing {
    /// No lock.
    #[inline(always)]
    pub fn none() -> Passing
        ensures { PassesNone result }
    {
        Passing { head: HEADS }
    }

    /// Takes a lock that was passed on.
    #[inline(always)]
    pub fn put(&mut self, passed: Passed)
        requires { PassesNone self.old }
        ensures { self.new.head ≡ passed.head }
    {
        self.head = passed.hand_on();
    }

    /// Wakes the threads that park for the lock, and takes it out; it does nothing where there is none. `domain` is the
    /// one of the lock.
    #[inline(always)]
    pub fn wake(&mut self, domain: &Domain)
        ensures { PassesNone self.new }
    {
        if self.head != HEADS {
            wake_waiters(domain, self.head);
            self.head = HEADS;
        }
    }

    /// The head of the lock, for who wakes those that wait for it in a way of its own. None: there was none.
    #[inline(always)]
    pub fn hand_on(self) -> Option<u16>
        ensures { MatchOption result (PassesNone self) (λ head. head ≡ self.head) }
    {
        let Passing { head } = self;
        if head == HEADS {
            return None;
        }
        Some(head)
    }

    /// Ends a loop of turns, each of whose locks was taken out.
    #[inline(always)]
    pub fn end(self)
        requires { PassesNone self }
    {
        let Passing { head: _ } = self;
    }
}
