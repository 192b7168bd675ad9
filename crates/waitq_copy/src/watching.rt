//! The watchers of a copy, which can be asked what they tell.

ghost use Rattle.std.specs.Prelude.{◌≡◌, ◌<◌, length, HoldsAt};
ghost use Rattle.func_head.specs.Walks.{told_by};

use func_head::{FuncHead, Watchers};

/// Watchers that tell a number each.
pub trait Tellers: Watchers {
    /// How many there are.
    fn count(&self) -> usize
        ensures { result ≡ length (Self.entries self.now) };

    /// What the watcher at a place tells.
    fn told_at(&self, place: usize) -> u64
        requires { place < length (Self.entries self.now) }
        ensures { HoldsAt (λ e. result ≡ told_by e.func) (Self.entries self.now) place };
}

impl Tellers for FuncHead {
    fn count(&self) -> usize {
        self.len()
    }

    fn told_at(&self, place: usize) -> u64 {
        self.tell_at(place)
    }
}
