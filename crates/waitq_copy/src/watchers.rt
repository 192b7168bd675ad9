//! The watchers that the program gives to a copy.

ghost use Rattle.std.specs.Prelude.{◌+◌, ◌-◌, ◌^◌, ◌==◌, ◌∷◌, [], count_by, length, min, pos, slice_index};

use func_head::WakeFn;

/// Adds up the lengths of the pieces.
#[derive(Drop)]
pub struct Lengths {
    pub bytes: u64,
}

impl WakeFn for Lengths {
    ghost meaning = { λ w. record {
      state = w.bytes ∷ [];
      answers = λ state mode key. pos 1;
      leaves = λ state mode key. min (slice_index state 0 + length key) (2 ^ 64 - 1) ∷ [];
      tells = λ state. slice_index state 0;
    } };

    fn call(&mut self, _mode: u32, key: &[u8]) -> i32 {
        self.bytes = self.bytes.saturating_add(key.len() as u64);
        1
    }

    fn tell(&self) -> u64 {
        self.bytes
    }
}

/// Counts the ends of lines in the pieces.
#[derive(Drop)]
pub struct Lines {
    pub ends: u64,
}

impl WakeFn for Lines {
    ghost meaning = { λ w. record {
      state = w.ends ∷ [];
      answers = λ state mode key. pos 1;
      leaves = λ state mode key. min (slice_index state 0 + count_by (λ b. b == 10) key) (2 ^ 64 - 1) ∷ [];
      tells = λ state. slice_index state 0;
    } };

    fn call(&mut self, _mode: u32, key: &[u8]) -> i32 {
        let ends = key.iter().filter(|byte| **byte == b'\n').count();
        self.ends = self.ends.saturating_add(ends as u64);
        1
    }

    fn tell(&self) -> u64 {
        self.ends
    }
}
