ghost use Rattle.std.specs.Prelude.{◌≡◌, ◌<◌, ◌≤◌, ◌+◌, ◌↔◌, [], IfOk, OnErr, IsTrue, IsFalse};
ghost use Rattle.edge_io.specs.Faults.{HasCounted};
ghost use Rattle.mem_io.specs.Fails.{Calls, FailsNext, CountsCall, IsFresh, IsRenumbered};

use std::alloc::{AllocError, Global};
use std::marker::Model;

// Counts the calls of an object in memory, and tells which of them fail. Both counts end at 2^64 - 1:
// calls from there on don't fail.
#[derive(Drop)]
pub(crate) struct Fails {
    numbers: Vec<u64>,
    made: u64,
    faults: u64,
}

impl Model for Fails {
    ghost Value = { Calls };

    ghost view = { λ f. record { numbers = f.numbers.items; made = f.made; faults = f.faults } };

    ghost invariant = { λ f. f.faults ≤ f.made };
}

impl Fails {
    // The numbers, from 1, are those of the calls that fail. AllocError where they can't be kept.
    pub(crate) fn new(alloc: Global, numbers: &[u64]) -> Result<Fails, AllocError>
        ensures { IfOk result (λ f. IsFresh f numbers.now) }
    {
        Ok(Fails {
            numbers: numbers.to_vec(alloc)?,
            made: 0,
            faults: 0,
        })
    }

    // No call fails.
    pub(crate) fn none(alloc: Global) -> Fails
        ensures { IsFresh result [] }
    {
        Fails {
            numbers: Vec::new(alloc),
            made: 0,
            faults: 0,
        }
    }

    // Whether a call has failed.
    pub(crate) fn has_failed(&self) -> bool
        ensures { IsTrue result ↔ 0 < self.now.faults }
    {
        self.faults > 0
    }

    // Other numbers for the calls from here on. The calls so far stay counted. AllocError where they can't be
    // kept: then nothing is changed.
    pub(crate) fn renumber(&mut self, alloc: Global, numbers: &[u64]) -> Result<(), AllocError>
        ensures numbers { IfOk result (λ _. IsRenumbered self.old self.new numbers.now) }
        ensures same { OnErr result (self.new ≡ self.old) }
    {
        self.numbers = numbers.to_vec(alloc)?;
        Ok(())
    }

    // Counts a call, and says whether it fails.
    pub(crate) fn next(&mut self) -> bool
        ensures fails { IsTrue result ↔ FailsNext self.old }
        ensures risen { IsTrue result → self.new.faults ≡ self.old.faults + 1 }
        ensures counted { IsTrue result → HasCounted self.old.faults self.new.faults }
        ensures kept { IsFalse result → self.new.faults ≡ self.old.faults }
        ensures later { self.old.faults ≤ self.new.faults }
        ensures counts { CountsCall self.old self.new }
    {
        let Some(call) = self.made.checked_add(1) else {
            return false;
        };
        self.made = call;
        if self.numbers.contains(&call) {
            self.faults += 1;
            return true;
        }
        false
    }
}
