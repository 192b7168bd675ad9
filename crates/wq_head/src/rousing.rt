//! Threads that a hold is to wake once it has given the lock back: woken earlier, they would wait for it at once.

ghost use Rattle.std.specs.Prelude.{◌≡◌, ◌<◌, ◌++◌, ◌∷◌, [], IfErr, IfOk, length};
ghost use Rattle.wait_model.specs.{declared.layout.TheConstants.MEMBERS, Fold.met_task};
ghost use Rattle.wait_model.specs.declared.steps.Step.TheVariants as step;
ghost use Rattle.wait_rule.specs.{Says.IsUp, Says.AddsOf, Tried.IsStarved};
ghost use Rattle.wq_head.specs.Roused.{HasRoused, tasks_in};

use arrayvec::ArrayVec;
use wait_model::layout::MEMBERS;
use wait_rule::tasks::rouse;
use wait_rule::tries::{FailedTries, wake_tries};
use wait_rule::{Domain, Task};

/// How many tasks there is room for: as many as a head can have members, each of which wakes one at most.
const ROOM: usize = MEMBERS as usize;

/// The tasks that a hold has woken and whose threads are still to be roused, in the order of their wakes. It is linear:
/// `end` takes it once none is left, that is, once who made the wake has roused them or handed them on.
pub struct Rousing {
    tasks: ArrayVec<u8, ROOM>,
}

impl Rousing {
    /// None. It takes no memory but its own.
    pub fn new() -> Rousing
        ensures { tasks_in result ≡ [] }
    {
        Rousing {
            tasks: ArrayVec::new(),
        }
    }

    /// One more.
    fn put(&mut self, who: u8)
        requires { length (tasks_in self.old) < MEMBERS }
        ensures { tasks_in self.new ≡ tasks_in self.old ++ who ∷ [] }
    {
        self.tasks.push(who);
    }

    /// The tasks, for who rouses them in a way of its own; `hand_on` follows.
    pub fn tasks(&self) -> &[u8]
        ensures { result.now ≡ tasks_in self.now }
    {
        self.tasks.as_slice()
    }

    /// Takes all out, for who has seen to it that they are roused in a way of its own.
    pub fn hand_on(&mut self)
        ensures { tasks_in self.new ≡ [] }
    {
        self.tasks.clear();
    }

    /// Wakes the threads of all where they are parked, and takes them out.
    pub fn rouse_all(&mut self, domain: &Domain)
        ensures { tasks_in self.new ≡ [] }
    {
        for who in self.tasks.as_slice() {
            rouse(domain, *who);
        }
        self.hand_on();
    }

    /// Ends a list in which none is left.
    pub fn end(self)
        requires { tasks_in self ≡ [] }
    {
        let Rousing { tasks: _ } = self;
    }
}

/// Wakes task `who` (`try_to_wake_up`), and leaves its thread to be roused later. Err only where all tries failed.
pub(crate) fn wake_later(
    domain: &Domain,
    task: &mut Task,
    rousing: &mut Rousing,
    who: u8,
    mask: u32,
) -> Result<bool, FailedTries>
    requires of { task.old.domain ≡ domain.now }
    requires up { IsUp task.old }
    requires room { length (tasks_in rousing.old) < MEMBERS }
    ensures step { IfOk result (λ yes. AddsOf task.old task.new (λ found. step.Wake who mask found)
        (λ found. yes ≡ met_task mask found)) }
    ensures rouses { HasRoused task.old task.new rousing.old rousing.new }
    ensures starved { IfErr result (λ failed. IsStarved failed × (task.new ≡ task.old)) }
{
    let woke = wake_tries(domain, task, who, mask)?;
    if woke.rouse {
        rousing.put(who);
    }
    Ok(woke.met)
}
