//! The four tasks of a copy, and the five of a merge, given out and taken in.

ghost use Rattle.std.specs.Prelude.{◌≡◌, ◌≤◌, ◌+◌, ◌-◌, [], ◌∷◌};
ghost use Rattle.wait_model.specs.declared.layout.TheConstants.{TASKS};
ghost use Rattle.wait_rule.specs.Journals.{left_with};
ghost use Rattle.wait_rule.specs.Says.{IsClean, IsShown, IsUp, newcomer, seen_with};
ghost use Rattle.copy_ends.specs.Copied.{control_stop, joined_all, joined_four};

use bit_wait::BitEnd;
use copy_plan::Stop;
use wait_rule::{Domain, Task};

/// A task with the next number, which may give out none.
fn fork_one(domain: &Domain, task: &mut Task) -> Task
    requires of { task.old.domain ≡ domain.now }
    requires up { IsUp task.old }
    requires room { 1 ≤ task.old.view.spare }
    ensures new { result ≡ newcomer domain.now task.old.view.next (task.old.view.next + 1) 0 }
    ensures old { task.new ≡ seen_with task.old (left_with 0 task.old.view) }
    ensures up { IsUp task.new }
{
    let Ok(new) = task.fork(domain, 0) else {
        unreachable!();
    };
    new
}

/// The four tasks of a copy, with the next numbers.
pub fn fork_four(domain: &Domain, task: &mut Task) -> (Task, Task, Task, Task)
    requires fresh { task.old ≡ newcomer domain.now 0 1 (TASKS - 1) }
    ensures one { result.0 ≡ newcomer domain.now 1 2 0 }
    ensures two { result.1 ≡ newcomer domain.now 2 3 0 }
    ensures three { result.2 ≡ newcomer domain.now 3 4 0 }
    ensures four { result.3 ≡ newcomer domain.now 4 5 0 }
    ensures rest { task.new ≡ newcomer domain.now 0 5 (TASKS - 5) }
{
    let one = fork_one(domain, task);
    let two = fork_one(domain, task);
    let three = fork_one(domain, task);
    let four = fork_one(domain, task);
    (one, two, three, four)
}

/// The five tasks of a merge, with the next numbers.
pub fn fork_five(domain: &Domain, task: &mut Task) -> (Task, Task, Task, Task, Task)
    requires fresh { task.old ≡ newcomer domain.now 0 1 (TASKS - 1) }
    ensures one { result.0 ≡ newcomer domain.now 1 2 0 }
    ensures two { result.1 ≡ newcomer domain.now 2 3 0 }
    ensures three { result.2 ≡ newcomer domain.now 3 4 0 }
    ensures four { result.3 ≡ newcomer domain.now 4 5 0 }
    ensures five { result.4 ≡ newcomer domain.now 5 6 0 }
    ensures rest { task.new ≡ newcomer domain.now 0 6 (TASKS - 6) }
{
    let (one, two, three, four) = fork_four(domain, task);
    let five = fork_one(domain, task);
    (one, two, three, four, five)
}

/// Takes in the histories of the four.
pub fn join_four(domain: &Domain, task: &mut Task, one: Task, two: Task, three: Task, four: Task)
    requires of { (task.old.domain ≡ domain.now) × ((one.domain ≡ domain.now) × ((two.domain ≡ domain.now)
        × ((three.domain ≡ domain.now) × (four.domain ≡ domain.now)))) }
    requires up { IsUp task.old }
    requires clean { IsClean one × (IsClean two × (IsClean three × IsClean four)) }
    ensures joined { task.new
        ≡ seen_with task.old (joined_four task.old.view one.view two.view three.view four.view) }
    ensures law { IsShown task.new.view }
{
    task.join(domain, one);
    task.join(domain, two);
    task.join(domain, three);
    task.join(domain, four);
}

/// Takes in the histories of the five.
pub fn join_five(
    domain: &Domain,
    task: &mut Task,
    one: Task,
    two: Task,
    three: Task,
    four: Task,
    five: Task,
)
    requires of { (task.old.domain ≡ domain.now) × ((one.domain ≡ domain.now) × ((two.domain ≡ domain.now)
        × ((three.domain ≡ domain.now) × ((four.domain ≡ domain.now) × (five.domain ≡ domain.now))))) }
    requires up { IsUp task.old }
    requires clean { IsClean one × (IsClean two × (IsClean three × (IsClean four × IsClean five))) }
    ensures joined { task.new ≡ seen_with task.old (joined_all task.old.view
        (one.view ∷ two.view ∷ three.view ∷ four.view ∷ five.view ∷ [])) }
    ensures law { IsShown task.new.view }
{
    join_four(domain, task, one, two, three, four);
    task.join(domain, five);
}

/// The stop of a controller, as that of a worker.
pub fn control_stop(total: &Result<u64, BitEnd>) -> Stop
    ensures { result ≡ control_stop total.now }
{
    match *total {
        Err(BitEnd::Worn { head, place }) => Stop::Worn { head, place },
        Err(BitEnd::Interrupted { .. }) | Ok(_) => Stop::Finished,
    }
}
