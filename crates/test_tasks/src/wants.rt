//! What a test wants to be so, and the two tasks that it begins with. What all crates of tests do stands here once. A
//! failure is an answer, since no library may end the process.

ghost use Rattle.std.specs.Prelude.{IfOk};
ghost use Rattle.wait_rule.specs.Says.{RestsIn};

use std::alloc::Global;
use std::test::Fail;
use wait_rule::{Domain, Task};

/// Wants each of the things seen in a test to be so, in their order.
pub fn all_so(seen: &[bool]) -> Result<(), Fail> {
    let mut at: u64 = 0;
    for is_so in seen {
        if !*is_so {
            return Err(Fail::new(format_args!("number {at}, counted from 0")));
        }
        at = at.saturating_add(1);
    }
    Ok(())
}

/// A new Domain, and tasks 0 and 1 of it, which owe nothing.
pub fn begin_two(alloc: Global) -> Result<(Domain, Task, Task), Fail>
    ensures rest { IfOk result (λ b. RestsIn b.0 b.1 × RestsIn b.0 b.2) }
{
    let (domain, mut task) = Domain::new(alloc)?;
    let other = task.fork(&domain, 0)?;
    Ok((domain, task, other))
}
