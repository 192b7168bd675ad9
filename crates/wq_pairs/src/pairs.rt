//! Two calls of a driver, one after the other.

ghost use Rattle.wait_rule.specs.Says.{RestsIn};

use crate::calls::{Call, make};
use std::sync::Wait;
use wait_rule::{Domain, Task};

/// Makes the first call, and then the second, which may be the same.
pub fn make_both<R: Wait>(rt: &R, domain: &Domain, task: &mut Task, first: Call, second: Call)
    requires rests { RestsIn domain.now task.old }
    ensures rests { RestsIn domain.now task.new }
{
    make(rt, domain, task, first);
    make(rt, domain, task, second);
}
