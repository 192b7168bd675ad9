//! A part that a task plays again and again.

ghost use Rattle.wait_rule.specs.Says.{RestsIn};

use crate::meetings::Part;
use std::sync::Wait;
use wait_rule::{Domain, Task};

/// A part that is played so often.
#[derive(Clone, Copy)]
pub struct Often<P> {
    pub part: P,
    pub times: u64,
}

impl<P: Part + Copy> Part for Often<P> {
    /// Whether each play went well.
    fn play<R: Wait>(self, rt: &R, domain: &Domain, task: &mut Task) -> bool {
        let Often { part, times } = self;
        let mut well = true;
        for _ in 0..times {
            if !part.play(rt, domain, task) {
                well = false;
            }
        }
        well
    }
}

/// A task plays a part so many times: whether it went as the part says each time.
pub fn play_often<R: Wait, P: Part + Copy>(
    rt: &R,
    domain: &Domain,
    task: &mut Task,
    part: P,
    times: u32,
) -> bool
    requires rests { RestsIn domain.now task.old }
    ensures rests { RestsIn domain.now task.new }
{
    let mut well = true;
    for _ in 0..times {
        well = part.play(rt, domain, task) && well;
    }
    well
}
