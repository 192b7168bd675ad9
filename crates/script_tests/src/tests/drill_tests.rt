//! The first calls of a seed, by its first word 0xE220A8397B1DCDAF.

use drill_gen::drill;
use std::test::Fail;
use wait_model::calls::Call;
use wait_model::tasks::{How, SleepState};
use wait_script::Line;

/// Whether these are an exclusive wait of task 15 for condition 3, and its steps.
fn are_of_seed_0(lines: &[Line]) -> bool {
    matches!(
        lines,
        [
            Line::Call {
                task: 15,
                call: Call::Wait {
                    cond: 3,
                    how: How {
                        state: SleepState::Interruptible,
                        exclusive: true
                    }
                }
            },
            Line::Step {
                task: 15,
                count: 40
            }
        ]
    )
}

#[test]
fn the_first_call_of_seed_0_is_an_exclusive_wait(rt: HostRuntime) -> Result<(), Fail> {
    let script = drill(rt.alloc(), 0, 1)?;
    assert!(rt; are_of_seed_0(script.lines.as_slice()));
    Ok(())
}
