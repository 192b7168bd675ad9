//! Addresses that C holds, and the blocks at them.

ghost use Rattle.std.specs.Prelude.{◌≡◌, Ok, Err};
ghost use Rattle.std.specs.Borrow.{sem};
ghost use Rattle.wq_checked.specs.Checked.{Checked};
ghost use Rattle.sugwelan_c.specs.Blocks.{code_in, owned, puts};

use crate::blocks::Block;
use std::alloc::Global;
use wq_checked::CheckedTask;

/// Writes the address of a block to `out`. An error leaves what stands there.
pub fn put(made: Result<Block<CheckedTask, Global>, i32>, out: &mut *mut u8) -> i32
    ensures code { result ≡ code_in made }
    ensures* block { sem 𝓛 (puts made out.new out.old) }
{
    match made {
        Ok(block) => {
            let Block { at, alloc: _ } = block;
            *out = at as *mut u8;
            0
        }
        Err(code) => code,
    }
}

/// The block at this address.
pub unsafe fn take(alloc: Global, task: *mut u8) -> Block<CheckedTask, Global>
    ghost held: { Checked }
    requires* { sem 𝓛 (owned task held) }
    ensures { result.value ≡ held }
{
    Block {
        at: task as *mut CheckedTask,
        alloc,
    }
}
