//! The library for C, and for whatever calls C: tasks by their addresses, and calls of which none waits. A call that is to
//! wait, or to go on, says so, and goes on by the next advance.
#![tactic(auto)]

ghost use Rattle.std.specs.Borrow.{sem};
ghost use Rattle.wq_checked.specs.Checked.{Checked};
ghost use Rattle.sugwelan_c.specs.Blocks.{gives_block, holds_block, left, owned};
ghost use Rattle.sugwelan_c.specs.Handles.{IsFork, IsNew, MayFree, HasNoFork, NoNew};
ghost use Rattle.sugwelan_c.specs.Served.{Serves};

pub mod addresses;
pub mod blocks;
pub mod calls;
pub mod handles;
pub mod kinds;
pub mod replies;
pub mod serving;

use addresses::{put, take};
use calls::Call;
use handles::{begin, code_to_free, discard, fork};
use replies::Told;
use serving::serve;
use std::alloc::Global;
use wq_checked::CheckedTask;

/// Makes a Domain and its first task, whose address it writes to `out`: 0, or -ENOMEM, and then `out` is left as it is.
#[unsafe(no_mangle)]
pub extern "C" fn sugwelan_new(alloc: Global, out: &mut *mut u8) -> i32
    ensures* { sem 𝓛 (gives_block IsNew NoNew result out.new out.old) }
{
    put(begin(alloc), out)
}

/// A call of the task at the address, which no other call uses meanwhile: a code of `replies`, where each stands with
/// its reason, and `told` says the rest. A call that is refused changes nothing.
#[unsafe(no_mangle)]
pub unsafe extern "C" fn sugwelan_call(task: *mut u8, call: &Call, told: &mut Told) -> i32
    ghost held: { Checked }
    requires* { sem 𝓛 (owned task held) }
    ensures* { sem 𝓛 (holds_block (λ now. Serves held now call.now told.new result) task) }
{
    serve(&mut *(task as *mut CheckedTask), call, told)
}

/// Makes a further task of the same Domain, with `share` of the numbers that are spare, below 256, and writes its address
/// to `out`: 0. Else `out` is left as it is. -EINVAL: `share` is 256 or more. -EBUSY: a call of the task is under way.
/// -ENOTRECOVERABLE: it makes no more calls. -EAGAIN: fewer than `1 + share` numbers are spare. -ENOMEM: there is no
/// memory, and the numbers may be used up.
#[unsafe(no_mangle)]
pub unsafe extern "C" fn sugwelan_fork(
    alloc: Global,
    task: *mut u8,
    share: u32,
    out: &mut *mut u8,
) -> i32
    ghost held: { Checked }
    requires* { sem 𝓛 (owned task held) }
    ensures* { ∃ₛ (λ (now : Checked). sem 𝓛 (owned task now)
        ∗ sem 𝓛 (gives_block (IsFork held now share) (HasNoFork held now share) result out.new out.old)) }
{
    put(fork(alloc, &mut *(task as *mut CheckedTask), share), out)
}

/// Gives the task up and frees its block: 0, also of a task that makes no more calls. Else it is left as it is. -EBUSY: a
/// call of the task is under way. -ENOTEMPTY: it keeps a bit or a page.
#[unsafe(no_mangle)]
pub unsafe extern "C" fn sugwelan_free(alloc: Global, task: *mut u8) -> i32
    ghost held: { Checked }
    requires* { sem 𝓛 (owned task held) }
    ensures code { MayFree held result }
    ensures* left { sem 𝓛 (left result task held) }
{
    let code = code_to_free(&*(task as *const CheckedTask));
    if code == 0 {
        discard(take(alloc, task));
    }
    code
}
