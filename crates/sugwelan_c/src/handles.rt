//! Tasks that are made for C, and given up.

ghost use Rattle.std.specs.Prelude.{◌≡◌, ◌<◌, ◌≤◌, MatchResult};
ghost use Rattle.wait_model.specs.declared.layout.TheConstants.{BIT_WORDS};
ghost use Rattle.sugwelan_c.specs.Handles.{IsFork, IsNew, IsUnmade, KeepsAny, KeepsSome, MayFree, HasNoFork, NoNew, unmade_code};

use crate::blocks::Block;
use crate::replies::{DONE, EAGAIN, EBUSY, EINVAL, ENOMEM, ENOTEMPTY, refusal_code};
use std::alloc::Global;
use wait_model::layout::{BIT_WORDS, WORD_BITS};
use wq_checked::tasks::NoFork;
use wq_checked::{CheckedTask, Refused};

/// Why no further task was made: it was to have more numbers than a byte counts; no call of the task may begin; fewer
/// numbers are spare; there is no memory, and then the numbers may be gone.
#[derive(Clone, Copy)]
pub enum Unmade {
    Wide,
    Refused(Refused),
    Numbers,
    Memory,
}

fn unmade_code(why: Unmade) -> i32
    ensures { result ≡ unmade_code why }
{
    match why {
        Unmade::Wide => EINVAL,
        Unmade::Refused(reason) => refusal_code(reason),
        Unmade::Numbers => EAGAIN,
        Unmade::Memory => ENOMEM,
    }
}

/// A Domain and its first task.
pub fn begin(alloc: Global) -> Result<Block<CheckedTask, Global>, i32>
    ensures { MatchResult result (λ b. IsNew b.value) NoNew }
{
    let Ok(task) = CheckedTask::start(alloc) else {
        return Err(ENOMEM);
    };
    match Box::new(alloc, task) {
        Ok(block) => Ok(Block::of(block)),
        Err(_) => Err(ENOMEM),
    }
}

fn fork_by(
    alloc: Global,
    task: &mut CheckedTask,
    share: u8,
) -> Result<Block<CheckedTask, Global>, Unmade>
    ensures { MatchResult result (λ b. IsFork task.old task.new share b.value) (IsUnmade task.old task.new share) }
{
    if let Some(reason) = task.refusal() {
        return Err(Unmade::Refused(reason));
    }
    match task.fork(share) {
        Ok(child) => match Box::new(alloc, child) {
            Ok(block) => Ok(Block::of(block)),
            Err(_) => Err(Unmade::Memory),
        },
        Err(NoFork::Numbers) => Err(Unmade::Numbers),
        Err(NoFork::Owners { full: _ }) => Err(Unmade::Memory),
        Err(NoFork::Busy) => unreachable!(),
    }
}

/// A further task of the same Domain, with `share` numbers to give out.
pub fn fork(
    alloc: Global,
    task: &mut CheckedTask,
    share: u32,
) -> Result<Block<CheckedTask, Global>, i32>
    ensures { MatchResult result (λ b. IsFork task.old task.new share b.value) (HasNoFork task.old task.new share) }
{
    if share >= 256 {
        return Err(unmade_code(Unmade::Wide));
    }
    match fork_by(alloc, task, share as u8) {
        Ok(block) => Ok(block),
        Err(why) => Err(unmade_code(why)),
    }
}

/// Whether the task keeps a bit of a word.
fn keeps_some(task: &CheckedTask, word: u8) -> bool
    requires { word < BIT_WORDS }
    ensures { KeepsSome task.now.kept word result }
{
    for bit in 0..WORD_BITS as u8 {
        if task.keeps(word, bit) {
            return true;
        }
    }
    false
}

/// Whether the task keeps any bit or page.
fn keeps_any(task: &CheckedTask) -> bool
    ensures { KeepsAny task.now.kept result }
{
    for word in 0..BIT_WORDS as u8 {
        if keeps_some(task, word) {
            return true;
        }
    }
    false
}

/// Whether the task may be given up: 0, or why not. One that makes no more calls may.
pub fn code_to_free(task: &CheckedTask) -> i32
    ensures { MayFree task.now result }
{
    match task.refusal() {
        Some(Refused::Starved) => DONE,
        Some(_) => EBUSY,
        None => { if keeps_any(task) { ENOTEMPTY } else { DONE } }
    }
}

/// Gives the task up, and frees its block.
pub fn discard(block: Block<CheckedTask, Global>) {
    drop(block.into_box());
}
