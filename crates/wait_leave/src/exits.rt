//! Where waits go on that are left.

use std::alloc::AllocError;
use wait_class::stages::Turn;

/// Where a wait goes on that was asked to leave it at a stage: at another stage, or it is over (`Turn::Again`,
/// `Turn::Done`); and whether RUNNING is stored first, since the state may still be the one in which the call sleeps.
#[derive(Copy)]
pub struct Exit<S, O> {
    pub to: Turn<S, O>,
    pub rests: bool,
}

impl<S: Copy, O: Copy> Clone for Exit<S, O> {
    fn clone(&self) -> Result<Exit<S, O>, AllocError> {
        Ok(*self)
    }
}

/// How a wait ended that its task may leave. Over: as the call answers that is not left. Left: it was asked to leave, its
/// entry is off, and its last look found `seen`, in which what it waits for was not set.
#[derive(Copy, Debug)]
pub enum Until<A> {
    Over(A),
    Left { seen: u64 },
}

impl<A: Copy> Clone for Until<A> {
    fn clone(&self) -> Result<Until<A>, AllocError> {
        Ok(*self)
    }
}
