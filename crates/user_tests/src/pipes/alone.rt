//! A writer and a reader on one thread.

use crate::pipes::calls::{FULL, take_read, take_write};
use crate::pipes::scripts::{Call, Deed, Script, Told, play};
use std::test::Fail;
use test_tasks::wants::begin_two;

/// The place in a stream behind a full pipe.
pub(super) const BEHIND: u32 = FULL as u32;

const GOES_THROUGH: Script = &[
    Deed::Puts(5, 3, Call::Plain, Told::Went(3)),
    Deed::Gets(5, 16, Call::Plain, Told::Went(3)),
    Deed::ClosesWrite,
    Deed::Gets(8, 16, Call::Plain, Told::Went(0)),
];

/// A piece goes in and comes out, and behind the last one the reader finds the end.
#[test]
fn piece_goes_through(rt: HostRuntime) -> Result<(), Fail> {
    play(&rt, rt.alloc(), 7, GOES_THROUGH)
}

/// Each end of a pipe is taken once, and each pipe has its own.
#[test]
fn end_is_opened_once(rt: HostRuntime) -> Result<(), Fail> {
    let (domain, mut one, mut two) = begin_two(rt.alloc())?;
    let mut three = one.fork(&domain, 0)?;
    assert!(rt; take_write(&domain, &mut one, 0));
    assert!(rt; !take_write(&domain, &mut two, 0));
    assert!(rt; take_read(&domain, &mut two, 0));
    assert!(rt; !take_read(&domain, &mut three, 0));
    assert!(rt; take_write(&domain, &mut three, 1));
    Ok(())
}

const WITHOUT_READER: Script = &[
    Deed::Puts(1, 2, Call::Plain, Told::Went(2)),
    Deed::ClosesRead,
    Deed::Puts(3, 1, Call::Plain, Told::Broken),
];

/// Nothing can be sent once the read end is closed.
#[test]
fn pipe_without_reader_is_broken(rt: HostRuntime) -> Result<(), Fail> {
    play(&rt, rt.alloc(), 2, WITHOUT_READER)
}

const SIGNALLED_WRITER: Script = &[
    Deed::Puts(0, FULL, Call::Plain, Told::Went(FULL)),
    Deed::Signals(0),
    Deed::Puts(BEHIND, 9, Call::Plain, Told::Interrupted),
    Deed::Gets(0, FULL, Call::Plain, Told::Went(FULL)),
    Deed::Puts(BEHIND, 9, Call::Plain, Told::Went(9)),
    Deed::Gets(BEHIND, FULL, Call::Plain, Told::Went(9)),
];

/// A signal ends the wait of a writer that finds no cell free: nothing went in, and the bytes are in order before it
/// and after it.
#[test]
fn signal_ends_the_wait_of_a_writer(rt: HostRuntime) -> Result<(), Fail> {
    play(&rt, rt.alloc(), 3, SIGNALLED_WRITER)
}

const SIGNALLED_READER: Script = &[
    Deed::Signals(1),
    Deed::Gets(8, 7, Call::Plain, Told::Interrupted),
    Deed::Puts(8, 1, Call::Plain, Told::Went(1)),
    Deed::Gets(8, 7, Call::Plain, Told::Went(1)),
];

/// So does one that of a reader that finds no cell.
#[test]
fn signal_ends_the_wait_of_a_reader(rt: HostRuntime) -> Result<(), Fail> {
    play(&rt, rt.alloc(), 3, SIGNALLED_READER)
}

const CELLS_LEFT: Script = &[
    Deed::Puts(0, 16, Call::Plain, Told::Went(16)),
    Deed::ClosesWrite,
    Deed::Gets(0, 14, Call::Plain, Told::Went(14)),
    Deed::Gets(14, 14, Call::Plain, Told::Went(2)),
    Deed::Gets(16, 14, Call::Plain, Told::Went(0)),
];

/// A write end that is closed with cells left: the reader gets these first, a buffer's worth at a time.
#[test]
fn closed_with_cells_left(rt: HostRuntime) -> Result<(), Fail> {
    play(&rt, rt.alloc(), 4, CELLS_LEFT)
}
