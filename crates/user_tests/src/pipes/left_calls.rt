//! Calls on pipes that are left, or could be, by a writer and a reader on one thread.

use crate::pipes::alone::BEHIND;
use crate::pipes::calls::FULL;
use crate::pipes::scripts::{Call, Deed, Script, Told, play};
use std::test::Fail;

const GOES_THROUGH: Script = &[
    Deed::Puts(5, 3, Call::Unasked, Told::Went(3)),
    Deed::Gets(5, 16, Call::Unasked, Told::Went(3)),
    Deed::ClosesWrite,
    Deed::Gets(8, 16, Call::Unasked, Told::Went(0)),
];

/// Who is never asked goes as the plain calls do.
#[test]
fn piece_goes_through_unasked(rt: HostRuntime) -> Result<(), Fail> {
    play(&rt, rt.alloc(), 1, GOES_THROUGH)
}

const FULL_LEFT: Script = &[
    Deed::Puts(0, FULL, Call::Asked, Told::Went(FULL)),
    Deed::Puts(BEHIND, 9, Call::Asked, Told::Left(0)),
    Deed::Gets(0, FULL, Call::Plain, Told::Went(FULL)),
    Deed::Puts(BEHIND, 9, Call::Asked, Told::Went(9)),
    Deed::Gets(BEHIND, FULL, Call::Plain, Told::Went(9)),
];

/// Who is asked at once leaves a full pipe with nothing put, and puts its bytes where there is room, asked or not.
#[test]
fn writer_leaves_a_full_pipe_at_once(rt: HostRuntime) -> Result<(), Fail> {
    play(&rt, rt.alloc(), 2, FULL_LEFT)
}

const EMPTY_LEFT: Script = &[
    Deed::Gets(8, 7, Call::Asked, Told::Left(0)),
    Deed::Puts(8, 1, Call::Plain, Told::Went(1)),
    Deed::Gets(8, 7, Call::Asked, Told::Went(1)),
    Deed::Gets(9, 7, Call::Asked, Told::Left(2)),
    Deed::ClosesWrite,
    Deed::Gets(9, 7, Call::Asked, Told::Went(0)),
];

/// So does who is asked at an empty one; and where an end is closed, that is told, asked or not.
#[test]
fn reader_leaves_an_empty_pipe_at_once(rt: HostRuntime) -> Result<(), Fail> {
    play(&rt, rt.alloc(), 3, EMPTY_LEFT)
}

const FULL_BROKEN: Script = &[
    Deed::Puts(0, FULL, Call::Plain, Told::Went(FULL)),
    Deed::ClosesRead,
    Deed::Puts(BEHIND, 1, Call::Asked, Told::Broken),
];

/// A full pipe whose read end is closed is broken, whoever is asked.
#[test]
fn full_pipe_without_reader_is_broken(rt: HostRuntime) -> Result<(), Fail> {
    play(&rt, rt.alloc(), 4, FULL_BROKEN)
}
