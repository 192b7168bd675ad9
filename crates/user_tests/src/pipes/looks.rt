//! Looks of a reader at a pipe, beside what its reads find.

use crate::pipes::scripts::{Call, Deed, Script, Told, play};
use std::test::Fail;

const LOOKS: Script = &[
    Deed::Looks(0, 0, false),
    Deed::Puts(9, 15, Call::Plain, Told::Went(15)),
    Deed::Looks(6, 3, false),
    Deed::Looks(6, 3, false),
    Deed::ClosesWrite,
    Deed::Looks(7, 3, true),
    Deed::Gets(9, 21, Call::Plain, Told::Went(15)),
    Deed::Looks(7, 0, true),
    Deed::Gets(24, 21, Call::Plain, Told::Went(0)),
];

/// A look at an empty pipe, two at one with cells, and one behind the close of the write end while cells are left and
/// once all are taken: each tells the writer's word, the number of cells and whether that end is closed, and takes
/// nothing.
#[test]
fn looks_tell_and_take_nothing(rt: HostRuntime) -> Result<(), Fail> {
    play(&rt, rt.alloc(), 6, LOOKS)
}
