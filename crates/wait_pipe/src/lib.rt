//! Bounded pipes of bytes between tasks on real threads: a task that finds no cell free, or none there, waits for the
//! variable of the other end, and one that passes cells on wakes who waits for its own.
#![tactic(auto)]

mod cells;
pub mod ends;
pub mod laws;
pub mod leaves;
mod looks;
pub mod peeks;
pub mod pieces;

pub use ends::{close_read, close_write, open_read, open_write};
pub use leaves::{read_piece_until, write_piece_until};
pub use peeks::{PipeState, peek_read};
pub use pieces::{PipeEnd, read_piece, write_piece};
