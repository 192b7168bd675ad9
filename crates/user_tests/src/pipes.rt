//! Pipes: tasks on one thread, and a writer and a reader in threads. The tests stand on the contracts of the calls
//! alone.

mod alone;
mod calls;
mod full_pieces;
mod left_calls;
mod left_streams;
mod looks;
mod scripts;
pub(crate) mod streams;
