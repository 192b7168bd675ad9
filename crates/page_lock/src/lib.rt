//! Locks of pages on real threads, each with a tally: who gives a page back hands it to the first that waits for it
//! (`lock_page` and `unlock_page`, include/linux/pagemap.h and mm/filemap.c; the rules of the hand-over are this
//! project's own). The lock of page p is bit 0 of bit word p.
#![tactic(auto)]

pub mod laws;
pub mod leaves;
pub mod tallies;
pub mod tries;
pub mod unlocks;
pub mod wait_calls;
pub mod waits;

pub use leaves::lock_page_until;
pub use tallies::add_tally;
pub use tries::try_lock_page;
pub use unlocks::unlock_page;
pub use wait_calls::lock_page;
