//! Wake functions of a caller, and walks over them.
//!
//! A caller puts its own functions into a `FuncHead`, boxed, as a kernel's caller puts entries with functions of its
//! own into a wait queue head. A walk calls them in the order of the queue, and each may change what it keeps: it
//! answers whether it woke somebody, and later tells a number.
//! Nothing here waits, and no thread is started: a head is moved to the thread that walks over it.
#![tactic(auto)]

mod head;
mod walks;
mod watchers;

pub use head::FuncHead;
pub use walks::WakeFn;
pub use watchers::{NoWatchers, Watchers};
