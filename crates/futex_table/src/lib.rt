//! Futexes on real threads (kernel/futex/core.c, `futex_wait`, `futex_wake`): a task sleeps on a word only if that has
//! the value which it expects, and is woken by whoever changed it; and mutexes and condition variables of them.
#![tactic(auto)]

pub mod cond_stretches;
pub mod cond_vars;
pub mod futexes;
pub mod laws;
pub mod leaves;
pub mod lock_leaves;
pub mod lock_stretches;
pub mod mutexes;
mod stores;
pub mod tallies;
pub mod waits;

pub use cond_stretches::{
    CondWait, begin_cond_wait, end_cond_wait, end_cond_wait_until, stretch_cond_wait,
    stretch_cond_wait_out, woke_cond_wait,
};
pub use cond_vars::{CondEnd, cond_broadcast, cond_signal, cond_wait};
pub use futexes::{FutexEnd, begin_futex, end_futex, futex_store, futex_wait, futex_wake};
pub use leaves::{end_futex_wait_until, futex_wait_until, leave_futex_wait};
pub use lock_leaves::{cond_wait_until, mutex_lock_until};
pub use lock_stretches::{
    ask_mutex_lock, begin_mutex_lock, end_mutex_lock, end_mutex_lock_until, stretch_mutex_lock,
    stretch_mutex_lock_out, woke_mutex_lock,
};
pub use mutexes::{mutex_lock, mutex_open, mutex_try, mutex_unlock};
pub use tallies::{tally_fork, tally_join, tally_read};
