//! The numbers of the calls, by the names that C and Rust give them: the calls of `front/c/sugwelan_calls.h`, which says
//! what numbers each has.

// To go on with the call that is under way.
pub const ADVANCE: u32 = 0;

// Waits.
pub const WAIT_EVENT: u32 = 1;

pub const SWAIT_EVENT: u32 = 2;

pub const WAIT_VAR_EVENT: u32 = 3;

pub const WAIT_ON_BIT: u32 = 4;

pub const WAIT_ON_BIT_LOCK: u32 = 5;

pub const LOCK_PAGE: u32 = 6;

pub const WAIT_FOR_COMPLETION: u32 = 7;

// Wakes.
pub const WAKE_UP: u32 = 10;

pub const SET_AND_WAKE: u32 = 11;

pub const PUBLISH_VAR_AND_WAKE: u32 = 12;

pub const CLEAR_AND_WAKE_UP_BIT: u32 = 13;

pub const UNLOCK_PAGE: u32 = 14;

// Wakes of simple queues.
pub const SWAKE_UP_ONE: u32 = 15;

pub const SWAKE_UP_ALL: u32 = 16;

pub const SET_AND_SWAKE: u32 = 17;

// Calls about completions.
pub const COMPLETE: u32 = 18;

pub const COMPLETE_ALL: u32 = 19;

pub const REINIT_COMPLETION: u32 = 20;

pub const TRY_WAIT_FOR_COMPLETION: u32 = 21;

pub const COMPLETION_DONE: u32 = 22;

// Calls that are over at once.
pub const TRYLOCK_BIT: u32 = 30;

pub const TRYLOCK_PAGE: u32 = 31;

pub const ADD_TALLY: u32 = 32;

pub const TAKE_CONDITION: u32 = 33;

pub const NUMBER: u32 = 34;

pub const RAISE_SIGNAL: u32 = 35;

pub const TAKE_SIGNAL: u32 = 36;

pub const WAKE_UP_PROCESS: u32 = 37;

// To go on with the call that is under way, and to leave it where it is a wait.
pub const LEAVE: u32 = 38;
