//! What a task answers at the ends of its numbers: every one that is spare can be given out, and no bit is kept that is
//! not there.

use super::took;
use std::test::Fail;
use test_tasks::wants::all_so;
use wait_model::layout::{BIT_WORDS, WORD_BITS};
use wq_checked::calls::Call;
use wq_checked::tasks::{CheckedTask, NoFork};

/// Whether a bit is kept that is not there: of a word from `BIT_WORDS` on, or from bit `WORD_BITS` on.
fn keeps_beyond(task: &CheckedTask) -> bool {
    for word in 0..=u8::MAX {
        for bit in 0..=u8::MAX {
            let is_there = u16::from(word) < BIT_WORDS && u16::from(bit) < WORD_BITS;
            if !is_there && task.keeps(word, bit) {
                return true;
            }
        }
    }
    false
}

/// All 255 further tasks of a Domain are made, and none after them.
#[test]
fn every_number_is_given_out(rt: HostRuntime) -> Result<(), Fail> {
    let mut task = CheckedTask::start(rt.alloc())?;
    for n in 1..=u8::MAX {
        assert!(rt; matches!(task.fork(0), Ok(other) if other.number() == n));
    }
    assert!(rt; matches!(task.fork(0), Err(NoFork::Numbers)));
    Ok(())
}

/// A task takes all that are spare to it, and its own are as many as it was given.
#[test]
fn shares_are_given_out(rt: HostRuntime) -> Result<(), Fail> {
    let mut task = CheckedTask::start(rt.alloc())?;
    let mut other = task.fork(2)?;
    for n in 2..=3 {
        assert!(rt; matches!(other.fork(0), Ok(third) if third.number() == n));
    }
    let seen = [
        matches!(other.fork(0), Err(NoFork::Numbers)),
        matches!(task.fork(252), Err(NoFork::Numbers)),
        matches!(task.fork(251), Ok(last) if last.number() == 4),
    ];
    all_so(&seen)
}

/// A bit that is not there is kept by nobody, whatever is.
#[test]
fn no_bit_is_kept_beyond_the_words(rt: HostRuntime) -> Result<(), Fail> {
    let mut task = CheckedTask::start(rt.alloc())?;
    let seen = [
        !keeps_beyond(&task),
        !task.keeps(127, 63),
        took(task.begin(Call::TryBit { word: 127, bit: 63 })),
        took(task.begin(Call::TryBit { word: 0, bit: 0 })),
        task.keeps(127, 63) && task.keeps(0, 0) && !task.keeps(0, 63),
        !keeps_beyond(&task),
    ];
    all_so(&seen)
}
