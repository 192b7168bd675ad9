//! Worked numbers of the heads, of the positions, of a completion's count and of a task's word.

use std::test::Fail;
use test_tasks::wants::all_so;
use wait_model::counts::{raised_done, taken_done};
use wait_model::heads::{bit_head, var_head};
use wait_model::layout::NORMAL;
use wait_model::places::{front_place, priority_place, tail_place};
use wait_model::positions::{
    cell_at, claim_at, cond_at, entry_at, flag_at, head_at, mark_at, member_at, next_at,
    serving_at, tally_at, task_at,
};
use wait_model::task_words::{TaskWord, raised, slept, woken};
use wait_model::tasks::Sleep;
use wait_model::watches::Watch;

#[test]
fn heads_of_bits_and_variables() -> Result<(), Fail> {
    all_so(&[
        bit_head(0, 0) == 0,
        bit_head(1, 0) == 114,
        bit_head(2, 16) == var_head(144),
        var_head(1) == 97,
        var_head(2) == 195,
        var_head(3) == 37,
        var_head(128) == 228,
        var_head(129) == 70,
    ])
}

#[test]
fn counts_stay_at_their_end() -> Result<(), Fail> {
    all_so(&[
        raised_done(0) == 1,
        raised_done(0xFFFF_FFFE) == 0xFFFF_FFFF,
        raised_done(0xFFFF_FFFF) == 0xFFFF_FFFF,
        taken_done(1) == 0,
        taken_done(0xFFFF_FFFF) == 0xFFFF_FFFF,
    ])
}

#[test]
fn words_stand_one_class_behind_the_other() -> Result<(), Fail> {
    let of_tasks = [
        task_at(0) == 1,
        task_at(255) + 1 == entry_at(0, 0),
        entry_at(255, 1) + 1 == flag_at(0, 0),
        flag_at(255, 1) + 1 == mark_at(0),
        mark_at(255) + 1 == head_at(0),
    ];
    all_so(&of_tasks)?;
    let of_conditions = [
        head_at(383) + 1 == cond_at(Watch::Plain { cond: 0 }),
        cond_at(Watch::Done { cell: 0 }) == 1985,
        cond_at(Watch::Bit { word: 0, bit: 63 }) == 2049,
        cond_at(Watch::Var { var: 127, old: 5 }) + 1 == tally_at(0),
        tally_at(127) + 1 == cell_at(0, 0),
    ];
    all_so(&of_conditions)?;
    let of_pipes_and_heads = [
        cell_at(7, 1023) + 1 == claim_at(0, 0),
        claim_at(7, 1) + 1 == member_at(0, 0),
        member_at(0, 11) + 1 == member_at(1, 0),
        member_at(383, 11) + 1 == next_at(0),
        next_at(383) + 1 == serving_at(0),
        serving_at(383) == 16_016,
    ];
    all_so(&of_pipes_and_heads)
}

/// Whether a place is one: none is not.
pub(crate) fn is_at(place: Option<u64>, wanted: u64) -> bool {
    match place {
        Some(at) => at == wanted,
        None => false,
    }
}

#[test]
fn adds_wear_out_at_the_ends_of_the_places() -> Result<(), Fail> {
    let middle = 1 << 39;
    let end = 1 << 40;
    all_so(&[
        is_at(front_place(None), middle + (1 << 38)),
        front_place(Some(middle)).is_none(),
        is_at(front_place(Some(middle + 1)), middle),
        is_at(front_place(Some(middle + 2)), middle),
        is_at(tail_place(None), middle + (1 << 38)),
        tail_place(Some(end - 2)).is_none(),
        is_at(tail_place(Some(end - 3)), end - 2),
        is_at(tail_place(Some(end - 4)), end - 2),
        is_at(priority_place(None), 1 << 38),
        priority_place(Some(middle - 2)).is_none(),
        is_at(priority_place(Some(middle - 4)), middle - 2),
    ])
}

/// Whether a task with this word is put asleep, and leaves this of it.
fn sleeps(word: u64, left: u64) -> bool {
    let (found, sleep) = slept(TaskWord(word));
    found.0 == left && matches!(sleep, Sleep::Asleep)
}

/// Whether a signal keeps a task with this word awake, which leaves this of it.
fn stays(word: u64, left: u64) -> bool {
    let (found, sleep) = slept(TaskWord(word));
    found.0 == left && matches!(sleep, Sleep::Signal)
}

/// Whether a wake by the mask `NORMAL` meets a task with this word, and makes it another.
fn wakes(word: u64, wanted: u64) -> bool {
    let (found, met) = woken(TaskWord(word), NORMAL);
    met && found.0 == wanted
}

#[test]
fn signals_wake_the_states_that_admit_them() -> Result<(), Fail> {
    all_so(&[
        sleeps(0x1_0002, 0x2),
        stays(0x3_0001, 0x3_0000),
        sleeps(0x3_0102, 0x2_0102),
        stays(0x7_0102, 0x7_0000),
        wakes(0x2, 0x1_0000),
        raised(TaskWord(0x1_0000), true).0 == 0x7_0000,
    ])
}
