//! Pipes by single steps: a task that has both ends of one, and two threads that pass cells to each other.

ghost use Rattle.std.specs.Prelude.{◌≡◌, ◌+◌, ◌*◌, ◌<◌, true};
ghost use Rattle.wait_model.specs.declared.layout.TheConstants.{PIPES, PIPE_CELLS, PIPE_ENDS};
ghost use Rattle.wait_rule.specs.{PipeSays.reading, PipeSays.writing, Says.IsUp};
ghost use Rattle.wait_rule.specs.Passing.{HasPassedCells, IsReady, OthersStay};
ghost use Rattle.wait_rule.specs.Pipes.{IsCell, end_word, read_end, write_end};

use crate::scenes::{Beside, Seen, want_all, want_beside};
use std::sync::Wait;
use std::test::Fail;
use std::thread;
use std::thread::Threads;
use wait_model::layout::{PIPE_CELLS, PIPE_ENDS};
use wait_model::watches::Watch;
use wait_rule::domain::{Domain, Task};
use wait_rule::pipes::{advance, cell_load, cell_store, claim, close, own_load};
use wait_rule::queues::cond_load;

/// How many cells two threads pass: the ring is filled, and the counts start anew.
const PASSED: u16 = 5_000;

/// The counts that the word of an end shows.
const COUNTS: u16 = 2 * PIPE_CELLS;

/// A cell of two bytes, which are a number.
fn cell(n: u16) -> u64
    ensures { IsCell result }
{
    let [low, high] = n.to_le_bytes();
    u64::from_le_bytes([2, low, high, 0, 0, 0, 0, 0])
}

/// Whether there is room for another cell, by the reader's word. The load of the own word tells the task that its
/// counts are in order.
fn has_room(domain: &Domain, task: &mut Task, pipe: u8, n: u16) -> bool
    requires pipe { pipe < PIPES }
    requires passed { HasPassedCells domain.now (write_end pipe) n task.old }
    ensures passed { HasPassedCells domain.now (write_end pipe) n task.new }
    ensures room { result ≡ true → n < (writing pipe task.new).seen + PIPE_CELLS }
    ensures others { OthersStay (write_end pipe) task.old task.new }
{
    own_load(domain, task, pipe, 0);
    let var = PIPE_ENDS as u8 * pipe + 1;
    let freed = (cond_load(domain, task, Watch::Var { var, old: 0 }) / 2
        % u64::from(COUNTS)) as u16;
    (n % COUNTS + COUNTS - freed) % COUNTS < PIPE_CELLS
}

/// Stores a cell and passes it on.
fn put_next(domain: &Domain, task: &mut Task, pipe: u8, n: u16, word: u64)
    requires pipe { pipe < PIPES }
    requires passed { HasPassedCells domain.now (write_end pipe) n task.old }
    requires room { n < (writing pipe task.old).seen + PIPE_CELLS }
    requires few { n < 60_000 }
    requires cell { IsCell word }
    ensures passed { HasPassedCells domain.now (write_end pipe) (n + 1) task.new }
    ensures others { OthersStay (write_end pipe) task.old task.new }
{
    cell_store(domain, task, pipe, n % PIPE_CELLS, word);
    advance(domain, task, pipe, 0, (n + 1) % COUNTS);
}

/// Whether another cell was passed on, by the writer's word.
fn has_cell(domain: &Domain, task: &mut Task, pipe: u8, n: u16) -> bool
    requires pipe { pipe < PIPES }
    requires passed { HasPassedCells domain.now (read_end pipe) n task.old }
    ensures passed { HasPassedCells domain.now (read_end pipe) n task.new }
    ensures there { result ≡ true → n < (reading pipe task.new).seen }
    ensures others { OthersStay (read_end pipe) task.old task.new }
{
    own_load(domain, task, pipe, 1);
    let var = PIPE_ENDS as u8 * pipe;
    let written = (cond_load(domain, task, Watch::Var { var, old: 0 }) / 2
        % u64::from(COUNTS)) as u16;
    written != n % COUNTS
}

/// Loads a cell and gives it back.
fn get_next(domain: &Domain, task: &mut Task, pipe: u8, n: u16) -> u64
    requires pipe { pipe < PIPES }
    requires passed { HasPassedCells domain.now (read_end pipe) n task.old }
    requires there { n < (reading pipe task.old).seen }
    requires few { n < 60_000 }
    ensures passed { HasPassedCells domain.now (read_end pipe) (n + 1) task.new }
    ensures others { OthersStay (read_end pipe) task.old task.new }
{
    let word = cell_load(domain, task, pipe, n % PIPE_CELLS);
    advance(domain, task, pipe, 1, (n + 1) % COUNTS);
    word
}

/// Claims an end: whether the task has it.
fn get_end(domain: &Domain, task: &mut Task, pipe: u8, end: u8) -> bool
    requires ready { IsReady domain.now task.old }
    requires pipe { pipe < PIPES }
    requires end { end < PIPE_ENDS }
    ensures ready { IsReady domain.now task.new }
    ensures passed { result ≡ true → HasPassedCells domain.now (PIPE_ENDS * pipe + end) 0 task.new }
    ensures others { OthersStay (PIPE_ENDS * pipe + end) task.old task.new }
{
    claim(domain, task, pipe, end)
}

/// Closes an end, and loads its word then.
fn closed_word(domain: &Domain, task: &mut Task, pipe: u8, end: u8, n: u16) -> u64
    requires pipe { pipe < PIPES }
    requires end { end < PIPE_ENDS }
    requires passed { HasPassedCells domain.now (PIPE_ENDS * pipe + end) n task.old }
    ensures word { result ≡ end_word n true }
    ensures ready { IsReady domain.now task.new }
    ensures others { OthersStay (PIPE_ENDS * pipe + end) task.old task.new }
{
    close(domain, task, pipe, end);
    own_load(domain, task, pipe, end)
}

/// One task claims both ends of a pipe and passes a cell to itself: the cell that it gets. None where it was refused
/// an end, or sees no room or no cell.
fn pass_alone(domain: &Domain, task: &mut Task, pipe: u8, word: u64) -> Option<u64>
    requires ready { IsReady domain.now task.old }
    requires pipe { pipe < PIPES }
    requires cell { IsCell word }
    ensures ready { IsReady domain.now task.new }
{
    if !get_end(domain, task, pipe, 0) || !get_end(domain, task, pipe, 1) {
        return None;
    }
    if !has_room(domain, task, pipe, 0) {
        return None;
    }
    put_next(domain, task, pipe, 0, word);
    if !has_cell(domain, task, pipe, 0) {
        return None;
    }
    let got = get_next(domain, task, pipe, 0);
    if closed_word(domain, task, pipe, 0, 1) != 3 || closed_word(domain, task, pipe, 1, 1) != 3 {
        return None;
    }
    Some(got)
}

/// Whether it does so by the first pipe and by the last.
pub(crate) fn pass_by_both(domain: &Domain, task: &mut Task) -> [bool; 2]
    requires ready { IsReady domain.now task.old }
{
    let first = pass_alone(domain, task, 0, 0x4101);
    let last = pass_alone(domain, task, 7, cell(513));
    [first == Some(0x4101), last == Some(cell(513))]
}

/// A cell comes out as it was put in, by the first pipe and by the last.
#[test]
fn a_cell_is_passed(rt: HostRuntime) -> Result<(), Fail> {
    want_all(&rt, rt.alloc(), Seen::PassesCells)
}

/// Sends the numbers from 0 on, each once there is room for it, and closes its end.
fn writes<R: Wait>(rt: &R, domain: &Domain, mut task: Task, pipe: u8)
    requires ready { IsReady domain.now task }
    requires pipe { pipe < PIPES }
{
    if !get_end(domain, &mut task, pipe, 0) {
        return;
    }
    let mut n = 0;
    for _ in rt.forever() {
        if n == PASSED {
            close(domain, &mut task, pipe, 0);
            return;
        }
        if has_room(domain, &mut task, pipe, n) {
            put_next(domain, &mut task, pipe, n, cell(n));
            n += 1;
        } else {
            thread::yield_now();
        }
    }
}

/// Gets cells, each once it is there, and closes its end: how many were the numbers from 0 on.
fn reads<R: Wait>(rt: &R, domain: &Domain, mut task: Task, pipe: u8) -> u16
    requires ready { IsReady domain.now task }
    requires pipe { pipe < PIPES }
{
    if !get_end(domain, &mut task, pipe, 1) {
        return 0;
    }
    let mut n = 0;
    let mut right = 0;
    for _ in rt.forever() {
        if n == PASSED {
            close(domain, &mut task, pipe, 1);
            return right;
        }
        if has_cell(domain, &mut task, pipe, n) {
            if get_next(domain, &mut task, pipe, n) == cell(n) {
                right += 1;
            }
            n += 1;
        } else {
            thread::yield_now();
        }
    }
    unreachable!()
}

/// A writer and a reader, each in a thread of its own: how many cells came as they were sent.
fn two_pass<R: Threads + Wait + Sync>(rt: &R, domain: &Domain, one: Task, two: Task) -> u16
    requires one { IsReady domain.now one }
    requires two { IsReady domain.now two }
{
    let (_, right) = thread::join(
        rt,
        move ||
            requires { IsReady domain.now one }
        { writes(rt, domain, one, 3) },
        move || -> u16
            requires { IsReady domain.now two }
        { reads(rt, domain, two, 3) },
    );
    right
}

/// All cells come, each once and in their order.
#[test]
fn cells_come_in_order(rt: HostRuntime) -> Result<(), Fail> {
    let (domain, mut task) = Domain::new(rt.alloc())?;
    let two = task.fork(&domain, 0)?;
    assert!(rt; two_pass(&rt, &domain, task, two) == PASSED);
    Ok(())
}

/// What two tasks find as they claim the ends of one pipe.
pub(crate) fn claim_ends(domain: &Domain, task: &mut Task, other: &mut Task) -> [bool; 5]
    requires of { (task.old.domain ≡ domain.now) × (other.old.domain ≡ domain.now) }
    requires up { IsUp task.old × IsUp other.old }
{
    [
        claim(domain, task, 5, 0),
        !claim(domain, task, 5, 0),
        !claim(domain, other, 5, 0),
        claim(domain, other, 5, 1),
        !claim(domain, task, 5, 1),
    ]
}

/// An end is claimed once, by whomever.
#[test]
fn an_end_is_claimed_once(rt: HostRuntime) -> Result<(), Fail> {
    want_beside(&rt, rt.alloc(), Beside::ClaimsEnds)
}
