//! Heads of a caller's functions, and walks over them.

ghost use Rattle.std.specs.Prelude.{◌≡◌, ◌+◌, ◌-◌, ◌^◌, ◌∷◌, [], length, min, slice_index};
ghost use Rattle.func_head.specs.Walks.{shown_all};

use crate::tests::wants::{all_so, wants};
use func_head::{FuncHead, NoWatchers, WakeFn, Watchers};
use std::alloc::{AllocError, Global};
use std::process::Abort;
use std::test::Fail;
use std::thread;
use wait_model::queues::{End, Walked};

/// Answers the same at each call, and tells how many bytes its keys had.
#[derive(Drop)]
struct Counter {
    answer: i32,
    bytes: u64,
}

impl WakeFn for Counter {
    ghost meaning = { λ c. record {
      state = c.bytes ∷ [];
      answers = λ state mode key. c.answer;
      leaves = λ state mode key. min (slice_index state 0 + length key) (2 ^ 64 - 1) ∷ [];
      tells = λ state. slice_index state 0;
    } };

    fn call(&mut self, _mode: u32, key: &[u8]) -> i32 {
        self.bytes = self.bytes.saturating_add(key.len() as u64);
        self.answer
    }

    fn tell(&self) -> u64 {
        self.bytes
    }
}

/// How an entry is added.
#[derive(Clone, Copy)]
enum Add {
    Plain,
    Exclusive,
    Priority,
}

/// What is done to a head, and what is to be seen of it.
#[derive(Clone, Copy)]
enum Step {
    /// A counter that answers a number, and has counted so many bytes, is added, and is given a number.
    Adds(Add, i32, u64, u64),
    /// An ordinary wake with a count and a key, in one hold: how many functions answered non-zero, how many of them of
    /// exclusive entries, and how it ended.
    Wakes(u32, &'static [u8], u32, u32, End),
    /// The entry of a number is removed: what its function tells, or nothing where there is none.
    Removes(u64, Option<u64>),
    /// Two pieces are shown to the head, and to nobody.
    Shows(&'static [u8], &'static [u8]),
    /// What the functions tell, in their order.
    Tells(&'static [u64]),
    /// How many were added.
    Added(u64),
}

/// Steps, in their order, on a new head.
#[derive(Clone, Copy)]
struct Row {
    name: &'static str,
    steps: &'static [Step],
}

const ROWS: &[Row] = &[
    Row {
        name: "a_walk_ends_with_its_count_or_at_an_answer_below_0",
        steps: &[
            Step::Adds(Add::Priority, 0, 0, 0),
            Step::Adds(Add::Exclusive, 1, 0, 1),
            Step::Adds(Add::Exclusive, -1, 0, 2),
            Step::Wakes(1, b"x", 1, 1, End::Spent),
            Step::Tells(&[1, 1, 0]),
            Step::Wakes(2, b"x", 1, 1, End::Stopped),
            Step::Tells(&[2, 2, 1]),
            Step::Added(3),
        ],
    },
    // those of priority in the order of their adds, the last that was added at the front, and the tail; with a count of 0
    // all are called, and the three exclusive ones are selected
    Row {
        name: "entries_stand_in_the_order_of_a_queue",
        steps: &[
            Step::Adds(Add::Plain, 1, 1, 0),
            Step::Adds(Add::Exclusive, 1, 2, 1),
            Step::Adds(Add::Priority, 1, 3, 2),
            Step::Adds(Add::Priority, 1, 4, 3),
            Step::Adds(Add::Plain, 1, 5, 4),
            Step::Tells(&[3, 4, 5, 1, 2]),
            Step::Wakes(0, b"", 5, 3, End::End),
        ],
    },
    // no number is given twice
    Row {
        name: "a_function_that_is_removed_is_handed_back",
        steps: &[
            Step::Adds(Add::Exclusive, 1, 5, 0),
            Step::Adds(Add::Exclusive, 1, 6, 1),
            Step::Adds(Add::Exclusive, 1, 7, 2),
            Step::Removes(1, Some(6)),
            Step::Removes(1, None),
            Step::Tells(&[5, 7]),
            Step::Added(3),
        ],
    },
    Row {
        name: "each_piece_is_shown_to_all_or_to_nobody",
        steps: &[
            Step::Adds(Add::Exclusive, 1, 0, 0),
            Step::Adds(Add::Exclusive, 1, 1, 1),
            Step::Adds(Add::Exclusive, 1, 2, 2),
            Step::Shows(b"abc", b"d\n"),
            Step::Tells(&[5, 6, 7]),
        ],
    },
];

/// Adds a counter. Whether it was given this number.
fn adds(
    alloc: Global,
    head: &mut FuncHead,
    add: Add,
    counter: Counter,
    number: u64,
) -> Result<bool, AllocError> {
    if head.added() == u64::MAX {
        return Ok(false);
    }
    let func = Box::new(alloc, counter)?;
    let added = match add {
        Add::Plain => head.add(func),
        Add::Exclusive => head.add_exclusive(func),
        Add::Priority => head.add_priority(func),
    };
    Ok(match added {
        Ok(given) => given == number,
        Err(_) => false,
    })
}

/// Whether a walk was made in one hold, and selected and woke so many.
fn is_walk(walked: Walked, woken: u32, selected: u32, end: End) -> bool {
    let is_end = matches!(
        (walked.end, end),
        (End::End, End::End) | (End::Spent, End::Spent) | (End::Stopped, End::Stopped)
    );
    is_end && walked.holds == 1 && walked.woken == woken && walked.selected == selected
}

/// What the function that is removed tells.
fn removed(head: &mut FuncHead, number: u64) -> Option<u64> {
    match head.remove(number) {
        Some(func) => Some(func.tell()),
        None => None,
    }
}

/// Shows two pieces to whoever watches.
fn show_two<W: Watchers>(watch: &mut W, one: &[u8], two: &[u8])
    ensures { W.entries watch.new ≡ shown_all (one.now ∷ two.now ∷ []) (W.entries watch.old) }
{
    watch.show(one);
    watch.show(two);
}

/// Whether the functions of a head tell this, in their order.
fn tells(head: &FuncHead, wanted: &[u64]) -> bool {
    let mut index: usize = 0;
    for number in wanted {
        if index >= head.len() || head.tell_at(index) != *number {
            return false;
        }
        index = index.saturating_add(1);
    }
    index == head.len()
}

/// Plays a step, and answers whether what is seen is what is to be seen.
fn is_so(alloc: Global, head: &mut FuncHead, step: Step) -> Result<bool, AllocError> {
    Ok(match step {
        Step::Adds(add, answer, bytes, number) => {
            return adds(alloc, head, add, Counter { answer, bytes }, number);
        }
        Step::Wakes(count, key, woken, selected, end) => {
            is_walk(head.wake(3, count, key), woken, selected, end)
        }
        Step::Removes(number, wanted) => removed(head, number) == wanted,
        Step::Shows(one, two) => {
            show_two(head, one, two);
            show_two(&mut NoWatchers, one, two);
            true
        }
        Step::Tells(wanted) => tells(head, wanted),
        Step::Added(wanted) => head.added() == wanted,
    })
}

/// Plays a row on a new head.
fn plays(rt: &impl Abort, alloc: Global, row: &Row) -> Result<(), Fail> {
    let mut head = FuncHead::new(alloc);
    let mut at: u64 = 0;
    for step in row.steps {
        at = at.saturating_add(1);
        wants(rt, at, row.name, is_so(alloc, &mut head, *step)?);
    }
    Ok(())
}

#[test]
fn heads_by_steps(rt: HostRuntime) -> Result<(), Fail> {
    for row in ROWS {
        plays(&rt, rt.alloc(), row)?;
    }
    Ok(())
}

/// Walks five times over a head that was moved here.
fn walk_five_times(mut head: FuncHead) -> FuncHead {
    for _ in 0..5 {
        head.wake(3, 0, b"abc");
    }
    head
}

#[test]
fn a_head_is_moved_into_a_thread_and_told_after_it(rt: HostRuntime) -> Result<(), Fail> {
    let mut head = FuncHead::new(rt.alloc());
    let counter = Counter {
        answer: 1,
        bytes: 0,
    };
    let is_added = adds(rt.alloc(), &mut head, Add::Plain, counter, 0)?;
    let (head, others) = thread::join(&rt, move || walk_five_times(head), || 7);
    all_so(&rt, &[is_added, tells(&head, &[15]), others == 7]);
    Ok(())
}
