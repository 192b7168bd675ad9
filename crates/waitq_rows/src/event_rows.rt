//! Whole texts of copies under planned signals, and of one whose first watcher stops each walk.

ghost use Rattle.std.specs.Prelude.{◌+◌, ◌-◌, ◌^◌, ◌∷◌, [], min, slice_index};

use crate::cases::{Bytes, Case, Held, Like, RUN, play_all, play_under};
use func_head::{FuncHead, WakeFn};
use std::alloc::{AllocError, Global};
use std::test::Fail;
use waitq_copy::watchers::Lines;

/// Answers the same at each call, and tells how many there were.
#[derive(Drop)]
struct Calls {
    answer: i32,
    count: u64,
}

impl WakeFn for Calls {
    ghost meaning = { λ c. record {
      state = c.count ∷ [];
      answers = λ state mode key. c.answer;
      leaves = λ state mode key. min (slice_index state 0 + 1) (2 ^ 64 - 1) ∷ [];
      tells = λ state. slice_index state 0;
    } };

    fn call(&mut self, _mode: u32, _key: &[u8]) -> i32 {
        self.count = self.count.saturating_add(1);
        self.answer
    }

    fn tell(&self) -> u64 {
        self.count
    }
}

/// A watcher that answers -1 and tells its calls, and one of lines after it.
fn stopping(alloc: Global) -> Result<FuncHead, Fail> {
    let mut watch = FuncHead::new(alloc);
    let below = Box::new(
        alloc,
        Calls {
            answer: -1,
            count: 0,
        },
    )?;
    let lines = Box::new(alloc, Lines { ends: 0 })?;
    if watch.add_exclusive(below).is_err() || watch.add_exclusive(lines).is_err() {
        return Err(AllocError)?;
    }
    Ok(watch)
}

/// A copy of one newline.
const NEWLINE: Case = Case {
    name: "a_watcher_below_0_stops_the_walk",
    words: &["copy", "a", "b"],
    a: Some(Bytes::Just("\n")),
    text: Bytes::Just("copied 1 bytes\nmoved 3\nwatch 0 1\nwatch 1 0\nsignals 0\n"),
    left: Held::Such(Like::All),
    ..RUN
};

/// A watcher that answers -1 ends each walk: the one after it is never called. The copy goes on.
#[test]
fn a_watcher_below_0_stops_the_walk(rt: HostRuntime) -> Result<(), Fail> {
    let watch = stopping(rt.alloc())?;
    play_under(&rt, rt.alloc(), 1, &NEWLINE, watch)
}

/// A copy of 20,000 bytes.
const COPY: Case = Case {
    words: &["copy", "a", "b"],
    a: Some(Bytes::Hundreds(20_000)),
    left: Held::Such(Like::All),
    ..RUN
};

const SIGNALS: &[Case] = &[
    Case {
        name: "signals_change_their_number_alone: two at one worker",
        events: &["signal:relay@4096", "signal:relay@4096"],
        text: Bytes::Just(
            "copied 20000 bytes\nmoved 60000\nwatch 0 20000\nwatch 1 200\nsignals 2\n",
        ),
        ..COPY
    },
    Case {
        name: "signals_change_their_number_alone: a kill beyond the end",
        events: &["kill:writer@20001"],
        text: Bytes::Just(
            "copied 20000 bytes\nmoved 60000\nwatch 0 20000\nwatch 1 200\nsignals 0\n",
        ),
        ..COPY
    },
    Case {
        name: "signals_change_their_number_alone: five for each worker",
        events: &[
            "signal:reader@0",
            "signal:reader@1",
            "signal:reader@4096",
            "signal:reader@8192",
            "signal:reader@20000",
            "signal:relay@0",
            "signal:relay@1",
            "signal:relay@4096",
            "signal:relay@8192",
            "signal:relay@20000",
            "signal:writer@0",
            "signal:writer@1",
            "signal:writer@4096",
            "signal:writer@8192",
            "signal:writer@20000",
        ],
        text: Bytes::Just(
            "copied 20000 bytes\nmoved 60000\nwatch 0 20000\nwatch 1 200\nsignals 15\n",
        ),
        ..COPY
    },
];

/// Plain signals change nothing but their number in the text: two at one worker, a kill beyond the end, and one at each
/// of five offsets for each of the three workers.
#[test]
fn signals_change_their_number_alone(rt: HostRuntime) -> Result<(), Fail> {
    play_all(&rt, rt.alloc(), SIGNALS)
}
