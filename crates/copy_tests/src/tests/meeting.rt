//! The three workers run at once.

use crate::tests::wants::all_so;
use copy_plan::{Gate, Stop, Who};
use flow_copy::copy_all;
use func_head::NoWatchers;
use mem_io::{MemSink, MemSource};
use std::sync::atomic::{AtomicU64, Ordering};
use std::test::Fail;
use wait_rule::Domain;

/// How often a worker looks whether the others have come.
const LOOKS: u32 = 1_000_000_000;

/// A gate that holds each worker in its first turn until all three are there.
#[derive(Drop)]
struct Meeting {
    came: [AtomicU64; 3],
    gave_up: AtomicU64,
}

impl Meeting {
    fn new() -> Meeting {
        Meeting {
            came: [AtomicU64::new(0), AtomicU64::new(0), AtomicU64::new(0)],
            gave_up: AtomicU64::new(0),
        }
    }

    fn counts(&self) -> [u64; 3] {
        let [reader, relay, writer] = &self.came;
        [
            reader.load(Ordering::SeqCst),
            relay.load(Ordering::SeqCst),
            writer.load(Ordering::SeqCst),
        ]
    }

    fn is_whole(&self) -> bool {
        let [reader, relay, writer] = self.counts();
        reader > 0 && relay > 0 && writer > 0
    }

    /// Whether each worker came once, and none gave up.
    fn was_met(&self) -> bool {
        self.gave_up.load(Ordering::SeqCst) == 0 && self.counts() == [1, 1, 1]
    }

    fn count_of(&self, who: Who) -> &AtomicU64 {
        match who {
            Who::Reader => &self.came[0],
            Who::Relay => &self.came[1],
            Who::Writer => &self.came[2],
        }
    }
}

impl Gate for Meeting {
    fn pass(&self, who: Who, turn: u64) {
        if turn != 1 {
            return;
        }
        self.count_of(who).fetch_add(1, Ordering::SeqCst);
        for _ in 0..LOOKS {
            if self.is_whole() {
                return;
            }
        }
        self.gave_up.fetch_add(1, Ordering::SeqCst);
    }
}

/// Reader, relay and writer meet in their first turns, each once, and nobody gives up.
#[test]
fn workers_meet_in_their_first_turns(rt: HostRuntime) -> Result<(), Fail> {
    let bytes = [9; 5_000];
    let (domain, mut task) = Domain::new(rt.alloc())?;
    let source = MemSource::new(rt.alloc(), &bytes, &[])?;
    let sink = MemSink::new(rt.alloc(), &[])?;
    let gate = Meeting::new();
    let Ok(end) = copy_all(
        &rt,
        &domain,
        &mut task,
        source,
        sink,
        NoWatchers,
        &[],
        &gate,
    ) else {
        panic!(rt; "the copy has no threads")
    };
    let is_copied = end.sink.bytes() == bytes.as_slice();
    all_so(
        &rt,
        &[end.stop == Stop::Finished, is_copied, gate.was_met()],
    );
    Ok(())
}
