//! The four tasks of a copy, each in a thread of its own.

ghost use Rattle.std.specs.Prelude.{◌≡◌, ◌≤◌, length, IfErr, IfOk};
ghost use Rattle.copy_plan.specs.declared.TheConstants.{SIGNALS, SINK_PIPE, SOURCE_PIPE};
ghost use Rattle.copy_ends.specs.Copied.{ControlEnds, Controlled};
ghost use Rattle.copy_ends.specs.Did.{IsIdler, ReaderDid, RelayDid, WriterDid};
ghost use Rattle.flow_copy.specs.Workers.{ControllerGoes, FromSource, ReaderGoes, RelayGoes, WriterGoes};

use crate::jobs::{Controls, Counted, Read, Reads, Relayed, Relays, Writes, Written};
use copy_plan::gate::Gate;
use copy_plan::{Planned, SINK_PIPE, SOURCE_PIPE};
use edge_io::{Sink, Source};
use func_head::Watchers;
use job_crew::all_at_once;
use std::sync::Wait;
use std::thread::Threads;
use wait_rule::{Domain, Task};

/// How many workers a copy has.
const WORKERS: u8 = 3;

/// What the four did.
pub(crate) type Made<S, K, W> = (Read<S>, Relayed, Written<K, W>, Counted);

/// What a copy is made of: the four tasks, the source, the sink and the watchers.
#[derive(Drop)]
pub(crate) struct Parts<S, K, W> {
    pub(crate) tasks: (Task, Task, Task, Task),
    pub(crate) source: S,
    pub(crate) sink: K,
    pub(crate) watch: W,
}

/// All four at once, the controller in this thread. Where one of the others can't have a thread none of them begins, and
/// all is handed back as it was.
pub(crate) fn four_at_once<
    R: Threads + Wait + Sync,
    S: Source + Send + Drop,
    K: Sink + Send + Drop,
    W: Watchers + Send + Drop,
    G: Gate + Sync,
>(
    rt: &R,
    domain: &Domain,
    parts: Parts<S, K, W>,
    plan: &[Planned],
    targets: [u8; 3],
    gate: &G,
) -> Result<Made<S, K, W>, Parts<S, K, W>>
    requires of { (parts.tasks.0.domain ≡ domain.now) × ((parts.tasks.1.domain ≡ domain.now)
        × ((parts.tasks.2.domain ≡ domain.now) × (parts.tasks.3.domain ≡ domain.now))) }
    requires idler { IsIdler parts.tasks.0 × (IsIdler parts.tasks.1 × (IsIdler parts.tasks.2
        × IsIdler parts.tasks.3)) }
    requires few { length plan.now ≤ SIGNALS }
    ensures reader { IfOk result (λ made. ReaderDid SOURCE_PIPE parts.tasks.0 made.0.0 (S.left parts.source) (S.left made.0.1)
        (S.faults parts.source) (S.faults made.0.1) targets plan.now made.0.2) }
    ensures relay { IfOk result (λ made. RelayDid parts.tasks.1 made.1.0 made.1.1) }
    ensures writer { IfOk result (λ made. WriterDid SINK_PIPE parts.tasks.2 made.2.0 (K.held parts.sink) (K.held made.2.1)
        (K.faults parts.sink) (K.faults made.2.1) (K.wants parts.sink) (K.wants made.2.1) (W.entries parts.watch)
        (W.entries made.2.2) made.2.3) }
    ensures controller { IfOk result (λ made. Controlled parts.tasks.3 made.3.0) }
    ensures ends { IfOk result (λ made. ControlEnds 3 parts.tasks.3 made.3.0 made.3.1) }
    ensures reader_goes { IfOk result (λ made. FromSource (S.left parts.source) (S.left made.0.1) 0 made.0.2.read
        (λ bytes. ReaderGoes SOURCE_PIPE targets plan.now parts.tasks.0 made.0.0 bytes made.0.2.stop)) }
    ensures relay_goes { IfOk result (λ made. RelayGoes parts.tasks.1 made.1.0 made.1.1.stop) }
    ensures writer_goes { IfOk result (λ made. WriterGoes SINK_PIPE parts.tasks.2 made.2.0 made.2.3.stop) }
    ensures controller_goes { IfOk result (λ made. ControllerGoes 3 parts.tasks.3 made.3.0 made.3.1) }
    ensures same { IfErr result (λ back. back ≡ parts) }
{
    let Parts {
        tasks,
        source,
        sink,
        watch,
    } = parts;
    let (one, two, three, four) = tasks;
    let reads = Reads {
        rt,
        domain,
        task: one,
        pipe: SOURCE_PIPE,
        source,
        plan,
        targets,
        gate,
    };
    let relays = Relays {
        rt,
        domain,
        task: two,
        gate,
    };
    let writes = Writes {
        rt,
        domain,
        task: three,
        pipe: SINK_PIPE,
        sink,
        watch,
        gate,
    };
    let controls = Controls {
        rt,
        domain,
        task: four,
        workers: WORKERS,
    };
    match all_at_once(rt, reads, relays, writes, controls) {
        Ok(made) => Ok(made),
        Err((reads, relays, writes, controls)) => Err(Parts {
            tasks: (reads.task, relays.task, writes.task, controls.task),
            source: reads.source,
            sink: writes.sink,
            watch: writes.watch,
        }),
    }
}
