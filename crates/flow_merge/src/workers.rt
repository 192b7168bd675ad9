//! The five tasks of a merge, each in a thread of its own.

ghost use Rattle.std.specs.Prelude.{◌≡◌, [], IfErr, IfOk};
ghost use Rattle.copy_ends.specs.Copied.{ControlEnds, Controlled};
ghost use Rattle.copy_ends.specs.Did.{IsIdler, ReaderDid, WriterDid};
ghost use Rattle.flow_copy.specs.Workers.{ControllerGoes, FromSource, ReaderGoes, WriterGoes};
ghost use Rattle.flow_merge.specs.{Merged.no_targets, Mergers.MergerDid, MergerWords.MergerGoes};
ghost use Rattle.flow_merge.specs.declared.TheConstants.{LEFT_PIPE, MERGED_PIPE, RIGHT_PIPE};

use crate::merger::merger_task;
use crate::{LEFT_PIPE, MERGED_PIPE, RIGHT_PIPE};
use copy_plan::WorkerEnd;
use copy_plan::gate::Gate;
use edge_io::{Sink, Source};
use flow_copy::jobs::{Controls, Counted, Read, Reads, Writes, Written};
use func_head::NoWatchers;
use job_crew::{Job, five_at_once};
use std::sync::Wait;
use std::thread::Threads;
use wait_rule::{Domain, Task};

/// How many workers a merge has.
const WORKERS: u8 = 4;

/// The numbers to which the readers would send planned signals: they have no plan.
const NO_TARGETS: [u8; 3] = [0; 3];

/// The merger's task and how it ended.
pub(crate) type Joined = (Task, WorkerEnd);

/// What the five did.
pub(crate) type Made<S, K> = (Read<S>, Read<S>, Joined, Written<K, NoWatchers>, Counted);

/// What a merge is made of: the five tasks, the two sources and the sink.
#[derive(Drop)]
pub(crate) struct Parts<S, K> {
    pub(crate) tasks: (Task, Task, Task, Task, Task),
    pub(crate) first: S,
    pub(crate) second: S,
    pub(crate) sink: K,
}

/// The work of a merger (`merger_task`).
#[derive(Drop)]
struct Merges<'a, R: Wait, G: Gate> {
    rt: &'a R,
    domain: &'a Domain,
    task: Task,
    gate: &'a G,
}

impl<'a, R: Wait + Sync, G: Gate + Sync> Job for Merges<'a, R, G> {
    type Done = Joined;

    ghost asks = { λ job. (job.task.domain ≡ job.domain.now) × IsIdler job.task };

    ghost did = { λ job r. MergerDid job.task r.0 r.1 × MergerGoes job.task r.0 r.1.stop };

    fn run(self) -> Joined {
        let Self {
            rt,
            domain,
            mut task,
            gate,
        } = self;
        let ended = merger_task(rt, domain, &mut task, gate);
        (task, ended)
    }
}

/// All five at once, the controller in this thread. Where one of the others can't have a thread none of them begins,
/// and all is handed back as it was.
pub(crate) fn merge_at_once<
    R: Threads + Wait + Sync,
    S: Source + Send + Drop,
    K: Sink + Send + Drop,
    G: Gate + Sync,
>(rt: &R, domain: &Domain, parts: Parts<S, K>, gate: &G) -> Result<Made<S, K>, Parts<S, K>>
    requires of { (parts.tasks.0.domain ≡ domain.now) × ((parts.tasks.1.domain ≡ domain.now)
        × ((parts.tasks.2.domain ≡ domain.now) × ((parts.tasks.3.domain ≡ domain.now)
        × (parts.tasks.4.domain ≡ domain.now)))) }
    requires idler { IsIdler parts.tasks.0 × (IsIdler parts.tasks.1 × (IsIdler parts.tasks.2
        × (IsIdler parts.tasks.3 × IsIdler parts.tasks.4))) }
    ensures left { IfOk result (λ made. ReaderDid LEFT_PIPE parts.tasks.0 made.0.0 (S.left parts.first)
        (S.left made.0.1) (S.faults parts.first) (S.faults made.0.1) no_targets [] made.0.2) }
    ensures right { IfOk result (λ made. ReaderDid RIGHT_PIPE parts.tasks.1 made.1.0 (S.left parts.second)
        (S.left made.1.1) (S.faults parts.second) (S.faults made.1.1) no_targets [] made.1.2) }
    ensures merger { IfOk result (λ made. MergerDid parts.tasks.2 made.2.0 made.2.1) }
    ensures writer { IfOk result (λ made. WriterDid MERGED_PIPE parts.tasks.3 made.3.0 (K.held parts.sink)
        (K.held made.3.1) (K.faults parts.sink) (K.faults made.3.1) (K.wants parts.sink) (K.wants made.3.1) [] []
        made.3.3) }
    ensures controller { IfOk result (λ made. Controlled parts.tasks.4 made.4.0) }
    ensures counts { IfOk result (λ made. ControlEnds 4 parts.tasks.4 made.4.0 made.4.1) }
    ensures left_goes { IfOk result (λ made. FromSource (S.left parts.first) (S.left made.0.1) 0 made.0.2.read
        (λ bytes. ReaderGoes LEFT_PIPE no_targets [] parts.tasks.0 made.0.0 bytes made.0.2.stop)) }
    ensures right_goes { IfOk result (λ made. FromSource (S.left parts.second) (S.left made.1.1) 0 made.1.2.read
        (λ bytes. ReaderGoes RIGHT_PIPE no_targets [] parts.tasks.1 made.1.0 bytes made.1.2.stop)) }
    ensures merger_goes { IfOk result (λ made. MergerGoes parts.tasks.2 made.2.0 made.2.1.stop) }
    ensures writer_goes { IfOk result (λ made. WriterGoes MERGED_PIPE parts.tasks.3 made.3.0 made.3.3.stop) }
    ensures controller_goes { IfOk result (λ made. ControllerGoes 4 parts.tasks.4 made.4.0 made.4.1) }
    ensures same { IfErr result (λ back. back ≡ parts) }
{
    let Parts {
        tasks,
        first,
        second,
        sink,
    } = parts;
    let (one, two, three, four, five) = tasks;
    let left = Reads {
        rt,
        domain,
        task: one,
        pipe: LEFT_PIPE,
        source: first,
        plan: &[],
        targets: NO_TARGETS,
        gate,
    };
    let right = Reads {
        rt,
        domain,
        task: two,
        pipe: RIGHT_PIPE,
        source: second,
        plan: &[],
        targets: NO_TARGETS,
        gate,
    };
    let merges = Merges {
        rt,
        domain,
        task: three,
        gate,
    };
    let writes = Writes {
        rt,
        domain,
        task: four,
        pipe: MERGED_PIPE,
        sink,
        watch: NoWatchers,
        gate,
    };
    let controls = Controls {
        rt,
        domain,
        task: five,
        workers: WORKERS,
    };
    match five_at_once(rt, left, right, merges, writes, controls) {
        Ok(made) => Ok(made),
        Err((left, right, merges, writes, controls)) => Err(Parts {
            tasks: (
                left.task,
                right.task,
                merges.task,
                writes.task,
                controls.task,
            ),
            first: left.source,
            second: right.source,
            sink: writes.sink,
        }),
    }
}
