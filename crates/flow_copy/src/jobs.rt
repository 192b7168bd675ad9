//! The work of each task of a copy, as a job for a thread of its own.

ghost use Rattle.std.specs.Prelude.{◌≡◌, ◌≤◌, ◌<◌, length};
ghost use Rattle.wait_model.specs.declared.layout.TheConstants.{PIPES};
ghost use Rattle.copy_plan.specs.declared.TheConstants.{SIGNALS};
ghost use Rattle.copy_ends.specs.Copied.{ControlEnds, Controlled};
ghost use Rattle.copy_ends.specs.Did.{IsIdler, ReaderDid, RelayDid, WriterDid};
ghost use Rattle.flow_copy.specs.Workers.{ControllerGoes, FromSource, ReaderGoes, RelayGoes, WriterGoes};

use crate::controller::controller_task;
use crate::reader::reader_task;
use crate::relay::relay_task;
use crate::writer::writer_task;
use bit_wait::BitEnd;
use copy_plan::Planned;
use copy_plan::gate::Gate;
use copy_plan::stop::{ReaderEnd, WorkerEnd};
use edge_io::{Sink, Source};
use func_head::Watchers;
use job_crew::Job;
use std::sync::Wait;
use wait_rule::{Domain, Task};

/// The reader's task, the source and how the reader ended.
pub type Read<S> = (Task, S, ReaderEnd);

/// The relay's task and how it ended.
pub type Relayed = (Task, WorkerEnd);

/// The writer's task, the sink, the watchers and how the writer ended.
pub type Written<K, W> = (Task, K, W, WorkerEnd);

/// The controller's task and what it answered.
pub type Counted = (Task, Result<u64, BitEnd>);

/// The work of a reader that writes into pipe `pipe`, below `PIPES` (`reader_task`).
#[derive(Drop)]
pub struct Reads<'a, R: Wait, S: Source, G: Gate> {
    pub rt: &'a R,
    pub domain: &'a Domain,
    pub task: Task,
    pub pipe: u8,
    pub source: S,
    pub plan: &'a [Planned],
    pub targets: [u8; 3],
    pub gate: &'a G,
}

impl<'a, R: Wait + Sync, S: Source + Send + Drop, G: Gate + Sync> Job for Reads<'a, R, S, G> {
    type Done = Read<S>;

    ghost asks = { λ job. (job.task.domain ≡ job.domain.now) × (IsIdler job.task × ((job.pipe < PIPES) × (length job.plan.now ≤ SIGNALS))) };

    ghost did = { λ job r. ReaderDid job.pipe job.task r.0 (S.left job.source) (S.left r.1) (S.faults job.source) (S.faults r.1)
        job.targets job.plan.now r.2 × FromSource (S.left job.source) (S.left r.1) 0 r.2.read
        (λ bytes. ReaderGoes job.pipe job.targets job.plan.now job.task r.0 bytes r.2.stop) };

    fn run(self) -> Read<S> {
        let Self {
            rt,
            domain,
            mut task,
            pipe,
            mut source,
            plan,
            targets,
            gate,
        } = self;
        let ended = reader_task(
            rt,
            domain,
            &mut task,
            pipe,
            &mut source,
            plan,
            targets,
            gate,
        );
        (task, source, ended)
    }
}

/// The work of a relay (`relay_task`).
#[derive(Drop)]
pub struct Relays<'a, R: Wait, G: Gate> {
    pub rt: &'a R,
    pub domain: &'a Domain,
    pub task: Task,
    pub gate: &'a G,
}

impl<'a, R: Wait + Sync, G: Gate + Sync> Job for Relays<'a, R, G> {
    type Done = Relayed;

    ghost asks = { λ job. (job.task.domain ≡ job.domain.now) × IsIdler job.task };

    ghost did = { λ job r. RelayDid job.task r.0 r.1 × RelayGoes job.task r.0 r.1.stop };

    fn run(self) -> Relayed {
        let Self {
            rt,
            domain,
            mut task,
            gate,
        } = self;
        let ended = relay_task(rt, domain, &mut task, gate);
        (task, ended)
    }
}

/// The work of a writer that reads pipe `pipe`, below `PIPES` (`writer_task`).
#[derive(Drop)]
pub struct Writes<'a, R: Wait, K: Sink, W: Watchers, G: Gate> {
    pub rt: &'a R,
    pub domain: &'a Domain,
    pub task: Task,
    pub pipe: u8,
    pub sink: K,
    pub watch: W,
    pub gate: &'a G,
}

impl<'a, R: Wait + Sync, K: Sink + Send + Drop, W: Watchers + Send + Drop, G: Gate + Sync> Job
    for Writes<'a, R, K, W, G> {
    type Done = Written<K, W>;

    ghost asks = { λ job. (job.task.domain ≡ job.domain.now) × (IsIdler job.task × (job.pipe < PIPES)) };

    ghost did = { λ job r. WriterDid job.pipe job.task r.0 (K.held job.sink) (K.held r.1) (K.faults job.sink) (K.faults r.1)
        (K.wants job.sink) (K.wants r.1) (W.entries job.watch) (W.entries r.2) r.3 × WriterGoes job.pipe job.task r.0 r.3.stop };

    fn run(self) -> Written<K, W> {
        let Self {
            rt,
            domain,
            mut task,
            pipe,
            mut sink,
            mut watch,
            gate,
        } = self;
        let ended = writer_task(rt, domain, &mut task, pipe, &mut sink, &mut watch, gate);
        (task, sink, watch, ended)
    }
}

/// The work of a controller that waits for `workers` workers (`controller_task`).
#[derive(Drop)]
pub struct Controls<'a, R: Wait> {
    pub rt: &'a R,
    pub domain: &'a Domain,
    pub task: Task,
    pub workers: u8,
}

impl<'a, R: Wait + Sync> Job for Controls<'a, R> {
    type Done = Counted;

    ghost asks = { λ job. (job.task.domain ≡ job.domain.now) × IsIdler job.task };

    ghost did = { λ job r. Controlled job.task r.0 × (ControlEnds job.workers job.task r.0 r.1 × ControllerGoes job.workers job.task r.0 r.1) };

    fn run(self) -> Counted {
        let Self {
            rt,
            domain,
            mut task,
            workers,
        } = self;
        let total = controller_task(rt, domain, &mut task, workers);
        (task, total)
    }
}
