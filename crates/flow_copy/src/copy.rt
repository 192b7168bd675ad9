//! The whole copy.

ghost use Rattle.std.specs.Prelude.{◌≡◌, ◌≤◌, ◌-◌, ◌%◌, ◌^◌, length};
ghost use Rattle.std.specs.Prelude.{IfErr, IfOk, OnErr};
ghost use Rattle.wait_model.specs.declared.layout.TheConstants.{TASKS};
ghost use Rattle.wait_rule.specs.{Aside.GrowsAside, Says.IsClean, Says.newcomer, TallyLaws.tally_in};
ghost use Rattle.copy_plan.specs.declared.TheConstants.{COUNTED_PAGE, SIGNALS};
ghost use Rattle.copy_plan.specs.declared.stop.Stop.TheVariants as stop;
ghost use Rattle.flow_copy.specs.Workers.{FollowsPrograms};
ghost use Rattle.copy_ends.specs.Copied.{Copied, HasNoSteps, HoldsAll, HoldsGiven, NoneTaken, ReadTally, Watched};

use crate::workers::{Parts, four_at_once};
use bit_wait::BitEnd;
use copy_ends::{control_stop, fork_four, join_four};
use copy_plan::gate::Gate;
use copy_plan::kinds::copy_stop;
use copy_plan::stop::{ReaderEnd, Stop, WorkerEnd};
use copy_plan::{COUNTED_PAGE, Planned};
use edge_io::{Sink, Source};
use func_head::Watchers;
use page_lock::{add_tally, try_lock_page, unlock_page};
use std::sync::Wait;
use std::thread::Threads;
use wait_rule::{Domain, Task};

/// What a copy left: the source, the sink and the watchers, how each worker ended, what the controller answered, the sum
/// of what the workers counted, modulo 2^64, and how the copy ended.
#[derive(Drop)]
pub struct CopyEnd<S, K, W> {
    pub source: S,
    pub sink: K,
    pub watch: W,
    pub reader: ReaderEnd,
    pub relay: WorkerEnd,
    pub writer: WorkerEnd,
    pub total: Result<u64, BitEnd>,
    pub moved: u64,
    pub stop: Stop,
}

/// What a copy was to be made of that was not begun, since there was no thread for one of its tasks: the source, the sink
/// and the watchers, as they were passed in.
#[derive(Drop)]
pub struct Unstarted<S, K, W> {
    pub source: S,
    pub sink: K,
    pub watch: W,
}

/// Reads the tally of page `COUNTED_PAGE`, modulo 2^64, as a copy does once its workers are joined. Nobody keeps the page
/// then, so the first test-and-set takes it. The task owes nothing, and so it is afterwards; it counts nothing.
pub fn read_moved<R: Wait>(rt: &R, domain: &Domain, task: &mut Task) -> u64
    requires of { task.old.domain ≡ domain.now }
    requires clean { IsClean task.old }
    ensures clean { IsClean task.new }
    ensures reads { ReadTally task.old task.new result }
    ensures aside { GrowsAside task.old task.new }
{
    for _ in rt.forever() {
        if try_lock_page(domain, task, COUNTED_PAGE) {
            let moved = add_tally(domain, task, COUNTED_PAGE, 0);
            unlock_page(rt, domain, task, COUNTED_PAGE);
            return moved;
        }
    }
    unreachable!()
}

/// Takes in the four tasks of a copy that was not begun, and gives back the rest.
fn take_back<S, K, W>(domain: &Domain, task: &mut Task, parts: Parts<S, K, W>) -> Unstarted<S, K, W>
    requires rest { task.old ≡ newcomer domain.now 0 5 (TASKS - 5) }
    requires one { parts.tasks.0 ≡ newcomer domain.now 1 2 0 }
    requires two { parts.tasks.1 ≡ newcomer domain.now 2 3 0 }
    requires three { parts.tasks.2 ≡ newcomer domain.now 3 4 0 }
    requires four { parts.tasks.3 ≡ newcomer domain.now 4 5 0 }
    ensures source { result.source ≡ parts.source }
    ensures sink { result.sink ≡ parts.sink }
    ensures watch { result.watch ≡ parts.watch }
    ensures idle { HasNoSteps domain.now task.new }
    ensures clean { IsClean task.new }
{
    let Parts {
        tasks: (one, two, three, four),
        source,
        sink,
        watch,
    } = parts;
    join_four(domain, task, one, two, three, four);
    Unstarted {
        source,
        sink,
        watch,
    }
}

/// Copies a source into a sink through two pipes, by a reader, a relay and a writer in threads of their own, and a
/// controller that waits for them (`reader_task`, `relay_task`, `writer_task`, `controller_task`).
///
/// The task is the first of its Domain, has made no step and given no number out. Afterwards it owes nothing, and has
/// the histories of the four. The sink holds a front of what the source gave, whatever happened, and the watchers were
/// shown just that, piece by piece, but for a part of a piece in whose midst the sink failed. `moved` is the sum of all
/// that was counted. `stop` is the first of Memory, Worn, ReadFault, WriteFault, Long that is the stop of a worker,
/// or, of Worn, that of the controller; else Killed, exactly where a fatal signal that was planned was sent; else
/// Finished. Where it is Finished all three workers have finished, the source was read to its end, the sink holds all
/// its bytes, and the watchers were shown them all. No worker stops as Taken. What each of the four made, from its first
/// step to its last, is a word of its program (`goes`).
///
/// Unstarted: there was no memory for the thread of one of the three. None of them has begun then: source, sink and
/// watchers come back as they were passed in, and no task has made a step.
pub fn copy_all<
    R: Threads + Wait + Sync,
    S: Source + Send + Drop,
    K: Sink + Send + Drop,
    W: Watchers + Send + Drop,
    G: Gate + Sync,
>(
    rt: &R,
    domain: &Domain,
    task: &mut Task,
    source: S,
    sink: K,
    watch: W,
    plan: &[Planned],
    gate: &G,
) -> Result<CopyEnd<S, K, W>, Unstarted<S, K, W>>
    requires fresh { task.old ≡ newcomer domain.now 0 1 (TASKS - 1) }
    requires few { length plan.now ≤ SIGNALS }
    ensures copied { IfOk result (λ end. Copied domain.now task.new (S.left source) (S.left end.source)
        (S.faults source) (S.faults end.source) (K.held sink) (K.held end.sink) (K.faults sink) (K.faults end.sink)
        (K.wants sink) (K.wants end.sink) (W.entries watch) (W.entries end.watch) plan.now end.reader end.relay
        end.writer end.stop end.total) }
    ensures goes { IfOk result (λ end. FollowsPrograms domain.now task.new (S.left source) (S.left end.source) plan.now
        end.reader end.relay end.writer end.total) }
    ensures front { IfOk result (λ end. HoldsGiven (S.left source) (S.left end.source) (K.held sink)
        (K.held end.sink)) }
    ensures watched { IfOk result (λ end. Watched (S.left source) (S.left end.source) (K.held sink) (K.held end.sink)
        (W.entries watch) (W.entries end.watch) end.writer.stop) }
    ensures whole { IfOk result (λ end. end.stop ≡ stop.Finished → HoldsAll (S.left source) (K.held sink)
        (K.held end.sink) (W.entries watch) (W.entries end.watch) end.reader end.relay end.writer end.moved) }
    ensures moved { IfOk result (λ end. end.moved ≡ tally_in COUNTED_PAGE task.new.view % 2 ^ 64) }
    ensures none_taken { IfOk result (λ end. NoneTaken end.reader end.relay end.writer) }
    ensures source { IfErr result (λ back. back.source ≡ source) }
    ensures sink { IfErr result (λ back. back.sink ≡ sink) }
    ensures watch { IfErr result (λ back. back.watch ≡ watch) }
    ensures idle { OnErr result (HasNoSteps domain.now task.new) }
    ensures clean { IsClean task.new }
{
    let tasks = fork_four(domain, task);
    let targets = [tasks.0.number(), tasks.1.number(), tasks.2.number()];
    let parts = Parts {
        tasks,
        source,
        sink,
        watch,
    };
    let made = match four_at_once(rt, domain, parts, plan, targets, gate) {
        Ok(made) => made,
        Err(parts) => return Err(take_back(domain, task, parts)),
    };
    let ((one, source, reader), (two, relay), (three, sink, watch, writer), (four, total)) = made;
    join_four(domain, task, one, two, three, four);
    let moved = read_moved(rt, domain, task);
    let stops = [reader.stop, relay.stop, writer.stop, control_stop(&total)];
    let stop = copy_stop(&stops, reader.kills);
    Ok(CopyEnd {
        source,
        sink,
        watch,
        reader,
        relay,
        writer,
        total,
        moved,
        stop,
    })
}
