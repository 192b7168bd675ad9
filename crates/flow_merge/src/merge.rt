//! The whole merge.

ghost use Rattle.std.specs.Prelude.{◌≡◌, ◌-◌, ◌%◌, ◌^◌, IfErr, IfOk, OnErr};
ghost use Rattle.wait_model.specs.declared.layout.TheConstants.{TASKS};
ghost use Rattle.wait_rule.specs.{Says.IsClean, Says.newcomer, TallyLaws.tally_in};
ghost use Rattle.copy_plan.specs.declared.TheConstants.{COUNTED_PAGE};
ghost use Rattle.copy_plan.specs.declared.stop.Stop.TheVariants as stop;
ghost use Rattle.copy_ends.specs.Copied.{HasNoSteps};
ghost use Rattle.flow_merge.specs.Merged.{
  FollowsMerge,
  HoldsMerged,
  IsMergeStop,
  Merged,
  MergesAll,
  NoneHurt,
  drawn,
  ends_of,
  filled,
};

use crate::workers::{Parts, merge_at_once};
use bit_wait::BitEnd;
use copy_ends::{control_stop, fork_five, join_five};
use copy_plan::gate::Gate;
use copy_plan::kinds::copy_stop;
use copy_plan::stop::{ReaderEnd, Stop, WorkerEnd};
use edge_io::{Sink, Source};
use flow_copy::copy::read_moved;
use std::sync::Wait;
use std::thread::Threads;
use wait_rule::{Domain, Task};

/// What a merge left: the two sources and the sink, how each worker ended, what the controller answered, the sum of
/// what the workers counted, modulo 2^64, and how the merge ended.
#[derive(Drop)]
pub struct MergeEnd<S, K> {
    pub first: S,
    pub second: S,
    pub sink: K,
    pub left: ReaderEnd,
    pub right: ReaderEnd,
    pub merger: WorkerEnd,
    pub writer: WorkerEnd,
    pub total: Result<u64, BitEnd>,
    pub moved: u64,
    pub stop: Stop,
}

/// What a merge was to be made of that was not begun, since there was no thread for one of its tasks: the sources and
/// the sink, as they were passed in.
#[derive(Drop)]
pub struct Unmerged<S, K> {
    pub first: S,
    pub second: S,
    pub sink: K,
}

/// Takes in the five tasks of a merge that was not begun, and gives back the rest.
fn take_back<S, K>(domain: &Domain, task: &mut Task, parts: Parts<S, K>) -> Unmerged<S, K>
    requires rest { task.old ≡ newcomer domain.now 0 6 (TASKS - 6) }
    requires one { parts.tasks.0 ≡ newcomer domain.now 1 2 0 }
    requires two { parts.tasks.1 ≡ newcomer domain.now 2 3 0 }
    requires three { parts.tasks.2 ≡ newcomer domain.now 3 4 0 }
    requires four { parts.tasks.3 ≡ newcomer domain.now 4 5 0 }
    requires five { parts.tasks.4 ≡ newcomer domain.now 5 6 0 }
    ensures first { result.first ≡ parts.first }
    ensures second { result.second ≡ parts.second }
    ensures sink { result.sink ≡ parts.sink }
    ensures idle { HasNoSteps domain.now task.new }
    ensures clean { IsClean task.new }
{
    let Parts {
        tasks: (one, two, three, four, five),
        first,
        second,
        sink,
    } = parts;
    join_five(domain, task, one, two, three, four, five);
    Unmerged {
        first,
        second,
        sink,
    }
}

/// Merges two sources into one sink, whichever has bytes first, through three pipes, by two readers, a merger and a
/// writer in threads of their own, and a controller that waits for them (`flow_copy::reader_task`, `merger_task`,
/// `flow_copy::writer_task`, `flow_copy::controller_task`). The merger waits for both readers at once, as a task does
/// that has an entry in two wait queues (fs/select.c, `do_poll`).
///
/// The task is the first of its Domain, has made no step and given no number out. Afterwards it owes nothing, and has
/// the histories of the five. There is a list of pieces that the merger passed on, each from the first source or from
/// the second: the pieces of each are, in their order, a front of what that source gave, and the sink holds a front of
/// all of them in the order of the list, and then perhaps of a first part of one further piece. `moved` is the sum of
/// all that was counted. `stop` is the first of Memory, Worn, ReadFault, WriteFault, Long that is the stop of a worker,
/// or, of Worn, that of the controller; else Finished. It is never Killed, Broken or Taken. Where it is Finished all
/// four workers have finished, the pieces are all the bytes of both sources, and the sink holds them all; each byte was
/// counted three times. What each of the five made, from its first step to its last, is a word of its program (`goes`).
///
/// Unmerged: there was no memory for the thread of one of the four. None of them has begun then: both sources and the
/// sink come back as they were passed in, and no task has made a step.
pub fn merge_all<
    R: Threads + Wait + Sync,
    S: Source + Send + Drop,
    K: Sink + Send + Drop,
    G: Gate + Sync,
>(
    rt: &R,
    domain: &Domain,
    task: &mut Task,
    first: S,
    second: S,
    sink: K,
    gate: &G,
) -> Result<MergeEnd<S, K>, Unmerged<S, K>>
    requires fresh { task.old ≡ newcomer domain.now 0 1 (TASKS - 1) }
    ensures merged { IfOk result (λ end. Merged domain.now task.new
        (drawn (S.left first) (S.left end.first) (S.faults first) (S.faults end.first))
        (drawn (S.left second) (S.left end.second) (S.faults second) (S.faults end.second))
        (filled (K.held sink) (K.held end.sink) (K.faults sink) (K.faults end.sink) (K.wants sink) (K.wants end.sink))
        (ends_of end.left end.right end.merger end.writer) end.stop end.total) }
    ensures goes { IfOk result (λ end. FollowsMerge domain.now task.new
        (drawn (S.left first) (S.left end.first) (S.faults first) (S.faults end.first))
        (drawn (S.left second) (S.left end.second) (S.faults second) (S.faults end.second))
        (ends_of end.left end.right end.merger end.writer) end.total) }
    ensures front { IfOk result (λ end. HoldsMerged
        (drawn (S.left first) (S.left end.first) (S.faults first) (S.faults end.first))
        (drawn (S.left second) (S.left end.second) (S.faults second) (S.faults end.second))
        (filled (K.held sink) (K.held end.sink) (K.faults sink) (K.faults end.sink) (K.wants sink)
        (K.wants end.sink))) }
    ensures whole { IfOk result (λ end. end.stop ≡ stop.Finished → MergesAll
        (drawn (S.left first) (S.left end.first) (S.faults first) (S.faults end.first))
        (drawn (S.left second) (S.left end.second) (S.faults second) (S.faults end.second))
        (filled (K.held sink) (K.held end.sink) (K.faults sink) (K.faults end.sink) (K.wants sink) (K.wants end.sink))
        (ends_of end.left end.right end.merger end.writer) end.moved) }
    ensures moved { IfOk result (λ end. end.moved ≡ tally_in COUNTED_PAGE task.new.view % 2 ^ 64) }
    ensures stops { IfOk result (λ end. IsMergeStop end.stop) }
    ensures unhurt { IfOk result (λ end. NoneHurt (ends_of end.left end.right end.merger end.writer)) }
    ensures first { IfErr result (λ back. back.first ≡ first) }
    ensures second { IfErr result (λ back. back.second ≡ second) }
    ensures sink { IfErr result (λ back. back.sink ≡ sink) }
    ensures idle { OnErr result (HasNoSteps domain.now task.new) }
    ensures clean { IsClean task.new }
{
    let parts = Parts {
        tasks: fork_five(domain, task),
        first,
        second,
        sink,
    };
    let made = match merge_at_once(rt, domain, parts, gate) {
        Ok(made) => made,
        Err(parts) => return Err(take_back(domain, task, parts)),
    };
    let ((one, first, left), (two, second, right), (three, merger), four, (five, total)) = made;
    let (four, sink, _, writer) = four;
    join_five(domain, task, one, two, three, four, five);
    let moved = read_moved(rt, domain, task);
    let stops = [
        left.stop,
        right.stop,
        merger.stop,
        writer.stop,
        control_stop(&total),
    ];
    let stop = copy_stop(&stops, 0);
    Ok(MergeEnd {
        first,
        second,
        sink,
        left,
        right,
        merger,
        writer,
        total,
        moved,
        stop,
    })
}
