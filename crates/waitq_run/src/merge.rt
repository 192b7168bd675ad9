//! The command `merge`: two files are merged into a third by tasks in threads of their own.

ghost use Rattle.std.specs.Prelude.{◌≡◌, ◌+◌, ◌-◌, ◌^◌, ◌<◌, ◌⊎◌, None, IfOk, IfErr, IsErrOf, OnErr};
ghost use Rattle.edge_io.specs.{Faults.HasRisen, Folders.HasBytes, Folders.HoldsNothing};
ghost use Rattle.wait_model.specs.declared.layout.TheConstants.{TASKS};
ghost use Rattle.wait_rule.specs.Says.{IsClean, newcomer};
ghost use Rattle.copy_ends.specs.Copied.{HasNoSteps};
ghost use Rattle.waitq_copy.specs.Copying.{Concludes, IsFileStored, fault_after, outside};
ghost use Rattle.waitq_merge.specs.Merging.{MergeLeft, MergeThrough, merge_text};

use crate::copy::close_and_store;
use copy_plan::{Gate, ReaderEnd, Stop};
use edge_io::{Folder, Sink, SinkFault};
use flow_merge::{MergeEnd, merge_all};
use std::alloc::Global;
use std::sync::Wait;
use std::thread::Threads;
use wait_rule::{Domain, Task};
use waitq_alone::fault::Fault;
use waitq_copy::ending::fault_after;
use waitq_merge::begin::{Begun, begin_merge};
use waitq_merge::told::write_merged;

/// What a merge command is told: the names of its two files, and of the one that they are merged into.
#[derive(Clone, Copy)]
pub struct Names<'a> {
    pub first: &'a str,
    pub second: &'a str,
    pub dst: &'a str,
}

/// What a merge left that ran: what is told of it, how it stopped, and what storing its sink answered.
#[derive(Drop)]
struct Done {
    left: ReaderEnd,
    right: ReaderEnd,
    moved: u64,
    stop: Stop,
    stored: Result<(), SinkFault>,
}

/// Closes both sources of a merge that ended, and stores its sink.
fn close_both_and_store<F: Folder>(
    alloc: Global,
    folder: &mut F,
    first: F::In,
    second: F::In,
    sink: F::Out,
    dst: &str,
) -> Result<(), SinkFault>
    ensures closes { F.opened folder.new ≡ F.opened folder.old - 1 - 1 }
    ensures stored { IsFileStored result (F.files folder.old) (F.files folder.new) dst.now (F.Out.held sink) }
    ensures reads { (0 < F.In.faults first) ⊎ (0 < F.In.faults second)
        → HasRisen (F.read_faults folder.old) (F.read_faults folder.new) }
    ensures writes { 0 < F.Out.faults sink → HasRisen (F.write_faults folder.old) (F.write_faults folder.new) }
    ensures refused { IsErrOf result SinkFault.Failed
        → HasRisen (F.write_faults folder.old) (F.write_faults folder.new) }
{
    folder.close(first);
    close_and_store(alloc, folder, second, sink, dst)
}

/// Merges, closes both sources, and stores the sink whatever the merge's stop was. Two sources fewer are open then,
/// whatever is answered.
///
/// Memory: there was no memory for one of the merge's threads. Nothing was merged then: the sources are closed, the sink
/// is dropped and not stored, and no task has made a step.
fn merge_through<R: Threads + Wait + Sync, F: Folder, G: Gate + Sync>(
    rt: &R,
    alloc: Global,
    folder: &mut F,
    domain: &Domain,
    task: &mut Task,
    begun: Begun<F::In, F::Out>,
    gate: &G,
    names: Names<'_>,
) -> Result<Done, Fault<'static>>
    requires fresh { task.old ≡ newcomer domain.now 0 1 (TASKS - 1) }
    requires found_first { HasBytes (F.files folder.old) names.first.now (F.In.left begun.first) }
    requires found_second { HasBytes (F.files folder.old) names.second.now (F.In.left begun.second) }
    requires opened_first { F.In.faults begun.first ≡ 0 }
    requires opened_second { F.In.faults begun.second ≡ 0 }
    requires empty { HoldsNothing (F.files folder.old) (F.Out.held begun.sink) }
    requires made { F.Out.faults begun.sink ≡ 0 }
    ensures through { IfOk result (λ done. MergeThrough domain.now task.new (F.files folder.old) (F.files folder.new)
        (F.read_faults folder.old) (F.read_faults folder.new) (F.write_faults folder.old) (F.write_faults folder.new)
        names.entry.first.now names.entry.second.now names.entry.dst.now done.left done.right done.stop done.moved
        done.stored) }
    ensures closes { F.opened folder.new ≡ F.opened folder.old - 1 - 1 }
    ensures memory { IfErr result (λ why. why ≡ Fault.Memory) }
    ensures same { OnErr result (F.files folder.new ≡ F.files folder.old) }
    ensures idle { OnErr result (HasNoSteps domain.now task.new) }
    ensures clean { IsClean task.new }
{
    let Begun {
        first,
        second,
        sink,
    } = begun;
    let end = match merge_all(rt, domain, task, first, second, sink, gate) {
        Ok(end) => end,
        Err(unmerged) => {
            folder.close(unmerged.first);
            folder.close(unmerged.second);
            return Err(Fault::Memory);
        }
    };
    let MergeEnd {
        first,
        second,
        sink,
        left,
        right,
        moved,
        stop,
        ..
    } = end;
    let stored = close_both_and_store(alloc, folder, first, second, sink, names.dst);
    Ok(Done {
        left,
        right,
        moved,
        stop,
        stored,
    })
}

/// Writes the text of a merge that has no fault, or answers the fault.
fn conclude<O: Sink>(out: &mut O, done: &Done) -> Result<(), Fault<'static>>
    requires short { fault_after done.now.stop done.now.stored ≡ None
        → done.now.left.read + done.now.right.read < 2 ^ 64 }
    ensures told { Concludes (fault_after done.now.stop done.now.stored)
        (merge_text (done.now.left.read + done.now.right.read) done.now.moved) (O.held out.old) (O.held out.new)
        (O.faults out.old) (O.faults out.new) result }
{
    match fault_after(done.stop, done.stored) {
        Some(fault) => Err(fault),
        None => Ok(write_merged(out, done.left.read + done.right.read, done.moved)?),
    }
}

/// Merges the files `first` and `second` into the file `dst`, whichever has bytes first, and writes what is told of it.
///
/// The sources are opened in their order, and then the sink is made; where one of these is refused, or one of the merge's
/// tasks can't have a thread (Memory), it ends there and no file is changed. After the merge both sources are closed, and
/// the sink is stored whatever the merge's stop was. Whatever is answered, as many sources of the folder are open as
/// before (`closes`).
pub fn merge<'a, R: Threads + Wait + Sync, F: Folder, O: Sink, G: Gate + Sync>(
    rt: &R,
    alloc: Global,
    folder: &mut F,
    out: &mut O,
    domain: &Domain,
    task: &mut Task,
    gate: &G,
    names: Names<'a>,
) -> Result<(), Fault<'a>>
    requires fresh { task.old ≡ newcomer domain.now 0 1 (TASKS - 1) }
    ensures left { MergeLeft domain.now task.old task.new
        (outside (F.files folder.old) (F.read_faults folder.old) (F.write_faults folder.old) (O.held out.old)
        (O.faults out.old))
        (outside (F.files folder.new) (F.read_faults folder.new) (F.write_faults folder.new) (O.held out.new)
        (O.faults out.new)) names.entry.first.now names.entry.second.now names.entry.dst.now result }
    ensures closes { F.opened folder.new ≡ F.opened folder.old }
    ensures clean { IsClean task.new }
{
    let begun = begin_merge(alloc, folder, names.first, names.second, names.dst)?;
    let done = merge_through(rt, alloc, folder, domain, task, begun, gate, names)?;
    conclude(out, &done)
}
