//! The command `copy`: one file is copied to another by tasks in threads of their own.

ghost use Rattle.std.specs.Prelude.{◌≡◌, ◌<◌, ◌≤◌, ◌-◌, length, IfOk, IfErr, IsErrOf, OnErr, OnOk};
ghost use Rattle.edge_io.specs.{Faults.HasRisen, Folders.HasBytes, Folders.HoldsNothing};
ghost use Rattle.wait_model.specs.declared.layout.TheConstants.{TASKS};
ghost use Rattle.wait_rule.specs.Says.{IsClean, newcomer};
ghost use Rattle.copy_plan.specs.declared.TheConstants.{SIGNALS};
ghost use Rattle.copy_ends.specs.Copied.{HasNoSteps};
ghost use Rattle.waitq_copy.specs.Copying.{Concludes, CopyLeft, IsMakeFault, IsOpenFault, IsStartFault, IsFileStored};
ghost use Rattle.waitq_copy.specs.Copying.{Through, copy_text, fault_after, outside, told_pieces};

use copy_plan::{Gate, Planned, ReaderEnd, Stop};
use edge_io::{Folder, Sink, SinkFault};
use flow_copy::{CopyEnd, copy_all};
use std::alloc::Global;
use std::sync::Wait;
use std::thread::Threads;
use wait_rule::{Domain, Task};
use waitq_alone::fault::Fault;
use waitq_copy::begin::{Begun, begin};
use waitq_copy::ending::fault_after;
use waitq_copy::told::write_told;
use waitq_copy::watching::Tellers;

/// What a copy command is told: the names of the two files, and the signals to be sent meanwhile.
#[derive(Clone, Copy)]
pub struct Order<'a, 'p> {
    pub src: &'a str,
    pub dst: &'a str,
    pub plan: &'p [Planned],
}

/// What a copy left that ran: its watchers, what is told of it, how it stopped, and what storing its sink answered.
#[derive(Drop)]
struct Left<W> {
    watch: W,
    reader: ReaderEnd,
    moved: u64,
    stop: Stop,
    stored: Result<(), SinkFault>,
}

/// Closes a source of a copy or a merge that ended, and stores its sink.
pub fn close_and_store<F: Folder>(
    alloc: Global,
    folder: &mut F,
    source: F::In,
    sink: F::Out,
    dst: &str,
) -> Result<(), SinkFault>
    ensures closes { F.opened folder.new ≡ F.opened folder.old - 1 }
    ensures stored { IsFileStored result (F.files folder.old) (F.files folder.new) dst.now (F.Out.held sink) }
    ensures reads { 0 < F.In.faults source → HasRisen (F.read_faults folder.old) (F.read_faults folder.new) }
    ensures later { F.read_faults folder.old ≤ F.read_faults folder.new }
    ensures writes { 0 < F.Out.faults sink → HasRisen (F.write_faults folder.old) (F.write_faults folder.new) }
    ensures refused { IsErrOf result SinkFault.Failed
        → HasRisen (F.write_faults folder.old) (F.write_faults folder.new) }
{
    folder.close(source);
    folder.store(alloc, dst, sink)
}

/// Copies, closes the source, and stores the sink whatever the copy's stop was. One source fewer is open then, whatever
/// is answered.
///
/// Memory: there was no memory for one of the copy's threads. Nothing was copied then: the source is closed, the sink is
/// dropped and not stored, and no task has made a step.
fn copy_through<R: Threads + Wait + Sync, F: Folder, W: Tellers + Send + Drop, G: Gate + Sync>(
    rt: &R,
    alloc: Global,
    folder: &mut F,
    domain: &Domain,
    task: &mut Task,
    begun: Begun<F::In, F::Out>,
    watch: W,
    gate: &G,
    order: Order<'_, '_>,
) -> Result<Left<W>, Fault<'static>>
    requires fresh { task.old ≡ newcomer domain.now 0 1 (TASKS - 1) }
    requires few { length order.plan.now ≤ SIGNALS }
    requires found { HasBytes (F.files folder.old) order.src.now (F.In.left begun.source) }
    requires opened { F.In.faults begun.source ≡ 0 }
    requires empty { HoldsNothing (F.files folder.old) (F.Out.held begun.sink) }
    requires made { F.Out.faults begun.sink ≡ 0 }
    ensures through { IfOk result (λ left. Through domain.now task.new (F.files folder.old) (F.files folder.new)
        (F.read_faults folder.old) (F.read_faults folder.new) (F.write_faults folder.old) (F.write_faults folder.new)
        order.entry.src.now order.entry.dst.now order.entry.plan.now (W.entries watch) (W.entries left.watch)
        left.reader left.stop left.moved left.stored) }
    ensures closes { F.opened folder.new ≡ F.opened folder.old - 1 }
    ensures memory { IfErr result (λ why. why ≡ Fault.Memory) }
    ensures same { OnErr result (F.files folder.new ≡ F.files folder.old) }
    ensures idle { OnErr result (HasNoSteps domain.now task.new) }
    ensures clean { IsClean task.new }
{
    let Begun { source, sink } = begun;
    let end = match copy_all(rt, domain, task, source, sink, watch, order.plan, gate) {
        Ok(end) => end,
        Err(unstarted) => {
            folder.close(unstarted.source);
            return Err(Fault::Memory);
        }
    };
    let CopyEnd {
        source,
        sink,
        watch,
        reader,
        moved,
        stop,
        ..
    } = end;
    let stored = close_and_store(alloc, folder, source, sink, order.dst);
    Ok(Left {
        watch,
        reader,
        moved,
        stop,
        stored,
    })
}

/// Writes the text of a copy that has no fault, or answers the fault.
fn conclude<O: Sink, W: Tellers>(out: &mut O, left: &Left<W>) -> Result<(), Fault<'static>>
    ensures told { Concludes (fault_after left.now.stop left.now.stored)
        (copy_text left.now.reader.read left.now.moved
        (told_pieces (W.entries left.now.watch)) left.now.reader.sent) (O.held out.old) (O.held out.new) (O.faults out.old)
        (O.faults out.new) result }
{
    match fault_after(left.stop, left.stored) {
        Some(fault) => Err(fault),
        None => Ok(write_told(out, &left.watch, &left.reader, left.moved)?),
    }
}

/// Copies the file `src` to the file `dst`, with the watchers at each piece that goes into it, and writes what is told
/// of it.
///
/// The source is opened first, and then the sink is made; where one of these is refused, or one of the copy's tasks can't
/// have a thread (Memory), it ends there and no file is changed. After the copy the source is closed, and the sink is
/// stored whatever the copy's stop was. Whatever is answered, as many sources of the folder are open as
/// before (`closes`).
pub fn copy<
    'a,
    R: Threads + Wait + Sync,
    F: Folder,
    O: Sink,
    W: Tellers + Send + Drop,
    G: Gate + Sync,
>(
    rt: &R,
    alloc: Global,
    folder: &mut F,
    out: &mut O,
    domain: &Domain,
    task: &mut Task,
    watch: W,
    gate: &G,
    order: Order<'a, '_>,
) -> Result<(), Fault<'a>>
    requires fresh { task.old ≡ newcomer domain.now 0 1 (TASKS - 1) }
    requires few { length order.plan.now ≤ SIGNALS }
    ensures left { CopyLeft domain.now task.old task.new
        (outside (F.files folder.old) (F.read_faults folder.old) (F.write_faults folder.old) (O.held out.old)
        (O.faults out.old))
        (outside (F.files folder.new) (F.read_faults folder.new) (F.write_faults folder.new) (O.held out.new)
        (O.faults out.new)) order.entry.src.now order.entry.dst.now order.entry.plan.now
        (W.entries watch) result }
    ensures closes { F.opened folder.new ≡ F.opened folder.old }
    ensures clean { IsClean task.new }
{
    let begun = begin(alloc, folder, order.src, order.dst)?;
    let left = copy_through(rt, alloc, folder, domain, task, begun, watch, gate, order)?;
    conclude(out, &left)
}
