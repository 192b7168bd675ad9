//! How a copy begins: its source is opened, and its sink made.

ghost use Rattle.std.specs.Prelude.{◌≡◌, ◌+◌, IfOk, IfErr, OnOk, OnErr};
ghost use Rattle.edge_io.specs.Folders.{HasBytes, HoldsNothing};
ghost use Rattle.waitq_copy.specs.Copying.{IsMakeFault, IsOpenFault, IsStartFault};

use edge_io::{Folder, OpenFault};
use std::alloc::Global;
use waitq_alone::fault::Fault;

/// What a copy runs on: the source and the sink.
#[derive(Drop)]
pub struct Begun<S, K> {
    pub source: S,
    pub sink: K,
}

/// Opens the source.
pub fn open_source<'a, F: Folder>(
    alloc: Global,
    folder: &mut F,
    src: &'a str,
) -> Result<F::In, Fault<'a>>
    ensures found { IfOk result (λ source. HasBytes (F.files folder.old) src.entry.now (F.In.left source)) }
    ensures fresh { IfOk result (λ source. F.In.faults source ≡ 0) }
    ensures same { F.files folder.new ≡ F.files folder.old }
    ensures reads { OnOk result (F.read_faults folder.new ≡ F.read_faults folder.old) }
    ensures writes { F.write_faults folder.new ≡ F.write_faults folder.old }
    ensures cause { IfErr result (λ why. IsOpenFault (F.files folder.old) (F.read_faults folder.old)
        (F.read_faults folder.new) src.entry.now why) }
    ensures given { OnOk result (F.opened folder.new ≡ F.opened folder.old + 1) }
    ensures not_given { OnErr result (F.opened folder.new ≡ F.opened folder.old) }
{
    match folder.open(alloc, src) {
        Ok(source) => Ok(source),
        Err(OpenFault::Failed) => Err(Fault::Read),
        Err(OpenFault::OutOfMemory) => Err(Fault::Memory),
        Err(OpenFault::NoSuchFile) => Err(Fault::NoFile { name: src }),
    }
}

/// Makes the sink.
fn create_sink<F: Folder>(
    alloc: Global,
    folder: &mut F,
    dst: &str,
) -> Result<F::Out, Fault<'static>>
    ensures empty { IfOk result (λ sink. HoldsNothing (F.files folder.old) (F.Out.held sink)) }
    ensures fresh { IfOk result (λ sink. F.Out.faults sink ≡ 0) }
    ensures same { F.files folder.new ≡ F.files folder.old }
    ensures reads { F.read_faults folder.new ≡ F.read_faults folder.old }
    ensures writes { OnOk result (F.write_faults folder.new ≡ F.write_faults folder.old) }
    ensures cause { IfErr result (λ why. IsMakeFault (F.write_faults folder.old) (F.write_faults folder.new) why) }
    ensures as_open { F.opened folder.new ≡ F.opened folder.old }
{
    match folder.create(alloc, dst) {
        Ok(sink) => Ok(sink),
        Err(OpenFault::Failed) => Err(Fault::Write),
        Err(OpenFault::OutOfMemory | OpenFault::NoSuchFile) => Err(Fault::Memory),
    }
}

/// Opens the source and makes the sink, in this order. Where one of these is refused it ends there, and an opened
/// source is closed: one source more is open where Ok is answered, and else as many as before.
pub fn begin<'a, F: Folder>(
    alloc: Global,
    folder: &mut F,
    src: &'a str,
    dst: &str,
) -> Result<Begun<F::In, F::Out>, Fault<'a>>
    ensures found { IfOk result (λ begun. HasBytes (F.files folder.old) src.entry.now (F.In.left begun.source)) }
    ensures opened { IfOk result (λ begun. F.In.faults begun.source ≡ 0) }
    ensures empty { IfOk result (λ begun. HoldsNothing (F.files folder.old) (F.Out.held begun.sink)) }
    ensures made { IfOk result (λ begun. F.Out.faults begun.sink ≡ 0) }
    ensures same { F.files folder.new ≡ F.files folder.old }
    ensures reads { OnOk result (F.read_faults folder.new ≡ F.read_faults folder.old) }
    ensures writes { OnOk result (F.write_faults folder.new ≡ F.write_faults folder.old) }
    ensures cause { IfErr result (λ why. IsStartFault (F.files folder.old) (F.read_faults folder.old)
        (F.read_faults folder.new) (F.write_faults folder.old) (F.write_faults folder.new) src.entry.now why) }
    ensures given { OnOk result (F.opened folder.new ≡ F.opened folder.old + 1) }
    ensures closes { OnErr result (F.opened folder.new ≡ F.opened folder.old) }
{
    let source = open_source(alloc, folder, src)?;
    match create_sink(alloc, folder, dst) {
        Ok(sink) => Ok(Begun { source, sink }),
        Err(fault) => {
            folder.close(source);
            Err(fault)
        }
    }
}
