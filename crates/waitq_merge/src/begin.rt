//! How a merge begins: its two sources are opened, and its sink made.

ghost use Rattle.std.specs.Prelude.{◌≡◌, ◌+◌, IfOk, IfErr, OnOk, OnErr};
ghost use Rattle.edge_io.specs.Folders.{HasBytes, HoldsNothing};
ghost use Rattle.waitq_merge.specs.Merging.{IsMergeStartFault};

use edge_io::Folder;
use std::alloc::Global;
use waitq_alone::fault::Fault;
use waitq_copy::begin;
use waitq_copy::begin::open_source;

/// What a merge runs on: the two sources and the sink.
#[derive(Drop)]
pub struct Begun<S, K> {
    pub first: S,
    pub second: S,
    pub sink: K,
}

/// Opens the first source, then the second, and makes the sink. Where one of these is refused it ends there, and each
/// source that was opened is closed: two sources more are open where Ok is answered, and else as many as before.
pub fn begin_merge<'a, F: Folder>(
    alloc: Global,
    folder: &mut F,
    first: &'a str,
    second: &'a str,
    dst: &str,
) -> Result<Begun<F::In, F::Out>, Fault<'a>>
    ensures found_first { IfOk result (λ begun. HasBytes (F.files folder.old) first.entry.now
        (F.In.left begun.first)) }
    ensures found_second { IfOk result (λ begun. HasBytes (F.files folder.old) second.entry.now
        (F.In.left begun.second)) }
    ensures opened_first { IfOk result (λ begun. F.In.faults begun.first ≡ 0) }
    ensures opened_second { IfOk result (λ begun. F.In.faults begun.second ≡ 0) }
    ensures empty { IfOk result (λ begun. HoldsNothing (F.files folder.old) (F.Out.held begun.sink)) }
    ensures made { IfOk result (λ begun. F.Out.faults begun.sink ≡ 0) }
    ensures same { F.files folder.new ≡ F.files folder.old }
    ensures reads { OnOk result (F.read_faults folder.new ≡ F.read_faults folder.old) }
    ensures writes { OnOk result (F.write_faults folder.new ≡ F.write_faults folder.old) }
    ensures cause { IfErr result (λ why. IsMergeStartFault (F.files folder.old) (F.read_faults folder.old)
        (F.read_faults folder.new) (F.write_faults folder.old) (F.write_faults folder.new) first.entry.now
        second.entry.now why) }
    ensures given { OnOk result (F.opened folder.new ≡ F.opened folder.old + 1 + 1) }
    ensures closes { OnErr result (F.opened folder.new ≡ F.opened folder.old) }
{
    let opened = open_source(alloc, folder, first)?;
    match begin::begin(alloc, folder, second, dst) {
        Ok(begin::Begun { source, sink }) => Ok(Begun {
            first: opened,
            second: source,
            sink,
        }),
        Err(fault) => {
            folder.close(opened);
            Err(fault)
        }
    }
}
