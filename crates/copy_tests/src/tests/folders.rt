//! Files of a folder in memory by their names.

use crate::tests::wants::{all_so, wants};
use edge_io::{Failed, Folder, OpenFault, Sink, SinkFault, Source};
use mem_io::{MemFolder, MemSink};
use std::alloc::{AllocError, Global};
use std::test::Fail;

// Whether the file of that name has these bytes.
fn has(folder: &MemFolder, name: &str, bytes: &[u8]) -> bool {
    match folder.bytes_of(name) {
        Some(found) => found == bytes,
        None => false,
    }
}

/// A folder with the files a and c, of which a was added twice, the second time with a second read that fails.
fn two_files(alloc: Global) -> Result<MemFolder, AllocError> {
    let mut folder = MemFolder::new(alloc);
    folder.add("a", b"old", &[])?;
    folder.add("c", b"other", &[])?;
    folder.add("a", b"abcdef", &[2])?;
    Ok(folder)
}

/// Three reads of the file a, of four bytes each, and whether the first gave its front.
fn read_thrice(
    alloc: Global,
    folder: &mut MemFolder,
) -> Result<([Result<usize, Failed>; 3], bool), Fail> {
    let mut input = folder.open(alloc, "a")?;
    let mut buf = [0; 4];
    let first = input.read(&mut buf);
    let is_front = buf.as_slice() == b"abcd".as_slice();
    let reads = [first, input.read(&mut buf), input.read(&mut buf)];
    folder.close(input);
    Ok((reads, is_front))
}

/// Whether three reads of the file a gave its bytes, but for the second, which failed.
fn is_read_thrice(alloc: Global, folder: &mut MemFolder) -> Result<bool, Fail> {
    let (reads, is_front) = read_thrice(alloc, folder)?;
    Ok(is_front && reads == [Ok(4), Err(Failed), Ok(2)])
}

/// Whether there is no file b, which cannot be opened either.
fn lacks_b(alloc: Global, folder: &mut MemFolder) -> bool {
    folder.bytes_of("b").is_none() && is_refused(alloc, folder, OpenFault::NoSuchFile)
}

/// Whether the file b is not opened, for this fault.
fn is_refused(alloc: Global, folder: &mut MemFolder, wanted: OpenFault) -> bool {
    match folder.open(alloc, "b") {
        Ok(_) => false,
        Err(fault) => fault == wanted,
    }
}

#[test]
fn a_folder_gives_back_what_was_added(rt: HostRuntime) -> Result<(), Fail> {
    let alloc = rt.alloc();
    let mut folder = two_files(alloc)?;
    let has_both = has(&folder, "a", b"abcdef") && has(&folder, "c", b"other");
    let has_no_b = lacks_b(alloc, &mut folder);
    // each time that the file is opened its second read fails, and nothing else does
    let first = is_read_thrice(alloc, &mut folder)?;
    let second = is_read_thrice(alloc, &mut folder)?;
    let is_new_empty = MemFolder::new(alloc).bytes_of("a").is_none();
    all_so(&rt, &[is_new_empty, has_both, has_no_b, first, second]);
    Ok(())
}

/// A folder with the files a and b, whose reads fail at once; of a new sink the second write fails.
fn failing_files(alloc: Global) -> Result<MemFolder, AllocError> {
    let mut folder = MemFolder::new(alloc);
    folder.add("a", b"abc", &[1])?;
    folder.add("b", b"old", &[1])?;
    folder.fail_writes(&[2])?;
    Ok(folder)
}

/// Stores a sink as the file b: what its two writes answered, and whether the old file was there after them.
fn store_new(
    alloc: Global,
    folder: &mut MemFolder,
) -> Result<([Result<usize, SinkFault>; 2], bool), Fail> {
    let mut out = folder.create(alloc, "b")?;
    let writes = [out.write(b"new"), out.write(b"er")];
    let is_old = has(folder, "b", b"old");
    folder.store(alloc, "b", out)?;
    Ok((writes, is_old))
}

/// How much the first read of the file b gives.
fn read_b(alloc: Global, folder: &mut MemFolder) -> Result<Result<usize, Failed>, Fail> {
    let mut input = folder.open(alloc, "b")?;
    let mut buf = [0; 4];
    let read = input.read(&mut buf);
    folder.close(input);
    Ok(read)
}

#[test]
fn what_is_stored_is_the_file_and_no_other_changes(rt: HostRuntime) -> Result<(), Fail> {
    let alloc = rt.alloc();
    let mut folder = failing_files(alloc)?;
    let (writes, is_old) = store_new(alloc, &mut folder)?;
    // the fault of the write is counted, and what the sink holds is stored all the same
    let is_counted = writes == [Ok(3), Err(SinkFault::Failed)];
    let is_stored = is_old && has(&folder, "b", b"new") && has(&folder, "a", b"abc");
    // no read of the new file fails
    let is_read = read_b(alloc, &mut folder)? == Ok(3);
    all_so(&rt, &[is_counted, is_stored, is_read]);
    Ok(())
}

/// What `open`, `create` and `store` answer in a folder whose call of that number fails, and whether the file is there
/// that is stored.
fn calls_well(alloc: Global, fails: u64) -> Result<[bool; 4], Fail> {
    let mut folder = MemFolder::new(alloc);
    folder.add("a", b"abc", &[])?;
    folder.fail_calls(&[fails])?;
    let opens = folder.open(alloc, "a").is_ok();
    let creates = folder.create(alloc, "b").is_ok();
    let out = MemSink::new(alloc, &[])?;
    let stores = folder.store(alloc, "b", out).is_ok();
    Ok([opens, creates, stores, folder.bytes_of("b").is_some()])
}

/// Which call fails, and what `open`, `create` and `store` answer.
const CALLS: &[(u64, [bool; 3])] = &[
    (1, [false, true, true]),
    (2, [true, false, true]),
    (3, [true, true, false]),
    (4, [true, true, true]),
];

/// Whether the first call of a folder without files fails whatever the name is, and the second since there is no file.
fn fails_once(alloc: Global) -> Result<bool, Fail> {
    let mut folder = MemFolder::new(alloc);
    folder.fail_calls(&[1])?;
    Ok(
        is_refused(alloc, &mut folder, OpenFault::Failed)
            && is_refused(alloc, &mut folder, OpenFault::NoSuchFile),
    )
}

#[test]
fn chosen_calls_of_a_folder_fail(rt: HostRuntime) -> Result<(), Fail> {
    for (fails, [opens, creates, stores]) in CALLS {
        let is_so = calls_well(rt.alloc(), *fails)? == [*opens, *creates, *stores, *stores];
        wants(&rt, *fails, "calls", is_so);
    }
    wants(
        &rt,
        0,
        "a call whatever the name is",
        fails_once(rt.alloc())?,
    );
    Ok(())
}
