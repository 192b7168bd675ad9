ghost use Rattle.std.specs.Prelude.{◌≡◌, ◌<◌, ◌≤◌, ◌+◌, ◌-◌, ◌^◌, ◌↔◌, [], Some, None, min, option_map, bytes_eq};
ghost use Rattle.std.specs.Prelude.{IfOk, IfSome, IsTrue, IsFalse, OnOk, OnErr, IsErrOf};
ghost use Rattle.edge_io.specs.Faults.{HasRisen, HasCounted, CountsFailed};
ghost use Rattle.mem_io.specs.Fails.{FailsNext, CountsCall, IsFresh};
ghost use Rattle.edge_io.specs.Folders.{HasBytes, HasNone, HoldsNothing, Stores, CountsOpening};
ghost use Rattle.mem_io.specs.MemFolders.{FileState, FolderState, file_at, bytes_at, place_of, put};

use crate::fails::Fails;
use crate::{MemSink, MemSource};
use edge_io::{Folder, OpenFault, SinkFault};
use std::alloc::{AllocError, Global};
use std::marker::Model;

// A file by its name, and the numbers of those reads of it that fail, each time that it is opened.
#[derive(Drop)]
struct MemFile {
    name: Vec<u8>,
    bytes: Vec<u8>,
    fails: Vec<u64>,
}

impl Model for MemFile {
    ghost Value = { FileState };

    ghost view = { λ f. record { name = f.name.items; bytes = f.bytes.items; fails = f.fails.items } };
}

impl MemFile {
    fn new(alloc: Global, name: &str, bytes: Vec<u8>, fails: &[u64]) -> Result<MemFile, AllocError>
        ensures { IfOk result
            (λ f. f ≡ record { name = name.now; bytes = bytes.items; fails = fails.now }) }
    {
        Ok(MemFile {
            name: name.as_bytes().to_vec(alloc)?,
            bytes,
            fails: fails.to_vec(alloc)?,
        })
    }

    fn is_named(&self, name: &str) -> bool
        ensures { result ≡ bytes_eq self.now.name name.now }
    {
        self.name.as_slice() == name.as_bytes()
    }

    fn open(&self, alloc: Global) -> Result<MemSource, AllocError>
        ensures bytes { IfOk result (λ s. s.left ≡ self.now.bytes) }
        ensures fails { IfOk result (λ s. IsFresh s.reads self.now.fails) }
    {
        MemSource::new(alloc, &self.bytes, &self.fails)
    }
}

// The place of the first file of that name, or the number of files.
fn place(files: &[MemFile], name: &str) -> usize
    ensures { result ≡ place_of files.now name.now }
{
    let mut at = 0;
    'looks: while at < files.len() {
        if files[at].is_named(name) {
            return at;
        }
        at += 1;
    }
    at
}

// The first file of that name.
fn find<'a>(files: &'a [MemFile], name: &str) -> Option<&'a MemFile>
    ensures { option_map (λ file. file.now) result ≡ file_at files.now name.now }
{
    let at = place(files, name);
    if at < files.len() {
        return Some(&files[at]);
    }
    None
}

// Opens the first file of that name, and counts one more open source. OutOfMemory also where no more can be counted.
// Failed never comes.
fn open_in(
    files: &[MemFile],
    opened: &mut u64,
    alloc: Global,
    name: &str,
) -> Result<MemSource, OpenFault>
    ensures found { IfOk result (λ input. bytes_at files.now name.now ≡ Some input.left) }
    ensures reads { IfOk result (λ input. IfSome (file_at files.now name.now)
        (λ file. IsFresh input.reads file.fails)) }
    ensures fresh { IfOk result (λ input. input.reads.faults ≡ 0) }
    ensures missing { IsErrOf result OpenFault.NoSuchFile ↔ bytes_at files.now name.now ≡ None }
    ensures never { IsErrOf result OpenFault.Failed → ⊥ }
    ensures given { OnOk result (opened.new ≡ opened.old + 1) }
    ensures not_given { OnErr result (opened.new ≡ opened.old) }
{
    let Some(file) = find(files, name) else {
        return Err(OpenFault::NoSuchFile);
    };
    let input = file.open(alloc)?;
    let Some(count) = opened.checked_add(1) else {
        return Err(OpenFault::OutOfMemory);
    };
    *opened = count;
    Ok(input)
}

// The count after one more fault, if there was one.
fn counted(count: u64, fault: bool) -> u64
    ensures risen { IsTrue fault → HasCounted count result }
    ensures kept { IsFalse fault → result ≡ count }
{
    if fault {
        count.saturating_add(1)
    } else {
        count
    }
}

// Keeps these bytes as the file of that name, in the place of the one that had it, or behind all others. AllocError
// where there is no memory for it: then nothing is changed.
fn keep(
    files: &mut Vec<MemFile>,
    alloc: Global,
    name: &str,
    bytes: Vec<u8>,
    fails: &[u64],
) -> Result<(), AllocError>
    ensures kept { IfOk result (λ _. files.new.items
        ≡ put files.old.items (record { name = name.now; bytes = bytes.items; fails = fails.now })) }
    ensures same { OnErr result (files.new.items ≡ files.old.items) }
{
    let file = MemFile::new(alloc, name, bytes, fails)?;
    let at = place(files, name);
    if at < files.len() {
        files[at] = file;
        return Ok(());
    }
    Ok(files.push(file)?)
}

// Stores these bytes as the file of that name, of which no read fails. Failed never comes.
fn store_in(
    files: &mut Vec<MemFile>,
    alloc: Global,
    name: &str,
    bytes: Vec<u8>,
) -> Result<(), SinkFault>
    ensures kept { IfOk result (λ _. files.new.items
        ≡ put files.old.items (record { name = name.now; bytes = bytes.items; fails = [] })) }
    ensures stored { IfOk result (λ _. Stores (Some (bytes_at files.old.items)) (Some (bytes_at files.new.items))
        name.now (Some bytes.items)) }
    ensures same { OnErr result (files.new.items ≡ files.old.items) }
    ensures never { IsErrOf result SinkFault.Failed → ⊥ }
{
    match keep(files, alloc, name, bytes, &[]) {
        Ok(()) => Ok(()),
        Err(_) => Err(SinkFault::OutOfMemory),
    }
}

/// Files in memory by their names. Chosen reads of them fail, chosen writes of the sinks that it makes, and chosen
/// calls of the folder itself.
///
/// Contracts see the files with the reads of each that fail, the writes of new sinks that fail, the calls of `open`,
/// `create` and `store`, the two counts of faults, and the count of open sources. It tells all its files. No two files
/// have one name.
#[derive(Drop)]
pub struct MemFolder {
    alloc: Global,
    files: Vec<MemFile>,
    fails: Vec<u64>,
    calls: Fails,
    read_faults: u64,
    write_faults: u64,
    opened: u64,
}

impl Model for MemFolder {
    ghost Value = { FolderState };

    ghost view = { λ f. record {
      files = f.files.items;
      fails = f.fails.items;
      calls = f.calls;
      read_faults = f.read_faults;
      write_faults = f.write_faults;
      opened = f.opened;
    } };
}

impl MemFolder {
    /// A folder without files, in which nothing fails. It takes no memory.
    pub fn new(alloc: Global) -> MemFolder
        ensures files { result.files ≡ [] }
        ensures fails { result.fails ≡ [] }
        ensures calls { IsFresh result.calls [] }
        ensures faults { (result.read_faults ≡ 0) × (result.write_faults ≡ 0) }
        ensures opened { result.opened ≡ 0 }
    {
        MemFolder {
            alloc,
            files: Vec::new(alloc),
            fails: Vec::new(alloc),
            calls: Fails::none(alloc),
            read_faults: 0,
            write_faults: 0,
            opened: 0,
        }
    }

    /// A copy of the bytes as the file of that name, in place of one that had it. Each time that it is opened, the
    /// reads whose numbers, from 1, are in `fails` fail.
    ///
    /// AllocError where there is no memory for the copies: then nothing is changed.
    pub fn add(&mut self, name: &str, bytes: &[u8], fails: &[u64]) -> Result<(), AllocError>
        ensures put { IfOk result (λ _. self.new
            ≡ record self.old {
              files = put self.old.files
                  (record { name = name.now; bytes = bytes.now; fails = fails.now });
            }) }
        ensures same { OnErr result (self.new ≡ self.old) }
    {
        let bytes = bytes.to_vec(self.alloc)?;
        keep(&mut self.files, self.alloc, name, bytes, fails)
    }

    /// Of each sink that is made later the writes whose numbers, from 1, are in `fails` fail.
    ///
    /// AllocError where there is no memory for the numbers: then nothing is changed.
    pub fn fail_writes(&mut self, fails: &[u64]) -> Result<(), AllocError>
        ensures numbers { IfOk result (λ _. self.new ≡ record self.old { fails = fails.now }) }
        ensures same { OnErr result (self.new ≡ self.old) }
    {
        self.fails = fails.to_vec(self.alloc)?;
        Ok(())
    }

    /// The calls of `open`, `create` and `store` whose numbers are in `fails` fail. The numbers, from 1, count the
    /// calls of all three together, and those that were made before. Only these are listed then.
    ///
    /// AllocError where there is no memory for the numbers: then nothing is changed.
    pub fn fail_calls(&mut self, fails: &[u64]) -> Result<(), AllocError>
        ensures numbers { IfOk result (λ _. self.new
            ≡ record self.old { calls = record self.old.calls { numbers = fails.now } }) }
        ensures same { OnErr result (self.new ≡ self.old) }
    {
        self.calls.renumber(self.alloc, fails)
    }

    /// The bytes of the file of that name, or None where no file has it.
    pub fn bytes_of(&self, name: &str) -> Option<&[u8]>
        ensures { option_map (λ bytes. bytes.now) result ≡ bytes_at self.now.files name.now }
    {
        match find(&self.files, name) {
            Some(file) => Some(&file.bytes),
            None => None,
        }
    }
}

impl Folder for MemFolder {
    type In = MemSource;

    type Out = MemSink;

    ghost files = { λ f. Some (bytes_at f.files) };

    ghost read_faults = { λ f. f.read_faults };

    ghost write_faults = { λ f. f.write_faults };

    ghost opened = { λ f. f.opened };

    /// Opens the file with a copy of its bytes. Failed at just the numbers of `fail_calls`, whatever the name is.
    /// OutOfMemory also where 2^64 - 1 sources are open.
    fn open(&mut self, alloc: Global, name: &str) -> Result<MemSource, OpenFault>
        ensures found { IfOk result (λ input. HasBytes (Some (bytes_at self.old.files)) name.now (Some input.left)) }
        ensures fresh { IfOk result (λ input. input.reads.faults ≡ 0) }
        ensures missing { IsErrOf result OpenFault.NoSuchFile → HasNone (Some (bytes_at self.old.files)) name.now }
        ensures same { Some (bytes_at self.new.files) ≡ Some (bytes_at self.old.files) }
        ensures failed { CountsOpening self.old.read_faults self.new.read_faults result }
        ensures kept { self.new.write_faults ≡ self.old.write_faults }
        ensures given { OnOk result (self.new.opened ≡ self.old.opened + 1) }
        ensures not_given { OnErr result (self.new.opened ≡ self.old.opened) }
        ensures exact { IsErrOf result OpenFault.Failed ↔ FailsNext self.old.calls }
        ensures lacks { IsErrOf result OpenFault.NoSuchFile
            ↔ (FailsNext self.old.calls → ⊥) × (bytes_at self.old.files name.now ≡ None) }
        ensures reads { IfOk result (λ input. IfSome (file_at self.old.files name.now)
            (λ file. IsFresh input.reads file.fails)) }
        ensures calls { CountsCall self.old.calls self.new.calls }
        ensures files { self.new.files ≡ self.old.files }
        ensures fails { self.new.fails ≡ self.old.fails }
    {
        let fails = self.calls.next();
        self.read_faults = counted(self.read_faults, fails);
        if fails {
            return Err(OpenFault::Failed);
        }
        open_in(&self.files, &mut self.opened, alloc, name)
    }

    /// Makes a sink in memory. Failed at just the numbers of `fail_calls`.
    fn create(&mut self, alloc: Global, name: &str) -> Result<MemSink, OpenFault>
        ensures empty { IfOk result (λ out. HoldsNothing (Some (bytes_at self.old.files)) (Some out.held)) }
        ensures fresh { IfOk result (λ out. out.writes.faults ≡ 0) }
        ensures always { IsErrOf result OpenFault.NoSuchFile → ⊥ }
        ensures same { Some (bytes_at self.new.files) ≡ Some (bytes_at self.old.files) }
        ensures failed { CountsOpening self.old.write_faults self.new.write_faults result }
        ensures kept { self.new.read_faults ≡ self.old.read_faults }
        ensures as_open { self.new.opened ≡ self.old.opened }
        ensures exact { IsErrOf result OpenFault.Failed ↔ FailsNext self.old.calls }
        ensures writes { IfOk result (λ out. IsFresh out.writes self.old.fails) }
        ensures calls { CountsCall self.old.calls self.new.calls }
        ensures files { self.new.files ≡ self.old.files }
        ensures fails { self.new.fails ≡ self.old.fails }
    {
        let _ = name;
        let fails = self.calls.next();
        self.write_faults = counted(self.write_faults, fails);
        if fails {
            return Err(OpenFault::Failed);
        }
        Ok(MemSink::new(alloc, &self.fails)?)
    }

    /// Counts one fault of reading where a read of the source failed.
    fn close(&mut self, input: MemSource)
        ensures same { Some (bytes_at self.new.files) ≡ Some (bytes_at self.old.files) }
        ensures risen { 0 < input.reads.faults → HasRisen self.old.read_faults self.new.read_faults }
        ensures quiet { input.reads.faults ≡ 0 → self.new.read_faults ≡ self.old.read_faults }
        ensures later { self.old.read_faults ≤ self.new.read_faults }
        ensures kept { self.new.write_faults ≡ self.old.write_faults }
        ensures taken_back { self.new.opened ≡ self.old.opened - 1 }
        ensures counted { 0 < input.reads.faults → HasCounted self.old.read_faults self.new.read_faults }
        ensures calls { self.new.calls ≡ self.old.calls }
        ensures files { self.new.files ≡ self.old.files }
        ensures fails { self.new.fails ≡ self.old.fails }
    {
        self.read_faults = counted(self.read_faults, input.has_failed());
        self.opened = self.opened.saturating_sub(1);
    }

    /// Keeps what the sink holds as the file of that name, of which no read fails. Failed at just the numbers of
    /// `fail_calls`, whatever the sink has counted.
    ///
    /// One fault of writing is counted where a write of the sink failed, and one where the call fails.
    fn store(&mut self, alloc: Global, name: &str, out: MemSink) -> Result<(), SinkFault>
        ensures stored { IfOk result (λ _. Stores (Some (bytes_at self.old.files)) (Some (bytes_at self.new.files))
            name.now (Some out.held)) }
        ensures same { OnErr result (Some (bytes_at self.new.files) ≡ Some (bytes_at self.old.files)) }
        ensures cause { IsErrOf result SinkFault.Failed → HasRisen self.old.write_faults self.new.write_faults }
        ensures risen { 0 < out.writes.faults → HasRisen self.old.write_faults self.new.write_faults }
        ensures quiet { out.writes.faults ≡ 0
            → CountsFailed self.old.write_faults self.new.write_faults result }
        ensures later { self.old.write_faults ≤ self.new.write_faults }
        ensures kept { self.new.read_faults ≡ self.old.read_faults }
        ensures as_open { self.new.opened ≡ self.old.opened }
        ensures exact { IsErrOf result SinkFault.Failed ↔ FailsNext self.old.calls }
        ensures calls { CountsCall self.old.calls self.new.calls }
        ensures files { IfOk result (λ _. self.new.files
            ≡ put self.old.files (record { name = name.now; bytes = out.held; fails = [] })) }
        ensures kept_files { OnErr result (self.new.files ≡ self.old.files) }
        ensures fails { self.new.fails ≡ self.old.fails }
    {
        self.write_faults = counted(self.write_faults, out.has_failed());
        let bytes = out.into_bytes();
        let fails = self.calls.next();
        self.write_faults = counted(self.write_faults, fails);
        if fails {
            return Err(SinkFault::Failed);
        }
        store_in(&mut self.files, alloc, name, bytes)
    }
}
