//! The files of the system as a folder: each failure is counted, and no file is told.

ghost use Rattle.std.specs.Prelude.{◌≡◌, None, IfOk};
ghost use Rattle.edge_io.specs.Faults.{HasCounted};

use crate::streams::{Reading, Writing};
use edge_io::{Folder, OpenFault, Sink, SinkFault};
use std::alloc::{AllocError, Global};
use std::fs::{File, Metadata, Permissions};
use std::io::ErrorKind;
use std::os::unix::fs::{MetadataExt, OpenOptionsExt, PermissionsExt, fchown};
use std::{fs, io};

/// How many names are tried for the file beside the one that is written.
const NAMES: u32 = 1000;

/// How many characters of a file's name stand in the name of the one beside it: few enough that the system takes that
/// name too, whatever characters they are.
const FRONT: usize = 60;

/// The bits of a mode that say who may read, write and run a file.
const RIGHTS: u32 = 0o777;

/// What is known of a file: who may use it, and by which two numbers the system knows it.
#[derive(Clone, Copy, Drop)]
struct Seen {
    rights: u32,
    device: u64,
    number: u64,
}

/// The files of the system. `source` is the file that was opened last, and `other` the one before it, where a source was
/// open still when that was opened.
#[derive(Drop)]
pub struct Disk<'r> {
    rt: &'r HostRuntime,
    source: Seen,
    other: Option<Seen>,
    read_faults: u64,
    write_faults: u64,
    opened: u64,
}

impl Seen {
    /// Whether it is the same file, by whatever name.
    fn is_same(self, file: Seen) -> bool {
        self.device == file.device && self.number == file.number
    }
}

/// A file that is written beside the one whose name it gets in the end. One that is dropped before that is removed.
pub struct Part<'r> {
    rt: &'r HostRuntime,
    file: Writing<File>,
    name: String,
}

impl Part<'_> {
    /// Lets it go once it has its name.
    fn leave(self) {
        let Self { rt: _, file, name } = self;
        drop(file);
        drop(name);
    }
}

impl Drop for Part<'_> {
    fn drop(self) {
        let Self { rt, file, name } = self;
        drop(file);
        let _ = fs::remove_file(rt, name.as_str());
    }
}

impl Sink for Part<'_> {
    ghost held = { λ _. None };

    ghost faults = { λ part. part.file.faults };

    ghost wants = { λ _. 0 };

    fn write(&mut self, piece: &[u8]) -> Result<usize, SinkFault> {
        self.file.write(piece)
    }
}

/// A count with one fault more.
fn one_more(count: u64) -> u64
    ensures { HasCounted count result }
{
    count.saturating_add(1)
}

/// What is known of a file, by what the system says of it.
fn look_at(metadata: &Metadata) -> Seen {
    Seen {
        rights: metadata.mode() & RIGHTS,
        device: metadata.dev(),
        number: metadata.ino(),
    }
}

/// A name for the part of the file `name`, in the same folder.
fn part_name(alloc: Global, name: &str, number: u32) -> Result<String, AllocError> {
    let (folder, slash, last) = match name.rsplit_once('/') {
        Some((folder, last)) => (folder, "/", last),
        None => ("", "", name),
    };
    let mut front = String::new(alloc);
    for letter in last.chars().take(FRONT) {
        front.push(letter)?;
    }
    format!(in alloc; "{folder}{slash}{front}.part{number}")
}

/// Gives a part the rights of the file that it is to replace, and its owner and group where the system allows that.
fn take_rights(part: &File, old: &Metadata) -> io::Result<()> {
    let _ = fchown(part, None, Some(old.gid()));
    let _ = fchown(part, Some(old.uid()), None);
    part.set_permissions(Permissions::from_mode(old.mode() & RIGHTS))
}

impl<'r> Disk<'r> {
    /// The files of the system, of which no call has failed yet.
    pub fn new(rt: &'r HostRuntime) -> Disk<'r> {
        Disk {
            rt,
            source: Seen {
                rights: RIGHTS,
                device: 0,
                number: 0,
            },
            other: None,
            read_faults: 0,
            write_faults: 0,
            opened: 0,
        }
    }

    /// Opens a file that is no folder.
    fn open_file(&self, name: &str) -> io::Result<(File, Seen)> {
        let file = File::open(self.rt, name)?;
        let metadata = file.metadata()?;
        if metadata.is_dir() {
            return Err(io::Error::from(ErrorKind::IsADirectory));
        }
        Ok((file, look_at(&metadata)))
    }

    /// The name of the file itself: where a link has the name, that of the file to which it leads.
    fn follow(&self, alloc: Global, name: &str) -> io::Result<String> {
        match fs::symlink_metadata(self.rt, name) {
            Ok(metadata) if metadata.is_symlink() => {
                Ok(fs::canonicalize(self.rt, name)?.into_string())
            }
            _ => Ok(String::from_str(alloc, name)?),
        }
    }

    /// Whether a file is a source.
    fn is_source(&self, file: Seen) -> bool {
        self.source.is_same(file) || self.other.is_some_and(|other| other.is_same(file))
    }

    /// The rights for a new file: those that all sources have.
    fn source_rights(&self) -> u32 {
        match self.other {
            Some(other) => self.source.rights & other.rights,
            None => self.source.rights,
        }
    }

    /// The rights for a new file of that name: those of the file that has it, which has to be an ordinary one that can
    /// be written, and no source itself; or else those of the sources.
    fn rights_for(&self, name: &str) -> io::Result<u32> {
        let metadata = match fs::metadata(self.rt, name) {
            Ok(metadata) => metadata,
            Err(error) if error.kind() == ErrorKind::NotFound => return Ok(self.source_rights()),
            Err(error) => return Err(error),
        };
        let old = look_at(&metadata);
        if self.is_source(old) || !metadata.is_file() {
            return Err(io::Error::from(ErrorKind::InvalidInput));
        }
        File::options().write(true).open(self.rt, name)?;
        Ok(old.rights)
    }

    /// Makes the part of the file of that name, under the first of its names that is free.
    fn make_part(&self, alloc: Global, name: &str) -> io::Result<Part<'r>>
        ensures { IfOk result (λ part. part.file.faults ≡ 0) }
    {
        let name = self.follow(alloc, name)?;
        let rights = self.rights_for(name.as_str())?;
        let mut options = File::options();
        options.write(true).create_new(true).mode(rights);
        for number in 0..NAMES {
            let part = part_name(alloc, name.as_str(), number)?;
            match options.open(self.rt, part.as_str()) {
                Ok(file) => {
                    return Ok(Part {
                        rt: self.rt,
                        file: Writing::new(file),
                        name: part,
                    });
                }
                Err(error) if error.kind() == ErrorKind::AlreadyExists => {}
                Err(error) => return Err(error),
            }
        }
        Err(io::Error::from(ErrorKind::AlreadyExists))
    }

    /// Gives a part the rights of the file of that name, if there is one, sees that its bytes are kept, and makes it
    /// the file of that name in one step.
    fn put(&self, alloc: Global, part: &Part, name: &str) -> io::Result<()> {
        let name = self.follow(alloc, name)?;
        let file = &part.file.writer;
        if let Ok(old) = fs::metadata(self.rt, name.as_str()) {
            take_rights(file, &old)?;
        }
        file.sync_all()?;
        fs::rename(self.rt, part.name.as_str(), name.as_str())?;
        self.keep_name(name.as_str());
        Ok(())
    }

    /// Sees that the name of a file is kept, where its folder can be read and its file system takes that.
    fn keep_name(&self, name: &str) {
        let folder = match name.rsplit_once('/') {
            None => ".",
            Some(("", _)) => "/",
            Some((folder, _)) => folder,
        };
        if let Ok(folder) = File::open(self.rt, folder) {
            let _ = folder.sync_all();
        }
    }
}

impl<'r> Folder for Disk<'r> {
    type In = Reading<File>;

    type Out = Part<'r>;

    ghost files = { λ _. None };

    ghost read_faults = { λ disk. disk.read_faults };

    ghost write_faults = { λ disk. disk.write_faults };

    ghost opened = { λ disk. disk.opened };

    /// A folder can't be read as a file. OutOfMemory also where 2^64 - 1 sources are open.
    fn open(&mut self, _alloc: Global, name: &str) -> Result<Reading<File>, OpenFault> {
        let error = match self.open_file(name) {
            Ok((file, source)) => {
                let Some(opened) = self.opened.checked_add(1) else {
                    return Err(OpenFault::OutOfMemory);
                };
                self.other = if self.opened > 0 {
                    Some(self.source)
                } else {
                    None
                };
                self.opened = opened;
                self.source = source;
                return Ok(Reading::new(file));
            }
            Err(error) => error.kind(),
        };
        match error {
            ErrorKind::NotFound => Err(OpenFault::NoSuchFile),
            ErrorKind::OutOfMemory => Err(OpenFault::OutOfMemory),
            _ => {
                self.read_faults = one_more(self.read_faults);
                Err(OpenFault::Failed)
            }
        }
    }

    /// Makes a file beside the one of that name, with its rights, or with those that the sources have: the file that was
    /// opened last, and the one before it, if that was open still. What has the name must be an ordinary file that can be
    /// written and is none of them, or a link to such a file.
    fn create(&mut self, alloc: Global, name: &str) -> Result<Part<'r>, OpenFault> {
        let error = match self.make_part(alloc, name) {
            Ok(part) => return Ok(part),
            Err(error) => error.kind(),
        };
        match error {
            ErrorKind::OutOfMemory => Err(OpenFault::OutOfMemory),
            _ => {
                self.write_faults = one_more(self.write_faults);
                Err(OpenFault::Failed)
            }
        }
    }

    fn close(&mut self, input: Reading<File>) {
        if input.faults > 0 {
            self.read_faults = one_more(self.read_faults);
        }
        self.opened = self.opened.saturating_sub(1);
    }

    /// Renames the part to that name, also where a write to it has failed. Where that can't be done the part is removed,
    /// and the file of that name is as it was.
    fn store(&mut self, alloc: Global, name: &str, out: Part<'r>) -> Result<(), SinkFault> {
        if out.file.faults > 0 {
            self.write_faults = one_more(self.write_faults);
        }
        let error = match self.put(alloc, &out, name) {
            Ok(()) => {
                out.leave();
                return Ok(());
            }
            Err(error) => error.kind(),
        };
        drop(out);
        match error {
            ErrorKind::OutOfMemory => Err(SinkFault::OutOfMemory),
            _ => {
                self.write_faults = one_more(self.write_faults);
                Err(SinkFault::Failed)
            }
        }
    }
}
