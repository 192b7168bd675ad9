//! Scripts of a writer and a reader on one thread: what one of them does at a time, and what is to be seen of it.

ghost use Rattle.std.specs.Prelude.{◌<◌};
ghost use Rattle.wait_model.specs.declared.layout.TheConstants.{PIPES};
ghost use Rattle.wait_rule.specs.Says.{RestsIn};
ghost use Rattle.user_tests.specs.PipeTasks.{MayRead, MayWrite};

use crate::pipes::calls::{
    By, FULL, are_from, end_read, end_write, fill_from, get_by, look, put_by, take_read, take_write,
};
use std::alloc::{AllocError, Global};
use std::process::Abort;
use std::sync::Wait;
use std::test::Fail;
use wait_leave::Until;
use wait_pipe::peeks::PipeState;
use wait_pipe::pieces::PipeEnd;
use wait_rule::running::send_signal;
use wait_rule::{Domain, Task};

/// What is told of a piece: so many bytes went in, or came; the read end is closed; a signal ended the wait, whose word
/// held 0; or the call was left, with this in the word.
#[derive(Copy)]
pub(super) enum Told {
    Went(usize),
    Broken,
    Interrupted,
    Left(u64),
}

impl Clone for Told {
    fn clone(&self) -> Result<Self, AllocError> {
        Ok(*self)
    }
}

/// By which call a piece goes: the plain one, or the one that can be left, by who is never asked or is asked at once.
#[derive(Clone, Copy)]
pub(super) enum Call {
    Plain,
    Unasked,
    Asked,
}

fn by(call: Call) -> By<'static> {
    match call {
        Call::Plain => By::Plain,
        Call::Unasked => By::Said(false),
        Call::Asked => By::Said(true),
    }
}

/// What a task does, or what is to be seen of it.
#[derive(Copy)]
pub(super) enum Deed {
    /// The writer puts in bytes of a stream, from this place on and so many, by this call.
    Puts(u32, usize, Call, Told),
    /// The reader takes bytes out, into a buffer of so many, by this call: those of a stream from this place on.
    Gets(u32, usize, Call, Told),
    /// The reader looks: this is the writer's word, so many cells are there, and the write end is closed or is not.
    Looks(u64, u16, bool),
    /// A third task sends a plain signal to who has this number: the writer has 0, and the reader 1.
    Signals(u8),
    /// The writer closes its end.
    ClosesWrite,
    /// The reader closes its end.
    ClosesRead,
}

impl Clone for Deed {
    fn clone(&self) -> Result<Self, AllocError> {
        Ok(*self)
    }
}

/// What is done one after the other. A script is a constant: so the check of what plays it takes as long however many
/// rows it has.
pub(super) type Script = &'static [Deed];

/// The tasks of a script, and which ends are open.
struct Players {
    writer: Task,
    reader: Task,
    sender: Task,
    writes: bool,
    reads: bool,
}

/// Whether this came of a piece.
fn is_told(came: Until<Result<usize, PipeEnd>>, wanted: Told) -> bool {
    match wanted {
        Told::Went(wanted) => matches!(came, Until::Over(Ok(n)) if n == wanted),
        Told::Broken => matches!(came, Until::Over(Err(PipeEnd::Broken))),
        Told::Interrupted => { matches!(came, Until::Over(Err(PipeEnd::Interrupted { seen: 0 }))) }
        Told::Left(wanted) => matches!(came, Until::Left { seen } if seen == wanted),
    }
}

/// A writer puts a piece in, if its end is open: whether that came of it.
fn puts<R: Wait>(
    rt: &R,
    domain: &Domain,
    task: &mut Task,
    has: bool,
    pipe: u8,
    piece: (u32, usize, Call, Told),
) -> bool
    requires pipe { pipe < PIPES }
    requires may { MayWrite domain.now pipe task.old has }
    ensures may { MayWrite domain.now pipe task.new has }
{
    if !has {
        return false;
    }
    let (place, length, call, told) = piece;
    let length = length.clamp(1, FULL);
    let mut bytes = [0u8; FULL];
    fill_from(place, &mut bytes[..length]);
    let came = put_by(rt, domain, task, pipe, &bytes[..length], by(call));
    is_told(came, told)
}

/// A reader takes a piece out, if its end is open: whether that came of it, and the bytes are right.
fn gets<R: Wait>(
    rt: &R,
    domain: &Domain,
    task: &mut Task,
    has: bool,
    pipe: u8,
    piece: (u32, usize, Call, Told),
) -> bool
    requires pipe { pipe < PIPES }
    requires may { MayRead domain.now pipe task.old has }
    ensures may { MayRead domain.now pipe task.new has }
{
    if !has {
        return false;
    }
    let (place, length, call, told) = piece;
    let length = length.clamp(7, FULL);
    let mut buf = [0u8; FULL];
    let came = get_by(rt, domain, task, pipe, &mut buf[..length], by(call));
    match came {
        Until::Over(Ok(n)) => is_told(came, told) && are_from(place, &buf[..n]),
        _ => is_told(came, told),
    }
}

/// A reader looks, if its end is open: whether that is to be seen.
fn looks(domain: &Domain, task: &mut Task, has: bool, pipe: u8, wanted: PipeState) -> bool
    requires pipe { pipe < PIPES }
    requires may { MayRead domain.now pipe task.old has }
    ensures may { MayRead domain.now pipe task.new has }
{
    if !has {
        return false;
    }
    let state = look(domain, task, pipe);
    state.word == wanted.word && state.cells == wanted.cells && state.closed == wanted.closed
}

/// A writer closes its end, if it is open.
fn stop_writing<R: Wait>(rt: &R, domain: &Domain, task: &mut Task, has: bool, pipe: u8)
    requires pipe { pipe < PIPES }
    requires may { MayWrite domain.now pipe task.old has }
    ensures rests { RestsIn domain.now task.new }
{
    if has {
        end_write(rt, domain, task, pipe);
    }
}

/// A reader closes its end, if it is open.
fn stop_reading<R: Wait>(rt: &R, domain: &Domain, task: &mut Task, has: bool, pipe: u8)
    requires pipe { pipe < PIPES }
    requires may { MayRead domain.now pipe task.old has }
    ensures rests { RestsIn domain.now task.new }
{
    if has {
        end_read(rt, domain, task, pipe);
    }
}

impl Players {
    /// Whether a task does it, and all is as it is to be.
    fn does<R: Wait>(&mut self, rt: &R, domain: &Domain, pipe: u8, deed: Deed) -> bool
        requires pipe { pipe < PIPES }
        requires writes { MayWrite domain.now pipe self.old.writer self.old.writes }
        requires reads { MayRead domain.now pipe self.old.reader self.old.reads }
        requires sender { RestsIn domain.now self.old.sender }
        ensures writes { MayWrite domain.now pipe self.new.writer self.new.writes }
        ensures reads { MayRead domain.now pipe self.new.reader self.new.reads }
        ensures sender { RestsIn domain.now self.new.sender }
    {
        match deed {
            Deed::Puts(place, length, call, told) => {
                let piece = (place, length, call, told);
                puts(rt, domain, &mut self.writer, self.writes, pipe, piece)
            }
            Deed::Gets(place, length, call, told) => {
                let piece = (place, length, call, told);
                gets(rt, domain, &mut self.reader, self.reads, pipe, piece)
            }
            Deed::Looks(word, cells, closed) => {
                let wanted = PipeState {
                    word,
                    cells,
                    closed,
                };
                looks(domain, &mut self.reader, self.reads, pipe, wanted)
            }
            Deed::Signals(who) => {
                send_signal(rt, domain, &mut self.sender, who, false);
                true
            }
            Deed::ClosesWrite => {
                stop_writing(rt, domain, &mut self.writer, self.writes, pipe);
                self.writes = false;
                true
            }
            Deed::ClosesRead => {
                stop_reading(rt, domain, &mut self.reader, self.reads, pipe);
                self.reads = false;
                true
            }
        }
    }
}

/// Plays the rows of a script.
fn play_rows<R: Wait + Abort>(
    rt: &R,
    domain: &Domain,
    players: &mut Players,
    pipe: u8,
    script: Script,
)
    requires pipe { pipe < PIPES }
    requires writes { MayWrite domain.now pipe players.old.writer players.old.writes }
    requires reads { MayRead domain.now pipe players.old.reader players.old.reads }
    requires sender { RestsIn domain.now players.old.sender }
    ensures writes { MayWrite domain.now pipe players.new.writer players.new.writes }
    ensures reads { MayRead domain.now pipe players.new.reader players.new.reads }
{
    let mut at: u64 = 0;
    for deed in script {
        let well = players.does(rt, domain, pipe, *deed);
        assert!(rt; well, "row {at}, counted from 0");
        at = at.saturating_add(1);
    }
}

/// Plays a script on a pipe, below `PIPES`, of a new Domain, whose ends are open before it. Then the ends that are open
/// still are closed, and the reader is taken in.
pub(super) fn play<R: Wait + Abort>(
    rt: &R,
    alloc: Global,
    pipe: u8,
    script: Script,
) -> Result<(), Fail>
    requires pipe { pipe < PIPES }
{
    let (domain, mut writer) = Domain::new(alloc)?;
    let mut reader = writer.fork(&domain, 0)?;
    let sender = writer.fork(&domain, 0)?;
    if !take_write(&domain, &mut writer, pipe) || !take_read(&domain, &mut reader, pipe) {
        panic!(rt; "the ends are free")
    }
    let mut players = Players {
        writer,
        reader,
        sender,
        writes: true,
        reads: true,
    };
    play_rows(rt, &domain, &mut players, pipe, script);
    let Players {
        mut writer,
        mut reader,
        sender: _,
        writes,
        reads,
    } = players;
    stop_writing(rt, &domain, &mut writer, writes, pipe);
    stop_reading(rt, &domain, &mut reader, reads, pipe);
    writer.join(&domain, reader);
    Ok(())
}
