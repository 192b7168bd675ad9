//! Sources and sinks in memory, and a buffer on its way to a sink.

ghost use Rattle.std.specs.Prelude.{Some};

use crate::tests::wants::{all_so, wants};
use edge_io::{Buffer, ReadFault, Sink, SinkFault, Source, read_all, write_all};
use mem_io::{MemSink, MemSource};
use std::alloc::Global;
use std::test::Fail;

// A sink that takes at most three bytes a write.
#[derive(Drop)]
struct Sips {
    sink: MemSink,
}

impl Sink for Sips {
    ghost held = { λ s. Some s.sink.held };

    ghost faults = { λ s. s.sink.writes.faults };

    ghost wants = { λ s. s.sink.wants };

    fn write(&mut self, piece: &[u8]) -> Result<usize, SinkFault> {
        let count = piece.len().min(3);
        self.sink.write(&piece[..count])
    }
}

#[test]
fn a_sink_fails_at_its_numbers(rt: HostRuntime) -> Result<(), Fail> {
    let mut sink = MemSink::new(rt.alloc(), &[1, 3])?;
    let writes = [
        sink.write(b"abc"),
        sink.write(b"def"),
        sink.write(b"ghi"),
        sink.write(b"jkl"),
    ];
    let failed = Err(SinkFault::Failed);
    let is_written = writes == [failed, Ok(3), failed, Ok(3)];
    all_so(&rt, &[is_written, sink.bytes() == b"defjkl".as_slice()]);
    Ok(())
}

/// How many bytes a source gives to its end, where it gives at most so many.
fn size_of(alloc: Global, source: &mut MemSource, most: usize) -> Result<usize, ReadFault> {
    match read_all(alloc, source, most) {
        Ok(bytes) => Ok(bytes.len()),
        Err(fault) => Err(fault),
    }
}

#[test]
fn a_source_is_read_whole(rt: HostRuntime) -> Result<(), Fail> {
    let mut source = MemSource::new(rt.alloc(), b"abcdef", &[])?;
    let mut buf = [0; 4];
    let is_first = source.read(&mut buf) == Ok(4);
    let is_front = buf.as_slice() == b"abcd".as_slice();
    let is_rest = size_of(rt.alloc(), &mut source, 2) == Ok(2);
    let is_end = source.read(&mut buf) == Ok(0);
    all_so(&rt, &[is_first, is_front, is_rest, is_end]);
    Ok(())
}

/// Which read fails, the most bytes, and the fault.
const NOT_READ: &[(u64, usize, ReadFault)] = &[
    (9, 5, ReadFault::Long),
    (1, 6, ReadFault::Failed),
    (2, 6, ReadFault::Failed),
];

#[test]
fn a_source_is_not_read_whole(rt: HostRuntime) -> Result<(), Fail> {
    for (fails, most, fault) in NOT_READ {
        let mut source = MemSource::new(rt.alloc(), b"abcdef", &[*fails])?;
        let read = size_of(rt.alloc(), &mut source, *most);
        wants(&rt, *fails, "the fault", read == Err(*fault));
    }
    Ok(())
}

/// Which write fails, what it answers, and how many bytes are held.
const WRITTEN: &[(u64, Result<(), SinkFault>, usize)] = &[
    (1, Err(SinkFault::Failed), 0),
    (3, Err(SinkFault::Failed), 6),
    (5, Ok(()), 10),
];

#[test]
fn a_text_is_written_up_to_a_fault(rt: HostRuntime) -> Result<(), Fail> {
    for (fails, answer, held) in WRITTEN {
        let mut out = Sips {
            sink: MemSink::new(rt.alloc(), &[*fails])?,
        };
        let written = write_all(&mut out, b"abcdefghij");
        wants(&rt, *fails, "the answer", written == *answer);
        wants(&rt, *fails, "a front", is_front(out.sink.bytes(), *held));
    }
    Ok(())
}

/// Whether these are so many bytes of a text of ten.
fn is_front(bytes: &[u8], size: usize) -> bool {
    b"abcdefghij".starts_with(bytes) && bytes.len() == size
}

/// Whether these are the bytes of that text from one on.
fn is_rest(bytes: &[u8], from: usize) -> bool {
    b"abcdefghij".ends_with(bytes) && bytes.len().saturating_add(from) == 10
}

/// Writes a text of ten bytes into a buffer by two calls, flushes it into a sink whose write of a number fails, when so many
/// bytes are out, and flushes it again. What of these was seen that was to be seen.
fn flushes(alloc: Global, fails: u64, out_then: usize) -> Result<[bool; 4], Fail> {
    let mut out = Sips {
        sink: MemSink::new(alloc, &[fails])?,
    };
    let mut buffer = Buffer::new(alloc)?;
    let writes = [
        write_all(&mut buffer, b"abcde"),
        write_all(&mut buffer, b"fghij"),
    ];
    let is_failed = buffer.flush(&mut out) == Err(SinkFault::Failed);
    let is_kept = is_front(out.sink.bytes(), out_then) && is_rest(buffer.bytes(), out_then);
    let is_flushed = buffer.flush(&mut out) == Ok(()) && is_front(out.sink.bytes(), 10);
    Ok([writes == [Ok(()), Ok(())], is_failed, is_kept, is_flushed])
}

/// Which write fails, and how many bytes are out then.
const FLUSHED: &[(u64, usize)] = &[(1, 0), (2, 3), (3, 6), (4, 9)];

#[test]
fn a_buffer_loses_no_byte_and_sends_none_twice(rt: HostRuntime) -> Result<(), Fail> {
    for (fails, out_then) in FLUSHED {
        let seen = flushes(rt.alloc(), *fails, *out_then)?;
        wants(&rt, *fails, "the writes and flushes", seen == [true; 4]);
    }
    Ok(())
}

/// Whether so many bytes are out, and so many in the buffer.
fn are_out(out: &MemSink, buffer: &Buffer, sizes: (usize, usize)) -> bool {
    (out.bytes().len(), buffer.bytes().len()) == sizes
}

/// Whether fifteen pieces are written into a buffer.
fn is_filled(buffer: &mut Buffer) -> bool {
    for _ in 0..15 {
        if buffer.write(&[1; 4096]) != Ok(4096) {
            return false;
        }
    }
    true
}

#[test]
fn a_buffer_makes_room_where_there_is_too_little(rt: HostRuntime) -> Result<(), Fail> {
    let mut out = MemSink::new(rt.alloc(), &[])?;
    let mut buffer = Buffer::new(rt.alloc())?;
    let is_filled = is_filled(&mut buffer);
    let has_room = buffer.make_room(&mut out, 4096) == Ok(());
    let is_kept = are_out(&out, &buffer, (0, 61_440));
    let is_full = buffer.write(&[2; 4097]) == Err(SinkFault::OutOfMemory);
    let makes_room = buffer.make_room(&mut out, 4097) == Ok(());
    let is_out = are_out(&out, &buffer, (61_440, 0));
    all_so(
        &rt,
        &[is_filled, has_room, is_kept, is_full, makes_room, is_out],
    );
    Ok(())
}
