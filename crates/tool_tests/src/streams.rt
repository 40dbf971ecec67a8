//! How input is read and reports are written.
use crate::cases::{holds, holds_at};
use bench_core::Limits;
use script_core::{
    FakeReader, FakeWriter, InputFault, Lost, PlayFault, WriteFault, play, read_input, write_noted,
    write_out,
};
use std::alloc::Global;
use std::io;
use std::io::{ErrorKind, Read, Write};
use std::process::Abort;

/// A join, its undo, and a list.
const SCRIPT: &str = "nodes a b\nconsoles c1\na join 1 r alice phone\na undo 1\nshow a\n";

const REPORT: &str = "1 ok\n+ r alice a/1 phone\nundone 1\n- r alice a/1 phone\nonline a 0\n";

/// Whether a read of `abc` with this limit on bytes gives all of it, or this fault, and makes at most `calls` calls.
fn is_read(
    rt: &impl Abort,
    heap: Global,
    limit: usize,
    calls: usize,
    fault: Option<InputFault>,
) -> bool {
    assert!(rt; limit < 100);
    let mut reader = FakeReader::ending(b"abc");
    let is_so = match read_input(heap, &mut reader, limit) {
        Ok(bytes) => bytes.as_slice() == b"abc".as_slice() && fault.is_none(),
        Err(other) => Some(other) == fault,
    };
    is_so && reader.calls() <= calls
}

/// Cases: the limit on bytes, the most calls, and the fault, if there is one.
const READS: &[(usize, usize, Option<InputFault>)] = &[
    (4, 6, None),
    (3, 5, None),
    (2, 4, Some(InputFault::TooLong)),
    (0, 2, Some(InputFault::TooLong)),
];

#[test]
fn input_is_read_whole_or_refused(rt: HostRuntime) {
    for (limit, calls, fault) in READS {
        let is_so = is_read(&rt, rt.alloc(), *limit, *calls, *fault);
        holds_at(&rt, is_so, *limit as u64);
    }
}

/// Whether a play from this reader writes nothing and ends with `ReadFault`, after `calls` calls, or after any number
/// of them if `calls` is `None`.
fn fails_to_read(heap: Global, mut reader: FakeReader, calls: Option<usize>) -> bool {
    let mut writer = FakeWriter::new(heap, 1000);
    let played = play(&heap, &mut reader, &mut writer, Limits::usual());
    played == Err(PlayFault::ReadFault)
        && writer.taken().is_empty()
        && calls.is_none_or(|calls| reader.calls() == calls)
}

#[test]
fn a_failed_read_is_not_tried_again(rt: HostRuntime) {
    let script = SCRIPT.as_bytes();
    for (reader, calls, row) in [
        (FakeReader::failing(b""), 1, "at once"),
        (FakeReader::failing(script), 2, "at the end"),
        (FakeReader::failing_once(script), 1, "once"),
    ] {
        holds(&rt, fails_to_read(rt.alloc(), reader, Some(calls)), row);
    }
}

/// Lets a read of the script fail after none of its bytes, after one, and so on up to all.
#[test]
fn a_read_that_fails_at_any_byte_is_told(rt: HostRuntime) {
    let script = SCRIPT.as_bytes();
    for count in 0..script.len() + 1 {
        let reader = FakeReader::failing(&script[..count]);
        holds_at(&rt, fails_to_read(rt.alloc(), reader, None), count as u64);
    }
}

/// Whether the whole report goes out if the writer takes at most `most` bytes at once.
fn goes_out_in_parts(heap: Global, most: usize) -> bool {
    let mut reader = FakeReader::ending(SCRIPT.as_bytes());
    let mut writer = FakeWriter::taking(heap, most);
    let played = play(&heap, &mut reader, &mut writer, Limits::usual());
    played == Ok(()) && writer.taken() == REPORT.as_bytes()
}

#[test]
fn a_report_goes_out_in_parts(rt: HostRuntime) {
    assert!(rt; goes_out_in_parts(rt.alloc(), 1));
    assert!(rt; goes_out_in_parts(rt.alloc(), 3));
}

/// Whether a play whose writer fails after `most` bytes reports that number, or succeeds if the report isn't longer;
/// and the bytes that went out are the first `most` of the report.
fn is_written_up_to(heap: Global, mut writer: FakeWriter, most: usize) -> bool {
    let report = REPORT.as_bytes();
    let mut reader = FakeReader::ending(SCRIPT.as_bytes());
    let played = play(&heap, &mut reader, &mut writer, Limits::usual());
    let expected = if most < report.len() {
        Err(PlayFault::WriteFault { written: most })
    } else {
        Ok(())
    };
    played == expected && report.get(..most) == Some(writer.taken())
}

#[test]
fn a_write_that_fails_at_any_byte_tells_what_went_out(rt: HostRuntime) {
    assert!(rt; REPORT.len() == 65);
    for count in 0..66usize {
        let writer = FakeWriter::new(rt.alloc(), count);
        let is_told = is_written_up_to(rt.alloc(), writer, count);
        holds_at(&rt, is_told, count as u64);
    }
    let writer = FakeWriter::failing_once(rt.alloc(), 7);
    assert!(rt; is_written_up_to(rt.alloc(), writer, 7));
}

/// Whether a write of `abc` to a writer that takes two bytes reports two as written, and a write of no bytes succeeds.
fn is_written_in_part(heap: Global) -> bool {
    let mut writer = FakeWriter::new(heap, 2);
    write_out(&mut writer, b"abc") == Err(WriteFault { written: 2 })
        && write_out(&mut writer, b"") == Ok(())
}

#[test]
fn what_is_written_is_told_of_any_bytes(rt: HostRuntime) {
    assert!(rt; is_written_in_part(rt.alloc()));
}

/// Whether writing `abc` to a writer with this room fails and notes a loss if the room is too small, and otherwise does
/// neither.
fn notes_a_loss(heap: Global, room: usize) -> bool {
    let mut writer = FakeWriter::new(heap, room);
    let mut lost = Lost::nothing();
    let written = write_noted(&mut writer, b"abc", &mut lost);
    lost.is_any() == (room < 3) && written.is_err() == lost.is_any()
}

#[test]
fn a_loss_is_noted(rt: HostRuntime) {
    for room in 0..5usize {
        holds_at(&rt, notes_a_loss(rt.alloc(), room), room as u64);
    }
}

/// A writer that takes nothing at its first call, or is interrupted there, and takes all at each later one.
#[derive(Drop)]
struct Stalling {
    is_interrupted: bool,
    calls: usize,
}

impl Write for Stalling {
    ghost use Rattle.std.specs.Prelude.{None};

    ghost contents = { λ _. None };

    fn write(&mut self, buf: &[u8]) -> io::Result<usize> {
        // form: saturating spares a requirement
        self.calls = self.calls.saturating_add(1);
        if self.calls > 1 {
            return Ok(buf.len());
        }
        if self.is_interrupted {
            return Err(io::Error::from(ErrorKind::Interrupted));
        }
        Ok(0)
    }

    fn flush(&mut self) -> io::Result<()> {
        Ok(())
    }
}

/// Whether a write that takes nothing, or is interrupted, is reported as failed after one call.
fn fails_at_once(is_interrupted: bool) -> bool {
    let mut writer = Stalling {
        is_interrupted,
        calls: 0,
    };
    write_out(&mut writer, b"abc") == Err(WriteFault { written: 0 }) && writer.calls == 1
}

#[test]
fn a_write_that_takes_nothing_or_is_interrupted_is_not_tried_again(rt: HostRuntime) {
    assert!(rt; fails_at_once(false));
    assert!(rt; fails_at_once(true));
}

/// What a reader gives at a call.
enum Given {
    Byte(u8),
    End,
    Interrupted,
}

/// A reader that gives the next of these at each call, and then ends. Read again after an `End`, it goes on.
#[derive(Drop)]
struct Giving {
    given: &'static [Given],
    calls: usize,
}

impl Read for Giving {
    ghost use Rattle.std.specs.Prelude.{None};

    ghost remaining = { λ _. None };

    fn read(&mut self, buf: &mut [u8]) -> io::Result<usize> {
        let next = self.given.get(self.calls);
        // form: saturating spares a requirement
        self.calls = self.calls.saturating_add(1);
        match next {
            Some(Given::Interrupted) => Err(io::Error::from(ErrorKind::Interrupted)),
            Some(Given::Byte(byte)) if !buf.is_empty() => {
                buf[0] = *byte;
                Ok(1)
            }
            _ => Ok(0),
        }
    }
}

const A: Given = Given::Byte(b'a');

const B: Given = Given::Byte(b'b');

/// Cases: what a reader gives; what is read of that, or `None` if a read fails; and in how many calls.
const GIVEN: &[(&[Given], Option<&str>, usize)] = &[
    (&[A, B], Some("ab"), 3),
    (&[A, Given::End, B], Some("a"), 2),
    (&[Given::End, B], Some(""), 1),
    (&[Given::Interrupted, B], None, 1),
    (&[A, Given::Interrupted, B], None, 2),
];

/// Whether `expected` is read of what a reader gives, in `calls` calls.
fn reads_given(
    heap: Global,
    given: &'static [Given],
    expected: Option<&str>,
    calls: usize,
) -> bool {
    let mut reader = Giving { given, calls: 0 };
    let is_so = match (read_input(heap, &mut reader, 10), expected) {
        (Ok(bytes), Some(text)) => bytes.as_slice() == text.as_bytes(),
        (Err(fault), None) => fault == InputFault::ReadFault,
        _ => false,
    };
    is_so && reader.calls == calls
}

/// A reader may give one byte at a call; it is not read after an end; an interrupted read counts as failed.
#[test]
fn a_reader_is_read_up_to_its_end(rt: HostRuntime) {
    for (place, (given, expected, calls)) in GIVEN.iter().enumerate() {
        let is_so = reads_given(rt.alloc(), given, *expected, *calls);
        holds_at(&rt, is_so, place as u64);
    }
}
