//! Says whether a case comes out as it says, and prints what differs.
use crate::case::Case;
use program_core::{Host, Setting, program_within};
use progress_core::FakeClock;
use script_core::{FakeReader, FakeWriter};
use std::io;
use std::sync::Wait;
use std::thread::Threads;

/// How the program ended: its status, and what it wrote to its output and to its errors.
#[derive(Drop)]
struct Ended {
    status: u8,
    output: FakeWriter,
    errors: FakeWriter,
}

/// Runs the program on what the case gives it.
fn run_case<T: Threads + Wait + Sync>(rt: &HostRuntime, threads: &T, case: &Case) -> Ended {
    let heap = rt.alloc();
    let mut reader = if case.fails {
        FakeReader::failing(case.given())
    } else {
        FakeReader::ending(case.given())
    };
    let mut output = FakeWriter::new(heap, case.room);
    let mut errors = FakeWriter::new(heap, usize::MAX);
    let clock = FakeClock::new(0);
    let setting = Setting {
        host: Host {
            threads,
            heap,
            alloc: &heap,
            clock: &clock,
        },
        limits: case.limits,
        terminal: case.terminal,
    };
    let status = program_within(&setting, &case.words, &mut reader, &mut output, &mut errors);
    Ended {
        status,
        output,
        errors,
    }
}

/// The number of the first line in which the two texts differ, and that line of each, or `nothing` for a missing line.
/// If all lines are the same, it is the number past the last line, with `nothing` and `another end`.
fn first_difference<'a>(one: &'a str, other: &'a str) -> (u64, &'a str, &'a str) {
    let mut number = 0u64;
    let mut others = other.lines();
    for line in one.lines() {
        // form: saturating spares a requirement
        number = number.saturating_add(1);
        let other = others.next().unwrap_or("nothing");
        if line != other {
            return (number, line, other);
        }
    }
    (
        number.saturating_add(1),
        "nothing",
        others.next().unwrap_or("another end"),
    )
}

/// Whether the bytes that were written are those expected. If not, prints the first line that differs, after `place`;
/// bytes that aren't UTF-8 are compared there as `no text`.
fn is_same(rt: &HostRuntime, place: &str, written: &[u8], expected: &[u8]) -> io::Result<bool> {
    if written == expected {
        return Ok(true);
    }
    let written = str::from_utf8(written).unwrap_or("no text");
    let expected = str::from_utf8(expected).unwrap_or("no text");
    let (number, line, other) = first_difference(written, expected);
    println!(rt; "{place} line {number} is {line}")?;
    println!(rt; "{place} line {number} should be {other}")?;
    Ok(false)
}

/// The part of the output that the case compares: all of it, or, if the case `begins`, no more bytes than the case has
/// of the output.
fn looked_at<'a>(case: &Case, written: &'a [u8]) -> &'a [u8] {
    if !case.begins {
        return written;
    }
    written.get(..case.output.len()).unwrap_or(written)
}

/// Whether the case comes out as it says. If not, prints the case's file and line, and what differs.
pub fn comes_out<T: Threads + Wait + Sync>(
    rt: &HostRuntime,
    threads: &T,
    file: &str,
    case: &Case,
) -> io::Result<bool> {
    let ended = run_case(rt, threads, case);
    let written = looked_at(case, ended.output.taken());
    let place = format!(in rt.alloc(); "{file}.cases:{}: output", case.line)?;
    let has_output = is_same(rt, place.as_str(), written, &case.output)?;
    let place = format!(in rt.alloc(); "{file}.cases:{}: errors", case.line)?;
    let has_errors = is_same(rt, place.as_str(), ended.errors.taken(), &case.errors)?;
    let has_status = ended.status == case.status;
    if !has_status {
        println!(rt;
            "{file}.cases:{}: status {} should be {}",
            case.line, ended.status, case.status
        )?;
    }
    Ok(has_output && has_errors && has_status)
}
