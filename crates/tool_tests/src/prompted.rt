//! A prompt responds to each line before it reads the next. If memory is refused for a line, the responses to the lines
//! before it have gone out. What a prompt prints is tested by cases of `example_tests`.
use crate::cases::holds_at;
use bench_core::Limits;
use prompt_core::{PromptFault, step};
use script_core::{FakeReader, FakeWriter};
use std::alloc::Global;
use std::io::{BufReader, BufWriter};
use std::process::Abort;
use test_alloc::Refusing;

const HELP: &str = "the lines";

/// A prompt responds to each line that was read, and flushes the response, before a read fails. It doesn't respond to a
/// line whose end wasn't read.
#[test]
fn responses_go_out_before_a_read_fault(rt: HostRuntime) {
    let alloc = rt.alloc();
    let input = b"nodes a\nshow a\n:help\nshow";
    let mut reader = BufReader::new(alloc, FakeReader::failing(input)).expect(&rt, "memory");
    let mut writer = BufWriter::new(alloc, FakeWriter::new(alloc, 1_000)).expect(&rt, "memory");
    let limits = Limits::usual();
    let ended = step(alloc, &alloc, &mut reader, &mut writer, limits, HELP);
    let is_printed = writer.get_ref().taken() == b"online a 0\nthe lines\n".as_slice();
    drop(writer);
    drop(reader);
    assert!(rt; is_printed && ended == Err(PromptFault::ReadFault));
}

const LINES: &str = "nodes a\na join 1 r alice phone\n:save\na undo x\nshow a\n";

/// The responses to the lines of `LINES`.
const RESPONSES: &[&str] = &[
    "",
    "1 ok\n+ r alice a/1 phone\n",
    "{\"acts\":[[0,[\"do\",\"join\",1,\"r\",\"alice\",\"phone\"],[\"ok\",1]]],\
\"limits\":[100000,10000,1000000,10000],\"nodes\":[\"a\"],\"version\":2}\n",
    "line 4: BadNumber\n",
    "online a 1\n= r alice a/1 phone\n",
];

/// Whether the text is the responses to the first lines, perhaps to none, and whether it is the responses to all lines.
fn are_responses(heap: Global, text: &[u8], rt: &impl Abort) -> (bool, bool) {
    let mut printed = String::new(heap);
    let mut are_first = text.is_empty();
    let mut are_all = false;
    for response in RESPONSES {
        printed.push_str(response).expect(rt, "memory");
        are_all = text == printed.as_bytes();
        are_first = are_first || are_all;
    }
    (are_first, are_all)
}

/// Runs a prompt with request `number` for memory refused. Gives how it ends; whether there was such a request; and
/// whether what went out is the responses to the first lines, or to all lines if there was no such request.
fn responds_without(
    heap: Global,
    refusing: &Refusing<Global>,
    number: u64,
    rt: &impl Abort,
) -> (Result<(), PromptFault>, bool, bool) {
    refusing.refuse_only(number);
    let reader = FakeReader::ending(LINES.as_bytes());
    let mut reader = BufReader::new(heap, reader).expect(rt, "memory");
    let mut writer = FakeWriter::new(heap, 1_000);
    let limits = Limits::usual();
    let ended = step(heap, refusing, &mut reader, &mut writer, limits, HELP);
    let is_met = number <= refusing.requests();
    let (are_first, are_all) = are_responses(heap, writer.taken(), rt);
    drop(writer);
    drop(reader);
    (ended, is_met, are_first && (is_met || are_all))
}

#[test]
fn refused_memory_is_told_after_the_responses(rt: HostRuntime) {
    let heap = Refusing::new(rt.alloc());
    let mut count = 0u64;
    for number in 1..10_000 {
        let (ended, is_met, is_told) = responds_without(rt.alloc(), &heap, number, &rt);
        holds_at(&rt, is_told, number);
        if !is_met {
            assert!(rt; ended == Ok(()));
            break;
        }
        holds_at(
            &rt,
            ended == Ok(()) || ended == Err(PromptFault::OutOfMemory),
            number,
        );
        count = number;
    }
    assert!(rt; 20 <= count && count < 9_999);
}
