//! Why words choose nothing; what the program does if it can't write, or is refused memory; what it tells of long work;
//! a race; and with which status the program ends at each fault of a race but `OutOfMemory`. What words choose, what
//! the program prints and its other statuses are cases of `example_tests`.
use clap::error::ErrorKind;
use command_line::choice;
use program_core::{Host, ProgramFault, program, run};
use progress_core::FakeClock;
use script_core::{FakeReader, FakeWriter};
use std::alloc::{Allocator, Global};
use std::process::{Abort, Termination};
use std::sync::Wait;
use std::thread::Threads;
use test_alloc::Refusing;
use worker_core::RaceFault;

const JOINED: &str = "nodes a b\na join 1 r alice phone\na undo 1\n";

const REPORT: &str = "1 ok\n+ r alice a/1 phone\nundone 1\n- r alice a/1 phone\n";

/// The session of `JOINED`.
const SESSION: &str = "{\"acts\":[[0,[\"do\",\"join\",1,\"r\",\"alice\",\"phone\"],[\"ok\",1]],\
[0,[\"undo\",1],[\"undone\",1]]],\"limits\":[100000,10000,1000000,10000],\"nodes\":[\"a\",\"b\"],\"version\":2}\n";

/// Cases: words that choose nothing, and why.
const REFUSED: &[(&[&str], ErrorKind)] = &[
    (&[], ErrorKind::MissingSubcommand),
    (&["jump"], ErrorKind::InvalidSubcommand),
    (&["play", "--as", "x"], ErrorKind::InvalidValue),
    (&["load", "--as"], ErrorKind::InvalidValue),
    (&["draw", "--why", "x"], ErrorKind::InvalidValue),
    (&["step", "--as", "report"], ErrorKind::UnknownArgument),
    (&["explore", "--states", "x"], ErrorKind::InvalidValue),
    (&["explore", "--script", "-1"], ErrorKind::UnknownArgument),
    (&["explore", "--script="], ErrorKind::InvalidValue),
    (&["play", "--states", "7"], ErrorKind::UnknownArgument),
    (&["draw", "--from", "x"], ErrorKind::InvalidValue),
    (&["draw", "--to", "-"], ErrorKind::InvalidValue),
    (&["draw", "a"], ErrorKind::InvalidValue),
    (&["draw", "-", "r"], ErrorKind::InvalidValue),
    (
        &["draw", "a", "r", "alice", "x"],
        ErrorKind::UnknownArgument,
    ),
    (&["page", "x"], ErrorKind::UnknownArgument),
    (&["page", "--why", "1"], ErrorKind::UnknownArgument),
    (&["draw", "--script", "1"], ErrorKind::UnknownArgument),
    (&["draw", "--as", "session"], ErrorKind::UnknownArgument),
    (&["explore", "--as", "session"], ErrorKind::UnknownArgument),
    (&["explore", "--lost", "x"], ErrorKind::InvalidValue),
    (&["explore", "b", "--again="], ErrorKind::InvalidValue),
    (&["explore", "b", "lobby"], ErrorKind::InvalidValue),
    (
        &["explore", "b", "lobby", "alice", "x"],
        ErrorKind::UnknownArgument,
    ),
    (
        &["explain", "b", "lobby"],
        ErrorKind::MissingRequiredArgument,
    ),
    (
        &["explain", "b", "lobby", "alice", "x"],
        ErrorKind::UnknownArgument,
    ),
    (&["play", "x"], ErrorKind::UnknownArgument),
    (&["--as", "report"], ErrorKind::UnknownArgument),
    (&["--help"], ErrorKind::DisplayHelp),
    (&["--version"], ErrorKind::DisplayVersion),
];

#[test]
fn other_words_are_refused(rt: HostRuntime) {
    for (words, kind) in REFUSED {
        let refused = choice(rt.alloc(), words).err().expect(&rt, "a refusal");
        assert!(rt; refused.kind() == *kind);
    }
}

/// Runs the program. Gives its status, and the writers of its output and of its errors. `rooms` has how many bytes each
/// writer takes.
fn ended<T: Threads + Wait + Sync + Abort, B: Allocator + Sync>(
    heap: Global,
    alloc: &B,
    words: &[&str],
    reader: &mut FakeReader<'_>,
    rooms: [usize; 2],
    rt: &T,
) -> (u8, FakeWriter, FakeWriter) {
    let [room, errors_room] = rooms;
    let mut writer = FakeWriter::new(heap, room);
    let mut errors = FakeWriter::new(heap, errors_room);
    let clock = FakeClock::new(0);
    let host = Host {
        threads: rt,
        heap,
        alloc,
        clock: &clock,
    };
    let status = program(host, words, reader, &mut writer, &mut errors);
    (status, writer, errors)
}

/// Cases: words, an input, and the status if nothing can be written.
const UNWRITTEN: &[(&[&str], &str, u8)] = &[
    (&["play"], "nodes", 1),
    (&["jump"], "", 2),
    (&["play"], JOINED, 3),
    (&["load"], "", 1),
    (&["--help"], "", 3),
];

/// Whether the program ends with this status and has written nothing, if nothing can be written.
fn ends_unwritten<T: Threads + Wait + Sync + Abort>(
    heap: Global,
    words: &[&str],
    input: &str,
    expected: u8,
    rt: &T,
) -> bool {
    let mut reader = FakeReader::ending(input.as_bytes());
    let (status, writer, errors) = ended(heap, &heap, words, &mut reader, [0, 0], rt);
    let is_so = status == expected && writer.taken().is_empty() && errors.taken().is_empty();
    drop(errors);
    drop(writer);
    is_so
}

#[test]
fn a_status_stands_where_its_line_cannot_be_written(rt: HostRuntime) {
    for (words, input, status) in UNWRITTEN {
        assert!(rt; ends_unwritten(rt.alloc(), words, input, *status, &rt));
    }
}

/// Cases: words that are refused or ask for help, and the status.
const TOLD: &[(&[&str], u8)] = &[
    (&["jump"], 2),
    (&["play", "x"], 2),
    (&["--help"], 0),
    (&["play", "--help"], 0),
];

/// Whether the program ends with this status, reads no input, and prints a refusal of words (status 2) on its errors
/// alone, or help (status 0) on its output alone.
fn tells_words<T: Threads + Wait + Sync + Abort>(
    heap: Global,
    words: &[&str],
    expected: u8,
    rt: &T,
) -> bool {
    let mut reader = FakeReader::failing(b"");
    let rooms = [100_000, 100_000];
    let (status, writer, errors) = ended(heap, &heap, words, &mut reader, rooms, rt);
    let is_so = status == expected
        && writer.taken().is_empty() == (expected == 2)
        && errors.taken().is_empty() == (expected == 0);
    drop(errors);
    drop(writer);
    is_so && reader.calls() == 0
}

#[test]
fn refused_words_are_told_and_help_is_printed(rt: HostRuntime) {
    for (words, status) in TOLD {
        assert!(rt; tells_words(rt.alloc(), words, *status, &rt));
    }
}

/// Two nodes, and an unwind over both.
const UNWOUND: &str = "\
nodes a b
a join 1 r alice phone
a broadcast
b up a
b deliver a 1
why 1
a unwind 1
";

const UNWOUND_REPORT: &str = "\
1 ok
+ r alice a/1 phone
2 ok
3 ok
4 ok
+ r alice a/1 phone
future 4 2 1
undone 4
undone 2
undone 1
at a
- r alice a/1 phone
at b
- r alice a/1 phone
";

/// A session with a step of each kind, a delivery and an undo that are refused, and a back.
const EVERY_ACT: &str = concat!(
    r#"{"acts":[[0,["do","join",1,"r","alice","phone"],["ok",1]],"#,
    r#"[0,["do","join",1,"s","bob","desk"],["ok",2]],"#,
    r#"[0,["do","update",1,"r","alice","away"],["ok",3]],"#,
    r#"[1,["do","up",0],["ok",4]],"#,
    r#"[0,["do","broadcast"],["ok",5]],"#,
    r#"[1,["do","deliver",0,1],["ok",6]],"#,
    r#"[1,["do","deliver",0,7],["no",10]],"#,
    r#"[0,["do","leave",1,"r","alice"],["ok",7]],"#,
    r#"[0,["do","leaveall",1],["ok",8]],"#,
    r#"[0,["do","extract",[0,1]],["ok",9]],"#,
    r#"[1,["do","request"],["ok",10]],"#,
    r#"[0,["do","answer",1,1],["ok",11]],"#,
    r#"[1,["do","down",0],["ok",12]],"#,
    r#"[1,["do","permdown",0],["ok",13]],"#,
    r#"[2,["undo",1],["no",16,1,2]],"#,
    r#"[0,["back",1],["undone",13]]],"#,
    r#""limits":[100000,10000,1000000,10000],"nodes":["a","b"],"version":2}"#,
    "\n"
);

/// A session of one node, with one join.
const ALONE: &str = "{\"acts\":[[0,[\"do\",\"join\",1,\"r\",\"alice\",\"phone\"],[\"ok\",1]]],\
\"limits\":[10,10,10,10],\"nodes\":[\"a\"],\"version\":2}";

const ALONE_EXPLAINED: &str =
    "explain a r alice 1\nmade 1 a join 1 r alice phone\ndot a 1\nat a online\n";

const ALONE_DRAWN: &str = concat!(
    r#"<svg xmlns="http://www.w3.org/2000/svg" width="384" height="48" viewBox="0 0 384 48"><style>"#,
    r#"text{font:12px monospace;fill:black;white-space:pre}"#,
    r#"path{fill:none;stroke:black;stroke-width:1.2px}circle{fill:black;stroke:black}"#,
    r#".name,text.future{font-weight:bold}.number{text-anchor:end}.lane{stroke:#bbb}"#,
    r#".bar{stroke:#ffdc73;stroke-width:9px}.message{stroke:#6d87a5}path.future{stroke-width:3px}"#,
    r#"circle.future{stroke-width:5px}"#,
    r#".undone{opacity:.45;text-decoration:line-through;stroke-dasharray:4 3}.back{stroke-width:2px}"#,
    r#"text.back{fill:#555;stroke:none}circle.refused{fill:white;stroke:#c01818}"#,
    r#"text.refused{fill:#c01818}</style><rect width="100%" height="100%" fill="white"></rect>"#,
    r#"<text class="name" transform="translate(68 20)rotate(-90)">a</text>"#,
    r#"<svg y="28" width="384" height="20" viewBox="0 0 384 20"><path class="lane" d="M64 0V20">"#,
    r#"</path><text class="number" x="50" y="14">1</text><circle class="step" cx="64" cy="10" r="4">"#,
    r#"<title>a join 1 r alice phone"#,
    "\n",
    r#"1 ok"#,
    "\n",
    r#"+ r alice a/1 phone"#,
    "\n",
    r#"</title></circle><text class="step" x="120" y="14">a join 1 r alice phone  +r alice</text>"#,
    r#"</svg></svg>"#
);

/// A delivery that the network could have made before its sender was known. It would then have brought nothing.
const ONE_DELIVERY: &str =
    "nodes a b\na join 1 r alice phone\na broadcast\nb up a\nb deliver a 1\n";

const TOO_EARLY: &str = "nodes a b\na join 1 r alice phone\na broadcast\nb deliver a 1\nb up a\n";

const LOGGED: &str = concat!(
    r#"{"node":"a","event":"join","pid":1,"topic":"r","key":"alice","meta":"phone"}"#,
    "\n",
    r#"{"node":"b","event":"deliver","from":"a","message":2}"#,
    "\n",
    r#"{"node":"a","event":"broadcast","message":2}"#,
    "\n",
    r#"{"node":"b","event":"online","rows":[]}"#,
    "\n"
);

const LOGGED_SCRIPT: &str =
    "nodes a b\na join 0 r alice phone\na broadcast\nb deliver a 1\nshow b\n";

/// Cases: words, an input, and what the program prints for it.
const PRINTED: &[(&[&str], &str, &str)] = &[
    (&["play"], UNWOUND, UNWOUND_REPORT),
    (&["play", "--as", "session"], JOINED, SESSION),
    (&["race"], JOINED, REPORT),
    (&["race", "--as", "session"], JOINED, SESSION),
    (&["load"], SESSION, REPORT),
    (&["load", "--as", "session"], EVERY_ACT, EVERY_ACT),
    (&["explain", "a", "r", "alice"], ALONE, ALONE_EXPLAINED),
    (&["draw"], ALONE, ALONE_DRAWN),
    (&["explore", "b", "--script", "2"], ONE_DELIVERY, TOO_EARLY),
    (&["import"], LOGGED, LOGGED_SCRIPT),
    (
        &["import", "--check", "--lenient"],
        LOGGED,
        "agree 1 of 1\n",
    ),
];

/// Runs the program with request `number` for memory refused. It must print all and end with status 0; or, if there was
/// such a request, it may end early: print nothing, say that it was out of memory and end with status 4. Gives whether
/// there was such a request, and whether the program ended early.
fn refused<T: Threads + Wait + Sync + Abort>(
    rt: &T,
    global: Global,
    heap: &Refusing<Global>,
    case: (&[&str], &str, &str),
    number: u64,
) -> (bool, bool) {
    let (words, input, printed) = case;
    heap.refuse_only(number);
    let mut reader = FakeReader::ending(input.as_bytes());
    let (status, writer, errors) = ended(global, heap, words, &mut reader, [10_000, 1000], rt);
    let (out, told) = match status {
        0 => (printed, ""),
        _ => ("", "presence_bench: out of memory\n"),
    };
    let is_met = number <= heap.requests();
    let is_so = (status == 0 || is_met && status == 4)
        && writer.taken() == out.as_bytes()
        && errors.taken() == told.as_bytes();
    drop(errors);
    drop(writer);
    assert!(rt; is_so, "request {number}");
    (is_met, status == 4)
}

/// Runs the program with each request for memory refused in turn, and gives how often it ended early; 0 if it makes
/// 9,999 requests or more.
fn early_ends<T: Threads + Wait + Sync + Abort>(
    rt: &T,
    global: Global,
    heap: &Refusing<Global>,
    case: (&[&str], &str, &str),
) -> u64 {
    // form: saturating spares a requirement
    let mut ended_early = 0u64;
    for number in 1..10_000 {
        let (is_met, is_early) = refused(rt, global, heap, case, number);
        ended_early = ended_early.saturating_add(u64::from(is_early));
        if !is_met {
            return ended_early;
        }
    }
    0
}

#[test]
fn refused_memory_prints_nothing(rt: HostRuntime) {
    let heap = Refusing::new(rt.alloc());
    for case in PRINTED {
        assert!(rt; 10 <= early_ends(&rt, rt.alloc(), &heap, *case));
    }
}

/// An incident that has 79 single changes.
const PERMDOWN: &str = "nodes a b\n\
b up a\n\
a join 1 lobby alice phone\n\
a broadcast\n\
b deliver a 1\n\
a leave 1 lobby alice\n\
a broadcast\n\
b deliver a 2\n\
b down a\n\
b permdown a\n\
b up a\n\
b deliver a 1\n\
b deliver a 2\n";

/// Cases: by how many milliseconds the clock is later at each look, how many bytes the writer of the errors takes, and
/// what that writer got. The program looks at the clock once, and then at each sixteenth change.
const WORKED: &[(u64, usize, &str)] = &[
    (
        1000,
        1000,
        "presence_bench: 16 of 79 changes tried\npresence_bench: 32 of 79 changes tried\n\
presence_bench: 48 of 79 changes tried\npresence_bench: 64 of 79 changes tried\n",
    ),
    (
        500,
        1000,
        "presence_bench: 32 of 79 changes tried\npresence_bench: 64 of 79 changes tried\n",
    ),
    (0, 1000, ""),
    (1000, 20, "presence_bench: 16 o"),
];

/// Whether the program, asked for the changes of `PERMDOWN`, writes to its errors what the case says, and ends with
/// status 0.
fn tells_work<T: Threads + Wait + Sync + Abort>(
    heap: Global,
    worked: (u64, usize, &str),
    rt: &T,
) -> bool {
    let (step, room, told) = worked;
    let words = ["whatif", "b", "lobby", "alice"];
    let mut reader = FakeReader::ending(PERMDOWN.as_bytes());
    let mut writer = FakeWriter::new(heap, 10_000);
    let mut errors = FakeWriter::new(heap, room);
    let clock = FakeClock::new(step);
    let host = Host {
        threads: rt,
        heap,
        alloc: &heap,
        clock: &clock,
    };
    let status = program(host, &words, &mut reader, &mut writer, &mut errors);
    let is_so = status == 0 && errors.taken() == told.as_bytes();
    drop(errors);
    drop(writer);
    is_so
}

#[test]
fn long_work_tells_how_far_it_has_come(rt: HostRuntime) {
    for worked in WORKED {
        assert!(rt; tells_work(rt.alloc(), *worked, &rt));
    }
}

/// How many lines of the report tell of a step that was taken (they end with ` ok`) or of a refusal.
fn replies_of(report: &[u8]) -> usize {
    let report = str::from_utf8(report).unwrap_or("");
    let is_reply = |line: &&str| line.ends_with(" ok") || line.starts_with("no ");
    report.lines().filter(is_reply).count()
}

/// What the program writes to its output. The program must end with status 0, and write nothing to its errors.
pub(crate) fn printed<T: Threads + Wait + Sync + Abort>(
    heap: Global,
    words: &[&str],
    input: &[u8],
    rt: &T,
) -> FakeWriter {
    let mut reader = FakeReader::ending(input);
    let rooms = [100_000, 1000];
    let (status, writer, errors) = ended(heap, &heap, words, &mut reader, rooms, rt);
    let is_so = status == 0 && errors.taken().is_empty();
    drop(errors);
    assert!(rt; is_so);
    writer
}

/// A race asks the lines of two nodes in whatever order, and its session has an event for each line.
#[test]
fn a_race_is_saved_and_loads_again(rt: HostRuntime) {
    let script = b"nodes a b\na join 1 r alice phone\nb up a\na broadcast\nb deliver a 1\n";
    let saved = printed(rt.alloc(), &["race", "--as", "session"], script, &rt);
    let told = printed(rt.alloc(), &["load"], saved.taken(), &rt);
    let count = replies_of(told.taken());
    drop(told);
    drop(saved);
    assert!(rt; count == 4);
}

/// Cases: a fault of a race, the status, and the fault's text.
const RACE_FAULTS: &[(RaceFault, u8, &str)] = &[
    (RaceFault::UnknownActor, 1, "race: UnknownActor"),
    (RaceFault::NoRoom, 1, "race: NoRoom"),
    (RaceFault::WorkerRefused, 5, "race: WorkerRefused"),
    (RaceFault::LogsDisagree, 5, "race: LogsDisagree"),
];

#[test]
fn the_faults_of_a_race_have_their_status(rt: HostRuntime) {
    for (fault, status, line) in RACE_FAULTS {
        let fault = ProgramFault::Race(*fault);
        let mut text = String::new(rt.alloc());
        let is_told = write!(text, "{fault}").is_ok() && text.as_str() == *line;
        drop(text);
        assert!(rt; is_told && fault.status() == *status);
    }
}

/// `run` reads the words of the tests' own command line, which choose nothing: status 2.
#[test]
fn run_ends_with_the_status(rt: HostRuntime) {
    let code = run(&rt, &rt).report(&rt);
    let mut text = String::new(rt.alloc());
    assert!(rt; write!(text, "{code:?}").is_ok());
    assert!(rt; text.as_str() == "ExitCode(unix_exit_status(2))");
}
