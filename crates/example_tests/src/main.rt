//! Runs the cases of `data/cases/`: gives the program (`presence_bench`) words and streams, and compares its output,
//! its errors and its status with what each case says. Given a file, `example_tests` prints the report of the script in
//! that file.
//!
//! The crate stands on `program_core` (the program), `script_core` (a script's report, and streams for tests),
//! `progress_core` (a clock for tests) and `bench_core` (limits). `data/README.md` has the form of a case. The modules
//! in reading order: `case`, what a case has; `reading`, what a line of a file gives its case; `running`, whether a
//! case comes out as it says; here, all cases.
#![tactic(auto)]

mod case;
mod reading;
mod running;

use crate::case::Case;
use crate::reading::read_line;
use crate::running::comes_out;
use bench_core::Limits;
use script_core::{FakeReader, play};
use std::process::ExitCode;
use std::sync::Wait;
use std::thread::Threads;
use std::{env, fs, io};

/// The file with the names of the files of cases, a line each, without their ending `.cases`.
const FILES: &str = "cases/files";

/// How many cases were run, and how many of them didn't come out as they say.
#[derive(Drop)]
struct Counts {
    all: u64,
    differing: u64,
}

impl Counts {
    fn new() -> Counts {
        Counts {
            all: 0,
            differing: 0,
        }
    }

    /// Runs the case and counts it; does nothing before the first case of a file.
    fn run<T: Threads + Wait + Sync>(
        &mut self,
        rt: &HostRuntime,
        threads: &T,
        file: &str,
        case: &Case,
    ) -> io::Result<()> {
        if case.line == 0 {
            return Ok(());
        }
        // form: saturating spares a requirement
        self.all = self.all.saturating_add(1);
        if !comes_out(rt, threads, file, case)? {
            self.differing = self.differing.saturating_add(1);
        }
        Ok(())
    }

    fn add(&mut self, counts: &Counts) {
        // form: saturating spares a requirement
        self.all = self.all.saturating_add(counts.all);
        self.differing = self.differing.saturating_add(counts.differing);
    }
}

/// Reads a line of a file into `case`. If that fails, prints where the line stands, and gives the error.
fn take_line(
    rt: &HostRuntime,
    case: &mut Case,
    file: &str,
    number: u64,
    line: &str,
) -> io::Result<()> {
    let taken = read_line(rt, case, line);
    if taken.is_err() {
        eprintln!(rt; "cases/{file}.cases:{number}: not a line of a case")?;
    }
    taken
}

/// Runs the cases of a file, and prints how many there are. Gives how many there are, and how many differ.
fn run_file<T: Threads + Wait + Sync>(
    rt: &HostRuntime,
    threads: &T,
    file: &str,
) -> io::Result<Counts> {
    let path = format!(in rt.alloc(); "cases/{file}.cases")?;
    let text = fs::read_to_string(rt, path.as_str())?;
    let mut counts = Counts::new();
    let mut case = Case::new(rt.alloc());
    let mut number = 0u64;
    for line in text.lines() {
        // form: saturating spares a requirement
        number = number.saturating_add(1);
        if line == "$" || line.starts_with("$ ") {
            counts.run(rt, threads, file, &case)?;
            case.begin(number);
        }
        take_line(rt, &mut case, file, number, line)?;
    }
    counts.run(rt, threads, file, &case)?;
    println!(rt; "{file}: {}", counts.all)?;
    Ok(counts)
}

/// Runs the cases of all files, prints how many there are and how many differ, and says whether none does.
fn run_files<T: Threads + Wait + Sync>(rt: &HostRuntime, threads: &T) -> io::Result<bool> {
    let files = fs::read_to_string(rt, FILES)?;
    let mut counts = Counts::new();
    for file in files.lines() {
        counts.add(&run_file(rt, threads, file)?);
    }
    println!(rt; "{} cases, {} differ", counts.all, counts.differing)?;
    Ok(counts.differing == 0)
}

/// Plays the script in this file and prints its report. Says whether the whole report was printed, but not which fault
/// came in the way.
fn prints(rt: &HostRuntime, path: &str) -> io::Result<bool> {
    let script = fs::read(rt, path)?;
    let mut reader = FakeReader::ending(&script);
    let mut output = io::writer(rt);
    let played = play(&rt.alloc(), &mut reader, &mut output, Limits::usual());
    Ok(played.is_ok())
}

/// Prints the report of the script in the file that the first word of the command line names, or runs all cases if
/// there is no word. Says whether the whole report was printed, or whether no case differs.
fn ends_well<T: Threads + Wait + Sync>(rt: &HostRuntime, threads: &T) -> io::Result<bool> {
    let mut words = env::args(rt)?.skip(1);
    match words.next() {
        Some(path) => prints(rt, &path),
        None => run_files(rt, threads),
    }
}

fn main(rt: HostRuntime) -> ExitCode {
    match ends_well(&rt, &rt) {
        Ok(true) => ExitCode::SUCCESS,
        Ok(false) => ExitCode::from(1),
        Err(fault) => {
            let _ = eprintln!(rt; "example_tests: {fault}");
            ExitCode::from(1)
        }
    }
}
