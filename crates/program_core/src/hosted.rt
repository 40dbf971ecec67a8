//! `run`: the program on the runtime's words and standard streams.
ghost use Rattle.std.specs.Prelude.{◌≡◌, ℕ};
ghost use Rattle.std.specs.Process.{exit_status};

use crate::host::{Host, Setting};
use crate::status::{program_within, tell_out_of_memory};
use bench_core::Limits;
use std::io::{IsTerminal, Write};
use std::marker::Model;
use std::process::{ExitCode, Termination};
use std::sync::Wait;
use std::thread::Threads;
use std::{env, io};

/// How the program ended; a contract sees the status. Only `run` makes an `Ended`, so a `main` that returns one has run
/// the program, and exits with its status.
#[derive(Drop, Debug)]
pub struct Ended {
    status: u8,
}

impl Model for Ended {
    ghost Value = { ℕ };

    ghost view = { λ e. e.status };
}

impl Termination for Ended {
    fn report<R: io::Eprint>(self, _rt: &R) -> ExitCode
        ensures status { exit_status result ≡ self }
    {
        ExitCode::from(self.status)
    }
}

/// Does what the words after the program's name ask for, on the runtime's streams, and gives the status. A race takes
/// its threads from `threads`.
pub fn run<T: Threads + Wait + Sync>(rt: &HostRuntime, threads: &T) -> Ended {
    Ended {
        status: status(rt, threads),
    }
}

/// Runs the program on the runtime's words and streams, and gives its status. If the words can't be read, it prints why
/// instead, and gives 2, or 4 if memory was refused.
fn status<T: Threads + Wait + Sync>(rt: &HostRuntime, threads: &T) -> u8 {
    let mut errors = rt.stderr();
    let words = match env::args(rt) {
        Ok(words) => words,
        Err(fault) if fault.kind() == io::ErrorKind::OutOfMemory => {
            return tell_out_of_memory(&mut errors);
        }
        Err(_) => {
            let _ = writeln!(errors, "error: a word is no text");
            return 2;
        }
    };
    let Ok(words) = words.skip(1).collect::<Vec<String>>(rt.alloc()) else {
        return tell_out_of_memory(&mut errors);
    };
    let terminal = rt.stdin().is_terminal();
    let mut output = io::writer(rt);
    let heap = rt.alloc();
    let setting = Setting {
        host: Host {
            threads,
            heap,
            alloc: &heap,
            clock: rt,
        },
        limits: Limits::usual(),
        terminal,
    };
    program_within(&setting, &words, &mut rt.reader(), &mut output, &mut errors)
}
