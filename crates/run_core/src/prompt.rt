//! `Prompt`: takes the lines of a script one by one, each answered before the next is read.
ghost use Rattle.std.specs.Prelude.{◌≡◌, ◌≢◌, OnOk, IfErr, option_copied, option_map, string_bytes};
ghost use Rattle.grammar_core.specs.Results.{Gives};
ghost use Rattle.run_core.specs.Prompts.{asked, new_prompt, opened, taken};
ghost use Rattle.run_core.specs.Report.{commands_of};
ghost use Rattle.grammar_core.specs.Scripts.{plain_lines};
ghost use Rattle.grammar_core.specs.declared.fault.FaultKind.TheVariants.{OutOfMemory};

use crate::run;
use bench_core::{Bench, Limits, TextSet};
use dots_core::Oom;
use grammar_core::{Cast, FaultKind, Line, Reading, read_line};
use std::alloc::Allocator;
use std::marker::Model;
use std::mem::replace;

/// Who may act, and the bench. Both are `None` until the nodes are named. After that the bench is `None` only while
/// memory for it is refused.
#[derive(Drop)]
pub struct Prompt<'a, B: Allocator> {
    alloc: &'a B,
    limits: Limits,
    cast: Option<Cast<&'a B>>,
    bench: Option<Bench<'a, B>>,
}

impl<'a, B: Allocator> Model for Prompt<'a, B> {
    ghost use Rattle.run_core.specs.Prompts.{Prompt as Stage, prompt_code};
    ghost use Rattle.bench_core.specs.contracts.reply.Reply.{the_row as reply_row};

    ghost Value = { Stage };

    ghost coded = { prompt_code reply_row.coded };

    ghost view = { λ p. record { limits = p.limits; cast = p.cast; machine = p.bench } };
}

impl<'a, B: Allocator> Prompt<'a, B> {
    /// A prompt without nodes: the first line that has words and isn't a comment must name them.
    pub fn new(alloc: &'a B, limits: Limits) -> Prompt<'a, B>
        ensures { result ≡ new_prompt limits }
    {
        Prompt {
            alloc,
            limits,
            cast: None,
            bench: None,
        }
    }

    /// Drops the prompt. A crate that calls this needs no proof of how the parts of a prompt are dropped.
    pub fn discard(self) {
        let Prompt { cast, bench, .. } = self;
        drop(cast);
        if let Some(bench) = bench {
            bench.discard();
        }
    }

    /// The bench; `None` until the nodes are named, and while memory for it is refused.
    pub fn bench(&self) -> Option<&Bench<'a, B>>
        ensures { option_copied result ≡ self.now.machine }
    {
        self.bench.as_ref()
    }

    /// The names of the consoles: empty before a `consoles` line, and `None` until the nodes are named.
    pub fn consoles(&self) -> Option<&TextSet<&'a B>>
        ensures { option_copied result ≡ option_map (λ cast. cast.consoles) self.now.cast }
    {
        match &self.cast {
            Some(cast) => Some(cast.consoles()),
            None => None,
        }
    }

    /// Opens the bench, if the nodes are named and the bench isn't open yet.
    fn open(&mut self) -> Result<(), Oom>
        ensures { OnOk result (self.new ≡ record self.old { machine = opened self.old.limits self.old.cast self.old.machine }) }
    {
        if self.bench.is_some() {
            return Ok(());
        }
        let Some(cast) = &self.cast else {
            return Ok(());
        };
        let names = cast.nodes().try_copy()?;
        let bench = Bench::new(self.alloc, names, self.limits)?;
        // form: an assignment would drop the old value field by field
        if let Some(old) = self.bench.replace(bench) {
            old.discard();
        }
        Ok(())
    }

    /// Carries out these lines on the bench, if it is open, and appends what they print.
    fn ask(&mut self, text: &mut String<&'a B>, lines: &[Line<&'a B>]) -> Result<(), Oom>
        ensures { OnOk result ((self.new, string_bytes text.new) ≡
            asked self.old.limits self.old.cast self.old.machine (string_bytes text.old) (commands_of (plain_lines lines.now))) }
    {
        match &mut self.bench {
            Some(bench) => run::lines(text, bench, lines, self.alloc),
            None => Ok(()),
        }
    }

    /// Opens the bench, if the nodes are named, carries out these lines on it, and appends what they print.
    fn obey(&mut self, text: &mut String<&'a B>, lines: &[Line<&'a B>]) -> Result<(), Oom>
        ensures { OnOk result ((self.new, string_bytes text.new) ≡
            asked self.old.limits self.old.cast (opened self.old.limits self.old.cast self.old.machine) (string_bytes text.old)
            (commands_of (plain_lines lines.now))) }
    {
        self.open()?;
        self.ask(text, lines)
    }

    /// Reads a line, does what it asks, and appends what the line prints; or gives the line's fault. A fault other than
    /// `OutOfMemory` changes nothing.
    #[tactic(auto, unfolding(crate::specs::Prompts::taken))]
    pub fn take(&mut self, text: &mut String<&'a B>, line: &[u8]) -> Result<(), FaultKind>
        ensures taken { Gives (λ _. (self.new, string_bytes text.new)) result (taken self.old (string_bytes text.old) line.now) }
        ensures unchanged { IfErr result (λ kind. kind ≢ OutOfMemory → self.new ≡ self.old) }
        ensures unprinted { IfErr result (λ kind. kind ≢ OutOfMemory → string_bytes text.new ≡ string_bytes text.old) }
    {
        // form: taken out for the edit, and put back
        let mut reading = Reading {
            cast: self.cast.take(),
            lines: Vec::new(self.alloc),
        };
        // 0: the number of the line isn't used
        let read = read_line(self.alloc, &mut reading, 0, line);
        let Reading { cast, lines } = reading;
        // form: an assignment would drop the old value field by field
        drop(replace(&mut self.cast, cast));
        match read {
            Ok(()) => {
                let obeyed = self.obey(text, &lines);
                // form: drop before exit
                drop(lines);
                Ok(obeyed?)
            }
            Err(kind) => {
                drop(lines);
                Err(kind)
            }
        }
    }
}
