//! Reads a script from its bytes, or finds its first fault.
ghost use Rattle.std.specs.Prelude.{◌≡◌, ◌<◌, Err, length, map, IfErr, IsTrue};
ghost use Rattle.std.specs.List.{list_all};
ghost use Rattle.grammar_core.specs.Results.{Gives, GivesScript};
ghost use Rattle.grammar_core.specs.Grammar.{longest_script, with_words, with_words_by, with_line, script_of};
ghost use Rattle.grammar_core.specs.Readings.{reading_view};
ghost use Rattle.grammar_core.specs.Scripts.{plain_script};
ghost use Rattle.grammar_core.specs.Words.{is_visible};
ghost use Rattle.grammar_core.specs.declared.fault.FaultKind.TheVariants.{TooLong};

use crate::cast::{Cast, add_consoles, opening};
use crate::command::command_of;
use crate::fault::{FaultKind, ScriptFault};
use crate::script::{Line, Script};
use crate::words::{first_line, put_words};
use smallvec::SmallVec;
use std::alloc::Allocator;

/// The most bytes that a script may have.
pub const LONGEST_SCRIPT: usize = 1_048_576;

/// The most bytes that a line may have, without its line feed.
pub const LONGEST_LINE: usize = 4096;

/// A script as far as it was read: `cast` says who may act, and is `None` until the `nodes` line was read; `lines` has
/// the commands.
#[derive(Drop)]
pub struct Reading<A: Allocator> {
    pub cast: Option<Cast<A>>,
    pub lines: Vec<Line<A>, A>,
}

/// Reads a significant line, which has words and isn't a comment, into `reading`: `first` is its first word, `rest` the
/// words behind that one. A fault leaves `reading` unchanged.
#[tactic(auto, unfolding(crate::specs::Grammar::with_words_by))]
fn read_significant<A: Allocator + Copy>(
    alloc: A,
    reading: &mut Reading<A>,
    number: u64,
    first: &str,
    rest: &[&str],
) -> Result<(), FaultKind>
    requires { IsTrue (list_all is_visible (map (λ word. word.now) rest.now)) }
    ensures gives { Gives (λ _. reading_view reading.new) result
        (with_words_by (reading_view reading.old).cast (reading_view reading.old).lines number first.now (map (λ word. word.now) rest.now)) }
    ensures unchanged { IfErr result (λ _. reading_view reading.new ≡ reading_view reading.old) }
{
    let Some(cast) = &mut reading.cast else {
        // form: an assignment would drop the old value field by field
        drop(reading.cast.replace(opening(alloc, first, rest)?));
        return Ok(());
    };
    if first == "consoles" {
        return add_consoles(alloc, cast, rest);
    }
    let command = command_of(alloc, cast, first, rest)?;
    reading.lines.push(Line { number, command })?;
    Ok(())
}

/// Reads the line with these words into `reading`. Skips a comment, and a line without words. A fault leaves `reading`
/// unchanged.
#[tactic(auto, unfolding(crate::specs::Grammar::with_words))]
fn read_words<A: Allocator + Copy>(
    alloc: A,
    reading: &mut Reading<A>,
    number: u64,
    words: &[&str],
) -> Result<(), FaultKind>
    requires { IsTrue (list_all is_visible (map (λ word. word.now) words.now)) }
    ensures gives { Gives (λ _. reading_view reading.new) result (with_words (reading_view reading.old) number (map (λ word. word.now) words.now)) }
    ensures unchanged { IfErr result (λ _. reading_view reading.new ≡ reading_view reading.old) }
{
    let [first, rest @ ..] = words else {
        return Ok(());
    };
    if first.starts_with('#') {
        return Ok(());
    }
    read_significant(alloc, reading, number, first, rest)
}

/// Reads `line`, the line with this number, into `reading`. `TooLong` if the line has more than `LONGEST_LINE` bytes,
/// then `NotText`, then the fault of its words. A fault leaves `reading` unchanged.
#[tactic(auto, unfolding(crate::specs::Grammar::with_line))]
pub fn read_line<A: Allocator + Copy>(
    alloc: A,
    reading: &mut Reading<A>,
    number: u64,
    line: &[u8],
) -> Result<(), FaultKind>
    ensures gives { Gives (λ _. reading_view reading.new) result (with_line (reading_view reading.old) number line.now) }
    ensures unchanged { IfErr result (λ _. reading_view reading.new ≡ reading_view reading.old) }
{
    if line.len() > LONGEST_LINE {
        return Err(FaultKind::TooLong);
    }
    let mut words = SmallVec::new(&alloc);
    put_words(&mut words, line)?;
    read_words(alloc, reading, number, &words)
}

/// The script that the bytes spell, or its first fault. At line 0 stand `TooLong` for more than `LONGEST_SCRIPT` bytes,
/// which comes before all other faults, `NoNodes` if each line is a comment or has no words, and `OutOfMemory`.
#[tactic(auto, unfolding(crate::specs::Grammar::script_of, crate::specs::Grammar::with_lines))]
pub fn parse_script<A: Allocator + Copy>(alloc: A, bytes: &[u8]) -> Result<Script<A>, ScriptFault>
    ensures gives { GivesScript plain_script result (script_of bytes.now) }
    ensures long { longest_script < length bytes.now → result ≡ Err (record { line = 0; kind = TooLong }) }
{
    if bytes.len() > LONGEST_SCRIPT {
        return Err(ScriptFault {
            line: 0,
            kind: FaultKind::TooLong,
        });
    }
    let mut reading = Reading {
        cast: None,
        lines: Vec::new(alloc),
    };
    let mut number = 1;
    let mut left = Some(bytes);
    while let Some(rest) = left {
        let (line, behind) = first_line(rest);
        if let Err(kind) = read_line(alloc, &mut reading, number, line) {
            // form: drop before exit
            drop(reading);
            return Err(ScriptFault::at(number, kind));
        }
        number += 1;
        left = behind;
    }
    let Reading { cast, lines } = reading;
    match cast {
        Some(cast) => Ok(Script { cast, lines }),
        None => Err(ScriptFault {
            line: 0,
            kind: FaultKind::NoNodes,
        }),
    }
}
