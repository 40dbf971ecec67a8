//! `Hint`: what to say about a fault, and its text. In the functions that append, `line` is the hint, and not the line
//! with the fault.
ghost use Rattle.std.specs.Prelude.{◌≡◌, ◌++◌, ◌<◌, OnOk, IfOk, length, take, decimal, option_map};
ghost use Rattle.hint_core.specs.Hints.{longest_shown, shown, byte_body, letter_tail, body, line_of, plain_hint};
ghost use Rattle.hint_core.specs.Choices.{about};

use dots_core::Oom;
use std::alloc::Allocator;

/// The most bytes that are shown of a word.
const LONGEST_SHOWN: usize = 32;

/// What to say about a fault.
#[derive(Clone, Copy)]
pub enum Hint<'l> {
    /// A text alone.
    Plain(&'static str),
    /// A word of the line with the fault, between two texts.
    About {
        before: &'static str,
        word: &'l str,
        after: &'static str,
    },
    /// The byte at `place`, counted from 1, of the line with the fault, and a text behind it.
    Byte {
        place: usize,
        byte: u8,
        after: &'static str,
    },
    /// A word that isn't a name, because of its byte at `place`, counted from 1.
    Letter {
        word: &'l str,
        place: usize,
    },
}

/// A hint about a word, between two texts; `None` if the word is empty.
pub(crate) fn about<'l>(
    before: &'static str,
    word: &'l str,
    after: &'static str,
) -> Option<Hint<'l>>
    ensures { option_map plain_hint result ≡ about before.now word.now after.now }
{
    if word.is_empty() {
        return None;
    }
    Some(Hint::About {
        before,
        word,
        after,
    })
}

fn put_text<A: Allocator>(line: &mut Vec<u8, A>, text: &str) -> Result<(), Oom>
    ensures { OnOk result (line.new.items ≡ line.old.items ++ text.now) }
{
    line.extend_from_slice(text.as_bytes())
}

/// The first `LONGEST_SHOWN` bytes of a word, which must have more.
fn beginning(word: &str) -> &[u8]
    requires { longest_shown < length word.now }
    ensures { result.now ≡ take longest_shown word.now }
{
    &word.as_bytes()[..LONGEST_SHOWN]
}

/// Appends a word in backquotes. Of a word with more than `LONGEST_SHOWN` bytes it appends that many and two dots.
fn put_word<A: Allocator>(line: &mut Vec<u8, A>, word: &str) -> Result<(), Oom>
    ensures { OnOk result (line.new.items ≡ line.old.items ++ shown word.now) }
{
    put_text(line, "`")?;
    if word.len() <= LONGEST_SHOWN {
        put_text(line, word)?;
        return put_text(line, "`");
    }
    line.extend_from_slice(beginning(word))?;
    put_text(line, "..`")
}

fn put_about<A: Allocator>(
    line: &mut Vec<u8, A>,
    before: &str,
    word: &str,
    after: &str,
) -> Result<(), Oom>
    ensures { OnOk result (line.new.items ≡ line.old.items ++ (before.now ++ shown word.now ++ after.now)) }
{
    put_text(line, before)?;
    put_word(line, word)?;
    put_text(line, after)
}

fn put_number<A: Allocator + Copy>(
    alloc: A,
    line: &mut Vec<u8, A>,
    number: usize,
) -> Result<(), Oom>
    ensures { OnOk result (line.new.items ≡ line.old.items ++ decimal number) }
{
    let text = format!(in alloc; "{number}")?;
    put_text(line, &text)
}

/// Appends a number between two texts.
fn put_numbered<A: Allocator + Copy>(
    alloc: A,
    line: &mut Vec<u8, A>,
    before: &str,
    number: usize,
    after: &str,
) -> Result<(), Oom>
    ensures { OnOk result (line.new.items ≡ line.old.items ++ (before.now ++ decimal number ++ after.now)) }
{
    put_text(line, before)?;
    put_number(alloc, line, number)?;
    put_text(line, after)
}

/// Appends `byte PLACE of the line is BYTE`, with `place` and `byte` as numbers, and the text `after`. `place` is
/// counted from 1 in the line with the fault.
fn put_byte<A: Allocator + Copy>(
    alloc: A,
    line: &mut Vec<u8, A>,
    place: usize,
    byte: u8,
    after: &str,
) -> Result<(), Oom>
    ensures { OnOk result (line.new.items ≡ line.old.items ++ byte_body place byte after.now) }
{
    put_numbered(alloc, line, "byte ", place, " of the line is ")?;
    put_numbered(alloc, line, "", byte as usize, after)
}

/// Appends that `word` isn't a name, because of its byte at `place`, counted from 1.
fn put_letter<A: Allocator + Copy>(
    alloc: A,
    line: &mut Vec<u8, A>,
    word: &str,
    place: usize,
) -> Result<(), Oom>
    ensures { OnOk result (line.new.items ≡ line.old.items ++ (shown word.now ++ letter_tail place)) }
{
    put_word(line, word)?;
    put_numbered(
        alloc,
        line,
        " is no name: byte ",
        place,
        " of it is none of a-z, 0-9 and _",
    )
}

/// Appends the text of a hint, without `hint: ` before it and the line feed behind it.
fn put_body<A: Allocator + Copy>(alloc: A, line: &mut Vec<u8, A>, hint: Hint<'_>) -> Result<(), Oom>
    ensures { OnOk result (line.new.items ≡ line.old.items ++ body (plain_hint hint.entry)) }
{
    match hint {
        Hint::Plain(text) => put_text(line, text),
        Hint::About {
            before,
            word,
            after,
        } => put_about(line, before, word, after),
        Hint::Byte { place, byte, after } => put_byte(alloc, line, place, byte, after),
        Hint::Letter { word, place } => put_letter(alloc, line, word, place),
    }
}

/// The line of a hint: `hint: `, its text and a line feed.
#[tactic(auto, unfolding(crate::specs::Hints::line_of))]
pub(crate) fn line_of<A: Allocator + Copy>(alloc: A, hint: Hint<'_>) -> Result<Vec<u8, A>, Oom>
    ensures { IfOk result (λ line. line.items ≡ line_of (plain_hint hint.entry)) }
{
    let mut line = Vec::new(alloc);
    put_text(&mut line, "hint: ")?;
    put_body(alloc, &mut line, hint)?;
    put_text(&mut line, "\n")?;
    Ok(line)
}
