//! Compact JSON, read off the front of a text where it stands: whole numbers and strings.
ghost use Rattle.std.specs.Prelude.{◌≡◌, ◌++◌, IfOk, IfSome, not, position, string_bytes, true};
ghost use Rattle.std.specs.List.{list_all};
ghost use Rattle.serde_json.specs.Data.{number, string, unsigned};
ghost use Rattle.json_core.specs.Compact.{IsFront, IsRun, is_plain};

use crate::unread::Unread;

fn after<'t>(text: &'t str, front: &str) -> Option<&'t str>
    ensures { IfSome result (λ rest. text.now ≡ front.now ++ rest.now) }
{
    text.strip_prefix(front)
}

fn whole_at(text: &str) -> Option<(u64, &str)>
    ensures { IfSome result (λ front. IsFront text.now (number (unsigned front.0)) front.1.now) }
{
    let end = text
        .bytes()
        .position(|byte| !byte.is_ascii_digit())
        .unwrap_or(text.len());
    let (digits, rest) = text.split_at_checked(end)?;
    let first = *digits.as_bytes().first()?;
    if first == b'+' || (first == b'0' && digits.len() > 1) {
        return None;
    }
    let whole = digits.parse::<u64>().ok()?;
    Some((whole, rest))
}

/// Whether the byte stands in a JSON string as it is.
fn is_plain_byte(byte: u8) -> bool
    ensures { result ≡ is_plain byte }
{
    byte >= b' ' && byte != b'"' && byte != b'\\'
}

/// How many bytes stand before the first that doesn't stand in a JSON string as it is.
fn plain_length(bytes: &[u8]) -> Option<usize>
    ensures { result ≡ position (λ byte. not (is_plain byte)) bytes.now }
{
    bytes.iter().position(|byte| !is_plain_byte(*byte))
}

/// The bytes that the text begins with and that stand in a JSON string as they are, and what follows them.
fn plain_run(text: &str) -> Option<(&str, &str)>
    ensures parts { IfSome result (λ parts. text.now ≡ parts.0.now ++ parts.1.now) }
    ensures plain { IfSome result (λ parts. list_all is_plain parts.0.now ≡ true) }
{
    let (run, rest) = text.split_at_checked(plain_length(text.as_bytes())?)?;
    Some((run, rest))
}

fn plain_at(text: &str) -> Option<(&str, &str)>
    ensures { IfSome result (λ front. IsFront text.now (string front.0.now) front.1.now) }
{
    let (string, quote) = plain_run(after(text, "\"")?)?;
    let rest = after(quote, "\"")?;
    Some((string, rest))
}

/// What follows `front` in the text; `Shape` if the text doesn't begin with it.
pub fn behind<'t>(text: &'t str, front: &str) -> Result<&'t str, Unread>
    ensures { IfOk result (λ rest. text.now ≡ front.now ++ rest.now) }
{
    after(text, front).ok_or(Unread::Shape)
}

/// The whole number that the text begins with, and what follows it. `Shape` unless digits stand there as a number below
/// 2^64 is written: no zero stands before other digits.
pub fn whole_front(text: &str) -> Result<(u64, &str), Unread>
    ensures { IfOk result (λ front. IsFront text.now (number (unsigned front.0)) front.1.now) }
{
    whole_at(text).ok_or(Unread::Shape)
}

/// The string that the text begins with, without its quotes, and what follows them. `Shape` unless a string stands there
/// that has no escapes and needs none.
pub fn plain_front(text: &str) -> Result<(&str, &str), Unread>
    ensures { IfOk result (λ front. IsFront text.now (string front.0.now) front.1.now) }
{
    plain_at(text).ok_or(Unread::Shape)
}

/// Appends to `read` what the text begins with inside a string, and gives what follows: a quote or a backslash that is
/// escaped, or the bytes before the next one that doesn't stand there as it is. `Shape` if no such byte comes first.
fn run_front<'t>(read: &mut String, text: &'t str) -> Result<&'t str, Unread>
    ensures { IfOk result (λ rest. IsRun text.now (string_bytes read.old) (string_bytes read.new) rest.now) }
{
    if let Some(rest) = after(text, "\\\"") {
        read.push('"')?;
        return Ok(rest);
    }
    if let Some(rest) = after(text, "\\\\") {
        read.push('\\')?;
        return Ok(rest);
    }
    let Some((run, rest)) = plain_run(text) else {
        return Err(Unread::Shape);
    };
    if run.is_empty() {
        return Err(Unread::Shape);
    }
    read.push_str(run)?;
    Ok(rest)
}

/// Reads the string that the text begins with into `read`, without quotes and escapes, and gives what follows the
/// string. `Shape` unless a string stands there whose escapes are those of quotes and backslashes alone, and which needs
/// no others.
pub fn string_front<'t>(read: &mut String, text: &'t str) -> Result<&'t str, Unread>
    ensures { IfOk result (λ rest. IsFront text.now (string (string_bytes read.new)) rest.now) }
{
    read.clear();
    let mut rest = behind(text, "\"")?;
    // form: the proof names the loop
    'runs: while !rest.starts_with('"') {
        rest = run_front(read, rest)?;
    }
    behind(rest, "\"")
}
