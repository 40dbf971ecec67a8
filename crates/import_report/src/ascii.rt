//! JSON in ASCII: each character that is neither a visible byte nor a space is escaped.
ghost use Rattle.std.specs.Prelude.{◌≡◌, ◌++◌, ◌∷◌, [], ◌<◌, IfOk, OnOk, string_bytes};
ghost use Rattle.std.specs.Char.{digit_char};
ghost use Rattle.import_report.specs.Ascii.{ascii_char, ascii_text, escaped_char, escaped_unit, string_char, string_text};

use dots_core::Oom;
use std::alloc::Allocator;

/// Appends `c`, which must be ASCII.
fn put_ascii<A: Allocator>(text: &mut String<A>, c: char) -> Result<(), Oom>
    requires { c < 128 }
    ensures { OnOk result (string_bytes text.new ≡ string_bytes text.old ++ c ∷ []) }
{
    Ok(text.push(c)?)
}

/// Appends `value`, which must be below 16, as a hexadecimal digit in lower case.
fn put_digit<A: Allocator>(text: &mut String<A>, value: u32) -> Result<(), Oom>
    requires { value < 16 }
    ensures { OnOk result (string_bytes text.new ≡ string_bytes text.old ++ digit_char value ∷ []) }
{
    put_ascii(text, char::from_digit(value, 16).unwrap())
}

/// Appends a unit of UTF-16, as in `\u00e9`.
#[tactic(auto, unfolding(crate::specs::Ascii::escaped_unit))]
fn put_unit<A: Allocator>(text: &mut String<A>, unit: u32) -> Result<(), Oom>
    ensures { OnOk result (string_bytes text.new ≡ string_bytes text.old ++ escaped_unit unit) }
{
    text.push_str("\\u")?;
    put_digit(text, unit / 4096 % 16)?;
    put_digit(text, unit / 256 % 16)?;
    put_digit(text, unit / 16 % 16)?;
    put_digit(text, unit % 16)
}

/// Appends a character as an escape such as `\u00e9` for each of its one or two units in UTF-16.
#[tactic(auto, unfolding(crate::specs::Ascii::escaped_char))]
fn put_escaped<A: Allocator>(text: &mut String<A>, c: char) -> Result<(), Oom>
    ensures { OnOk result (string_bytes text.new ≡ string_bytes text.old ++ escaped_char c) }
{
    let c = c as u32;
    if c < 0x10000 {
        return put_unit(text, c);
    }
    put_unit(text, 0xD800 + (c - 0x10000) / 0x400)?;
    put_unit(text, 0xDC00 + (c - 0x10000) % 0x400)
}

/// Appends a character: a visible byte or a space unescaped, any other character as an escape.
#[tactic(auto, unfolding(crate::specs::Ascii::ascii_char))]
fn put_char<A: Allocator>(text: &mut String<A>, c: char) -> Result<(), Oom>
    ensures { OnOk result (string_bytes text.new ≡ string_bytes text.old ++ ascii_char c) }
{
    if c >= ' ' && c <= '~' {
        return put_ascii(text, c);
    }
    put_escaped(text, c)
}

/// Appends a character of a string: a quotation mark or a backslash with a `\` before it, any other character as
/// `put_char` does.
#[tactic(auto, unfolding(crate::specs::Ascii::string_char))]
fn put_string_char<A: Allocator>(text: &mut String<A>, c: char) -> Result<(), Oom>
    ensures { OnOk result (string_bytes text.new ≡ string_bytes text.old ++ string_char c) }
{
    if c == '"' || c == '\\' {
        text.push_str("\\")?;
        return put_ascii(text, c);
    }
    put_char(text, c)
}

/// This JSON text, with each character escaped that is neither a visible byte nor a space.
pub(crate) fn ascii_text<A: Allocator>(alloc: A, json: &str) -> Result<String<A>, Oom>
    ensures { IfOk result (λ s. string_bytes s ≡ ascii_text json.now) }
{
    let mut text = String::new(alloc);
    for c in json.chars() {
        put_char(&mut text, c)?;
    }
    Ok(text)
}

/// `string` as the inside of a JSON string in ASCII, without the quotation marks around it.
pub(crate) fn string_text<A: Allocator>(alloc: A, string: &str) -> Result<String<A>, Oom>
    ensures { IfOk result (λ s. string_bytes s ≡ string_text string.now) }
{
    let mut text = String::new(alloc);
    for c in string.chars() {
        put_string_char(&mut text, c)?;
    }
    Ok(text)
}
