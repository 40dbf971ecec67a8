//! Writes JSON in which no `<` stands.
ghost use Rattle.std.specs.Prelude.{◌≡◌, ◌++◌, ◌∷◌, ◌<◌, [], OnOk, string_bytes};
ghost use Rattle.std.specs.Char.{digit_char};
ghost use Rattle.page_data.specs.Json.{comma_at, escaped_byte, more_numbers, number_key, number_key_if, numbers_key, numbers_text, string_char, string_chars, string_text, text_key};

use dots_core::Oom;
use std::alloc::Allocator;

/// Appends `value`, which must be below 16, as a hexadecimal digit in lower case.
fn put_digit<A: Allocator>(text: &mut String<A>, value: u32) -> Result<(), Oom>
    requires { value < 16 }
    ensures { OnOk result (string_bytes text.new ≡ string_bytes text.old ++ digit_char value ∷ []) }
{
    Ok(text.push(char::from_digit(value, 16).unwrap())?)
}

/// Appends the escape of a byte by its number, such as `\u003c`.
#[tactic(auto, unfolding(crate::specs::Json::escaped_byte))]
fn put_escaped<A: Allocator>(text: &mut String<A>, byte: u32) -> Result<(), Oom>
    ensures { OnOk result (string_bytes text.new ≡ string_bytes text.old ++ escaped_byte byte) }
{
    text.push_str("\\u00")?;
    put_digit(text, byte / 16 % 16)?;
    put_digit(text, byte % 16)
}

/// Appends a character of a string. A quotation mark, a backslash, a `<` and each character below 0x20 get an escape.
#[tactic(auto, unfolding(crate::specs::Json::string_char))]
fn put_char<A: Allocator>(text: &mut String<A>, c: char) -> Result<(), Oom>
    ensures { OnOk result (string_bytes text.new ≡ string_bytes text.old ++ string_char c) }
{
    if c == '"' {
        return Ok(text.push_str("\\\"")?);
    }
    if c == '\\' {
        return Ok(text.push_str("\\\\")?);
    }
    if c == '<' || c < ' ' {
        return put_escaped(text, c as u32);
    }
    Ok(text.push(c)?)
}

/// Appends the characters of `string`, each as `put_char` does.
#[tactic(auto, unfolding(crate::specs::Json::string_chars))]
fn put_chars<A: Allocator>(text: &mut String<A>, string: &str) -> Result<(), Oom>
    ensures { OnOk result (string_bytes text.new ≡ string_bytes text.old ++ string_chars string.now) }
{
    for c in string.chars() {
        put_char(text, c)?;
    }
    Ok(())
}

/// Appends `string` as a JSON string: in quotation marks, with the escapes that `put_char` writes.
#[tactic(auto, unfolding(crate::specs::Json::string_text))]
pub fn put_string<A: Allocator>(text: &mut String<A>, string: &str) -> Result<(), Oom>
    ensures { OnOk result (string_bytes text.new ≡ string_bytes text.old ++ string_text string.now) }
{
    text.push_str("\"")?;
    put_chars(text, string)?;
    Ok(text.push_str("\"")?)
}

/// Appends a comma, except at place 0.
pub fn put_comma<A: Allocator>(text: &mut String<A>, place: usize) -> Result<(), Oom>
    ensures { OnOk result (string_bytes text.new ≡ string_bytes text.old ++ comma_at place) }
{
    if place == 0 {
        return Ok(());
    }
    Ok(text.push_str(",")?)
}

/// Appends each number after a comma.
#[tactic(auto, unfolding(crate::specs::Json::more_numbers))]
fn put_more<A: Allocator>(text: &mut String<A>, numbers: &[u64]) -> Result<(), Oom>
    ensures { OnOk result (string_bytes text.new ≡ string_bytes text.old ++ more_numbers numbers.now) }
{
    for number in numbers {
        write!(text, ",{number}")?;
    }
    Ok(())
}

/// Appends the numbers, separated by commas.
#[tactic(auto, unfolding(crate::specs::Json::numbers_text))]
fn put_numbers<A: Allocator>(text: &mut String<A>, numbers: &[u64]) -> Result<(), Oom>
    ensures { OnOk result (string_bytes text.new ≡ string_bytes text.old ++ numbers_text numbers.now) }
{
    let [first, rest @ ..] = numbers else {
        return Ok(());
    };
    write!(text, "{first}")?;
    put_more(text, rest)
}

/// Appends `,"KEY":NUMBER`.
#[tactic(auto, unfolding(crate::specs::Json::number_key))]
pub fn put_number_key<A: Allocator>(text: &mut String<A>, key: &str, number: u64) -> Result<(), Oom>
    ensures { OnOk result (string_bytes text.new ≡ string_bytes text.old ++ number_key key.now number) }
{
    Ok(write!(text, ",\"{key}\":{number}")?)
}

/// Appends `,"KEY":NUMBER`, if there is a number.
pub fn put_number_if<A: Allocator>(
    text: &mut String<A>,
    key: &str,
    number: Option<u64>,
) -> Result<(), Oom>
    ensures { OnOk result (string_bytes text.new ≡ string_bytes text.old ++ number_key_if key.now number) }
{
    match number {
        Some(number) => put_number_key(text, key, number),
        None => Ok(()),
    }
}

/// Appends `,"KEY":[NUMBER,..]`, if there are any numbers.
#[tactic(auto, unfolding(crate::specs::Json::numbers_key))]
pub fn put_numbers_key<A: Allocator>(
    text: &mut String<A>,
    key: &str,
    numbers: &[u64],
) -> Result<(), Oom>
    ensures { OnOk result (string_bytes text.new ≡ string_bytes text.old ++ numbers_key key.now numbers.now) }
{
    if numbers.is_empty() {
        return Ok(());
    }
    write!(text, ",\"{key}\":[")?;
    put_numbers(text, numbers)?;
    Ok(text.push_str("]")?)
}

/// Appends `,"KEY":STRING`, where `put_string` writes the string. The key gets no escapes.
#[tactic(auto, unfolding(crate::specs::Json::text_key))]
pub fn put_text_key<A: Allocator>(text: &mut String<A>, key: &str, string: &str) -> Result<(), Oom>
    ensures { OnOk result (string_bytes text.new ≡ string_bytes text.old ++ text_key key.now string.now) }
{
    write!(text, ",\"{key}\":")?;
    put_string(text, string)
}
