//! Takes a line of a file into its case. A line is a mark, a space and a text, or a mark alone, whose text is then
//! empty. Lines without a mark and lines with the mark `#` give nothing. A line of another form is an error, which ends
//! `example_tests`.
use crate::case::Case;
use bench_core::Limits;
use std::io::ErrorKind;
use std::{fs, io};

/// The error for a line that doesn't have the form of a line of a case.
fn no_form() -> io::Error {
    io::Error::from(ErrorKind::InvalidData)
}

fn number(text: &str) -> io::Result<usize> {
    match text.parse::<usize>() {
        Ok(number) => Ok(number),
        Err(_) => Err(no_form()),
    }
}

/// Appends the bytes that `spelled` has as hexadecimal numbers of two digits, with a space between them.
fn put_bytes(bytes: &mut Vec<u8>, spelled: &str) -> io::Result<()> {
    for digits in spelled.split(' ') {
        if digits.len() != 2 || digits.starts_with("+") {
            return Err(no_form());
        }
        let Ok(byte) = u8::from_str_radix(digits, 16) else {
            return Err(no_form());
        };
        bytes.push(byte)?;
    }
    Ok(())
}

/// Appends a text and then `end`, N times. `spelled` is `N TEXT`: the number, a space, and the text.
fn put_repeated(bytes: &mut Vec<u8>, spelled: &str, end: &str) -> io::Result<()> {
    let Some((times, text)) = spelled.split_once(' ') else {
        return Err(no_form());
    };
    for _ in 0..number(times)? {
        bytes.extend_from_slice(text.as_bytes())?;
        bytes.extend_from_slice(end.as_bytes())?;
    }
    Ok(())
}

/// Appends what `text` gives in this form: the text itself, with a line feed (no form) or without (`-`); the bytes that
/// it spells (`x`); a text (`*`) or a line (`l`) N times; or the file that it names (`@`).
fn put(rt: &HostRuntime, bytes: &mut Vec<u8>, form: &str, text: &str) -> io::Result<()> {
    match form {
        "" => {
            bytes.extend_from_slice(text.as_bytes())?;
            bytes.push(b'\n')?;
        }
        "-" => bytes.extend_from_slice(text.as_bytes())?,
        "x" => put_bytes(bytes, text)?,
        "*" => put_repeated(bytes, text, "")?,
        "l" => put_repeated(bytes, text, "\n")?,
        "@" => bytes.extend_from_slice(&fs::read(rt, text)?)?,
        _ => return Err(no_form()),
    }
    Ok(())
}

/// Replaces the case's part, where it first stands in the input, by this text; a second replacement goes on from the
/// first. An error if the input isn't UTF-8 or doesn't have the part.
fn replace(case: &mut Case, by: &str) -> io::Result<()> {
    let Ok(text) = str::from_utf8(case.whole_input()) else {
        return Err(no_form());
    };
    if !text.contains(case.part.as_str()) {
        return Err(no_form());
    }
    let altered = text.replacen(case.heap, case.part.as_str(), by, 1)?;
    case.altered = Some(altered.into_bytes());
    Ok(())
}

/// The limits that four numbers spell: acts, entries, clock and messages. Another text, or a number out of its range,
/// is an error.
fn limits(spelled: &str) -> io::Result<Limits> {
    let mut numbers = [1u64; 4];
    let mut words = spelled.split(' ');
    for number in &mut numbers {
        match words.next().unwrap_or("").parse::<u64>() {
            Ok(spelled) => *number = spelled,
            Err(_) => return Err(no_form()),
        }
    }
    if words.next().is_some() {
        return Err(no_form());
    }
    let [acts, entries, clock, messages] = numbers;
    Limits::new(acts, entries, clock, messages).ok_or(no_form())
}

/// Sets what the first word of the text names: that a read fails at the end of the input (`fails`), that the case has
/// only the beginning of the output (`begins`), that the input is a terminal, how many bytes the output takes (`room`),
/// the limits, or how many bytes of the input the program gets (`front`).
fn set(case: &mut Case, text: &str) -> io::Result<()> {
    let (name, rest) = text.split_once(' ').unwrap_or((text, ""));
    match name {
        "fails" => case.fails = true,
        "begins" => case.begins = true,
        "terminal" => case.terminal = true,
        "room" => case.room = number(rest)?,
        "limits" => case.limits = limits(rest)?,
        "front" => case.front = number(rest)?,
        _ => return Err(no_form()),
    }
    Ok(())
}

fn put_word(case: &mut Case, word: &str) -> io::Result<()> {
    case.words.push(String::from_str(case.heap, word)?)?;
    Ok(())
}

fn put_words(case: &mut Case, text: &str) -> io::Result<()> {
    for word in text.split(' ') {
        put_word(case, word)?;
    }
    Ok(())
}

/// The status that a text spells.
fn status(text: &str) -> io::Result<u8> {
    match text.parse::<u8>() {
        Ok(status) => Ok(status),
        Err(_) => Err(no_form()),
    }
}

/// Appends what the line gives to the input, the output or the errors, by its mark. Another mark is an error, and so is
/// a line of the input after a replacement, since the input must be whole before a part is replaced.
fn put_in_stream(rt: &HostRuntime, case: &mut Case, mark: &str, text: &str) -> io::Result<()> {
    if let Some(form) = mark.strip_prefix('<') {
        if case.altered.is_some() {
            return Err(no_form());
        }
        return put(rt, case.own_input(), form, text);
    }
    if let Some(form) = mark.strip_prefix('>') {
        return put(rt, &mut case.output, form, text);
    }
    match mark.strip_prefix('!') {
        Some(form) => put(rt, &mut case.errors, form, text),
        None => Err(no_form()),
    }
}

/// Takes a line of a file into its case, by its mark. `data/README.md` says what each mark means.
pub fn read_line(rt: &HostRuntime, case: &mut Case, line: &str) -> io::Result<()> {
    let (mark, text) = line.split_once(' ').unwrap_or((line, ""));
    match mark {
        "" | "#" => {}
        "$" => put_words(case, text)?,
        "$+" => put_word(case, text)?,
        "?" => case.status = status(text)?,
        ":" => set(case, text)?,
        "-" => case.part = String::from_str(case.heap, text)?,
        "+" => replace(case, text)?,
        _ => put_in_stream(rt, case, mark, text)?,
    }
    Ok(())
}
