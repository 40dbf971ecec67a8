//! Reads the next JSON value of a reader, as a value of `serde_json`.
ghost use Rattle.std.specs.Prelude.{◌≡◌, ◌≢◌, ◌<◌, ◌≤◌, ◌∷◌, length, Some, None, Err, IfOk, IfSome, OnOk, option_map};
ghost use Rattle.json.specs.Json.{value, items, members};
ghost use Rattle.json.specs.Print.{IsNumber, IsPrintable};
ghost use Rattle.json.specs.Reads.{token_of};
ghost use Rattle.json.specs.declared.token.Token.TheVariants.{Bad};
ghost use Rattle.serde_json.specs.Data.{number, unsigned, no_members};
ghost use Rattle.serde_json.specs.Read.{number_of, of_json, of_items, of_members, converted};
ghost use Rattle.serde_json.specs.View.{view, items_view, members_view};
ghost use Rattle.json_core.specs.declared.unread.Unread.TheVariants.{Shape};

use crate::unread::Unread;
use fast_float::Numeral;
use json::{Reader, Token};
use serde_json::{Map, Value};
use std::alloc::Global;

/// The whole number that the text of a JSON number spells. `None` if that text isn't digits alone, or the number
/// doesn't fit into 64 bits.
fn whole_number(text: &str) -> Option<u64>
    ensures { IfSome result (λ whole. number_of text.now ≡ Some (unsigned whole)) }
{
    let digits = text.as_bytes();
    if digits.first() == Some(&b'-') {
        return None;
    }
    Numeral::scan(digits).to_u64()
}

/// The JSON number that the text spells; `Shape` if it is too great for a float.
fn number_from(heap: Global, text: &str) -> Result<Value, Unread>
    requires { IsNumber text.now }
    ensures ok { IfOk result (λ v. option_map number (number_of text.now) ≡ Some (view v)) }
    ensures err { result ≡ Err Shape → option_map number (number_of text.now) ≡ None }
{
    if let Some(whole) = whole_number(text) {
        return Ok(Value::from(whole));
    }
    match Value::from_str(heap, text) {
        Ok(value) => Ok(value),
        Err(fault) if fault.is_memory() => Err(Unread::Memory),
        Err(_) => Err(Unread::Shape),
    }
}

/// Reads the next value, in which arrays and objects may nest `depth` deep. `Shape` if no such value comes next.
#[cycle(read)]
pub fn value_of(heap: Global, reader: &mut Reader<'_>, depth: usize) -> Result<Value, Unread>
    ensures ok { IfOk result (λ v. converted of_json (value depth reader.old) ≡ Some (view v, reader.new)) }
    ensures shorter { OnOk result (length reader.new < length reader.old) }
    ensures err { result ≡ Err Shape → converted of_json (value depth reader.old) ≡ None }
{
    let token = reader.next().ok_or(Unread::Shape)?;
    value_from(heap, token, reader, depth)
}

/// Reads the value whose first token, `token`, has been read. Arrays and objects may nest `depth` deep in it. `Shape`
/// if no such value begins with `token`.
#[cycle(read)]
pub fn value_from(
    heap: Global,
    token: Token<'_>,
    reader: &mut Reader<'_>,
    depth: usize,
) -> Result<Value, Unread>
    requires { token ≢ Bad → IsPrintable (token_of token) }
    ensures ok { IfOk result (λ v. converted of_json (value depth (token_of token.entry ∷ reader.old)) ≡ Some (view v, reader.new)) }
    ensures shorter { OnOk result (length reader.new ≤ length reader.old) }
    ensures err { result ≡ Err Shape → converted of_json (value depth (token_of token.entry ∷ reader.old)) ≡ None }
{
    match token {
        Token::String(text) => Ok(Value::String(String::from_str(heap, text)?)),
        Token::Number(text) => number_from(heap, text),
        Token::Bool(b) => Ok(Value::Bool(b)),
        Token::Null => Ok(Value::Null),
        Token::EndObject | Token::EndArray | Token::Key(_) | Token::Bad => Err(Unread::Shape),
        Token::BeginArray => {
            if depth == 0 {
                return Err(Unread::Shape);
            }
            Ok(Value::Array(items_of(heap, reader, depth - 1)?))
        }
        Token::BeginObject => {
            if depth == 0 {
                return Err(Unread::Shape);
            }
            Ok(Value::Object(members_of(heap, reader, depth - 1)?))
        }
    }
}

/// Reads the items up to the bracket that closes the array, and the bracket. Each item may nest `depth` deep.
#[cycle(read)]
fn items_of(heap: Global, reader: &mut Reader<'_>, depth: usize) -> Result<Vec<Value>, Unread>
    ensures ok { IfOk result (λ v. converted of_items (items (value depth) (length reader.old) reader.old)
        ≡ Some (items_view v.items, reader.new)) }
    ensures shorter { OnOk result (length reader.new < length reader.old) }
    ensures err { result ≡ Err Shape → converted of_items (items (value depth) (length reader.old) reader.old) ≡ None }
{
    let mut found = Vec::new(heap);
    // form: the proof names the loop
    'items: while !reader.take_end_array() {
        let item = value_of(heap, reader, depth)?;
        found.push(item)?;
    }
    Ok(found)
}

/// Reads the members up to the brace that closes the object, and the brace. The value of each may nest `depth` deep. If
/// several members have the same name, the last one counts.
#[cycle(read)]
fn members_of(
    heap: Global,
    reader: &mut Reader<'_>,
    depth: usize,
) -> Result<Map<String, Value>, Unread>
    ensures ok { IfOk result (λ m. converted (λ ms. of_members ms no_members) (members (value depth) (length reader.old) reader.old)
        ≡ Some (members_view m.entries, reader.new)) }
    ensures shorter { OnOk result (length reader.new < length reader.old) }
    ensures err { result ≡ Err Shape → converted (λ ms. of_members ms no_members) (members (value depth) (length reader.old) reader.old) ≡ None }
{
    let mut found = Map::new(heap);
    // form: the proof names the loop
    'members: while let Some(name) = reader.next_key()? {
        let key = String::from_str(heap, name)?;
        let member = value_of(heap, reader, depth)?;
        drop(found.insert(key, member)?);
    }
    Ok(found)
}
