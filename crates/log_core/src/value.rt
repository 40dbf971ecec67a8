//! The JSON value of a line.
ghost use Rattle.std.specs.Prelude.{◌≡◌, ◌≤◌, false, length, Some, IfOk, IfErr, option_map};
ghost use Rattle.serde_json.specs.View.{view};
ghost use Rattle.log_core.specs.Lines.{longest_event, is_space, is_blank, IsValueOf, HasNoValue};

use crate::line_fault::LineFault;
use serde_json::Value;
use std::alloc::Global;

/// The most bytes of an event's line, without its line feed.
const LONGEST_EVENT: usize = 1_048_576;

fn is_space(byte: u8) -> bool
    ensures { result ≡ is_space byte }
{
    matches!(byte, b' ' | b'\t' | b'\r')
}

/// Whether the line has nothing but white space: spaces, tabs and carriage returns.
fn is_blank(line: &[u8]) -> bool
    ensures { result ≡ is_blank line.now }
{
    line.iter().all(|byte| is_space(*byte))
}

/// The JSON value of a line that isn't blank.
fn value_of(heap: Global, line: &[u8]) -> Result<Value, LineFault>
    requires short { length line.now ≤ longest_event }
    requires told { is_blank line.now ≡ false }
    ensures ok { IfOk result (λ v. IsValueOf line.now (Some (view v))) }
    ensures err { IfErr result (HasNoValue line.now) }
{
    let Ok(text) = std::str::from_utf8(line) else {
        return Err(LineFault::NotJson);
    };
    match Value::from_str(heap, text) {
        Ok(value) => Ok(value),
        Err(fault) if fault.is_memory() => Err(LineFault::OutOfMemory),
        Err(_) => Err(LineFault::NotJson),
    }
}

/// The JSON value of a line; `None` if the line has nothing but white space.
pub fn value_of_line(heap: Global, line: &[u8]) -> Result<Option<Value>, LineFault>
    ensures ok { IfOk result (λ v. IsValueOf line.now (option_map view v)) }
    ensures err { IfErr result (HasNoValue line.now) }
{
    if line.len() > LONGEST_EVENT {
        return Err(LineFault::TooLong);
    }
    if is_blank(line) {
        return Ok(None);
    }
    let value = value_of(heap, line)?;
    Ok(Some(value))
}
