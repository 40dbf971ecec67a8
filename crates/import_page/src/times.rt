//! The time of a line.
ghost use Rattle.std.specs.Prelude.{IfOk, option_map, string_bytes};
ghost use Rattle.serde_json.specs.Find.{as_number, as_str};
ghost use Rattle.serde_json.specs.View.{view};
ghost use Rattle.import_page.specs.Times.{IsTimeBy, IsTimeOf, IsTimeOn};

use dots_core::Oom;
use import_core::text_of;
use log_core::{LineFault, value_of_line};
use serde_json::Value;
use std::alloc::Global;

/// A time as a text: a string itself, or the JSON text of a number; `None` for other values.
fn told(heap: Global, value: &Value) -> Result<Option<String>, Oom>
    ensures { IfOk result (λ time. IsTimeBy (as_str (view value.now)) (as_number (view value.now)) (view value.now) (option_map string_bytes time)) }
{
    if let Some(text) = value.as_str() {
        return Ok(Some(String::from_str(heap, text)?));
    }
    if !value.is_number() {
        return Ok(None);
    }
    Ok(Some(text_of(heap, value)?))
}

/// The time that the value has under `time`, as a text; `None` if nothing stands there, or something that is neither a
/// string nor a number.
fn time_of(heap: Global, value: &Value) -> Result<Option<String>, Oom>
    ensures { IfOk result (λ time. IsTimeOf (view value.now) (option_map string_bytes time)) }
{
    match value.get("time") {
        Some(time) => told(heap, time),
        None => Ok(None),
    }
}

/// The time of a line; `None` if the line has none, is blank, is too long or isn't JSON.
pub(crate) fn time_on(heap: Global, line: &[u8]) -> Result<Option<String>, Oom>
    ensures { IfOk result (λ time. IsTimeOn line.now (option_map string_bytes time)) }
{
    match value_of_line(heap, line) {
        Ok(Some(value)) => time_of(heap, &value),
        Ok(None) => Ok(None),
        Err(LineFault::OutOfMemory) => Err(Oom),
        Err(_) => Ok(None),
    }
}
