//! What stands at a place of a JSON list, counted from 0: a number, a text, or nothing. In a value that isn't a list
//! nothing stands at any place.
ghost use Rattle.std.specs.Prelude.{◌≡◌};
ghost use Rattle.serde_json.specs.View.{view};
ghost use Rattle.json_core.specs.Decoded.{Gives};
ghost use Rattle.json_core.specs.InLists.{number_in, text_in, ends_at};

use crate::unread::Unread;
use serde_json::Value;

/// The whole number at `place` of the list, if it fits into 64 bits without a sign; else `Shape`.
pub fn number_in(list: &Value, place: usize) -> Result<u64, Unread>
    ensures { Gives (λ n. n) result (number_in place (view list.now)) }
{
    list.get(place).and_then(Value::as_u64).ok_or(Unread::Shape)
}

/// The text at `place` of the list; else `Shape`.
pub fn text_in(list: &Value, place: usize) -> Result<&str, Unread>
    ensures { Gives (λ s. s.now) result (text_in place (view list.now)) }
{
    list.get(place).and_then(Value::as_str).ok_or(Unread::Shape)
}

/// Whether the list has no item at `place` or behind it.
pub fn ends_at(list: &Value, place: usize) -> bool
    ensures { result ≡ ends_at place (view list.now) }
{
    list.get(place).is_none()
}
