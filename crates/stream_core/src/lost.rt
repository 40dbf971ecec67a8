//! `Lost`: remembers whether a write failed, so that contracts can say so where the program goes on in spite of it.
ghost use Rattle.std.specs.Prelude.{◌≡◌, ◌<◌, ◌≤◌, false, length, take, IfSome, None};
ghost use Rattle.std.specs.Io.KnownBytes.{Appends, Keeps};
ghost use Rattle.stream_core.specs.Lost.{lost_by};

use std::io::Write;
use std::marker::{Model, PhantomData};

/// Whether bytes are lost because a write of them to a `W` failed or took none of them. Only `write_once` notes it, and
/// nothing takes it back. A function that is generic over `W`, and is lent one `W`, has no other writer of this type.
/// So a loss that the function notes is a loss at that writer.
#[derive(Drop)]
pub struct Lost<W> {
    any: bool,
    by: PhantomData<*const W>,
}

impl<W> Model for Lost<W> {
    ghost use Rattle.std.specs.Prelude.{Bool};

    ghost Value = { Bool };

    ghost view = { λ l. l.any };
}

impl<W> Lost<W> {
    /// Nothing is lost yet.
    pub fn nothing() -> Lost<W>
        ensures { result ≡ false }
    {
        Lost {
            any: false,
            by: PhantomData,
        }
    }

    /// Whether bytes are lost.
    pub fn is_any(&self) -> bool
        ensures { result ≡ self.now }
    {
        self.any
    }
}

/// Makes one call of `write`, and gives how many of the bytes the writer took. If the call failed or the writer took
/// none, gives `None`, and notes in `lost` that bytes are lost.
pub fn write_once<W: Write>(writer: &mut W, bytes: &[u8], lost: &mut Lost<W>) -> Option<usize>
    requires { 0 < length bytes.now }
    ensures some { IfSome result (λ count. 0 < count) }
    ensures bound { IfSome result (λ count. count ≤ length bytes.now) }
    ensures bytes { IfSome result (λ count. Appends (W.contents writer.old) (W.contents writer.new) (take count bytes.now)) }
    ensures none { result ≡ None → Keeps (W.contents writer.old) (W.contents writer.new) }
    ensures lost { lost.new ≡ lost_by lost.old result }
{
    match writer.write(bytes) {
        Ok(0) | Err(_) => {
            lost.any = true;
            None
        }
        Ok(count) => Some(count),
    }
}
