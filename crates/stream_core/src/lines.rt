//! Reads the next line of a reader; of a line that is too long only the beginning stays in memory.
ghost use Rattle.std.specs.Prelude.{◌≡◌, ◌∷◌, [], ◌<◌, ◌≤◌, IfErr, IfOk, IfSome, OnErr, option_map, vec_items, vec_len};
ghost use Rattle.std.specs.Io.KnownBytes.{Consumes, IsAtEnd, Keeps};
ghost use Rattle.stream_core.specs.NextLines.{IsEndless, IsNext, TakesLine, TakesPart};
ghost use Rattle.stream_core.specs.Steps.{FailsAs};
ghost use Rattle.stream_core.specs.declared.stream_fault.InputFault.TheVariants.{ReadFault, TooLong};

use crate::steps::{Steps, read_once};
use crate::stream_fault::InputFault;
use std::alloc::Allocator;
use std::io::Read;
use std::sync::ledger::Ledger;

/// Reads the next byte; `None` at the end of the input. A failed read isn't tried again.
fn next_byte<R: Read, L: Ledger>(
    reader: &mut R,
    steps: &mut Steps<R, L>,
) -> Result<Option<u8>, InputFault>
    ensures some { IfOk result (λ byte. IfSome byte (λ byte. Consumes (R.remaining reader.old) (R.remaining reader.new) (byte ∷ []))) }
    ensures none { result ≡ Ok None → IsAtEnd (R.remaining reader.new) }
    ensures unchanged { result ≡ Ok None → Keeps (R.remaining reader.old) (R.remaining reader.new) }
    ensures err { OnErr result (Keeps (R.remaining reader.old) (R.remaining reader.new)) }
    ensures fault { IfErr result (λ fault. fault ≡ ReadFault) }
    ensures failed { FailsAs result steps.old steps.new }
{
    let mut byte = [0u8];
    match read_once(reader, &mut byte, steps) {
        Ok(0) => Ok(None),
        Ok(_) => Ok(Some(byte[0])),
        Err(fault) => Err(fault),
    }
}

/// Reads the next line, and gives it without its line feed; `None` at the end of the input. If the line has more than
/// `most` bytes, it gives the first `most`. `TooLong` comes only for a line with at least `u64::MAX` bytes. After a
/// fault the part of the line that was read is lost. `steps` counts the calls of `read`.
pub fn next_line<A: Allocator, R: Read, L: Ledger>(
    alloc: A,
    reader: &mut R,
    most: usize,
    steps: &mut Steps<R, L>,
) -> Result<Option<Vec<u8, A>>, InputFault>
    requires { 0 < most }
    ensures next { IfOk result (λ line. IsNext most (R.remaining reader.old) (R.remaining reader.new) (option_map vec_items line)) }
    ensures end { result ≡ Ok None → IsAtEnd (R.remaining reader.new) }
    ensures line { TakesLine (R.remaining reader.old) (R.remaining reader.new) }
    ensures part { result ≡ Err ReadFault → TakesPart (R.remaining reader.old) (R.remaining reader.new) }
    ensures endless { result ≡ Err TooLong → IsEndless (R.remaining reader.old) }
    ensures most { IfOk result (λ line. IfSome line (λ line. vec_len line ≤ most)) }
    ensures failed { FailsAs result steps.old steps.new }
{
    let mut line = Vec::new(alloc);
    // form: counted, so that the loop ends
    for _turn in 0..u64::MAX {
        let Some(byte) = next_byte(reader, steps)? else {
            if line.is_empty() {
                return Ok(None);
            }
            return Ok(Some(line));
        };
        if byte == b'\n' {
            return Ok(Some(line));
        }
        if line.len() < most {
            line.push(byte)?;
        }
    }
    Err(InputFault::TooLong)
}
