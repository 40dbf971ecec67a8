//! Reads all bytes of a reader up to a limit, and writes all bytes to a writer. A failed read or write isn't tried
//! again.
ghost use Rattle.std.specs.Prelude.{◌≡◌, ◌≢◌, ◌+◌, ◌<◌, ◌≤◌, length, take, Err, IfOk, IfErr, OnOk};
ghost use Rattle.stream_core.specs.Steps.{FailsAs};
ghost use Rattle.std.specs.Io.KnownBytes.{Appends, IsAtEnd};
ghost use Rattle.stream_core.specs.Inputs.{IsFront, IsWhole, IsLonger, TakesAtMost};
ghost use Rattle.stream_core.specs.Lost.{lost_after};

use crate::lost::{Lost, write_once};
use crate::steps::{Steps, read_once};
use crate::stream_fault::{InputFault, WriteFault};
use std::alloc::Allocator;
use std::io::{Read, Write};
use std::marker::Brand;
use std::sync::ledger::{Blank, Ledger};

/// How many bytes one read asks for at most.
const CHUNK: usize = 4096;

/// The first `most` bytes of the input, or the whole input if it has fewer. `steps` counts the calls of `read`.
pub fn read_front<A: Allocator, R: Read, L: Ledger>(
    alloc: A,
    reader: &mut R,
    most: usize,
    steps: &mut Steps<R, L>,
) -> Result<Vec<u8, A>, InputFault>
    requires { most ≤ 67108865 }
    ensures front { IfOk result (λ bytes. IsFront (R.remaining reader.old) most bytes.items) }
    ensures end { IfOk result (λ bytes. length bytes.items < most → IsAtEnd (R.remaining reader.new)) }
    ensures fits { result ≢ Err InputFault.TooLong }
    ensures most { TakesAtMost (R.remaining reader.old) (R.remaining reader.new) most }
    ensures calls { steps.new.calls ≤ steps.old.calls + most }
    ensures failed { FailsAs result steps.old steps.new }
{
    let mut bytes = Vec::new(alloc);
    let mut chunk = [0u8; CHUNK];
    while bytes.len() < most {
        let room = CHUNK.min(most - bytes.len());
        let Ok(count) = read_once(reader, &mut chunk[..room], steps) else {
            return Err(InputFault::ReadFault);
        };
        if count == 0 {
            return Ok(bytes);
        }
        bytes.extend_from_slice(&chunk[..count])?;
    }
    Ok(bytes)
}

/// The whole input, or `TooLong` if it has more than `limit` bytes. To tell, it asks for one byte past the limit.
/// `steps` counts the calls of `read`; callers that don't need the count use `read_input`.
pub fn read_all<A: Allocator, R: Read, L: Ledger>(
    alloc: A,
    reader: &mut R,
    limit: usize,
    steps: &mut Steps<R, L>,
) -> Result<Vec<u8, A>, InputFault>
    requires { limit ≤ 67108864 }
    ensures whole { IfOk result (λ bytes. IsWhole (R.remaining reader.old) bytes.items) }
    ensures end { OnOk result (IsAtEnd (R.remaining reader.new)) }
    ensures fits { IfOk result (λ bytes. length bytes.items ≤ limit) }
    ensures longer { result ≡ Err InputFault.TooLong → IsLonger (R.remaining reader.old) limit }
    ensures most { TakesAtMost (R.remaining reader.old) (R.remaining reader.new) (limit + 1) }
    ensures calls { steps.new.calls ≤ steps.old.calls + limit + 2 }
    ensures failed { FailsAs result steps.old steps.new }
{
    let bytes = read_front(alloc, reader, limit + 1, steps)?;
    if bytes.len() > limit {
        return Err(InputFault::TooLong);
    }
    Ok(bytes)
}

/// Like `read_all`, but makes the count itself, from `blank`, and drops it.
fn read_from<A: Allocator, R: Read, L: Ledger>(
    alloc: A,
    reader: &mut R,
    limit: usize,
    blank: Blank,
) -> Result<Vec<u8, A>, InputFault>
    requires limit { limit ≤ 67108864 }
    requires name { blank.name ≡ L.name }
    requires parts { blank.parts ≡ L.parts }
    requires two { blank.parts ≡ 2 }
    ensures whole { IfOk result (λ bytes. IsWhole (R.remaining reader.old) bytes.items) }
    ensures end { OnOk result (IsAtEnd (R.remaining reader.new)) }
    ensures fits { IfOk result (λ bytes. length bytes.items ≤ limit) }
    ensures longer { result ≡ Err InputFault.TooLong → IsLonger (R.remaining reader.old) limit }
    ensures most { TakesAtMost (R.remaining reader.old) (R.remaining reader.new) (limit + 1) }
{
    let mut steps = Steps::<R, L>::new(blank);
    read_all(alloc, reader, limit, &mut steps)
}

/// Like `read_all`, for callers that don't need the count of the calls of `read`.
pub fn read_input<A: Allocator, R: Read>(
    alloc: A,
    reader: &mut R,
    limit: usize,
) -> Result<Vec<u8, A>, InputFault>
    requires { limit ≤ 67108864 }
    ensures whole { IfOk result (λ bytes. IsWhole (R.remaining reader.old) bytes.items) }
    ensures end { OnOk result (IsAtEnd (R.remaining reader.new)) }
    ensures fits { IfOk result (λ bytes. length bytes.items ≤ limit) }
    ensures longer { result ≡ Err InputFault.TooLong → IsLonger (R.remaining reader.old) limit }
    ensures most { TakesAtMost (R.remaining reader.old) (R.remaining reader.new) (limit + 1) }
{
    read_from::<A, R, Brand>(alloc, reader, limit, Blank::new(2))
}

/// Writes all bytes. A write that takes nothing counts as failed; a failed write is noted in `lost`.
pub fn write_noted<W: Write>(
    writer: &mut W,
    bytes: &[u8],
    lost: &mut Lost<W>,
) -> Result<(), WriteFault>
    ensures ok { OnOk result (Appends (W.contents writer.old) (W.contents writer.new) bytes.now) }
    ensures short { IfErr result (λ fault. fault.written < length bytes.now) }
    ensures err { IfErr result (λ fault. Appends (W.contents writer.old) (W.contents writer.new) (take fault.written bytes.now)) }
    ensures lost { lost.new ≡ lost_after lost.old result }
{
    let mut written = 0;
    while written < bytes.len() {
        let Some(count) = write_once(writer, &bytes[written..], lost) else {
            return Err(WriteFault { written });
        };
        written += count;
    }
    Ok(())
}

/// Like `write_noted`, for callers that don't go on after a failed write.
pub fn write_out<W: Write>(writer: &mut W, bytes: &[u8]) -> Result<(), WriteFault>
    ensures ok { OnOk result (Appends (W.contents writer.old) (W.contents writer.new) bytes.now) }
    ensures short { IfErr result (λ fault. fault.written < length bytes.now) }
    ensures err { IfErr result (λ fault. Appends (W.contents writer.old) (W.contents writer.new) (take fault.written bytes.now)) }
{
    write_noted(writer, bytes, &mut Lost::nothing())
}
