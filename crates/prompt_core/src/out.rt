//! Writes bytes that are to go out at once.
ghost use Rattle.std.specs.Prelude.{◌≡◌, ℕ, IfErr, OnErr, OnOk, take};
ghost use Rattle.std.specs.Io.KnownBytes.{Appends};
ghost use Rattle.prompt_core.specs.declared.prompt_fault.PromptFault.TheVariants.{WriteFault};

use crate::prompt_fault::PromptFault;
use std::io::Write;
use stream_core::write_out;

/// Writes a response, and flushes the writer; `WriteFault` if either fails. Then any beginning of the response may have
/// been written.
pub fn put_out<W: Write>(writer: &mut W, response: &[u8]) -> Result<(), PromptFault>
    ensures ok { OnOk result (Appends (W.contents writer.old) (W.contents writer.new) response.now) }
    ensures err { OnErr result ((count : ℕ) × Appends (W.contents writer.old) (W.contents writer.new) (take count response.now)) }
    ensures fault { IfErr result (λ fault. fault ≡ WriteFault) }
{
    if let Err(_fault) = write_out(writer, response) {
        return Err(PromptFault::WriteFault);
    }
    match writer.flush() {
        Ok(()) => Ok(()),
        Err(_) => Err(PromptFault::WriteFault),
    }
}
