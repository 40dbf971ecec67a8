//! `Text`: bytes to be printed, either in the memory of a bench or on the heap; and how they are printed.
ghost use Rattle.std.specs.Prelude.{◌≡◌};
ghost use Rattle.program_core.specs.Program.{EndsAsText};
ghost use Rattle.program_core.specs.Texts.{text_bytes};

use crate::fault::ProgramFault;
use script_core::write_out;
use std::alloc::Allocator;
use std::io::Write;

/// Bytes to be printed: `Own` in the memory of a bench, `Heap` on the heap.
#[derive(Drop)]
pub enum Text<A: Allocator> {
    Own(Vec<u8, A>),
    Heap(Vec<u8>),
}

/// The bytes of the text.
pub(crate) fn bytes_of<A: Allocator>(text: &Text<A>) -> &[u8]
    ensures { result.now ≡ text_bytes text.now }
{
    match text {
        Text::Own(bytes) => bytes,
        Text::Heap(bytes) => bytes,
    }
}

/// Writes the whole text; `WriteFault` says how many of its bytes went out.
pub(crate) fn print<W: Write>(writer: &mut W, text: &[u8]) -> Result<(), ProgramFault>
    ensures { EndsAsText text.now result (W.contents writer.old) (W.contents writer.new) }
{
    match write_out(writer, text) {
        Ok(()) => Ok(()),
        Err(fault) => Err(ProgramFault::WriteFault {
            written: fault.written,
        }),
    }
}
