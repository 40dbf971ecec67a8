//! What the crates above read and write with. It reads all bytes of a reader, or the first ones, or the next line, and
//! writes all bytes to a writer.
//!
//! It uses std, and `thiserror` for the texts of faults. The modules in reading order: `stream_fault`, why bytes
//! couldn't be read or written; `steps`, how often a reader was read; `lost`, whether a write failed; `streams`, whole
//! inputs and outputs; `lines`, one line after another; `fakes`, a reader and a writer for tests, which may fail.
#![tactic(auto)]

mod fakes;
mod lines;
mod lost;
mod steps;
mod stream_fault;
mod streams;

pub use fakes::{FakeReader, FakeWriter};
pub use lines::next_line;
pub use lost::Lost;
pub use steps::Steps;
pub use stream_fault::{InputFault, WriteFault};
pub use streams::{read_all, read_front, read_input, write_noted, write_out};
