//! `Teller`: prints lines that say how far work has come.
ghost use Rattle.std.specs.Prelude.{◌≡◌};
ghost use Rattle.progress_core.specs.Lines.{Puts};

use crate::line::{tried_line, walked_line};
use crate::pace::Pace;
use crate::watch::Watch;
use crate::work::{Tried, Walked};
use std::alloc::Global;
use std::io::Write;
use std::time::Clock;
use stream_core::write_out;

/// Prints lines that say how far work has come: at most one a second, and none in the first second. After a line that
/// couldn't be written, it prints no more; a line for which there is no memory is left out.
#[derive(Drop)]
pub struct Teller<'t, C, E> {
    heap: Global,
    pace: Pace<'t, C>,
    pub errors: &'t mut E,
    /// Whether lines are still printed: `true` until one can't be written.
    pub able: bool,
}

/// Writes a line, and says whether it went out.
fn put<E: Write>(errors: &mut E, line: &[u8]) -> bool
    ensures { Puts line.now result (E.contents errors.old) (E.contents errors.new) }
{
    match write_out(errors, line) {
        Ok(()) => true,
        Err(_unwritten) => false,
    }
}

impl<'t, C: Clock, E: Write> Teller<'t, C, E> {
    /// A teller that has printed nothing yet. Seconds are counted from now on.
    pub fn new(heap: Global, clock: &'t C, errors: &'t mut E) -> Self
        ensures same_reference { result.errors.ghost_name ≡ errors.entry.ghost_name }
        ensures errors { result.errors.now ≡ errors.old }
    {
        Teller {
            heap,
            pace: Pace::new(clock),
            errors,
            able: true,
        }
    }
}

impl<'t, C: Clock, E: Write> Watch<Tried> for Teller<'t, C, E> {
    ghost use Rattle.std.specs.Prelude.{◌≡◌};
    ghost use Rattle.progress_core.specs.Lines.{tried_line, HasTold};

    ghost told = { λ old new. (new.errors.ghost_name ≡ old.errors.ghost_name)
        × HasTold (λ work. tried_line work) new.able (E.contents old.errors.now) (E.contents new.errors.now) };

    fn tell(&mut self, work: Tried) {
        if !self.able || !self.pace.is_due() {
            return;
        }
        if let Ok(line) = tried_line(self.heap, work) {
            self.able = put(self.errors, line.as_bytes());
        }
    }
}

impl<'t, C: Clock, E: Write> Watch<Walked> for Teller<'t, C, E> {
    ghost use Rattle.std.specs.Prelude.{◌≡◌};
    ghost use Rattle.progress_core.specs.Lines.{walked_line, HasTold};

    ghost told = { λ old new. (new.errors.ghost_name ≡ old.errors.ghost_name)
        × HasTold (λ work. walked_line work) new.able (E.contents old.errors.now) (E.contents new.errors.now) };

    fn tell(&mut self, work: Walked) {
        if !self.able || !self.pace.is_due() {
            return;
        }
        if let Ok(line) = walked_line(self.heap, work) {
            self.able = put(self.errors, line.as_bytes());
        }
    }
}
