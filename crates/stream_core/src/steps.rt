//! `Steps`: counts how often a reader was read, for contracts alone. The count takes no memory, and counting runs no
//! code.
ghost use Rattle.std.specs.Prelude.{◌≡◌, ◌+◌, IfErr};
ghost use Rattle.std.specs.Io.{ReadsAtMost};
ghost use Rattle.std.specs.Io.KnownBytes.{ReadConsumes};
ghost use Rattle.stream_core.specs.Steps.{FailsAs};
ghost use Rattle.stream_core.specs.declared.stream_fault.InputFault.TheVariants.{ReadFault};

use crate::stream_fault::InputFault;
use std::io::Read;
use std::marker::{Model, PhantomData};
use std::sync::ledger::{Blank, Book, Ledger, Share};

/// How many calls of `read` were made on an `R`, and how many of them failed, both booked in the ledger `L`. Only
/// `read_once` adds to them. A function that is generic over `R`, and is lent one `R`, has no other reader of this
/// type. So the calls that the function counts are calls on that reader.
#[derive(Drop)]
pub struct Steps<R, L: Ledger> {
    book: Book<L>,
    given: Share<L>,
    missed: Share<L>,
    on: PhantomData<*const R>,
}

impl<R, L: Ledger> Model for Steps<R, L> {
    ghost use Rattle.std.specs.Prelude.{◌<◌};
    ghost use Rattle.stream_core.specs.Steps.{Steps};

    ghost Value = { Steps };

    ghost view = { λ s. record { calls = s.book.total; failed = s.missed.amount } };

    ghost invariant = { λ s. (0 < s.given.parts) × (0 < s.missed.parts) };
}

impl<R, L: Ledger> Steps<R, L> {
    /// A count before the first call. The ledger of `blank` has two parts: one for calls that succeed, one for calls
    /// that fail.
    pub fn new(blank: Blank) -> Steps<R, L>
        requires name { blank.name ≡ L.name }
        requires parts { blank.parts ≡ L.parts }
        requires two { blank.parts ≡ 2 }
        ensures calls { result.calls ≡ 0 }
        ensures failed { result.failed ≡ 0 }
    {
        let (book, mut given) = blank.open::<L>();
        let missed = given.split_off(1, 0);
        Steps {
            book,
            given,
            missed,
            on: PhantomData,
        }
    }

    /// Counts a call of `read` that succeeded.
    fn tick(&mut self)
        ensures calls { self.new.calls ≡ self.old.calls + 1 }
        ensures failed { self.new.failed ≡ self.old.failed }
    {
        self.book.add(&mut self.given, 1);
    }

    /// Counts a call of `read` that failed.
    fn tick_failed(&mut self)
        ensures calls { self.new.calls ≡ self.old.calls + 1 }
        ensures failed { self.new.failed ≡ self.old.failed + 1 }
    {
        self.book.add(&mut self.missed, 1);
    }
}

/// Makes one call of `read`, and counts it. Nothing else in this crate reads.
pub fn read_once<R: Read, L: Ledger>(
    reader: &mut R,
    buffer: &mut [u8],
    steps: &mut Steps<R, L>,
) -> Result<usize, InputFault>
    ensures bound { ReadsAtMost result buffer.new }
    ensures bytes { ReadConsumes (R.remaining reader.old) (R.remaining reader.new) result buffer.new }
    ensures calls { steps.new.calls ≡ steps.old.calls + 1 }
    ensures failed { FailsAs result steps.old steps.new }
    ensures fault { IfErr result (λ fault. fault ≡ ReadFault) }
{
    match reader.read(buffer) {
        Ok(count) => {
            steps.tick();
            Ok(count)
        }
        Err(_) => {
            steps.tick_failed();
            Err(InputFault::ReadFault)
        }
    }
}
