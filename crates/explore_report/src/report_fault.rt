//! `ReportFault`: why a question gets no text, or an outcome no script.
ghost use Rattle.std.specs.Prelude.{◌≡◌};
ghost use Rattle.explore_report.specs.Faults.{fault_of_explore};

use dots_core::Oom;
use explore_network::ExploreFault;
use payload_core::WordFault;
use thiserror::Error;

/// Why a question gets no text, or an outcome no script.
#[derive(Clone, Copy, Debug, PartialEq, Eq, Error)]
pub enum ReportFault {
    /// No node has the name that is asked about.
    #[error("NoSuchNode")]
    NoSuchNode,
    /// The topic or the key isn't a word, so nothing is tracked under it.
    #[error("NoWord")]
    NoWord,
    /// The walk would have to keep more than `states` states. Up to then it had found `outcomes` outcomes.
    #[error("TooManyStates, more than {states}, outcomes so far {outcomes}")]
    TooManyStates { states: usize, outcomes: usize },
    /// The joins and updates make more entries than a node may hold, so some order might be refused (`EntriesFull`).
    #[error("MayFill")]
    MayFill,
    /// The remaining steps and the deliveries that may come a second time (`again`) are more than 3,000 together.
    #[error("TooManySteps, more than 3000")]
    TooManySteps,
    /// There are `outcomes` outcomes, and none has the number that was asked for.
    #[error("NoSuchOutcome, there are {outcomes}")]
    NoSuchOutcome { outcomes: usize },
    /// A request for memory was refused.
    #[error("out of memory")]
    OutOfMemory,
}

impl From<Oom> for ReportFault {
    ghost use Rattle.explore_report.specs.declared.report_fault.ReportFault.TheVariants.{OutOfMemory};

    ghost from_gives = { λ _ fault. fault ≡ OutOfMemory };

    fn from(_: Oom) -> ReportFault {
        ReportFault::OutOfMemory
    }
}

impl From<WordFault> for ReportFault {
    ghost use Rattle.explore_report.specs.Faults.{fault_of_word};

    ghost from_gives = { λ fault given. given ≡ fault_of_word fault };

    fn from(fault: WordFault) -> ReportFault {
        match fault {
            WordFault::BadWord => ReportFault::NoWord,
            WordFault::OutOfMemory => ReportFault::OutOfMemory,
        }
    }
}

/// `fault` as a `ReportFault`. `TooManyStates` also gets `states`, the number of states that the walk could keep.
pub(crate) fn fault_of(fault: ExploreFault, states: usize) -> ReportFault
    ensures { result ≡ fault_of_explore states fault }
{
    match fault {
        ExploreFault::TooManyStates { outcomes } => {
            ReportFault::TooManyStates { states, outcomes }
        }
        ExploreFault::MayFill => ReportFault::MayFill,
        ExploreFault::TooManySteps => ReportFault::TooManySteps,
        ExploreFault::OutOfMemory => ReportFault::OutOfMemory,
    }
}
