//! `ProgramFault`: why the program ends with another status than 0, which status that is, and what it prints about the
//! fault.
ghost use Rattle.std.specs.Prelude.{◌≡◌};
ghost use Rattle.program_core.specs.Program.{fault_status};

use explain_core::AskFault;
use explore_report::ReportFault;
use import_core::ImportFault;
use picture_core::DrawFault;
use prompt_core::PromptFault;
use script_core::ScriptFault;
use session_core::SessionFault;
use thiserror::Error;
use transcript_core::TranscriptFault;
use whatif_report::WhatifFault;
use worker_core::RaceFault;

/// An act or an unwind that was refused in a strict run. `number` is the number of its line in a script (`Line`), or of
/// the act in a session, counted from 1 (`Act`).
#[derive(Clone, Copy, Debug, PartialEq, Eq, Error)]
pub enum Refused {
    #[error("line {number}: {fault}")]
    Line {
        number: u64,
        fault: bench_core::Fault,
    },
    #[error("act {number}: {fault}")]
    Act {
        number: u64,
        fault: bench_core::Fault,
    },
}

/// Why the program ends with another status than 0, once it has read its words. It prints the fault's text on standard
/// error, behind `presence_bench: `, unless the fault is `Differs`.
#[derive(Clone, Copy, Debug, PartialEq, Eq, Error)]
pub enum ProgramFault {
    /// The first fault of a script. It is never `OutOfMemory`.
    #[error("{0}")]
    Script(ScriptFault),
    /// Why a text isn't a session. It is never `OutOfMemory`.
    #[error("session: {0}")]
    Session(SessionFault),
    /// A session has more bytes than is allowed.
    #[error("session: TooLong")]
    LongSession,
    /// Why the events of logs are refused. It is never `OutOfMemory`.
    #[error("{0}")]
    Import(ImportFault),
    /// The events of logs have more bytes than is allowed.
    #[error("line 0: TooLong")]
    LongImport,
    /// A check found that the bench and the real nodes part. The whole text went out.
    #[error("the bench and the real nodes part")]
    Differs,
    /// Why a race didn't begin, couldn't start a worker, or can't be vouched for. It is never `OutOfMemory`.
    #[error("race: {0}")]
    Race(RaceFault),
    /// Why there is no exploration. It is never `OutOfMemory`.
    #[error("explore: {0}")]
    Explore(ReportFault),
    /// Why there is no explanation. It is never `OutOfMemory`.
    #[error("explain: {0}")]
    Explain(AskFault),
    /// Why there is no picture. It is never `OutOfMemory`.
    #[error("draw: {0}")]
    Draw(DrawFault),
    /// Why it can't be told what would have made a difference. It is never `OutOfMemory`.
    #[error("whatif: {0}")]
    Whatif(WhatifFault),
    /// Why the calls of a bench can't be written as a script. It is never `OutOfMemory`.
    #[error("script: {0}")]
    Transcript(TranscriptFault),
    /// An act or an unwind was refused in a strict run. The whole text went out.
    #[error("{0}")]
    Refused(Refused),
    /// A prompt ended early. Its earlier responses went out.
    #[error("{0}")]
    Prompt(PromptFault),
    /// A read failed.
    #[error("read fault")]
    ReadFault,
    /// A write failed or took nothing. Exactly the first `written` bytes went out.
    #[error("write fault")]
    WriteFault { written: usize },
    /// A request for memory was refused.
    #[error("out of memory")]
    OutOfMemory,
}

impl ProgramFault {
    /// The status with which this fault ends the program. It is 1 if the input or what was asked is refused, 3 if a
    /// stream failed, 4 if memory was refused, and 5 if a worker couldn't be started, or a race can't be vouched for.
    /// It is 6 if a check found a difference, or an act or an unwind was refused in a strict run.
    pub fn status(self) -> u8
        ensures { result ≡ fault_status self }
    {
        // form: each arm is a case of the proof
        match self {
            ProgramFault::Script(_) | ProgramFault::Session(_) | ProgramFault::LongSession => 1,
            ProgramFault::Import(_) | ProgramFault::LongImport => 1,
            ProgramFault::Differs => 6,
            ProgramFault::Race(RaceFault::UnknownActor | RaceFault::NoRoom) => 1,
            ProgramFault::Explore(ReportFault::NoSuchNode | ReportFault::NoWord) => 1,
            ProgramFault::Explore(ReportFault::TooManyStates { .. } | ReportFault::MayFill) => 1,
            ProgramFault::Explore(ReportFault::TooManySteps) => 1,
            ProgramFault::Explore(ReportFault::NoSuchOutcome { .. }) => 1,
            ProgramFault::Explain(AskFault::NoSuchNode | AskFault::NoWord) => 1,
            ProgramFault::Draw(DrawFault::NoSuchNode | DrawFault::NoWord) => 1,
            ProgramFault::Whatif(WhatifFault::NoSuchNode | WhatifFault::NoWord) => 1,
            ProgramFault::Whatif(WhatifFault::NoSuchChange { .. }) => 1,
            ProgramFault::Transcript(TranscriptFault::NoScript { .. }) => 1,
            ProgramFault::Transcript(TranscriptFault::OtherCalls) => 1,
            ProgramFault::Prompt(PromptFault::TooLong) => 1,
            ProgramFault::Prompt(PromptFault::ReadFault | PromptFault::WriteFault) => 3,
            ProgramFault::Prompt(PromptFault::OutOfMemory) => 4,
            ProgramFault::ReadFault | ProgramFault::WriteFault { .. } => 3,
            ProgramFault::Race(RaceFault::OutOfMemory) | ProgramFault::OutOfMemory => 4,
            ProgramFault::Explain(AskFault::OutOfMemory) => 4,
            ProgramFault::Draw(DrawFault::OutOfMemory) => 4,
            ProgramFault::Whatif(WhatifFault::OutOfMemory) => 4,
            ProgramFault::Explore(ReportFault::OutOfMemory) => 4,
            ProgramFault::Transcript(TranscriptFault::OutOfMemory) => 4,
            ProgramFault::Race(RaceFault::WorkerRefused | RaceFault::LogsDisagree) => 5,
            ProgramFault::Refused(_) => 6,
        }
    }
}

impl From<AskFault> for ProgramFault {
    ghost use Rattle.std.specs.Prelude.{◌≡◌};
    ghost use Rattle.program_core.specs.Program.{fault_of_ask};

    ghost from_gives = { λ fault given. given ≡ fault_of_ask fault };

    fn from(fault: AskFault) -> ProgramFault {
        match fault {
            AskFault::OutOfMemory => ProgramFault::OutOfMemory,
            AskFault::NoSuchNode | AskFault::NoWord => ProgramFault::Explain(fault),
        }
    }
}

impl From<DrawFault> for ProgramFault {
    ghost use Rattle.std.specs.Prelude.{◌≡◌};
    ghost use Rattle.program_core.specs.Views.{fault_of_draw};

    ghost from_gives = { λ fault given. given ≡ fault_of_draw fault };

    fn from(fault: DrawFault) -> ProgramFault {
        match fault {
            DrawFault::OutOfMemory => ProgramFault::OutOfMemory,
            DrawFault::NoSuchNode | DrawFault::NoWord => ProgramFault::Draw(fault),
        }
    }
}

impl From<WhatifFault> for ProgramFault {
    ghost use Rattle.std.specs.Prelude.{◌≡◌};
    ghost use Rattle.program_core.specs.Whatifs.{fault_of_whatif};

    ghost from_gives = { λ fault given. given ≡ fault_of_whatif fault };

    fn from(fault: WhatifFault) -> ProgramFault {
        match fault {
            WhatifFault::OutOfMemory => ProgramFault::OutOfMemory,
            WhatifFault::NoSuchNode
            | WhatifFault::NoWord
            | WhatifFault::NoSuchChange { changes: _ } => ProgramFault::Whatif(fault),
        }
    }
}

impl From<TranscriptFault> for ProgramFault {
    ghost use Rattle.std.specs.Prelude.{◌≡◌};
    ghost use Rattle.program_core.specs.Shown.{fault_of_transcript};

    ghost from_gives = { λ fault given. given ≡ fault_of_transcript fault };

    fn from(fault: TranscriptFault) -> ProgramFault {
        match fault {
            TranscriptFault::OutOfMemory => ProgramFault::OutOfMemory,
            TranscriptFault::NoScript { fault: _ } | TranscriptFault::OtherCalls => {
                ProgramFault::Transcript(fault)
            }
        }
    }
}

impl From<ReportFault> for ProgramFault {
    ghost use Rattle.std.specs.Prelude.{◌≡◌};
    ghost use Rattle.program_core.specs.Explored.{fault_of_explore};

    ghost from_gives = { λ fault given. given ≡ fault_of_explore fault };

    fn from(fault: ReportFault) -> ProgramFault {
        match fault {
            ReportFault::OutOfMemory => ProgramFault::OutOfMemory,
            ReportFault::NoSuchNode
            | ReportFault::NoWord
            | ReportFault::TooManyStates {
                states: _,
                outcomes: _,
            }
            | ReportFault::MayFill
            | ReportFault::TooManySteps
            | ReportFault::NoSuchOutcome { outcomes: _ } => ProgramFault::Explore(fault),
        }
    }
}
