//! Why a script is refused.
ghost use Rattle.std.specs.Prelude.{◌≡◌, ◌≢◌};
ghost use Rattle.grammar_core.specs.declared.fault.FaultKind.TheVariants.{OutOfMemory};

use bench_core::NamesFault;
use dots_core::Oom;
use std::alloc::AllocFailed;
use thiserror::Error;

/// What is wrong with a line or with a whole script. `docs/FORMATS.md` has the order in which faults are looked for.
#[derive(Clone, Copy, Debug, PartialEq, Eq, Error)]
pub enum FaultKind {
    /// A line has a byte outside 0x20 to 0x7E.
    #[error("NotText")]
    NotText,
    /// A script, a line, a topic, a key or metadata has more bytes than it may have.
    #[error("TooLong")]
    TooLong,
    /// The first line that has words and isn't a comment doesn't begin with `nodes`, or there is no such line.
    #[error("NoNodes")]
    NoNodes,
    /// A second `nodes` or `consoles` line, a name that was given before, or a node that an extract names twice.
    #[error("Twice")]
    Twice,
    /// The first word is neither a keyword nor an actor's name, or the second word of an actor's line isn't a verb.
    #[error("UnknownWord")]
    UnknownWord,
    /// Too few or too many words.
    #[error("WrongCount")]
    WrongCount,
    /// A console's line has a verb that is for nodes alone, or a line isn't an act where only acts are allowed.
    #[error("NotAllowed")]
    NotAllowed,
    /// A word should be a number and isn't one.
    #[error("BadNumber")]
    BadNumber,
    /// A word should name a new node or console, and isn't a name or is a keyword; or a word should be the name of a
    /// node, and no node has that name.
    #[error("BadName")]
    BadName,
    /// A request for memory was refused.
    #[error("OutOfMemory")]
    OutOfMemory,
}

impl From<Oom> for FaultKind {
    ghost from_gives = { λ _ kind. kind ≡ OutOfMemory };

    fn from(_refused: Oom) -> FaultKind {
        FaultKind::OutOfMemory
    }
}

impl<T: Drop> From<AllocFailed<T>> for FaultKind {
    ghost from_gives = { λ _ kind. kind ≡ OutOfMemory };

    fn from(_refused: AllocFailed<T>) -> FaultKind {
        FaultKind::OutOfMemory
    }
}

impl From<NamesFault> for FaultKind {
    ghost use Rattle.std.specs.Prelude.{◌≡◌};
    ghost use Rattle.grammar_core.specs.Grammar.{kind_of};

    ghost from_gives = { λ fault kind. kind ≡ kind_of fault };

    fn from(fault: NamesFault) -> FaultKind {
        match fault {
            NamesFault::WrongCount => FaultKind::WrongCount,
            NamesFault::BadName { at: _ } => FaultKind::BadName,
            NamesFault::Twice { at: _ } => FaultKind::Twice,
            NamesFault::OutOfMemory => FaultKind::OutOfMemory,
        }
    }
}

/// The first fault of a script. Lines are counted from 1; line 0 stands for the whole script.
#[derive(Clone, Copy, Debug, PartialEq, Eq, Error)]
#[error("line {line}: {kind}")]
pub struct ScriptFault {
    pub line: u64,
    pub kind: FaultKind,
}

impl ScriptFault {
    ghost use Rattle.grammar_core.specs.declared.fault.FaultKind.TheVariants.{OutOfMemory};

    /// The fault of the line with the number `line`. `OutOfMemory` belongs to no line, and stands at line 0.
    pub fn at(line: u64, kind: FaultKind) -> ScriptFault
        ensures memory { kind ≡ OutOfMemory → result ≡ record { line = 0; kind = OutOfMemory } }
        ensures other { kind ≢ OutOfMemory → result ≡ record { line = line; kind = kind } }
    {
        match kind {
            FaultKind::OutOfMemory => ScriptFault { line: 0, kind },
            _ => ScriptFault { line, kind },
        }
    }
}

impl From<Oom> for ScriptFault {
    ghost from_gives = { λ _ fault. fault ≡ record { line = 0; kind = OutOfMemory } };

    fn from(_refused: Oom) -> ScriptFault {
        ScriptFault {
            line: 0,
            kind: FaultKind::OutOfMemory,
        }
    }
}

impl<T: Drop> From<AllocFailed<T>> for ScriptFault {
    ghost from_gives = { λ _ fault. fault ≡ record { line = 0; kind = OutOfMemory } };

    fn from(_refused: AllocFailed<T>) -> ScriptFault {
        ScriptFault {
            line: 0,
            kind: FaultKind::OutOfMemory,
        }
    }
}
