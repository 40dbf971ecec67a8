//! `Aside`: what to print about a refused input or question after the line of its fault.
use crate::fault::ProgramFault;
use explain_core::AskFault;
use explore_report::ReportFault;
use hint_core::{import_hint, script_hint, session_hint};
use import_core::ImportFault;
use picture_core::DrawFault;
use script_core::{FaultKind, ScriptFault};
use session_core::SessionFault;
use std::alloc::Global;
use std::io::Write;
use whatif_report::WhatifFault;

/// The hint of the fault that a race finds once the input is gone. It is true of a play's line, too.
const NOT_ALLOWED: &str =
    "hint: a console may undo, go back and unwind; a race takes steps, undos and backs alone\n";

const NO_SUCH_NODE: &str =
    "hint: the line `nodes` of a script names the nodes; a session has their names at `nodes`\n";

const NO_WORD: &str =
    "hint: a word has 1 to 200 bytes of graphic ASCII; `import` writes a space as `%20`\n";

/// The hint behind a fault if the input has none: of a question about a run, or of a race's line. It is a line with its
/// line feed, or empty if there is none.
fn hint_of(fault: ProgramFault) -> &'static str {
    match fault {
        ProgramFault::Script(fault) if fault.kind == FaultKind::NotAllowed => NOT_ALLOWED,
        ProgramFault::Explain(AskFault::NoSuchNode)
        | ProgramFault::Whatif(WhatifFault::NoSuchNode)
        | ProgramFault::Explore(ReportFault::NoSuchNode)
        | ProgramFault::Draw(DrawFault::NoSuchNode) => NO_SUCH_NODE,
        ProgramFault::Explain(AskFault::NoWord)
        | ProgramFault::Whatif(WhatifFault::NoWord)
        | ProgramFault::Explore(ReportFault::NoWord)
        | ProgramFault::Draw(DrawFault::NoWord) => NO_WORD,
        _ => "",
    }
}

/// The hint that was made of a refused input, to be printed after the line of its fault; `None` if the input has no
/// hint, or memory for the hint was refused.
#[derive(Drop)]
pub struct Aside {
    heap: Global,
    hint: Option<Vec<u8>>,
}

impl Aside {
    pub(crate) fn new(heap: Global) -> Self {
        Aside { heap, hint: None }
    }

    /// Makes the hint for a script that was refused with this fault. `bytes` are the script, or as much of it as was
    /// kept.
    pub(crate) fn of_script(&mut self, bytes: &[u8], fault: ScriptFault) {
        if let Ok(hint) = script_hint(self.heap, bytes, fault) {
            self.hint = hint;
        }
    }

    /// Makes the hint for a session that isn't JSON; for any other fault, makes none.
    pub(crate) fn of_session(&mut self, bytes: &[u8], fault: SessionFault) {
        if fault != SessionFault::NotJson {
            return;
        }
        if let Ok(hint) = session_hint(self.heap, bytes) {
            self.hint = Some(hint);
        }
    }

    /// Makes the hint for events that were refused with this fault. `bytes` are the events, or as much of them as was
    /// kept.
    pub(crate) fn of_import(&mut self, bytes: &[u8], fault: ImportFault) {
        if let Ok(hint) = import_hint(self.heap, bytes, fault) {
            self.hint = hint;
        }
    }

    /// Prints the hint of the input, or else that of the fault, if there is one, as far as it can be written.
    pub(crate) fn put<E: Write>(&self, fault: ProgramFault, errors: &mut E) {
        let _ = match &self.hint {
            Some(hint) => errors.write_all(hint),
            None => errors.write_all(hint_of(fault).as_bytes()),
        };
    }
}
