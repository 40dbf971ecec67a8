//! The texts of those faults of a play that no input makes.
use crate::cases::holds;
use script_core::{FaultKind, PlayFault, ScriptFault};
use std::alloc::Global;
use std::process::Abort;

/// Faults that no input makes, each with its text.
const FAULTS: &[(PlayFault, &str)] = &[
    (
        PlayFault::Script(ScriptFault {
            line: 7,
            kind: FaultKind::OutOfMemory,
        }),
        "line 7: OutOfMemory",
    ),
    (PlayFault::OutOfMemory, "out of memory"),
];

/// Whether `text` is the text of the fault.
fn is_told_as(rt: &impl Abort, heap: Global, fault: PlayFault, text: &str) -> bool {
    let told = format!(in heap; "{fault}").expect(rt, "memory");
    told.as_str() == text
}

#[test]
fn refused_memory_has_its_text(rt: HostRuntime) {
    for (fault, text) in FAULTS {
        holds(&rt, is_told_as(&rt, rt.alloc(), *fault, text), text);
    }
}
