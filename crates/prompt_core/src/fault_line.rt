//! The fault of a line, as a prompt prints it.
ghost use Rattle.std.specs.Prelude.{◌≡◌, ◌++◌, OnOk};
ghost use Rattle.prompt_core.specs.Responses.{fault_line, kind_name};

use dots_core::Oom;
use grammar_core::FaultKind;
use std::alloc::Allocator;

#[tactic(auto, unfolding(crate::specs::Responses::kind_name))]
fn kind_name(kind: FaultKind) -> &'static str
    ensures { result.now ≡ kind_name kind }
{
    match kind {
        FaultKind::NotText => "NotText",
        FaultKind::TooLong => "TooLong",
        FaultKind::NoNodes => "NoNodes",
        FaultKind::Twice => "Twice",
        FaultKind::UnknownWord => "UnknownWord",
        FaultKind::WrongCount => "WrongCount",
        FaultKind::NotAllowed => "NotAllowed",
        FaultKind::BadNumber => "BadNumber",
        FaultKind::BadName => "BadName",
        FaultKind::OutOfMemory => "OutOfMemory",
    }
}

/// Appends the bytes of `text` to `response`.
pub fn put_text<A: Allocator>(response: &mut Vec<u8, A>, text: &str) -> Result<(), Oom>
    ensures { OnOk result (response.new.items ≡ response.old.items ++ text.now) }
{
    Ok(response.extend_from_slice(text.as_bytes())?)
}

/// Appends `line NUMBER: KIND` and a line feed.
#[tactic(auto, unfolding(crate::specs::Responses::fault_line))]
pub fn put_fault<A: Allocator + Copy>(
    alloc: A,
    response: &mut Vec<u8, A>,
    number: u64,
    kind: FaultKind,
) -> Result<(), Oom>
    ensures { OnOk result (response.new.items ≡ response.old.items ++ fault_line number kind) }
{
    let name = kind_name(kind);
    let line = format!(in alloc; "line {number}: {name}\n")?;
    put_text(response, &line)
}
