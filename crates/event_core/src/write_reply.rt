//! A reply as JSON.
ghost use Rattle.std.specs.Prelude.{◌≡◌, ◌∷◌, [], IfOk, codes};
ghost use Rattle.serde_json.specs.Data.{string};
ghost use Rattle.serde_json.specs.View.{view};
ghost use Rattle.event_core.specs.Format.{list, whole, code_of, reply_json};

use bench_core::{Fault, Reply};
use dots_core::Oom;
use serde_json::{Value, json};
use std::alloc::Global;

/// A reply that has a step's number, as JSON.
fn numbered_value(heap: Global, word: &str, number: u64) -> Result<Value, Oom>
    ensures { IfOk result (λ v. view v ≡ list (string word.now ∷ whole number ∷ [])) }
{
    json!(in heap; [word, number])
}

/// A refusal that names a consequence, as JSON.
fn consequence_value(heap: Global, step: u64, held_by: u64) -> Result<Value, Oom>
    ensures { IfOk result (λ v. view v ≡ list (string (codes "no") ∷ whole 16 ∷ whole step ∷ whole held_by ∷ [])) }
{
    json!(in heap; ["no", 16u8, step, held_by])
}

/// A refusal whose fault has no fields, as JSON.
fn refusal_value(heap: Global, fault: Fault) -> Result<Value, Oom>
    ensures { IfOk result (λ v. view v ≡ list (string (codes "no") ∷ whole (code_of fault) ∷ [])) }
{
    json!(in heap; ["no", fault.code()])
}

pub(crate) fn reply_value(heap: Global, reply: &Reply) -> Result<Value, Oom>
    ensures { IfOk result (λ v. view v ≡ reply_json reply.now) }
{
    match reply {
        Reply::Taken(number) => numbered_value(heap, "ok", *number),
        Reply::Undone(number) => numbered_value(heap, "undone", *number),
        Reply::Refused(Fault::HasConsequence { step, held_by }) => {
            consequence_value(heap, *step, *held_by)
        }
        Reply::Refused(fault) => refusal_value(heap, *fault),
    }
}
