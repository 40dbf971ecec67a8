//! A call as a line of a script.
ghost use Rattle.std.specs.Prelude.{◌≡◌, ◌++◌, OnOk, string_bytes};
ghost use Rattle.bench_core.specs.Acts.{plain_act};
ghost use Rattle.transcript_core.specs.Scripts.{call_line};

use crate::actors::{CastRef, actor_name};
use bench_core::Act;
use dots_core::Oom;
use report_core::{name_at, put_act};
use std::alloc::Allocator;

/// Appends the call as `NODE VERB ..`, `ACTOR undo NUMBER` or `ACTOR back NAME`, without a line feed. NODE and NAME are
/// empty if there is no such node, ACTOR if there is neither such a node nor such a console.
#[tactic(auto, unfolding(crate::specs::Scripts::call_line))]
pub fn put_call<A: Allocator, N: Allocator, C: Allocator, W: Allocator>(
    text: &mut String<A>,
    cast: &CastRef<'_, N, C>,
    actor: u16,
    act: &Act<W>,
) -> Result<(), Oom>
    ensures { OnOk result (string_bytes text.new ≡ string_bytes text.old ++
        call_line (record { nodes = cast.now.nodes.now; consoles = cast.now.consoles.now }) actor (plain_act act.now)) }
{
    match act {
        Act::Do(step) => put_act(text, cast.nodes, actor, step),
        Act::Undo(number) => {
            let actor = actor_name(cast, actor);
            Ok(write!(text, "{actor} undo {number}")?)
        }
        Act::Back(node) => {
            let actor = actor_name(cast, actor);
            let node = name_at(cast.nodes, *node);
            Ok(write!(text, "{actor} back {node}")?)
        }
    }
}
