//! Whether a step that was taken remains, and in which row the step stands.
ghost use Rattle.std.specs.Prelude.{◌≡◌, ◌==◌, IfOk};
ghost use Rattle.std.specs.List.{list_any};
ghost use Rattle.journal_core.specs.Holdings.{kepts};
ghost use Rattle.picture_core.specs.Shades.{drawn_steps, of_message, shade_of, step_at, with_reply};

use bench_core::{Bench, Journal, Reply};
use dots_core::Oom;
use std::alloc::Allocator;

/// Whether a step that was taken remains, and whether it is painted.
#[derive(Clone, Copy, Debug, PartialEq, Eq)]
pub enum Shade {
    /// The step remains, and isn't painted.
    Remains,
    /// The step remains, and is painted as a part of the future that is asked about.
    Painted,
    /// The step was taken back.
    Undone,
}

/// What a picture knows of a step.
#[derive(Clone, Copy, Debug, PartialEq, Eq)]
pub struct Drawn {
    /// The row of the call that took the step.
    pub row: u32,
    pub shade: Shade,
}

impl Drawn {
    /// What stands in for a step that was never taken.
    const NOTHING: Drawn = Drawn {
        row: 0,
        shade: Shade::Undone,
    };
}

impl Shade {
    /// The `Shade` of a message, from that of its delivery (`self`) and that of its send (`sent`): taken back if the
    /// delivery is, painted if both are, and else remaining.
    pub fn of_message(self, sent: Shade) -> Shade
        ensures { result ≡ of_message self sent }
    {
        match self {
            Shade::Undone => Shade::Undone,
            Shade::Painted => match sent {
                Shade::Painted => Shade::Painted,
                Shade::Remains | Shade::Undone => Shade::Remains,
            },
            Shade::Remains => Shade::Remains,
        }
    }
}

/// Whether the step with this number is among the painted ones.
fn is_painted(painted: &[u64], number: u64) -> bool
    ensures { result ≡ list_any (λ n. n == number) painted.now }
{
    painted.iter().any(|n| *n == number)
}

/// Whether the step with this number, which was taken, remains, and whether it is painted.
#[tactic(auto, unfolding(crate::specs::Shades::shade_of))]
fn shade_of<'a, B: Allocator>(remaining: &Journal<'a, B>, painted: &[u64], number: u64) -> Shade
    ensures { result ≡ shade_of (kepts remaining.now.steps) painted.now number }
{
    let Some(_kept) = remaining.find(number) else {
        return Shade::Undone;
    };
    if is_painted(painted, number) {
        Shade::Painted
    } else {
        Shade::Remains
    }
}

/// Notes in `steps` the step that the call in this row took, if the reply says that the call took one.
fn note_reply<'a, B: Allocator>(
    remaining: &Journal<'a, B>,
    steps: &mut Vec<Drawn, &'a B>,
    painted: &[u64],
    row: u32,
    reply: Reply,
)
    ensures { steps.new.items ≡ with_reply (kepts remaining.now.steps) painted.now row reply steps.old.items }
{
    if let Reply::Taken(number) = reply {
        let shade = shade_of(remaining, painted, number);
        if let Some(step) = steps.get_mut(number as usize) {
            *step = Drawn { row, shade };
        }
    }
}

/// What a picture knows of each step, at the place of the step's number; `Drawn::NOTHING` at a place without a step,
/// such as 0. `painted` has the numbers of the painted steps.
#[tactic(auto, unfolding(crate::specs::Shades::drawn_steps))]
pub fn drawn_steps<'a, B: Allocator>(
    bench: &Bench<'a, B>,
    painted: &[u64],
    alloc: &'a B,
) -> Result<Vec<Drawn, &'a B>, Oom>
    ensures { IfOk result (λ steps. steps.items ≡ drawn_steps bench.now painted.now) }
{
    // form: hands out what the bench keeps
    bench.bench_law();
    let history = bench.history();
    let mut steps = vec![in alloc; Drawn::NOTHING; history.len() + 1]?;
    for place in 0..history.len() {
        if let Some(event) = history.at(place) {
            note_reply(
                bench.remaining(),
                &mut steps,
                painted,
                place as u32,
                event.reply,
            );
        }
    }
    Ok(steps)
}

/// What a picture knows of the step with this number; `Drawn::NOTHING` if no step has it.
pub fn step_at(steps: &[Drawn], number: u64) -> Drawn
    ensures { result ≡ step_at steps.now number }
{
    match steps.get(number as usize) {
        Some(step) => *step,
        None => Drawn::NOTHING,
    }
}
