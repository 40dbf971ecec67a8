//! The changes that make a difference.
ghost use Rattle.std.specs.Prelude.{◌≡◌, ◌<◌, IfOk, OnOk, length};
ghost use Rattle.change_core.specs.Changes.{changes};
ghost use Rattle.whatif_core.specs.Differences.{nothing, tally_of};
ghost use Rattle.change_core.specs.Ends.{rows_before};
ghost use Rattle.whatif_core.specs.Exact.{AreExactly};
ghost use Rattle.change_core.specs.Searches.{IsSearch};
ghost use Rattle.progress_core.specs.Watches.{Watched};

use crate::changes::changes;
use crate::difference::{Difference, Tally};
use crate::laws::exact_law;
use bench_core::{Bench, Kept};
use change_core::{Change, Question, Search, copied, rows_before};
use diff_core::OnlineRow;
use dots_core::Oom;
use progress_core::{Tried, Watch};
use std::alloc::Allocator;

/// What `whatif` found: the rows without a change, how many changes it tried, and those that make a difference.
#[derive(Drop)]
pub struct Differences<A: Allocator> {
    /// The rows that are asked for, at the end of the recorded run.
    pub before: Vec<OnlineRow<A>, A>,
    /// How many changes can be made to the run.
    pub tried: usize,
    /// How many of the changes tried are possible.
    pub possible: usize,
    /// How many of the possible changes make a difference.
    pub differ: usize,
    /// The changes that make a difference, together if they are of the same step and kind and lead to the same rows:
    /// step after step, then kind after kind, the nearest first.
    pub told: Vec<Difference<A>, A>,
}

/// What `whatif` goes over, and its allocator. None of it changes meanwhile.
#[derive(Drop)]
struct Trial<'a, 't, B: Allocator> {
    // form: the field `bench` is for the contracts alone
    bench: &'t Bench<'a, B>,
    /// The bench's remaining steps.
    steps: &'t [Kept<&'a B>],
    /// All changes of the steps.
    tried: &'t [Change],
    /// The rows that the question asks for, without a change.
    before: &'t [OnlineRow<&'a B>],
    question: &'t Question<&'a B>,
    alloc: &'a B,
}

/// Lets `search` find the rows to which each change of the trial leads, and counts the change in the tally by these
/// rows. The tally must be new. Tells `watch` after each change how many were tried.
fn count_all<'a, B: Allocator, W: Watch<Tried>>(
    tally: &mut Tally<&'a B>,
    search: &mut Search<'a, B>,
    trial: &Trial<'a, '_, B>,
    watch: &mut W,
) -> Result<(), Oom>
    requires steps { trial.now.steps.now ≡ trial.now.bench.now.state.remaining }
    requires tried { trial.now.tried.now ≡ changes trial.now.steps.now }
    requires before { trial.now.before.now ≡ rows_before trial.now.bench.now trial.now.question.now }
    requires search { IsSearch trial.now.bench.now trial.now.question.now trial.now.steps.now search.old }
    requires none { tally.old ≡ nothing }
    ensures tally { OnOk result (tally.new ≡ tally_of trial.now.bench.now trial.now.question.now) }
    ensures watched { Watched W.told watch.old watch.new }
{
    let tried = trial.tried;
    for place in 0..tried.len() {
        let change = tried[place];
        let rows = search.rows_after(trial.steps, change, trial.question, trial.alloc)?;
        tally.count(trial.before, change, rows, trial.alloc)?;
        watch.tell(Tried {
            done: place + 1,
            all: tried.len(),
        });
    }
    Ok(())
}

/// Tries the changes in turn on a new search. Gives how many are possible, how many make a difference to the rows
/// `before`, and the differences. Tells `watch` after each change how many were tried.
fn tally_of<'a, B: Allocator, W: Watch<Tried>>(
    trial: &Trial<'a, '_, B>,
    watch: &mut W,
) -> Result<Tally<&'a B>, Oom>
    requires steps { trial.now.steps.now ≡ trial.now.bench.now.state.remaining }
    requires tried { trial.now.tried.now ≡ changes trial.now.steps.now }
    requires before { trial.now.before.now ≡ rows_before trial.now.bench.now trial.now.question.now }
    ensures tally { IfOk result (λ tally. tally ≡ tally_of trial.now.bench.now trial.now.question.now) }
    ensures watched { Watched W.told watch.old watch.new }
{
    let mut search = Search::new(trial.bench, trial.steps, trial.before, trial.alloc)?;
    let mut tally = Tally::new(trial.alloc);
    let counted = count_all(&mut tally, &mut search, trial, watch);
    // form: drop before exit
    search.discard();
    if counted.is_err() {
        drop(tally);
        return Err(Oom);
    }
    Ok(tally)
}

/// Finds the changes of the remaining steps that make a difference to the rows that are asked for, with the rows to
/// which they lead. A change is possible if the changed steps have an order in which no message comes before it is
/// sent, and in which each step is accepted. Tells `watch` after each change how many were tried.
pub fn whatif<'a, B: Allocator, W: Watch<Tried>>(
    bench: &Bench<'a, B>,
    question: &Question<&'a B>,
    alloc: &'a B,
    watch: &mut W,
) -> Result<Differences<&'a B>, Oom>
    ensures before { IfOk result (λ it. it.before.items ≡ rows_before bench.now question.now) }
    ensures tried { IfOk result (λ it. it.tried ≡ length (changes bench.now.state.remaining)) }
    ensures possible { IfOk result (λ it. it.possible ≡ (tally_of bench.now question.now).possible) }
    ensures differ { IfOk result (λ it. it.differ ≡ (tally_of bench.now question.now).differ) }
    ensures told { IfOk result (λ it. it.told.items ≡ (tally_of bench.now question.now).told) }
    ensures exactly { IfOk result (λ it. AreExactly bench.now question.now it.told.items) }
    ensures watched { Watched W.told watch.old watch.new }
{
    // form: hands out a law, for the proof
    exact_law();
    let steps = copied(bench.remaining(), alloc)?;
    let before = rows_before(bench, question, alloc)?;
    let tried = changes(steps.as_slice(), alloc)?;
    let trial = Trial {
        bench,
        steps: steps.as_slice(),
        tried: tried.as_slice(),
        before: before.as_slice(),
        question,
        alloc,
    };
    let tally = tally_of(&trial, watch);
    // form: drop before exit
    drop(steps);
    let Tally {
        possible,
        differ,
        told,
    } = tally?;
    Ok(Differences {
        before,
        tried: tried.len(),
        possible,
        differ,
        told,
    })
}
