//! `Search`, which finds where changed runs lead. A run is played from the place where it parts from the run that was
//! played last, and only until it meets a run whose end is known.
ghost use Rattle.std.specs.Prelude.{◌≡◌, ◌<◌, ◌≤◌, ◌-◌, IfOk, drop, length, option_map};
ghost use Rattle.bench_core.specs.Machine.{Machine};
ghost use Rattle.change_core.specs.Ends.{rows_before};
ghost use Rattle.change_core.specs.Questions.{Question as Asked};
ghost use Rattle.change_core.specs.Searches.{known_of, AreRowsAfter, AreRowsOf, AreWalks, Finds, IsSearch, Meets, MeetsOn};
ghost use Rattle.change_core.specs.Walks.{steps_in, IsWalkOf};

use crate::change::Change;
use crate::changed::{all_places, places_with};
use crate::question::Question;
use crate::rows::{Rows, copied_rows, rows_at};
use crate::walk::Walk;
use bench_core::{Bench, Kept};
use diff_core::OnlineRow;
use dots_core::Oom;
use std::alloc::Allocator;
use std::marker::Model;

/// `find_known` tries the two known runs one after the other. To see whether a run meets the first, it plays one step
/// of their common end, and for the second up to this many. Most runs meet one of the two at once; most of those that
/// meet none within a few dozen steps never do.
const FAR: usize = 64;

/// A run whose end is known: the places of the run's steps among the recorded ones, and the rows asked for at the end.
#[derive(Drop)]
struct Known<A: Allocator> {
    places: Vec<usize, A>,
    rows: Rows<A>,
}

impl<A: Allocator> Model for Known<A> {
    ghost use Rattle.change_core.specs.Searches.{known_code, Known};

    ghost Value = { Known };

    ghost coded = { known_code };

    ghost view = { λ k. record { places = k.places.items; rows = k.rows.items } };
}

/// Two walks, on which runs are played side by side, and two runs whose ends are known.
#[derive(Drop)]
pub struct Search<'a, B: Allocator> {
    here: Walk<'a, B>,
    there: Walk<'a, B>,
    /// The recorded run.
    recorded: Known<&'a B>,
    /// The last run that was possible; the recorded one at first.
    last: Known<&'a B>,
    /// Whether the next run is expected to end as `last` does rather than as `recorded` does.
    prefers_last: bool,
}

impl<'a, B: Allocator> Model for Search<'a, B> {
    ghost use Rattle.change_core.specs.Searches.{search_code, Search};

    ghost Value = { Search };

    ghost coded = { search_code };

    ghost view = { λ s. record { here = s.here; there = s.there; recorded = s.recorded; last = s.last } };
}

/// How many places the two lists have in common at their ends.
fn common_end(places: &[usize], others: &[usize]) -> usize
    ensures within { result ≤ length places.now }
    ensures others { result ≤ length others.now }
    ensures same { drop (length places.now - result) places.now ≡ drop (length others.now - result) others.now }
{
    let most = places.len().min(others.len());
    for count in 0..most {
        if places[places.len() - 1 - count] != others[others.len() - 1 - count] {
            return count;
        }
    }
    most
}

/// Plays up to `far` of the steps at `places` on both walks, until it finds the walks' clusters to be the same, and
/// says whether it did. `meet_on` compares the clusters only before step 0, 1, 3, 7 and so on, and not after the last.
/// False also if a walk refuses a step.
fn meet_on<'a, B: Allocator>(
    here: &mut Walk<'a, B>,
    there: &mut Walk<'a, B>,
    steps: &[Kept<&'a B>],
    places: &[usize],
    far: usize,
) -> Result<bool, Oom>
    ensures { IfOk result (MeetsOn steps.now places.now here.old here.new there.old there.new) }
{
    for turn in 0..places.len().min(far) {
        let is_look = turn & (turn + 1) == 0;
        if is_look && here.cluster().same(there.cluster()) {
            return Ok(true);
        }
        if !here.ask_at(steps, places[turn])? || !there.ask_at(steps, places[turn])? {
            return Ok(false);
        }
    }
    Ok(false)
}

/// Plays `run` on the walk `here` and `known` on `there`, each up to the end that both runs have in common, and then up
/// to `far` steps of that end on both. Says whether `meet_on` found the walks' clusters to be the same. False also if a
/// step is refused.
fn meet<'a, B: Allocator>(
    here: &mut Walk<'a, B>,
    there: &mut Walk<'a, B>,
    steps: &[Kept<&'a B>],
    run: &[usize],
    known: &[usize],
    far: usize,
) -> Result<bool, Oom>
    requires here { IsWalkOf steps.now here.old }
    requires there { IsWalkOf steps.now there.old }
    ensures { IfOk result (Meets steps.now run.now known.now here.old here.new there.old there.new) }
{
    let rest = common_end(run, known);
    let (begin, end) = run.split_at(run.len() - rest);
    let (known_begin, _known_end) = known.split_at(known.len() - rest);
    if !here.go_to(steps, begin)? {
        return Ok(false);
    }
    if !there.go_to(steps, known_begin)? {
        return Ok(false);
    }
    meet_on(here, there, steps, end, far)
}

/// Like `meet`, but takes the places of the second run out of a `Known`.
fn meet_known<'a, B: Allocator>(
    here: &mut Walk<'a, B>,
    there: &mut Walk<'a, B>,
    steps: &[Kept<&'a B>],
    run: &[usize],
    known: &Known<&'a B>,
    far: usize,
) -> Result<bool, Oom>
    requires here { IsWalkOf steps.now here.old }
    requires there { IsWalkOf steps.now there.old }
    ensures { IfOk result (Meets steps.now run.now known.now.places here.old here.new there.old there.new) }
{
    meet(here, there, steps, run, known.places.as_slice(), far)
}

/// The recorded run, with copies of the rows `before` as those at its end.
fn recorded_run<W: Allocator, A: Allocator + Copy>(
    steps: &[Kept<W>],
    before: &[OnlineRow<A>],
    alloc: A,
) -> Result<Known<A>, Oom>
    ensures places { IfOk result (λ known. steps_in steps.now known.places ≡ steps.now) }
    ensures rows { IfOk result (λ known. known.rows ≡ before.now) }
{
    let places = all_places(steps, alloc)?;
    let rows = copied_rows(before, alloc)?;
    Ok(Known { places, rows })
}

impl<'a, B: Allocator> Search<'a, B> {
    /// Drops the search. A crate that calls this needs no proof of how the parts of a search are dropped.
    pub fn discard(self) {
        drop(self);
    }

    /// A search on a bench whose remaining steps are `steps`. `before` has the rows that are asked for, as the bench
    /// has them: those with some topic and key in the online list of some node.
    pub fn new(
        bench: &Bench<'a, B>,
        steps: &[Kept<&'a B>],
        before: &[OnlineRow<&'a B>],
        alloc: &'a B,
    ) -> Result<Self, Oom>
        requires { steps.now ≡ bench.now.state.remaining }
        ensures { IfOk result (λ search. (q : Asked) → before.now ≡ rows_before bench.now q → IsSearch bench.now q steps.now search) }
    {
        // form: hands out what the value keeps
        bench.bench_law();
        let recorded = recorded_run(steps, before, alloc)?;
        let last = recorded_run(steps, before, alloc)?;
        let here = Walk::new(bench, alloc)?;
        let there = Walk::new(bench, alloc)?;
        Ok(Search {
            here,
            there,
            recorded,
            last,
            prefers_last: false,
        })
    }

    /// Plays `run`, which is given by the places of its steps, side by side with the last run if `is_last`, and else
    /// with the recorded one. Says whether `meet` found the two clusters to be the same within `far` steps.
    fn meets(
        &mut self,
        steps: &[Kept<&'a B>],
        run: &[usize],
        is_last: bool,
        far: usize,
    ) -> Result<bool, Oom>
        requires { AreWalks steps.now self.old }
        ensures recorded { self.new.recorded ≡ self.old.recorded }
        ensures last { self.new.last ≡ self.old.last }
        ensures meets { IfOk result (Meets steps.now run.now (known_of is_last self.old).places self.old.here self.new.here self.old.there self.new.there) }
    {
        if is_last {
            return meet_known(&mut self.here, &mut self.there, steps, run, &self.last, far);
        }
        meet_known(
            &mut self.here,
            &mut self.there,
            steps,
            run,
            &self.recorded,
            far,
        )
    }

    /// Guesses whether the run ends as the last one did rather than as the recorded one: yes if it has more steps at
    /// its end in common with the last one. If it has as many in common with either, `prefers_last` decides.
    fn is_near_last(&self, run: &[usize]) -> bool {
        let by_last = common_end(run, self.last.places.as_slice());
        let by_recorded = common_end(run, self.recorded.places.as_slice());
        by_recorded < by_last || (by_recorded == by_last && self.prefers_last)
    }

    /// Looks for a known run that ends in the same cluster as `run`. Gives true for the last run, false for the
    /// recorded one, and `None` if neither was found to end so, though one may. `run` is given by the places of its
    /// steps. Notes in `prefers_last` which of the two the next run is expected to end like.
    fn find_known(&mut self, steps: &[Kept<&'a B>], run: &[usize]) -> Result<Option<bool>, Oom>
        requires { AreWalks steps.now self.old }
        ensures { IfOk result (Finds steps.now run.now self.old self.new) }
    {
        let is_last = self.is_near_last(run);
        if self.meets(steps, run, is_last, 1)? {
            self.prefers_last = is_last;
            return Ok(Some(is_last));
        }
        if self.meets(steps, run, !is_last, FAR)? {
            self.prefers_last = !is_last;
            return Ok(Some(!is_last));
        }
        self.prefers_last = true;
        Ok(None)
    }

    /// A copy of the rows at the end of the last run if `is_last`, and else of the recorded one.
    fn known_rows(&self, is_last: bool, alloc: &'a B) -> Result<Rows<&'a B>, Oom>
        ensures { IfOk result (λ rows. rows.items ≡ (known_of is_last self.now).rows) }
    {
        if is_last {
            return copied_rows(self.last.rows.as_slice(), alloc);
        }
        copied_rows(self.recorded.rows.as_slice(), alloc)
    }

    /// The rows that are asked for, at the end of the run of the steps at these places; `None` if a step is refused.
    /// Plays the run up to its end.
    fn own_rows(
        &mut self,
        steps: &[Kept<&'a B>],
        run: &[usize],
        question: &Question<&'a B>,
        alloc: &'a B,
    ) -> Result<Option<Rows<&'a B>>, Oom>
        requires { AreWalks steps.now self.old }
        ensures { IfOk result (λ rows. (m : Machine) → IsSearch m question.now steps.now self.old →
            AreRowsOf m question.now steps.now run.now self.new (option_map (λ r. r.items) rows)) }
    {
        if !self.here.go_to(steps, run)? {
            return Ok(None);
        }
        let rows = rows_at(self.here.cluster(), question, alloc)?;
        Ok(Some(rows))
    }

    /// Like `own_rows`, but first looks for a known run that ends the same. If there is one, copies its rows, and
    /// doesn't play the run to its end.
    fn rows_of(
        &mut self,
        steps: &[Kept<&'a B>],
        run: &[usize],
        question: &Question<&'a B>,
        alloc: &'a B,
    ) -> Result<Option<Rows<&'a B>>, Oom>
        requires { AreWalks steps.now self.old }
        ensures { IfOk result (λ rows. (m : Machine) → IsSearch m question.now steps.now self.old →
            AreRowsOf m question.now steps.now run.now self.new (option_map (λ r. r.items) rows)) }
    {
        match self.find_known(steps, run)? {
            Some(is_last) => Ok(Some(self.known_rows(is_last, alloc)?)),
            None => self.own_rows(steps, run, question, alloc),
        }
    }

    /// The rows that are asked for, at the end of the run with this change; `None` if that run isn't possible. `new`
    /// must have been given the same steps, and the rows that this question asks for. Both places of the change must be
    /// places of steps. A possible run becomes the last one. After a refused request for memory the search can't be
    /// used again.
    pub fn rows_after(
        &mut self,
        steps: &[Kept<&'a B>],
        change: Change,
        question: &Question<&'a B>,
        alloc: &'a B,
    ) -> Result<Option<Rows<&'a B>>, Oom>
        requires walks { AreWalks steps.now self.old }
        requires place { change.place < length steps.now }
        requires beside { change.beside < length steps.now }
        ensures { IfOk result (λ rows. (m : Machine) → steps.now ≡ m.state.remaining
            → IsSearch m question.now steps.now self.old →
            AreRowsAfter m question.now steps.now change self.new (option_map (λ r. r.items) rows)) }
    {
        let Some(run) = places_with(steps, change, alloc)? else {
            return Ok(None);
        };
        let Some(rows) = self.rows_of(steps, run.as_slice(), question, alloc)? else {
            return Ok(None);
        };
        let copies = copied_rows(rows.as_slice(), alloc)?;
        self.last = Known {
            places: run,
            rows: copies,
        };
        Ok(Some(rows))
    }
}
