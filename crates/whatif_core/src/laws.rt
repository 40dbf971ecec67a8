//! The laws of differences, as contracts of functions that do nothing.
ghost use Rattle.std.specs.Prelude.{List};
ghost use Rattle.bench_core.specs.Machine.{Machine};
ghost use Rattle.journal_core.specs.Journals.{Kept};
ghost use Rattle.change_core.specs.Changes.{changes};
ghost use Rattle.whatif_core.specs.Differences.{tally_of};
ghost use Rattle.whatif_core.specs.Exact.{AreAllChanges, AreExactly, ToldRunsLaw};
ghost use Rattle.change_core.specs.Questions.{Question};

/// `changes` gives all changes that can be made to a run, and `whatif` exactly those that make a difference. For each
/// difference that `whatif` tells, the run with the nearest of its changes has an order in which no message comes
/// before it is sent.
pub fn exact_law()
    ensures changes { (ks : List Kept) → AreAllChanges ks (changes ks) }
    ensures exactly { (m : Machine) (q : Question) → AreExactly m q (tally_of m q).told }
    ensures told_runs { ToldRunsLaw }
{}
