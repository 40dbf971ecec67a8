//! The laws of runs and of the machine, as contracts of functions that do nothing.
//!
//! A crate above uses a law by calling its function.
ghost use Rattle.bench_core.specs.Headline.{BackLaw, GivenLaw, UndoLaw};
ghost use Rattle.bench_core.specs.Replays.{NoMemoryLaw, ReplayLaw};
ghost use Rattle.bench_core.specs.Unwinds.{LeastLaw, OthersLaw, UndoneInTurnLaw};
ghost use Rattle.bench_core.specs.Laws.{ChainLaw, ExchangeLaw, LoopLaw, MiddleLaw, OneEntryLaw, OwnRunLaw, PlacesLaw, RepeatLaw, SwapLaw};

/// The loop law: if a journal runs, its last step has no direct consequence, and taking that step out of the journal
/// gives the journal before it.
pub fn loop_law()
    ensures { LoopLaw }
{}

/// The middle law: at each point of a run, a node is what its own steps up to that point give, with the messages that
/// these steps deliver. A step without direct consequences can be left out of a run, and then its node alone changes,
/// to what it was just before the step.
pub fn middle_law()
    ensures own_run { OwnRunLaw }
    ensures left_out { MiddleLaw }
{}

/// The headline: three laws of every list of calls from the opening on. The cluster is what the remaining steps give. A
/// step can be taken back right after it was taken. An undo of a remaining step is refused only for a named
/// consequence, and then the remaining steps stay as they were.
pub fn headline_law()
    ensures given_by_the_remaining_steps { GivenLaw }
    ensures taken_back_at_once { BackLaw }
    ensures refused_only_for_a_named_consequence { UndoLaw }
{}

/// If the inverses lead back along the run of the remaining steps, each node's inverses, newest first, lead from what
/// the node is now back to the empty node.
pub fn chain_law()
    ensures { ChainLaw }
{}

/// Three laws of each machine to which calls lead from the opening. The undos of a step's future are all made, greatest
/// number first. If undos and backs are all made, and the step doesn't remain after them, none of its future remains.
/// Undos that are all made don't change a node if they undo none of its steps.
pub fn unwind_law()
    ensures future { UndoneInTurnLaw }
    ensures least { LeastLaw }
    ensures others { OthersLaw }
{}

/// The swap law: if swaps of adjacent independent steps turn one journal into another, either both run, to the same
/// cluster, or neither does. Step numbers don't matter. Swaps by place lead to an equivalent journal.
pub fn swap_law()
    ensures equal_runs { SwapLaw }
    ensures swaps_by_place { PlacesLaw }
{}

/// The delivery law: in what a journal gives, entries of one dot are equal, wherever they stand. Two adjacent
/// deliveries at one node may be exchanged if neither order meets `EntriesFull`. A delivery repeated at once is
/// accepted, and leaves the cluster the same.
pub fn delivery_law()
    ensures one_entry { OneEntryLaw }
    ensures exchanged { ExchangeLaw }
    ensures repeated { RepeatLaw }
{}

/// Let calls lead from the opening to a machine. If its recorded calls are made again from the opening, each gets its
/// old reply and is recorded, and they lead to the same state. The machine itself never replies `OutOfMemory`.
pub fn replay_law()
    ensures replayed { ReplayLaw }
    ensures no_memory { NoMemoryLaw }
{}
