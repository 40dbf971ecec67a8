//! `Cone`: which names matter at a node once it has taken 0, 1, 2 and so on of its own steps (all but deliveries), and
//! which matter in each message. A name matters where its dots can decide what the end of a run shows to the question.
ghost use Rattle.std.specs.Prelude.{◌≡◌, ◌<◌, ℕ, map, suc, true, IsTrue, Some, slice_get};
ghost use Rattle.std.specs.FinSet.{contains};
ghost use Rattle.std.specs.List.{AllByRecursion};
ghost use Rattle.dots_core.specs.declared.dot.Dot.{Dot as PlainDot};
ghost use Rattle.dots_core.specs.Names.{most_names};
ghost use Rattle.node_core.specs.Operations.{plain};
ghost use Rattle.journal_core.specs.Journals.{Kept as PlainKept};
ghost use Rattle.network_rules.specs.declared.turn.Rank.{Rank as PlainRank};
ghost use Rattle.network_core.specs.Cones.{says};
ghost use Rattle.network_rules.specs.declared.turn.Turn.{Turn as PlainTurn};
ghost use Rattle.network_rules.specs.Tables.{asks, carried, in_row, is_wanted, matter, names_at, AreAllAsked, IsAsked, IsAskedAt, IsClosed, KeepsAt, Within};

use crate::names::{all_names, common, is_within};
use crate::recorded_run::RecordedRun;
use crate::turn::{Rank, Turn, delivery};
use bench_core::{Kept, Step};
use dots_core::{Dot, NameSet};
use std::alloc::Allocator;
use std::marker::Model;

/// For each node a list of sets of names. (Not rows of an online list.)
pub type Rows<A> = Vec<Vec<NameSet, A>, A>;

/// The dots that a question is about, and which names matter for them, at nodes and in messages.
#[derive(Drop)]
pub struct Cone<'a, B: Allocator> {
    dots: Vec<Dot, &'a B>,
    /// For each node, after each number of its own steps, the names whose dots matter there.
    matters: Rows<&'a B>,
    /// For each node and each of its messages, the names whose dots matter in it.
    carries: Rows<&'a B>,
}

impl<'a, B: Allocator> Model for Cone<'a, B> {
    ghost use Rattle.std.specs.Prelude.{map};
    ghost use Rattle.network_rules.specs.Tables.{tables_code, Tables};

    ghost Value = { Tables };

    ghost coded = { tables_code };

    ghost view = { λ c. record { dots = c.dots.items; matters = map (λ row. row.items) c.matters.items; carries = map (λ row. row.items) c.carries.items } };
}

/// The names at `place` in a node's list; those at its last place if the list is shorter; all names if it is empty.
fn in_row(row: &[NameSet], place: usize) -> NameSet
    ensures { result ≡ in_row (Some row.now) place }
{
    match row.get(place) {
        Some(names) => *names,
        None => match row.last() {
            Some(names) => *names,
            None => all_names(),
        },
    }
}

/// Like `in_row`, for the list of `node`; all names if the node has no list.
fn names_at<A: Allocator>(rows: &[Vec<NameSet, A>], node: usize, place: usize) -> NameSet
    ensures { result ≡ names_at (map (λ row. row.items) rows.now) node place }
{
    match rows.get(node) {
        Some(row) => in_row(row, place),
        None => all_names(),
    }
}

/// `carried` are the names that matter in the message that a step sends. This gives those of them whose dots the step
/// may take from what its node has seen: for an extract those that it names, for an answer all, for other steps none.
pub fn said<A: Allocator>(step: &Step<A>, carried: NameSet) -> NameSet
    ensures { (q : ℕ) → contains carried q ≡ true → says (plain step.now) q ≡ true → contains result q ≡ true }
{
    match step {
        Step::Extract { names } => common(*names, carried),
        Step::Answer {
            sender: _,
            number: _,
        } => carried,
        _ => NameSet::empty(),
    }
}

impl<'a, B: Allocator> Cone<'a, B> {
    /// The dots that the question is about.
    pub fn dots(&self) -> &[Dot]
        ensures { result.now ≡ self.now.dots }
    {
        self.dots.as_slice()
    }

    /// The names that matter to a node after `taken` of its own steps, as `names_at` finds them: all names if the cone
    /// has no list for the node.
    pub fn matter(&self, node: u16, taken: usize) -> NameSet
        ensures { result ≡ matter self.now node taken }
    {
        names_at(self.matters.as_slice(), node as usize, taken)
    }

    /// The names that matter in the node's message with this number, counted from 1, as `names_at` finds them: all
    /// names if the cone has no list for the node.
    pub fn carried(&self, node: u16, number: u64) -> NameSet
        ensures { result ≡ carried self.now node number }
    {
        names_at(
            self.carries.as_slice(),
            node as usize,
            // form: saturating spares a requirement
            number.saturating_sub(1) as usize,
        )
    }

    /// Whether the names that matter to a node never grow along its own steps: each set of names has all names of the
    /// next one.
    fn falls(&self) -> bool
        ensures { IsTrue result → (n p : ℕ) → Within (matter self.now n (suc p)) (matter self.now n p) }
    {
        are_falling(self.matters.as_slice())
    }

    /// Whether the cone leaves out no name at this step. At a delivery, the names that matter to the node before its
    /// first own step must matter in the message. At an own step, the names that `said` gives of those that matter in
    /// the step's message must matter to the node before the step.
    fn keeps_at<A: Allocator>(&self, kept: &Kept<A>, rank: Rank) -> bool
        ensures { IsTrue result → KeepsAt self.now kept.now rank }
    {
        match delivery(&kept.step) {
            Some((sender, number)) => {
                is_within(self.matter(kept.node, 0), self.carried(sender, number))
            }
            None => is_within(
                said(&kept.step, self.carried(kept.node, rank.number)),
                self.matter(kept.node, rank.before),
            ),
        }
    }

    /// Like `keeps_at`, but for the step at `place`; true if there is no such step, or it has no rank.
    fn keeps_place<A: Allocator>(&self, steps: &[Kept<A>], ranks: &[Rank], place: usize) -> bool
        ensures { IsTrue result → (k : PlainKept) (x : PlainRank) → slice_get steps.now place ≡ Some k → slice_get ranks.now place ≡ Some x
            → KeepsAt self.now k x }
    {
        let Some(kept) = steps.get(place) else {
            return true;
        };
        let Some(rank) = ranks.get(place) else {
            return true;
        };
        self.keeps_at(kept, *rank)
    }

    /// Whether the cone leaves out no name at any of the steps (see `keeps_at`).
    fn keeps_all<A: Allocator>(&self, steps: &[Kept<A>], ranks: &[Rank]) -> bool
        ensures { IsTrue result → (place : ℕ) (k : PlainKept) (x : PlainRank) → slice_get steps.now place ≡ Some k
            → slice_get ranks.now place ≡ Some x → KeepsAt self.now k x }
    {
        for place in 0..steps.len() {
            if !self.keeps_place(steps, ranks, place) {
                return false;
            }
        }
        true
    }

    /// Whether each name that matters at some place also matters wherever its dots can come from (`falls` and
    /// `keeps_all`). `is_asked_at` looks at what must matter at the end.
    fn is_closed<A: Allocator>(&self, steps: &[Kept<A>], ranks: &[Rank]) -> bool
        ensures { IsTrue result → IsClosed steps.now ranks.now self.now }
    {
        self.falls() && self.keeps_all(steps, ranks)
    }

    /// Whether all dots that the question is about matter to this node after `taken` of its own steps.
    fn is_asked(&self, node: u16, taken: usize) -> bool
        ensures { IsTrue result → IsAsked self.now node taken }
    {
        have_all(self.dots(), self.matter(node, taken))
    }

    /// Whether all dots that the question is about matter to this node after all its own steps. True if the question is
    /// about another node.
    fn is_asked_at(&self, turns: &[Turn], asked: Option<u16>, node: u16) -> bool
        ensures { IsTrue result → IsAskedAt turns.now asked node self.now }
    {
        if !asks(asked, node) {
            return true;
        }
        self.is_asked(node, recorded(turns, node))
    }

    /// Whether `is_asked_at` is true of each of the first `count` nodes.
    fn are_asked(&self, turns: &[Turn], count: u16, asked: Option<u16>) -> bool
        ensures { IsTrue result → AreAllAsked turns.now count asked self.now }
    {
        for node in 0..count {
            if !self.is_asked_at(turns, asked, node) {
                return false;
            }
        }
        true
    }
}

/// Whether a question about the node `asked`, or about all nodes if `asked` is `None`, is about the node `number`.
fn asks(asked: Option<u16>, number: u16) -> bool
    ensures { result ≡ asks asked number }
{
    match asked {
        Some(node) => node == number,
        None => true,
    }
}

/// How many steps of the turn at `place` were recorded; 0 if there is no such turn. The turn of a node's own steps is
/// at the place with the node's number.
pub fn recorded(turns: &[Turn], place: u16) -> usize
    ensures { (t : PlainTurn) → slice_get turns.now place ≡ Some t → result ≡ t.recorded }
{
    match turns.get(place as usize) {
        Some(turn) => turn.recorded,
        None => 0,
    }
}

/// Whether the name of each dot is among these names.
fn have_all(dots: &[Dot], names: NameSet) -> bool
    ensures { IsTrue result → (d : PlainDot) → is_wanted dots.now d ≡ true → contains names d.name ≡ true }
{
    for place in 0..dots.len() {
        if !names.has(dots[place].name) {
            return false;
        }
    }
    true
}

/// Whether each node's list falls (see `is_falling`).
fn are_falling<A: Allocator>(rows: &[Vec<NameSet, A>]) -> bool
    ensures { IsTrue result → (n p : ℕ) → Within (names_at (map (λ row. row.items) rows.now) n (suc p)) (names_at (map (λ row. row.items) rows.now) n p) }
{
    for place in 0..rows.len() {
        if !is_falling(rows[place].as_slice()) {
            return false;
        }
    }
    true
}

/// Whether a node's list falls: each set of names has all names of the next one.
fn is_falling(row: &[NameSet]) -> bool
    ensures { IsTrue result → (p : ℕ) → Within (in_row (Some row.now) (suc p)) (in_row (Some row.now) p) }
{
    for place in 1..row.len() {
        if !is_within(row[place], row[place - 1]) {
            return false;
        }
    }
    true
}

/// The cone of `dots`, from the names that a search found to matter at nodes (`matters`) and in messages (`carries`).
/// The search isn't trusted: if `is_closed` or `are_asked` is false of what it found, the cone has all names
/// everywhere. `asked` is the node that the question is about; `None` stands for all nodes of the run.
pub fn cone_of<'a, B: Allocator>(
    run: &RecordedRun<'a, '_, B>,
    dots: Vec<Dot, &'a B>,
    matters: Rows<&'a B>,
    carries: Rows<&'a B>,
    asked: Option<u16>,
    alloc: &'a B,
) -> Cone<'a, B>
    requires { AllByRecursion (λ (d : PlainDot). d.name < most_names) dots.items }
    ensures dots { result.dots ≡ dots.entry.items }
    ensures closed { IsClosed run.now.steps.now run.now.ranks.now result }
    ensures asked { AreAllAsked run.now.turns.now run.now.count asked result }
{
    let cone = Cone {
        dots,
        matters,
        carries,
    };
    if cone.is_closed(run.steps, run.ranks) && cone.are_asked(run.turns, run.count, asked) {
        return cone;
    }
    let Cone {
        dots,
        matters,
        carries,
    } = cone;
    // form: drop before exit
    drop(matters);
    drop(carries);
    Cone {
        dots,
        matters: Vec::new(alloc),
        carries: Vec::new(alloc),
    }
}
