//! At which rows of the picture a node begins and stops listing a topic and key. Between the two rows the lane of the
//! node is thick.
ghost use Rattle.std.specs.Prelude.{◌≡◌, ◌++◌, ◌&&◌, not, List, IfOk, OnOk, option_copied, string_bytes};
ghost use Rattle.std.specs.List.{list_any};
ghost use Rattle.diff_core.specs.Diffs.{alone};
ghost use Rattle.diff_core.specs.Rows.{Row, is_among};
ghost use Rattle.report_core.specs.Shown.{rows_at, rows_of};
ghost use Rattle.picture_core.specs.Online.{bar_path, end_path, is_asked, lists, switch_at, switch_if, switch_path};
ghost use Rattle.picture_core.specs.Pictures.{is_of};

use crate::call::Call;
use crate::plan::{across, down};
use bench_core::Bench;
use diff_core::OnlineRow;
use dots_core::Oom;
use payload_core::Word;
use report_core::rows_at;
use std::alloc::Allocator;
use std::marker::Model;

/// What is asked about: a topic and a key, at the node `node`, or at each node if `node` is `None`.
#[derive(Drop)]
pub struct Asked<A: Allocator> {
    pub node: Option<u32>,
    pub topic: Word<A>,
    pub key: Word<A>,
}

impl<A: Allocator> Model for Asked<A> {
    ghost use Rattle.picture_core.specs.Online.{Asked as AskedOf};

    ghost Value = { AskedOf };

    ghost view = { λ a. record { node = a.node; topic = a.topic; key = a.key } };
}

/// A change of a node's lane: the row at which the node begins or stops listing what is asked about.
#[derive(Clone, Copy, Debug, PartialEq, Eq)]
pub struct Switch {
    pub row: u32,
    pub node: u32,
    pub begins: bool,
}

impl<A: Allocator> Asked<A> {
    /// Whether the node is asked about; each node is, if `self.node` is `None`.
    pub fn is_of(&self, node: u32) -> bool
        ensures { result ≡ is_of self.now.node node }
    {
        match self.node {
            Some(one) => one == node,
            None => true,
        }
    }
}

/// Whether the row has the topic and key that are asked about.
fn is_asked<A: Allocator, R: Allocator>(asked: &Asked<A>, row: &OnlineRow<R>) -> bool
    ensures { result ≡ is_asked asked.now row.now }
{
    row.topic.as_str() == asked.topic.as_str() && row.key.as_str() == asked.key.as_str()
}

/// Whether one of the rows has the topic and key that are asked about.
#[tactic(auto, unfolding(crate::specs::Online::lists))]
fn lists<A: Allocator, R: Allocator>(asked: &Asked<A>, rows: &[OnlineRow<R>]) -> bool
    ensures { result ≡ lists asked.now rows.now }
{
    rows.iter().any(|row| is_asked(asked, row))
}

/// Whether the row is one of `rows`.
fn is_among<A: Allocator>(rows: &[OnlineRow<A>], row: &OnlineRow<A>) -> bool
    ensures { result ≡ is_among rows.now row.now }
{
    rows.iter().any(|other| row == other)
}

/// Whether a row with the topic and key that are asked about stood in a list before a call and still does: `rows` is the
/// list after the call, and `joined` has the rows that joined by the call.
fn lists_beside<A: Allocator, R: Allocator>(
    asked: &Asked<A>,
    rows: &[OnlineRow<R>],
    joined: &[OnlineRow<R>],
) -> bool
    ensures { result ≡ list_any (λ row. is_asked asked.now row && not (is_among joined.now row)) rows.now }
{
    rows.iter()
        .any(|row| is_asked(asked, row) && !is_among(joined, row))
}

/// Appends a change of the node's lane if the node began or stopped listing what is asked about, that is, if `was` and
/// `now` differ.
fn push_switch<A: Allocator>(
    switches: &mut Vec<Switch, A>,
    row: u32,
    node: u32,
    was: bool,
    now: bool,
) -> Result<(), Oom>
    ensures { OnOk result (switches.new.items ≡ switches.old.items ++ switch_if row node was now) }
{
    if was == now {
        return Ok(());
    }
    let begins = now;
    Ok(switches.push(Switch { row, node, begins })?)
}

/// Appends a change of the node's lane, if the call made the node begin or stop listing what is asked about. The node's
/// online list is made only if a row of that topic and key left or joined. `bench` is the bench after the call, and
/// `node` the node that the call changed.
fn note_change<'a, B: Allocator, W: Allocator>(
    bench: &Bench<'a, B>,
    switches: &mut Vec<Switch, &'a B>,
    asked: &Asked<W>,
    call: &Call<'a, '_, B>,
    node: u16,
    alloc: &'a B,
) -> Result<(), Oom>
    ensures { OnOk result ((before : List Row) → call.now.acted.now.change.left.items ≡ alone before (rows_at bench.now node) →
        call.now.acted.now.change.joined.items ≡ alone (rows_at bench.now node) before →
        switches.new.items ≡ switches.old.items ++
        switch_if call.now.row node (lists asked.now before) (lists asked.now (rows_at bench.now node))) }
{
    let change = &call.acted.change;
    let left = lists(asked, &change.left);
    if !left && !lists(asked, &change.joined) {
        return Ok(());
    }
    let rows = rows_at(bench, node, alloc)?;
    let now = lists(asked, &rows);
    let was = left || lists_beside(asked, &rows, &change.joined);
    // form: drop before exit
    drop(rows);
    push_switch(switches, call.row, u32::from(node), was, now)
}

/// Appends a change of the lane of the node that the call changed, if the call made that node begin or stop listing what
/// is asked about. Appends nothing if nothing is asked about, or no node changed. `bench` is the bench after the call.
#[tactic(auto, unfolding(crate::specs::Online::switch_at, report_core::specs::Shown::rows_of))]
pub fn note_switch<'a, B: Allocator, W: Allocator>(
    bench: &Bench<'a, B>,
    switches: &mut Vec<Switch, &'a B>,
    asked: Option<&Asked<W>>,
    call: &Call<'a, '_, B>,
    alloc: &'a B,
) -> Result<(), Oom>
    ensures { OnOk result ((before : List Row) → call.now.acted.now.change.left.items ≡ alone before (rows_of bench.now call.now.changed) →
        call.now.acted.now.change.joined.items ≡ alone (rows_of bench.now call.now.changed) before →
        switches.new.items ≡ switches.old.items ++
        switch_at (option_copied asked.entry) call.now.row call.now.changed before (rows_of bench.now call.now.changed)) }
{
    let Some(asked) = asked else {
        return Ok(());
    };
    let Some(node) = call.changed else {
        return Ok(());
    };
    note_change(bench, switches, asked, call, node, alloc)
}

/// Appends a change of the lane to the path: a move to the row of the change, if the node begins listing there, and
/// else a line down to that row.
fn put_switch<A: Allocator>(path: &mut String<A>, nodes: u32, switch: Switch) -> Result<(), Oom>
    ensures { OnOk result (string_bytes path.new ≡ string_bytes path.old ++ switch_path nodes switch) }
{
    let right = across(nodes, switch.node);
    let down = down(switch.row);
    if switch.begins {
        return Ok(write!(path, "M{right} {down}")?);
    }
    Ok(write!(path, "V{down}")?)
}

/// Appends to the path a line down to where row `last` begins. Appends nothing if `listing` is false, as the node has
/// then stopped listing what is asked about, or never began.
fn put_end<A: Allocator>(path: &mut String<A>, listing: bool, last: u32) -> Result<(), Oom>
    ensures { OnOk result (string_bytes path.new ≡ string_bytes path.old ++ end_path listing last) }
{
    if !listing {
        return Ok(());
    }
    let end = 20 * u64::from(last);
    Ok(write!(path, "V{end}")?)
}

/// The thick parts of a node's lane, as a path: a line from each row where the node begins listing what is asked about
/// to the row where the node stops or, if it doesn't stop, to where row `last` begins. The path may lead beyond the
/// drawn rows; the `viewBox` of the picture cuts that off.
pub fn bar_path<'a, B: Allocator>(
    switches: &[Switch],
    nodes: u32,
    node: u32,
    last: u32,
    alloc: &'a B,
) -> Result<String<&'a B>, Oom>
    ensures { IfOk result (λ path. string_bytes path ≡ bar_path nodes node last switches.now) }
{
    let mut path = String::new(alloc);
    let mut listing = false;
    for switch in switches {
        if switch.node == node {
            put_switch(&mut path, nodes, *switch)?;
            listing = switch.begins;
        }
    }
    put_end(&mut path, listing, last)?;
    Ok(path)
}
