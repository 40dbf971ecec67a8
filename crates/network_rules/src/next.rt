//! Which steps may come next, given how many steps of each turn came. A turn is a node's own steps, or the deliveries
//! of one message at a node (see `Turn`).
ghost use Rattle.std.specs.Prelude.{◌≡◌, ◌≤◌, IsTrue, nat_le, nat_lt, true};
ghost use Rattle.std.specs.Option.{is_some};
ghost use Rattle.network_rules.specs.Turns.{count_at, extra, is_end, is_next, is_next_by, is_whole, is_whole_by, missing, AreSpent};

use crate::turn::{Rank, Turn};

/// How many steps of the turn at `place` came; 0 if there is no such turn.
pub fn count_at(counts: &[usize], place: usize) -> usize
    ensures { result ≡ count_at counts.now place }
{
    counts.get(place).copied().unwrap_or(0)
}

/// Whether at most `most` steps, of all turns together, came beyond the recorded ones. (Only deliveries can.)
fn few_extra(turns: &[Turn], counts: &[usize], most: usize) -> bool
    ensures { result ≡ nat_le (extra turns.now counts.now 0) most }
{
    let mut left = most;
    for place in 0..turns.len() {
        let more = count_at(counts, place).saturating_sub(turns[place].recorded);
        if left < more {
            return false;
        }
        left -= more;
    }
    true
}

/// Whether at most `most` recorded steps, of all turns together, haven't come. If all own steps came, the missing ones
/// are deliveries.
fn few_missing(turns: &[Turn], counts: &[usize], most: usize) -> bool
    ensures { result ≡ nat_le (missing turns.now counts.now 0) most }
{
    let mut left = most;
    for place in 0..turns.len() {
        let more = turns[place]
            .recorded
            .saturating_sub(count_at(counts, place));
        if left < more {
            return false;
        }
        left -= more;
    }
    true
}

/// Whether a delivery may come a second time: fewer than `again` have done so.
fn may_repeat(turns: &[Turn], counts: &[usize], again: usize) -> bool
    ensures { result ≡ nat_lt (extra turns.now counts.now 0) again }
{
    again > 0 && few_extra(turns, counts, again - 1)
}

/// Whether this turn lets a run end after `count` of the turn's steps came. In a turn of own steps, all of them must
/// have come; in a turn of deliveries, at most twice as many as were recorded.
fn is_whole_by(turn: Turn, count: usize) -> bool
    ensures { result ≡ is_whole_by turn.delivers turn.recorded count }
{
    match turn.delivers {
        None => turn.recorded <= count,
        Some((_, _)) => count.saturating_sub(turn.recorded) <= turn.recorded,
    }
}

/// Whether `is_whole_by` is true of each turn.
fn is_whole(turns: &[Turn], counts: &[usize]) -> bool
    ensures { result ≡ is_whole turns.now counts.now 0 }
{
    for place in 0..turns.len() {
        if !is_whole_by(turns[place], count_at(counts, place)) {
            return false;
        }
    }
    true
}

/// Whether a run may end here: all own steps came, at most `lost` recorded deliveries are missing, and at most `again`
/// deliveries came a second time.
pub fn is_end(turns: &[Turn], counts: &[usize], lost: usize, again: usize) -> bool
    ensures { result ≡ is_end turns.now counts.now lost again }
{
    is_whole(turns, counts) && few_missing(turns, counts, lost) && few_extra(turns, counts, again)
}

/// Whether the step of `turn` that has `before` recorded steps of the turn before it may come next, after `count` steps
/// of the turn came. The first recorded step that hasn't come may. Once all recorded deliveries of the turn came, the
/// first of them may come again, and stands for each of them, as all deliver the same message; but not once all
/// deliveries of this turn, or `again` deliveries of all turns together, came a second time.
fn is_next_by(
    turns: &[Turn],
    counts: &[usize],
    again: usize,
    turn: Turn,
    before: usize,
    count: usize,
) -> bool
    ensures { result ≡ is_next_by turn.delivers turn.recorded before count (nat_lt (extra turns.now counts.now 0) again) }
{
    match turn.delivers {
        None => before == count,
        Some((_, _)) => {
            if count < turn.recorded {
                before == count
            } else {
                before == 0
                    && count - turn.recorded < turn.recorded
                    && may_repeat(turns, counts, again)
            }
        }
    }
}

/// Whether the step at `place` may come next, if up to `again` deliveries may come a second time. False if the step has
/// no rank, or the rank's turn isn't among `turns`.
pub fn is_next(turns: &[Turn], ranks: &[Rank], counts: &[usize], again: usize, place: usize) -> bool
    ensures { result ≡ is_next turns.now ranks.now counts.now again place }
{
    let Some(rank) = ranks.get(place) else {
        return false;
    };
    let Some(turn) = turns.get(rank.turn) else {
        return false;
    };
    is_next_by(
        turns,
        counts,
        again,
        *turn,
        rank.before,
        count_at(counts, rank.turn),
    )
}

/// True only if no delivery of this turn can still come to `node`: the turn is another node's, or one of own steps, or
/// all its recorded deliveries came and `again` is 0.
fn is_spent(turn: Turn, count: usize, again: usize, node: u16) -> bool
    ensures { IsTrue result → turn.node ≡ node → is_some turn.delivers ≡ true → (again ≡ 0) × (turn.recorded ≤ count) }
{
    if turn.node != node {
        return true;
    }
    if turn.delivers.is_none() {
        return true;
    }
    again == 0 && turn.recorded <= count
}

/// Whether `is_spent` is true of each turn, so that nothing more is delivered at this node.
pub fn are_spent(turns: &[Turn], counts: &[usize], again: usize, node: u16) -> bool
    ensures { IsTrue result → AreSpent turns.now counts.now again node }
{
    for place in 0..turns.len() {
        if !is_spent(turns[place], count_at(counts, place), again, node) {
            return false;
        }
    }
    true
}
