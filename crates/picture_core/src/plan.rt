//! Where things stand: a row for each call, 20 units high, and a lane for each node. Lengths are in units of the
//! picture; `nodes` is the number of nodes.
ghost use Rattle.std.specs.Prelude.{◌≡◌, ◌≤◌};
ghost use Rattle.picture_core.specs.Plans.{across, aside, down, pitch, slots, waits_at, wide};

/// The distance from one lane to the next. It is smaller where there are more nodes.
#[tactic(auto, unfolding(crate::specs::Plans::pitch))]
fn pitch(nodes: u32) -> u64
    ensures is { result ≡ pitch nodes }
    ensures few { result ≤ 56 }
{
    if nodes < 5 {
        56
    } else if nodes < 9 {
        40
    } else if nodes < 17 {
        24
    } else {
        18
    }
}

/// How many places each side of a lane has for messages to come down.
#[tactic(auto, unfolding(crate::specs::Plans::slots))]
fn slots(nodes: u32) -> u64
    ensures is { result ≡ slots nodes }
    ensures some { 1 ≤ result }
    ensures few { result ≤ 8 }
{
    if nodes < 5 {
        8
    } else if nodes < 9 {
        5
    } else if nodes < 17 {
        3
    } else {
        2
    }
}

/// How far to the right the lane of a node is. The words of rows begin where one more lane would be.
#[tactic(auto, unfolding(crate::specs::Plans::across))]
pub fn across(nodes: u32, node: u32) -> u64
    ensures is { result ≡ across nodes node }
    ensures few { result ≤ 300000000000 }
{
    64 + pitch(nodes) * u64::from(node)
}

/// How far the middle of a row is below the beginning of row 0.
pub fn down(row: u32) -> u64
    ensures { result ≡ down row }
{
    20 * u64::from(row) + 10
}

/// The message that step `step` sent comes down this far from a lane.
#[tactic(auto, unfolding(crate::specs::Plans::aside))]
fn aside(nodes: u32, step: u64) -> u64
    ensures is { result ≡ aside nodes step }
    ensures few { result ≤ 30 }
{
    6 + 3 * (step % slots(nodes))
}

/// The message that step `step` sent comes down to `node` this far to the right. It comes down left of the lane of
/// `node` if the lane of `sender` is left of that lane, and else right of it.
#[tactic(auto, unfolding(crate::specs::Plans::waits_at))]
pub fn waits_at(nodes: u32, sender: u32, node: u32, step: u64) -> u64
    ensures { result ≡ waits_at nodes sender node step }
{
    let at = across(nodes, node);
    let beside = aside(nodes, step);
    if sender < node {
        // form: saturating spares a requirement
        at.saturating_sub(beside)
    } else {
        at + beside
    }
}

/// How wide a text of `bytes` bytes is.
pub fn wide(bytes: u32) -> u64
    ensures { result ≡ wide bytes }
{
    8 * u64::from(bytes)
}
