//! `Bounds`: how far an exploration may go.

/// How far an exploration may go from the recorded run, and how long.
#[derive(Clone, Copy)]
pub struct Bounds {
    /// How many deliveries may be missing from a run.
    pub lost: usize,
    /// How many deliveries may come a second time in a run.
    pub again: usize,
    /// How many states the walk may keep.
    pub states: usize,
}
