//! How far work has come.

/// How many changes were tried, and how many there are.
#[derive(Clone, Copy, Debug, PartialEq, Eq)]
pub struct Tried {
    pub done: usize,
    pub all: usize,
}

/// How many states a walk has kept, how many outcomes it has found, and how many steps at most can still follow, one
/// after another, from where the walk is.
#[derive(Clone, Copy, Debug, PartialEq, Eq)]
pub struct Walked {
    pub states: usize,
    pub outcomes: usize,
    pub left: u128,
}
