//! `Mark`: what an order needs to know of a step.

/// A step of a run: its place in the run, counted from 0; its node; the sender and number of the message that it
/// delivers or answers, if any; and whether it sends a message.
#[derive(Clone, Copy, Debug, PartialEq, Eq)]
pub struct Mark {
    pub place: usize,
    pub node: u16,
    pub delivers: Option<(u16, u64)>,
    pub sends: bool,
}
