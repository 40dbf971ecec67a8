//! `Movable`: what a swap needs to know of a step.
ghost use Rattle.std.specs.Prelude.{◌≡◌};
ghost use Rattle.bench_core.specs.Movables.{is_message, may_swap};

/// A message, by its sender and its number.
type Message = (u16, u64);

/// A step of a journal: its place, counted from 0, its node, and the messages that it delivers and sends.
#[derive(Clone, Copy)]
pub(crate) struct Movable {
    pub(crate) place: usize,
    pub(crate) node: u16,
    pub(crate) delivers: Option<Message>,
    pub(crate) sends: Option<Message>,
}

/// Whether `sent` and `delivered` are the same message; if either is `None`, they aren't.
fn is_message(sent: Option<Message>, delivered: Option<Message>) -> bool
    ensures { result ≡ is_message sent delivered }
{
    // form: `==` of pairs, spelled out for the proof
    match (sent, delivered) {
        (Some(sent), Some(delivered)) => sent.0 == delivered.0 && sent.1 == delivered.1,
        _ => false,
    }
}

impl Movable {
    /// Whether the steps are of different nodes, and neither delivers what the other sends.
    pub(crate) fn may_swap(self, other: Movable) -> bool
        ensures { result ≡ may_swap self other }
    {
        self.node != other.node
            && !is_message(other.sends, self.delivers)
            && !is_message(self.sends, other.delivers)
    }
}
