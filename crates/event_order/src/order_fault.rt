//! `OrderFault`: why events have no order.
ghost use Rattle.std.specs.Prelude.{◌≡◌};
ghost use Rattle.event_order.specs.declared.order_fault.OrderFault.TheVariants.{OutOfMemory};

use dots_core::Oom;
use thiserror::Error;

/// Why events have no order. Places are counted from 0.
#[derive(Clone, Copy, Debug, PartialEq, Eq, Error)]
pub enum OrderFault {
    /// The event at this place sends a message that an earlier event sends, too.
    #[error("Twice at {at}")]
    Twice { at: usize },
    /// The event at this place waits for a message that no event sends.
    #[error("NeverSent at {at}")]
    NeverSent { at: usize },
    /// The event at this place is the first of those that wait forever.
    #[error("Circle at {at}")]
    Circle { at: usize },
    /// Memory was refused.
    #[error("OutOfMemory")]
    OutOfMemory,
}

impl From<Oom> for OrderFault {
    ghost from_gives = { λ _ e. e ≡ OutOfMemory };

    fn from(_e: Oom) -> OrderFault {
        OrderFault::OutOfMemory
    }
}
