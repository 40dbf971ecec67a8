//! The laws of explanations, as contracts of functions that do nothing.
//!
//! A track is what an explanation is made of: how a dot stands at each node, since which step, and what each step did
//! to the dot.
ghost use Rattle.explain_core.specs.Laws.{ChainLaw, StandingLaw, StepLaw, UndeliveredLaw, UnsentLaw};

/// The steps that an explanation names for a presence that is online, down or removed are a chain. The last is the step
/// since which the presence stands at the node as it does; if that step neither sent nor delivered the presence, the
/// chain is empty. Each step of the chain sent or delivered the presence, and read what the step before it made. What
/// the chain's first step read was made by no step that sent or delivered the presence.
pub fn chain_law()
    ensures { ChainLaw }
{}

/// At each node a presence stands as its track says. If the track names a step since which the presence stands so, that
/// step remains, and the node took it.
pub fn standing_law()
    ensures { StandingLaw }
{}

/// Each step of a track remains, is of the node that the track names, and did what the track says. In the message that
/// a step sent or delivered the dot stands as the track says, and a delivery read the step that sent the message. A
/// step that forgot the dot took the dot's name permanently down.
pub fn step_law()
    ensures { StepLaw }
{}

/// If an explanation says that a presence was never sent, the presence's dot is live in no message. If it says so of
/// the presence's removal, the dot is gone in no message.
pub fn unsent_law()
    ensures { UnsentLaw }
{}

/// An explanation may say that a presence, or its removal, was sent and not delivered at the node that it is about.
/// Then each step that it names as a sender sent a message with the presence, or the removal, and no remaining step of
/// that node delivered the message.
pub fn undelivered_law()
    ensures { UndeliveredLaw }
{}
