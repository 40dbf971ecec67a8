//! `Limits`: how much a bench may hold.
ghost use Rattle.std.specs.Prelude.{◌≡◌};
ghost use Rattle.std.specs.Option.{SomeIff};
ghost use Rattle.replica_core.specs.Limits.{AreNodeLimits};
ghost use Rattle.bench_core.specs.Limits.{AreLimits, node_limits};

use dots_core::LAST_CLOCK;
use node_core::NodeLimits;
use std::marker::Model;

/// The greatest limit on events and remaining steps together.
const MOST_ACTS: u64 = 1_000_000;

/// The greatest limit on the entries of one node.
const MOST_ENTRIES: u64 = 100_000;

/// The greatest limit on the messages of one node.
const MOST_MESSAGES: u64 = 100_000;

/// The four limits of a bench, each in its range.
#[derive(Clone, Copy, Debug, PartialEq, Eq)]
pub struct Limits {
    acts: u64,
    entries: u64,
    clock: u64,
    messages: u64,
}

impl Model for Limits {
    ghost use Rattle.bench_core.specs.Limits.{Limits as Four, AreLimits};

    ghost Value = { Four };

    ghost view = { λ l. record { acts = l.acts; entries = l.entries; clock = l.clock; messages = l.messages } };

    ghost invariant = { λ l. AreLimits (record { acts = l.acts; entries = l.entries; clock = l.clock; messages = l.messages }) };

    ghost inverse = { λ l. record { acts = l.acts; entries = l.entries; clock = l.clock; messages = l.messages } };
}

impl Limits {
    /// The limits; `None` if one of them isn't in its range.
    pub fn new(acts: u64, entries: u64, clock: u64, messages: u64) -> Option<Limits>
        ensures { SomeIff result (AreLimits (record { acts = acts; entries = entries; clock = clock; messages = messages }))
            (record { acts = acts; entries = entries; clock = clock; messages = messages }) }
    {
        let in_range = (1..=MOST_ACTS).contains(&acts)
            && (1..=MOST_ENTRIES).contains(&entries)
            && (1..=LAST_CLOCK).contains(&clock)
            && (1..=MOST_MESSAGES).contains(&messages);
        if !in_range {
            return None;
        }
        Some(Limits {
            acts,
            entries,
            clock,
            messages,
        })
    }

    /// The limits that a bench has by default.
    pub fn usual() -> Limits
        ensures { result ≡ record { acts = 100000; entries = 10000; clock = 1000000; messages = 10000 } }
    {
        Limits {
            acts: 100_000,
            entries: 10_000,
            clock: 1_000_000,
            messages: 10_000,
        }
    }

    /// The limit on acts: 1 to 1,000,000. Recorded calls and remaining steps count towards it together.
    pub fn acts(self) -> u64
        ensures value { result ≡ self.acts }
        ensures range { AreLimits self }
    {
        self.acts
    }

    /// The limit on the entries of one node: 1 to 100,000.
    pub fn entries(self) -> u64
        ensures value { result ≡ self.entries }
        ensures range { AreLimits self }
    {
        self.entries
    }

    /// The limit on the own clock of one node: 1 to `LAST_CLOCK`.
    pub fn clock(self) -> u64
        ensures value { result ≡ self.clock }
        ensures range { AreLimits self }
    {
        self.clock
    }

    /// The limit on the messages in one outbox: 1 to 100,000.
    pub fn messages(self) -> u64
        ensures value { result ≡ self.messages }
        ensures range { AreLimits self }
    {
        self.messages
    }

    /// The limits on each node: all but the limit on acts.
    pub fn of_node(self) -> NodeLimits
        ensures value { result ≡ node_limits self }
        ensures range { AreLimits self }
        ensures of_node { AreNodeLimits result }
    {
        NodeLimits {
            entries: self.entries,
            clock: self.clock,
            messages: self.messages,
        }
    }
}
