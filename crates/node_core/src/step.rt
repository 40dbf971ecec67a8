//! `Step`: what one node does.
ghost use Rattle.std.specs.Prelude.{◌≡◌, ◌↔◌, IsTrue, IfOk, nat_lt};
ghost use Rattle.std.specs.List.{list_all};
ghost use Rattle.node_core.specs.Operations.{Join, Leave, Update, Deliver, Answer, delivers, named_in, plain, sends};

use dots_core::{NameSet, Oom};
use payload_core::Word;
use std::alloc::Allocator;

/// What one node does. `pid` is the number of a process at that node.
#[derive(Drop)]
pub enum Step<A: Allocator> {
    /// Tracks the process under the topic and the key.
    Join {
        pid: u64,
        topic: Word<A>,
        key: Word<A>,
        metadata: Word<A>,
    },
    /// No longer tracks the process under the topic and the key.
    Leave {
        pid: u64,
        topic: Word<A>,
        key: Word<A>,
    },
    /// No longer tracks the process under any topic and key.
    LeaveAll {
        pid: u64,
    },
    /// Gives the process other metadata under the topic and the key.
    Update {
        pid: u64,
        topic: Word<A>,
        key: Word<A>,
        metadata: Word<A>,
    },
    /// Sends the delta, which is then empty.
    Broadcast,
    /// Sends the seen dots and the entries of these names. The delta stays.
    Extract {
        names: NameSet,
    },
    /// Merges a message of another node, by its number in that node's outbox, counted from 1.
    Deliver {
        sender: u16,
        number: u64,
    },
    /// Sends a request for what others have of the names that the node knows. The delta stays.
    Request,
    /// Delivers a request of another node, by its number in that node's outbox, counted from 1. Sends the seen dots and
    /// the entries of the names that the request asks for. The delta stays.
    Answer {
        sender: u16,
        number: u64,
    },
    /// Makes another name known and up.
    Up {
        name: u16,
    },
    /// Makes another known name down.
    Down {
        name: u16,
    },
    /// Forgets another known name that is down: its dots, its entries and its status.
    Permdown {
        name: u16,
    },
}

impl<A: Allocator> Step<A> {
    /// Whether both are the same step, with equal numbers, words and names.
    pub fn same<'call>(&'call self, other: &'call Self) -> bool
        ensures { IsTrue result ↔ (plain self.now ≡ plain other.now) }
    {
        match self {
            Step::Join {
                pid,
                topic,
                key,
                metadata,
            } => other.is_join(*pid, topic, key, metadata),
            Step::Leave { pid, topic, key } => other.is_leave(*pid, topic, key),
            Step::LeaveAll { pid } => {
                matches!(other, Step::LeaveAll { pid: other } if pid == other)
            }
            Step::Update {
                pid,
                topic,
                key,
                metadata,
            } => other.is_update(*pid, topic, key, metadata),
            Step::Broadcast => matches!(other, Step::Broadcast),
            Step::Extract { names } => {
                matches!(other, Step::Extract { names: others } if names.same(*others))
            }
            Step::Deliver { sender, number } => other.is_deliver(*sender, *number),
            Step::Request => matches!(other, Step::Request),
            Step::Answer { sender, number } => other.is_answer(*sender, *number),
            Step::Up { name } => matches!(other, Step::Up { name: other } if name == other),
            Step::Down { name } => matches!(other, Step::Down { name: other } if name == other),
            Step::Permdown { name } => {
                matches!(other, Step::Permdown { name: other } if name == other)
            }
        }
    }

    /// Whether the step is a join of this process, topic, key and metadata.
    fn is_join(&self, pid: u64, topic: &Word<A>, key: &Word<A>, metadata: &Word<A>) -> bool
        ensures { IsTrue result ↔ (plain self.now ≡ Join (record { pid = pid; topic = topic.now; key = key.now; metadata = metadata.now })) }
    {
        match self {
            Step::Join {
                pid: own_pid,
                topic: own_topic,
                key: own_key,
                metadata: own_metadata,
            } => {
                *own_pid == pid
                    && own_topic.same(topic)
                    && own_key.same(key)
                    && own_metadata.same(metadata)
            }
            _ => false,
        }
    }

    /// Whether the step is a leave of this process, topic and key.
    fn is_leave(&self, pid: u64, topic: &Word<A>, key: &Word<A>) -> bool
        ensures { IsTrue result ↔ (plain self.now ≡ Leave pid topic.now key.now) }
    {
        match self {
            Step::Leave {
                pid: own_pid,
                topic: own_topic,
                key: own_key,
            } => *own_pid == pid && own_topic.same(topic) && own_key.same(key),
            _ => false,
        }
    }

    /// Whether the step is an update of this process, topic, key and metadata.
    fn is_update(&self, pid: u64, topic: &Word<A>, key: &Word<A>, metadata: &Word<A>) -> bool
        ensures { IsTrue result ↔ (plain self.now ≡ Update (record { pid = pid; topic = topic.now; key = key.now; metadata = metadata.now })) }
    {
        match self {
            Step::Update {
                pid: own_pid,
                topic: own_topic,
                key: own_key,
                metadata: own_metadata,
            } => {
                *own_pid == pid
                    && own_topic.same(topic)
                    && own_key.same(key)
                    && own_metadata.same(metadata)
            }
            _ => false,
        }
    }

    /// Whether the step is a delivery of this message.
    fn is_deliver(&self, sender: u16, number: u64) -> bool
        ensures { IsTrue result ↔ (plain self.now ≡ Deliver sender number) }
    {
        match self {
            Step::Deliver {
                sender: own_sender,
                number: own_number,
            } => *own_sender == sender && *own_number == number,
            _ => false,
        }
    }

    /// Whether the step is an answer to this message.
    fn is_answer(&self, sender: u16, number: u64) -> bool
        ensures { IsTrue result ↔ (plain self.now ≡ Answer sender number) }
    {
        match self {
            Step::Answer {
                sender: own_sender,
                number: own_number,
            } => *own_sender == sender && *own_number == number,
            _ => false,
        }
    }

    /// The sender and the number of the message that the step delivers; `None` for other steps. An answer delivers the
    /// request that it answers.
    pub fn delivers(&self) -> Option<(u16, u64)>
        ensures { result ≡ delivers (plain self.now) }
    {
        match self {
            Step::Deliver { sender, number } | Step::Answer { sender, number } => {
                Some((*sender, *number))
            }
            _ => None,
        }
    }

    /// Whether the step sends a message.
    pub fn sends(&self) -> bool
        ensures { result ≡ sends (plain self.now) }
    {
        matches!(
            self,
            Step::Broadcast | Step::Extract { .. } | Step::Request | Step::Answer { .. }
        )
    }

    /// Whether each number that names a node in the step is below `count`.
    pub fn names_below(&self, count: u16) -> bool
        ensures { result ≡ list_all (λ name. nat_lt name count) (named_in (plain self.now)) }
    {
        // form: each arm is a case of the proof
        match self {
            Step::Join { .. } | Step::Leave { .. } | Step::LeaveAll { .. } => true,
            Step::Update { .. } | Step::Broadcast | Step::Request => true,
            Step::Extract { names } => names.is_below(count),
            Step::Deliver { sender, .. } | Step::Answer { sender, .. } => *sender < count,
            Step::Up { name } | Step::Down { name } | Step::Permdown { name } => *name < count,
        }
    }

    /// A copy of the step, which shares the bytes of long words. It takes no memory; an `Err` means that the count of a
    /// word's copies is at its limit.
    pub fn try_copy(&self) -> Result<Self, Oom>
    where
        A: Copy,
        ensures { IfOk result (λ copy. plain copy ≡ plain self.now) }
    {
        match self {
            Step::Join {
                pid,
                topic,
                key,
                metadata,
            } => Step::join_of(*pid, topic, key, metadata),
            Step::Leave { pid, topic, key } => Step::leave_of(*pid, topic, key),
            Step::LeaveAll { pid } => Ok(Step::LeaveAll { pid: *pid }),
            Step::Update {
                pid,
                topic,
                key,
                metadata,
            } => Step::update_of(*pid, topic, key, metadata),
            Step::Broadcast => Ok(Step::Broadcast),
            Step::Extract { names } => Ok(Step::Extract { names: *names }),
            Step::Deliver { sender, number } => Ok(Step::Deliver {
                sender: *sender,
                number: *number,
            }),
            Step::Request => Ok(Step::Request),
            Step::Answer { sender, number } => Ok(Step::Answer {
                sender: *sender,
                number: *number,
            }),
            Step::Up { name } => Ok(Step::Up { name: *name }),
            Step::Down { name } => Ok(Step::Down { name: *name }),
            Step::Permdown { name } => Ok(Step::Permdown { name: *name }),
        }
    }
}

impl<A: Allocator + Copy> Step<A> {
    /// A join of this process, with copies of these words.
    fn join_of(pid: u64, topic: &Word<A>, key: &Word<A>, metadata: &Word<A>) -> Result<Step<A>, Oom>
        ensures { IfOk result (λ step. plain step ≡ Join (record { pid = pid; topic = topic.now; key = key.now; metadata = metadata.now })) }
    {
        Ok(Step::Join {
            pid,
            topic: topic.try_copy()?,
            key: key.try_copy()?,
            metadata: metadata.try_copy()?,
        })
    }

    /// A leave of this process, with copies of these words.
    fn leave_of(pid: u64, topic: &Word<A>, key: &Word<A>) -> Result<Step<A>, Oom>
        ensures { IfOk result (λ step. plain step ≡ Leave pid topic.now key.now) }
    {
        Ok(Step::Leave {
            pid,
            topic: topic.try_copy()?,
            key: key.try_copy()?,
        })
    }

    /// An update of this process, with copies of these words.
    fn update_of(
        pid: u64,
        topic: &Word<A>,
        key: &Word<A>,
        metadata: &Word<A>,
    ) -> Result<Step<A>, Oom>
        ensures { IfOk result (λ step. plain step ≡ Update (record { pid = pid; topic = topic.now; key = key.now; metadata = metadata.now })) }
    {
        Ok(Step::Update {
            pid,
            topic: topic.try_copy()?,
            key: key.try_copy()?,
            metadata: metadata.try_copy()?,
        })
    }
}
