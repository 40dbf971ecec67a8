//! `Question`: which rows are asked for.
use payload_core::Word;
use std::alloc::Allocator;
use std::marker::Model;

/// Asks for the rows with this topic and key in the online list of the node with this number.
#[derive(Drop)]
pub struct Question<A: Allocator> {
    pub node: u16,
    pub topic: Word<A>,
    pub key: Word<A>,
}

impl<A: Allocator> Model for Question<A> {
    ghost use Rattle.change_core.specs.Questions.{Question as Asked};

    ghost Value = { Asked };

    ghost view = { λ q. record { node = q.node; topic = q.topic; key = q.key } };
}
