//! `Receipt`: what a worker tells of a call.
use bench_core::{Act, Reply};
use std::alloc::Allocator;
use std::marker::Model;

/// A call with its reply, and the place of its event in the history; no place if the call wasn't recorded. Lines and
/// places are numbered from 1.
#[derive(Drop)]
pub struct Receipt<A: Allocator> {
    pub actor: u16,
    pub line: u64,
    pub act: Act<A>,
    pub reply: Reply,
    pub place: Option<u64>,
}

impl<A: Allocator> Model for Receipt<A> {
    ghost use Rattle.bench_core.specs.Acts.{plain_act};
    ghost use Rattle.bench_core.specs.contracts.reply.Reply.{the_row as reply_row};
    ghost use Rattle.receipt_core.specs.Receipts.{Receipt, receipt_code};

    ghost Value = { Receipt };

    ghost coded = { receipt_code reply_row.coded };

    ghost view = { λ r. record { actor = r.actor; line = r.line; act = plain_act r.act; reply = r.reply; place = r.place } };
}

/// The receipts of a race: a list for each actor, by the actor's number.
pub type Receipts<A> = Vec<Vec<Receipt<A>, A>, A>;
