//! `Host` and `Setting`: what the program runs with, besides its words and its streams.
use bench_core::Limits;
use std::alloc::{Allocator, Global};

/// What the program takes from the machine.
#[derive(Drop)]
pub struct Host<'h, B: Allocator, T, C> {
    /// Runs the workers of a race.
    pub threads: &'h T,
    /// The memory for words, JSON, hints, and lines on what is read and how far work has come.
    pub heap: Global,
    /// The memory for benches and all other texts.
    pub alloc: &'h B,
    /// Decides when long work tells how far it has come.
    pub clock: &'h C,
}

/// The host, and what holds for all commands.
#[derive(Drop)]
pub struct Setting<'h, B: Allocator, T, C> {
    pub host: Host<'h, B, T, C>,
    /// The limits of benches; a session's bench has the session's limits.
    pub limits: Limits,
    /// Whether the reader is a terminal: then a prompt shows its signs on standard error, and any other command says
    /// there that it reads standard input.
    pub terminal: bool,
}
