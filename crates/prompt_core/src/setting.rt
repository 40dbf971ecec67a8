//! `PromptSetting`: what a prompt runs with.
use bench_core::Limits;
use std::alloc::{Allocator, Global};

/// What a prompt runs with. None of it changes while the prompt runs.
#[derive(Drop)]
pub struct PromptSetting<'a, 't, B: Allocator> {
    /// Where the session that `:save` prints takes its memory from; all else comes from `alloc`.
    pub heap: Global,
    pub alloc: &'a B,
    /// The limits of the bench.
    pub limits: Limits,
    /// What `:help` prints.
    pub help: &'t str,
    /// Whether a sign is shown before a line is read.
    pub has_signs: bool,
}
