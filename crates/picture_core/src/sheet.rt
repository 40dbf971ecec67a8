//! `Sheet`: what is drawn of the recorded calls.
use crate::online::Asked;
use crate::range::Range;
use crate::shade::Drawn;
use bench_core::TextSet;
use std::alloc::Allocator;

/// What is drawn of the recorded calls, and its allocator. None of it changes while they are drawn.
#[derive(Drop)]
pub struct Sheet<'a, 't, B: Allocator> {
    /// How many nodes there are.
    pub nodes: u32,
    /// The steps of the calls, with their rows.
    pub steps: &'t [Drawn],
    pub range: Range,
    /// The names of the consoles.
    pub consoles: &'t TextSet<&'a B>,
    /// The topic and key for which the changes of the lanes are noted, if there are any.
    pub of: Option<&'t Asked<&'a B>>,
    pub alloc: &'a B,
}
