//! Which rows are drawn.
ghost use Rattle.std.specs.Prelude.{◌≡◌, ◌≤◌, length};
ghost use Rattle.picture_core.specs.Pictures.{calls_before, first_row, is_from, last_row};
ghost use Rattle.picture_core.specs.Rows.{is_drawn, is_seen};

use bench_core::{History, Reply};
use std::alloc::Allocator;

/// The rows from `first` to the one before `last`, counted from 0.
#[derive(Clone, Copy, Debug, PartialEq, Eq)]
pub struct Range {
    pub first: u32,
    pub last: u32,
}

impl Range {
    /// Whether the row is in the range.
    pub fn draws(self, row: u32) -> bool
        ensures { result ≡ is_drawn self row }
    {
        self.first <= row && row < self.last
    }

    /// Whether a message from row `from` to row `to` begins above the end of the range, and ends in the range's first
    /// row or below. Such a message is drawn, at least in part, if the range has any rows.
    pub fn shows(self, from: u32, to: u32) -> bool
        ensures { result ≡ is_seen self from to }
    {
        from < self.last && self.first <= to
    }
}

/// Whether a call with this reply took a step whose number is greater than `number`. Unless `beyond` is set, `number`
/// itself will do, too.
fn is_from(beyond: bool, number: u64, reply: Reply) -> bool
    ensures { result ≡ is_from beyond number reply }
{
    match reply {
        Reply::Taken(step) => {
            if beyond {
                number < step
            } else {
                number <= step
            }
        }
        Reply::Undone(_) | Reply::Refused(_) => false,
    }
}

/// How many calls come before the first one whose reply makes `is_from` true. If there is no such call, all calls are
/// counted.
fn calls_before<'a, B: Allocator>(history: &History<'a, B>, beyond: bool, number: u64) -> usize
    ensures is { result ≡ calls_before beyond number history.now }
    ensures few { result ≤ length history.now }
{
    for place in 0..history.len() {
        let event = history.at(place).unwrap();
        if is_from(beyond, number, event.reply) {
            return place;
        }
    }
    history.len()
}

/// The first row that is drawn: that of step `from`, or of the first step after it; the end of the history, if there is
/// no such step; row 0, if `from` is `None`.
pub fn first_row<'a, B: Allocator>(history: &History<'a, B>, from: Option<u64>) -> usize
    ensures is { result ≡ first_row history.now from }
    ensures few { result ≤ length history.now }
{
    match from {
        Some(number) => calls_before(history, false, number),
        None => 0,
    }
}

/// The row after the last one that is drawn: that of the first step after `to`; the end of the history, if there is no
/// such step or `to` is `None`.
pub fn last_row<'a, B: Allocator>(history: &History<'a, B>, to: Option<u64>) -> usize
    ensures is { result ≡ last_row history.now to }
    ensures few { result ≤ length history.now }
{
    match to {
        Some(number) => calls_before(history, true, number),
        None => history.len(),
    }
}
