//! Gates: one whose calls return at once, and one that fixes the order of the lines.
use std::sync::atomic::{AtomicU64, Ordering};
use std::thread;
use std::time::{Clock, Duration};
use worker_core::Gate;

/// How many times a gate looks whether enough lines have passed, before it gives up. It looks once a millisecond.
const LOOKS: u32 = 10_000;

/// The most lines that an order may have.
const LINES: usize = 8;

/// A gate whose calls return at once.
pub struct Idle;

impl Gate for Idle {
    fn before(&self, _actor: u16, _line: u64) {}

    fn after(&self, _actor: u16, _line: u64) {}
}

/// A gate that lets lines pass in a given order: it holds a line until as many lines have passed as come before that
/// line in the order. It counts how often it is called for each line, and how often with another actor than the line's,
/// and notes whether it gave up.
#[derive(Drop)]
pub struct InOrder<R> {
    rt: R,
    order: &'static [u64],
    /// The actor of each line, beginning with line 1.
    actors: &'static [u16],
    /// The line after which the gate waits, too, until the next line in the order has passed. That shows that the bench
    /// isn't locked while the gate waits. 0, no line's number, if it waits after none.
    stays: u64,
    passed: AtomicU64,
    strangers: AtomicU64,
    given_up: AtomicU64,
    befores: [AtomicU64; LINES],
    afters: [AtomicU64; LINES],
}

fn zeros() -> [AtomicU64; LINES] {
    [
        AtomicU64::new(0),
        AtomicU64::new(0),
        AtomicU64::new(0),
        AtomicU64::new(0),
        AtomicU64::new(0),
        AtomicU64::new(0),
        AtomicU64::new(0),
        AtomicU64::new(0),
    ]
}

impl<R: Clock> InOrder<R> {
    /// A gate that has let no line pass.
    pub fn new(rt: R, order: &'static [u64], actors: &'static [u16], stays: u64) -> InOrder<R> {
        InOrder {
            rt,
            order,
            actors,
            stays,
            strangers: AtomicU64::new(0),
            passed: AtomicU64::new(0),
            given_up: AtomicU64::new(0),
            befores: zeros(),
            afters: zeros(),
        }
    }

    /// Whether each line of the order passed once, under its own actor, and the gate didn't give up.
    pub fn has_passed_each_once(&self) -> bool {
        let lines = self.order.len();
        self.given_up.load(Ordering::SeqCst) == 0
            && self.strangers.load(Ordering::SeqCst) == 0
            && are_once(&self.befores, lines)
            && are_once(&self.afters, lines)
    }

    /// How many lines come before `line` in the order; the length of the order if `line` isn't in it.
    fn place(&self, line: u64) -> u64 {
        let mut place = 0u64;
        for other in self.order {
            if *other == line {
                break;
            }
            // form: saturating spares a requirement
            place = place.saturating_add(1);
        }
        place
    }

    /// Waits until `lines` lines have passed, or gives up.
    fn wait_for(&self, lines: u64) {
        for _ in 0..LOOKS {
            if lines <= self.passed.load(Ordering::SeqCst) {
                return;
            }
            thread::sleep(&self.rt, Duration::from_millis(1));
        }
        self.given_up.store(1, Ordering::SeqCst);
    }

    /// Counts the call among `strangers` if it names another actor than the line's.
    fn note(&self, actor: u16, line: u64) {
        // form: lines are from 1; saturating spares a requirement that says so
        if self.actors.get(line.saturating_sub(1) as usize) != Some(&actor) {
            self.strangers.fetch_add(1, Ordering::SeqCst);
        }
    }
}

/// Whether each of the first `lines` counts is 1, and each other 0.
fn are_once(counts: &[AtomicU64; LINES], lines: usize) -> bool {
    let mut left = lines;
    let mut are_so = true;
    for count in counts.as_slice() {
        let expected = u64::from(left > 0);
        are_so = are_so && count.load(Ordering::SeqCst) == expected;
        // once `left` is 0, it stays 0
        left = left.saturating_sub(1);
    }
    are_so
}

/// Counts one more call for this line. Lines are numbered from 1; a line above `LINES` isn't counted.
fn count(counts: &[AtomicU64; LINES], line: u64) {
    let mut number = 0u64;
    for count in counts.as_slice() {
        // form: saturating spares a requirement
        number = number.saturating_add(1);
        if number == line {
            count.fetch_add(1, Ordering::SeqCst);
        }
    }
}

impl<R: Clock> Gate for InOrder<R> {
    fn before(&self, actor: u16, line: u64) {
        count(&self.befores, line);
        self.note(actor, line);
        self.wait_for(self.place(line));
    }

    fn after(&self, actor: u16, line: u64) {
        count(&self.afters, line);
        self.note(actor, line);
        self.passed.fetch_add(1, Ordering::SeqCst);
        if line == self.stays {
            // form: saturating spares a requirement
            self.wait_for(self.place(line).saturating_add(2));
        }
    }
}
