//! `Pace`: when a line is due.
use std::time::{Clock, Instant};

/// How many calls pass between two looks at the clock.
const PASSED: u32 = 15;

/// Tells when a line is due: at most one a second.
#[derive(Drop)]
pub(crate) struct Pace<'t, C> {
    clock: &'t C,
    /// When a line was due last, or when work began. `None` if the clock couldn't be read when work began; then no line
    /// is ever due.
    last: Option<Instant>,
    /// How many calls there were since the last look at the clock.
    calls: u32,
}

impl<'t, C: Clock> Pace<'t, C> {
    pub(crate) fn new(clock: &'t C) -> Self {
        Pace {
            clock,
            last: Instant::now(clock).ok(),
            calls: 0,
        }
    }

    /// Whether a second has passed since a line was last due, or since the beginning; no if the clock can't be read. A
    /// look at the clock may take longer than a piece of work, so only each sixteenth call looks, and the others say
    /// no.
    pub(crate) fn is_due(&mut self) -> bool {
        if self.calls < PASSED {
            self.calls += 1;
            return false;
        }
        self.calls = 0;
        let Some(last) = self.last else {
            return false;
        };
        let Ok(now) = Instant::now(self.clock) else {
            return false;
        };
        if now.duration_since(last).as_secs() < 1 {
            return false;
        }
        self.last = Some(now);
        true
    }
}
