//! A clock for tests.
use std::cell::Cell;
use std::io;
use std::time::{Clock, Duration};

/// A clock that goes on by the same time at each look.
#[derive(Drop)]
pub struct FakeClock {
    now: Cell<u64>,
    step: u64,
}

impl FakeClock {
    /// A clock that begins at 0, and goes on by `step` milliseconds at each look.
    pub fn new(step: u64) -> FakeClock {
        FakeClock {
            now: Cell::new(0),
            step,
        }
    }
}

impl Clock for FakeClock {
    fn monotonic(&self) -> io::Result<Duration> {
        let now = self.now.get();
        // form: saturating spares a requirement
        self.now.set(now.saturating_add(self.step));
        Ok(Duration::from_millis(now))
    }

    fn since_1970(&self) -> io::Result<Duration> {
        self.monotonic()
    }
}
