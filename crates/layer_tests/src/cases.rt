//! Assertions that name their case. They are functions here, and don't stand in the tests, since an assertion with a
//! message is costly to prove where many values are live.
use std::process::Abort;

/// Unless `is_so`, ends the test and names the case.
pub fn holds(rt: &impl Abort, is_so: bool, case: &str) {
    assert!(rt; is_so, "{case}");
}

/// Unless `is_so`, ends the test and prints the number.
pub fn holds_at(rt: &impl Abort, is_so: bool, number: u64) {
    assert!(rt; is_so, "at {number}");
}
