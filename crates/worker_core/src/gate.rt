//! `Gate`: what a worker calls around its lines.

/// What workers call around each of their lines, without holding the lock. Threads share the gate, and its calls may
/// wait. A race ends only if these calls return. Tests bring gates of their own, to decide whose line comes next.
pub trait Gate {
    /// The worker of `actor` calls this before it takes the lock for the line with the number `line`, counted from 1.
    fn before(&self, actor: u16, line: u64);

    /// The worker of `actor` calls this once it has asked that line and released the lock.
    fn after(&self, actor: u16, line: u64);
}
