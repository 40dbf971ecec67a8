//! The dots of one name in a set: a context clock, and a cloud of the clocks above it.

ghost use Rattle.std.specs.Prelude.{◌≡◌, ℕ, ◌+◌, ◌-◌, ◌*◌, ◌^◌, ◌<◌, ◌≤◌, ◌↔◌, ◌++◌, drop, length, slice_get, not, All, IsOk, IsTrue, IfOk, OnOk, OnErr};
ghost use Rattle.dots_core.specs.ClockBits.{has_bit};
ghost use Rattle.dots_core.specs.Clocks.{no_clocks, holds, HoldsAllOf, IsCanonical, IsFirstFrom, IsGreatest, Gains, Loses};
ghost use Rattle.dots_core.specs.Absorbed.{absorbed, numbers};
ghost use Rattle.dots_core.specs.Dots.{last_clock};

use crate::Oom;
use crate::clock_bits::{cloud_bits, run_bits};
use std::alloc::{Allocator, Global};
use std::marker::Model;

/// The dots of one name in a set (Phoenix.Tracker.State): all clocks from 1 to `clock`, and those in `cloud`, a rising
/// list that begins above `clock + 1`. So equal sets of clocks have equal parts.
#[derive(Drop)]
pub struct Part<A: Allocator = Global> {
    pub clock: u64,
    pub cloud: Vec<u64, A>,
}

impl<A: Allocator> Model for Part<A> {
    ghost use Rattle.dots_core.specs.Clocks.{Clocks, IsCanonical};

    ghost Value = { Clocks };

    ghost view = { λ p. record { clock = p.clock; cloud = p.cloud.items } };

    ghost invariant = { λ p. IsCanonical (record { clock = p.clock; cloud = p.cloud.items }) };
}

impl<A: Allocator> Part<A> {
    pub(crate) fn empty(alloc: A) -> Part<A>
        ensures { result ≡ no_clocks }
    {
        Part {
            clock: 0,
            cloud: Vec::new(alloc),
        }
    }

    /// Whether the part has `clock`; no part has the clock 0. Above the context clock a binary search tells.
    pub(crate) fn has(&self, clock: u64) -> bool
        ensures { result ≡ holds self.now clock }
    {
        if clock <= self.clock {
            clock > 0
        } else {
            self.cloud.binary_search(&clock).is_ok()
        }
    }

    /// Which of the 64 clocks from `base * 64` on the part has, as bits: bit `k` is that of clock `base * 64 + k`.
    pub(crate) fn bits(&self, base: u64) -> u64
        requires { base < 2 ^ 58 }
        ensures { (k : ℕ) → k < 64 → has_bit result k ≡ holds self.now (base * 64 + k) }
    {
        run_bits(self.clock, base * 64) | cloud_bits(&self.cloud, base * 64)
    }

    pub(crate) fn is_empty(&self) -> bool
        ensures { IsTrue result ↔ (self.now ≡ no_clocks) }
    {
        self.clock == 0 && self.cloud.is_empty()
    }

    pub(crate) fn same(&self, other: &Part<A>) -> bool
        ensures { IsTrue result ↔ (self.now ≡ other.now) }
    {
        self.clock == other.clock && self.cloud == other.cloud
    }

    /// Whether the part has each clock of `other`. Each clock in the cloud of `other` above the part's context clock
    /// takes a binary search.
    pub(crate) fn has_all_of(&self, other: &Part<A>) -> bool
        ensures { IsTrue result ↔ HoldsAllOf self.now other.now }
    {
        if other.clock > self.clock {
            return false;
        }
        // form: a loop, for the proof
        for clock in &other.cloud {
            if !self.has(*clock) {
                return false;
            }
        }
        true
    }

    /// The least clock of the part that is not below `clock`; `None` if there is none. Above the context clock a binary
    /// search finds it.
    pub(crate) fn first_from(&self, clock: u64) -> Option<u64>
        ensures { IsFirstFrom self.now clock result }
    {
        let clock = clock.max(1);
        if clock <= self.clock {
            return Some(clock);
        }
        match self.cloud.binary_search(&clock) {
            Ok(_) => Some(clock),
            Err(place) => clock_at(&self.cloud, place),
        }
    }

    /// Inserts `clock`, and says whether it is new. If `clock` is the next after the context clock, the context clock
    /// moves on to `clock`, and past the clocks of the cloud that follow without a gap. Any other new clock goes into
    /// the cloud, which may ask for memory.
    pub(crate) fn insert(&mut self, clock: u64) -> Result<bool, Oom>
        requires positive { 0 < clock }
        requires last { clock ≤ last_clock }
        ensures canonical { IsCanonical self.new }
        ensures ok { OnOk result (Gains self.old clock self.new) }
        ensures new { IfOk result (λ is_new. is_new ≡ not (holds self.old clock)) }
        ensures next { clock ≡ self.old.clock + 1 → IsOk result }
        ensures err { OnErr result (self.new ≡ self.old) }
    {
        if clock <= self.clock {
            return Ok(false);
        }
        if clock == self.clock + 1 {
            let run = run_after(clock, &self.cloud);
            self.clock = clock + run as u64;
            self.cloud.drain(..run);
            return Ok(true);
        }
        match self.cloud.binary_search(&clock) {
            Ok(_) => Ok(false),
            Err(place) => {
                self.cloud.insert(place, clock)?;
                Ok(true)
            }
        }
    }

    /// Takes out `clock`, and says whether it was there. If the context clock covered `clock`, the clocks above
    /// `clock`, up to the context clock, go into the cloud, which may ask for memory.
    pub(crate) fn remove(&mut self, clock: u64) -> Result<bool, Oom>
        requires { 0 < clock }
        ensures canonical { IsCanonical self.new }
        ensures ok { OnOk result (Loses self.old clock self.new) }
        ensures was { IfOk result (λ was_there. was_there ≡ holds self.old clock) }
        ensures last { IsGreatest clock self.old → IsOk result }
        ensures err { OnErr result (self.new ≡ self.old) }
    {
        if clock <= self.clock {
            put_in_front(&mut self.cloud, clock + 1, self.clock + 1)?;
            self.clock = clock - 1;
            return Ok(true);
        }
        match self.cloud.binary_search(&clock) {
            Ok(place) => {
                self.cloud.remove(place);
                Ok(true)
            }
            Err(_) => Ok(false),
        }
    }

    /// A copy of the part, with memory for `count` more clocks in its cloud. The length is rounded up: so a copy that is
    /// a little longer than one before can take the memory that the earlier one leaves.
    pub(crate) fn copy_with_room(&self, count: usize) -> Result<Part<A>, Oom>
    where
        A: Copy,
        ensures { IfOk result (λ copy. copy ≡ self.now) }
    {
        let room = self.cloud.len().saturating_add(count) | 63;
        let mut cloud = Vec::with_capacity(*self.cloud.allocator(), room)?;
        cloud.extend_from_slice(&self.cloud)?;
        Ok(Part {
            clock: self.clock,
            cloud,
        })
    }

    pub(crate) fn try_copy(&self) -> Result<Part<A>, Oom>
    where
        A: Copy,
        ensures { IfOk result (λ copy. copy ≡ self.now) }
    {
        Ok(Part {
            clock: self.clock,
            cloud: self.cloud.clone()?,
        })
    }
}

/// The clock of the cloud at `place`, counted from 0; `None` past the end.
fn clock_at(cloud: &[u64], place: usize) -> Option<u64>
    ensures { result ≡ slice_get cloud.now place }
{
    cloud.get(place).copied()
}

/// How many clocks at the front of `cloud` follow `clock` without a gap: `clock + 1`, `clock + 2` and so on.
fn run_after(clock: u64, cloud: &[u64]) -> usize
    requires clock { clock ≤ last_clock }
    requires cloud { All (λ c. c ≤ last_clock) cloud.now }
    ensures within { result ≤ length cloud.now }
    ensures run { absorbed clock cloud.now ≡ record { clock = clock + result; cloud = drop result cloud.now } }
{
    let mut next = clock;
    for (run, c) in cloud.iter().enumerate() {
        next += 1;
        if *c != next {
            return run;
        }
    }
    cloud.len()
}

/// Puts the clocks from `from` to `to - 1` in front of the cloud, which must begin above them. If `from` is `to`, it
/// asks for no memory.
fn put_in_front<A: Allocator>(cloud: &mut Vec<u64, A>, from: u64, to: u64) -> Result<(), Oom>
    requires { from ≤ to }
    ensures ok { OnOk result (cloud.new.items ≡ numbers from (to - from) ++ cloud.old.items) }
    ensures none { from ≡ to → IsOk result }
    ensures err { OnErr result (cloud.new.items ≡ cloud.old.items) }
{
    if from == to {
        return Ok(());
    }
    let above = cloud.len();
    cloud.reserve((to - from) as usize)?;
    for clock in from..to {
        cloud.push_reserved(clock);
    }
    cloud.rotate_left(above);
    Ok(())
}
