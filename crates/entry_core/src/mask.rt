//! Masks: 64 clocks as the bits of a number. The bit of a clock has the number `clock % 64`.
ghost use Rattle.std.specs.Prelude.{◌≡◌, ◌%◌, ◌<◌, ◌&&◌, ℕ, not};
ghost use Rattle.entry_core.specs.Masks.{IsWith, IsWithout, has_bit};

/// Whether the clock's bit is set.
pub fn has(mask: u64, clock: u64) -> bool
    ensures { result ≡ has_bit mask (clock % 64) }
{
    (mask >> (clock % 64)) & 1 == 1
}

/// The mask with the clock's bit set.
pub fn with(mask: u64, clock: u64) -> u64
    ensures { IsWith result mask clock }
{
    mask | (1 << (clock % 64))
}

/// The mask with the clock's bit cleared.
pub fn without(mask: u64, clock: u64) -> u64
    ensures { IsWithout result mask clock }
{
    mask & !(1 << (clock % 64))
}

/// A mask of the clocks that aren't in `mask`.
pub fn others(mask: u64) -> u64
    ensures { (k : ℕ) → k < 64 → has_bit result k ≡ not (has_bit mask k) }
{
    !mask
}

/// A mask of the clocks that are in both masks.
pub fn both(one: u64, other: u64) -> u64
    ensures { (k : ℕ) → has_bit result k ≡ (has_bit one k && has_bit other k) }
{
    one & other
}

/// How many bits of the mask are set below the bit of `clock`. No contract says so: a caller checks the place that it
/// gets.
pub fn rank(mask: u64, clock: u64) -> usize {
    (mask & ((1 << (clock % 64)) - 1)).count_ones() as usize
}
