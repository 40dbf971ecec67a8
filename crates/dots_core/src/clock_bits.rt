//! 64 clocks of a name as the bits of a number: bit `k` stands for the clock `low + k`, where `low` is a multiple of
//! 64.

ghost use Rattle.std.specs.Prelude.{◌≡◌, ℕ, ◌+◌, ◌<◌, ◌≤◌, ◌^◌, ◌==◌, ◌&&◌, ◌||◌, false, length, nat_le, nat_lt, take};
ghost use Rattle.dots_core.specs.ClockBits.{has_bit};
ghost use Rattle.dots_core.specs.Clocks.{RisesAbove, is_among};

/// Which of the 64 clocks from `low` on are among those from 1 to `clock`, as bits.
pub(crate) fn run_bits(clock: u64, low: u64) -> u64
    requires { low + 63 < 2 ^ 64 }
    ensures { (k : ℕ) → k < 64 → has_bit result k ≡ (nat_lt 0 (low + k) && nat_le (low + k) clock) }
{
    if clock < low {
        return 0;
    }
    // no dot has the clock 0
    let first = if low == 0 { 1 } else { 0 };
    let end = (clock - low).min(63) + 1;
    ones_below(end) - ones_below(first)
}

/// The number whose `count` lowest bits are set, and no others.
fn ones_below(count: u64) -> u64
    requires { count ≤ 64 }
    ensures { result + 1 ≡ 2 ^ count }
{
    if count == 64 {
        u64::MAX
    } else {
        (1 << count) - 1
    }
}

/// Which of the 64 clocks from `low` on are in the cloud, as bits.
pub(crate) fn cloud_bits(cloud: &[u64], low: u64) -> u64
    requires low { low + 63 < 2 ^ 64 }
    requires rises { RisesAbove 0 cloud.now }
    ensures { (k : ℕ) → k < 64 → has_bit result k ≡ is_among (low + k) cloud.now }
{
    if cloud.is_empty() {
        return 0;
    }
    let first = place_from(cloud, low);
    bits_among(&cloud[first..], low)
}

/// How many clocks at the front of the cloud are below `low`.
fn place_from(cloud: &[u64], low: u64) -> usize
    requires { RisesAbove 0 cloud.now }
    ensures within { result ≤ length cloud.now }
    ensures below { (k : ℕ) → is_among (low + k) (take result cloud.now) ≡ false }
{
    cloud.partition_point(|clock| *clock < low)
}

/// Which of the 64 clocks from `low` on are in the rising list, as bits.
fn bits_among(clocks: &[u64], low: u64) -> u64
    requires low { low + 63 < 2 ^ 64 }
    requires rises { RisesAbove 0 clocks.now }
    ensures { (k : ℕ) → k < 64 → has_bit result k ≡ is_among (low + k) clocks.now }
{
    let mut bits = 0;
    for clock in clocks {
        // form: the caller passes no clock below `low`; the test spares a requirement that says so
        if *clock >= low {
            if *clock - low >= 64 {
                return bits;
            }
            bits = with_bit(bits, *clock - low);
        }
    }
    bits
}

/// `bits` with bit `at` set, too.
fn with_bit(bits: u64, at: u64) -> u64
    requires { at < 64 }
    ensures { (k : ℕ) → has_bit result k ≡ ((k == at) || has_bit bits k) }
{
    bits | (1 << at)
}
