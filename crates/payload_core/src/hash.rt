//! The hash of a process, a topic and a key: a number, the same for the same three, and nearly always a different one
//! for any other three.
ghost use Rattle.std.specs.Prelude.{◌≡◌};
ghost use Rattle.payload_core.specs.Hashes.{hash_of, mixed, mixed_all};

use entry_core::Word;
use std::alloc::Allocator;

/// An odd number. Multiplying by it spreads a byte over the higher bits.
const FACTOR: u64 = 1_099_511_628_211;

/// The hash of a process under a topic and a key. Between topic and key it mixes in a byte 0, which no word has.
pub fn hash<A: Allocator>(pid: u64, topic: &Word<A>, key: &Word<A>) -> u64
    ensures { result ≡ hash_of pid topic.now key.now }
{
    let with_topic = mix(mix_all(pid, topic.as_str().as_bytes()), 0);
    mix_all(with_topic, key.as_str().as_bytes())
}

/// The hash with one more number mixed in.
fn mix(hash: u64, number: u64) -> u64
    ensures { result ≡ mixed hash number }
{
    hash.wrapping_mul(FACTOR).wrapping_add(number)
}

/// The hash `start` with these bytes mixed in.
fn mix_all(start: u64, bytes: &[u8]) -> u64
    ensures { result ≡ mixed_all start bytes.now }
{
    let mut hash = start;
    for byte in bytes {
        hash = mix(hash, u64::from(*byte));
    }
    hash
}
