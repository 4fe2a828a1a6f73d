//! Random numbers and ids for workflows. Replay gives the same ones, since they depend only on the
//! first jobs of a run: its time and its start.
ghost use Rattle.std.specs.Prelude.{◌≡◌, ◌≤◌, ◌<◌, IfOk};
ghost use Rattle.rand_xoshiro.specs.SplitMix64.{mix_u64};
ghost use Rattle.wh_author_tools.specs.Sources.{after_id, below, contents_mixed, id_text, mixed, seed};

use rand_core::SeedableRng;
use rand_core::utils::NextWord;
use rand_xoshiro::SplitMix64;
use std::alloc::Global;
use std::marker::Model;
use uuid::{Builder, Uuid};
use wh_events::{OutOfMemory, Payload, Text};

/// A source of random numbers and ids, by SplitMix64 (G. L. Steele, D. Lea and C. H. Flood, "Fast
/// splittable pseudorandom number generators", 2014). Contracts see it as its state, a number of 64
/// bits: two sources with the same state return the same numbers and ids from then on.
///
/// It is made from the first time and the start of a run, so each replay makes the same one. Runs
/// that start in the same nanosecond with the same type and input have the same numbers and ids. It
/// must not be used for secrets.
#[derive(Debug, Drop)]
pub struct RandomSource {
    generator: SplitMix64,
}

impl Model for RandomSource {
    ghost use Rattle.std.specs.Prelude.{ℕ};

    ghost Value = { ℕ };

    ghost view = { λ source. source.generator };
}

/// The offset basis of FNV-1a in 64 bits.
const BASIS: u64 = 0xcbf2_9ce4_8422_2325;

/// The prime of FNV-1a in 64 bits.
const PRIME: u64 = 0x100_0000_01b3;

/// Returns the hash extended by these bytes.
fn extend_hash(before: u64, bytes: &[u8]) -> u64
    ensures { result ≡ mixed before bytes.now }
{
    let mut hash = before;
    for byte in bytes {
        hash = (hash ^ u64::from(*byte)).wrapping_mul(PRIME);
    }
    hash
}

/// Returns the hash extended by the contents of these payloads.
fn contents_mixed(before: u64, input: &[Payload]) -> u64
    ensures { result ≡ contents_mixed before input.now }
{
    let mut hash = before;
    for payload in input {
        hash = extend_hash(hash, payload.content.get());
    }
    hash
}

impl RandomSource {
    /// Returns the source of a run whose first time is this one, in nanoseconds since
    /// 1970-01-01T00:00:00Z, and which was started as this workflow type with this input. Its seed
    /// is their FNV-1a hash of 64 bits (G. Fowler, L. C. Noll and K.-P. Vo), with the time as 16
    /// bytes from the lowest on.
    pub fn new(time: i128, workflow: &str, input: &[Payload]) -> RandomSource
        ensures { result ≡ seed time workflow.now input.now }
    {
        let hash = extend_hash(BASIS, &time.to_le_bytes());
        let hash = extend_hash(hash, workflow.as_bytes());
        let seed = contents_mixed(hash, input);
        RandomSource {
            generator: SplitMix64::seed_from_u64(seed),
        }
    }

    /// Returns the next number of 64 bits; all are equally likely.
    pub fn next_number(&mut self) -> u64
        ensures number { result ≡ (mix_u64 self.old).0 }
        ensures left { self.new ≡ (mix_u64 self.old).1 }
    {
        self.generator.next_word()
    }

    /// Returns the next number below the bound: the remainder of the next number of 64 bits. Some
    /// numbers are more likely than others, by less than one part in 2^64 / `bound`.
    pub fn next_below(&mut self, bound: u64) -> u64
        requires { 1 ≤ bound }
        ensures within { result < bound }
        ensures number { result ≡ below bound self.old }
        ensures left { self.new ≡ (mix_u64 self.old).1 }
    {
        self.next_number() % bound
    }

    /// Returns the next id, a UUID of version 4 in lower case, such as
    /// `67e55044-10b1-426f-9247-bb680e5fe0c8` (RFC 9562, sections 4 and 5.4), made from the next
    /// two numbers. `OutOfMemory` if there is no memory for its text; the two numbers are used up
    /// then too.
    pub fn next_id(&mut self, alloc: Global) -> Result<Text, OutOfMemory>
        ensures id { IfOk result (λ id. id ≡ id_text self.old) }
        ensures left { self.new ≡ after_id self.old }
    {
        let high = self.next_number();
        let low = self.next_number();
        let drawn = Uuid::from_u64_pair(high, low);
        let id = Builder::from_random_bytes(*drawn.as_bytes()).into_uuid();
        let mut buffer = Uuid::encode_buffer();
        let text = id.hyphenated().encode_lower(&mut buffer);
        Ok(Text::new(String::from_str(alloc, text)?))
    }
}
