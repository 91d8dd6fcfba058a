//! Sets of the 32 chunks of 128 bytes that a block has.

ghost use Rattle.std.specs.Prelude.{◌≡◌, ◌+◌, ◌≤◌, ◌<◌, ◌^◌, [], length, not, ◌==◌};
ghost use Rattle.xt_base.specs.Chunks.{chunks_where, union as either, marks, places_of, word_of};
ghost use Rattle.xt_base.specs.Maps.{has as is_in_set};

use crate::sizes::{BLOCK_BYTES, CHUNK_BYTES, CHUNKS};
use std::marker::Model;

/// A set of chunks, numbered 0 to 31. Clauses see the rising list of its numbers.
#[derive(Clone, Copy, Debug)]
pub struct Chunks {
    bits: u32,
}

impl Model for Chunks {
    ghost use Rattle.std.specs.Prelude.{List, ℕ, ◌<◌, ◌^◌};

    ghost Value = { List ℕ };

    ghost use Rattle.xt_base.specs.Chunks.{places_of, word_of};

    ghost view = { λ c. places_of c.bits };

    ghost invariant = { λ c. c.bits < 2 ^ 32 };

    ghost inverse = { λ set. record { bits = word_of set } };

    ghost use Rattle.xt_base.specs.ChunkWords.{word_back};
    ghost use Rattle.std.proofs.Common.{ap};

    ghost inverse_ok = { λ c h. ap (λ n. record { bits = n }) (word_back c.bits h) };
}

impl Chunks {
    /// The empty set.
    pub fn none() -> Self
        ensures { result ≡ [] }
    {
        Chunks { bits: 0 }
    }

    /// The set that a word stands for: bit k, of value 2^k, for chunk k.
    pub fn of_word(bits: u32) -> Self
        ensures { result ≡ places_of bits }
    {
        Chunks { bits }
    }

    /// Its word: bit k, of value 2^k, for chunk k.
    pub fn word(self) -> u32
        ensures value { result ≡ word_of self }
        ensures back { places_of result ≡ self }
    {
        self.bits
    }

    /// The chunks of which the bytes `first` to `first + n - 1` mark some.
    pub fn mark(first: u32, n: u32) -> Self
        requires { first + n ≤ BLOCK_BYTES }
        ensures { result ≡ marks first n }
    {
        if n == 0 {
            return Chunks::none();
        }
        let low = first / CHUNK_BYTES as u32;
        let high = (first + n - 1) / CHUNK_BYTES as u32;
        let up_to_high = u32::MAX >> (CHUNKS - 1 - high);
        let from_low = u32::MAX << low;
        Chunks {
            bits: up_to_high & from_low,
        }
    }

    /// The chunks of either set.
    pub fn union(self, other: Chunks) -> Self
        ensures { result ≡ either self other }
    {
        Chunks {
            bits: self.bits | other.bits,
        }
    }

    /// How many chunks of another set it lacks, 0 to 32.
    pub fn lacks(self, other: Chunks) -> u32
        ensures value { length (either self other) ≡ length self + result }
        ensures range { result ≤ CHUNKS }
    {
        let before = self.bits.count_ones();
        self.union(other).count() - before
    }

    /// How many chunks it has, 0 to 32.
    pub fn count(self) -> u32
        ensures value { result ≡ length self }
        ensures range { result ≤ CHUNKS }
    {
        self.bits.count_ones()
    }

    /// Whether it has chunk `k`.
    pub fn has(self, k: u32) -> bool
        requires { k < CHUNKS }
        ensures { result ≡ is_in_set self k }
    {
        self.bits >> k & 1 == 1
    }

    /// Whether it has no chunk.
    pub fn is_empty(self) -> bool
        ensures { result ≡ (length self == 0) }
    {
        self.count() == 0
    }
}
