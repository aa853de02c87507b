//! How ballots are hashed: with fixed parameters, or with secret ones.
ghost use Rattle.std.specs.Prelude.{◌≡◌, ◌+◌, ◌*◌, ◌^◌};
ghost use Rattle.ballot_base.specs.Hashing.{fixed_hashing, hashing_of, word_of_bytes, begun, with_word, upper_half};

use std::hash::{BuildHasher, Hasher, RandomState};

const ABOVE_WORDS: u128 = 1 << 64;

/// Parameters for hashing ballots. A ballot is hashed as a 64-bit word: its hash is the upper half of
/// `factor * word + term`, modulo 2^128.
///
/// Suppose that both parameters are drawn at random, and that two ballots are chosen without knowledge of them. Then
/// the hashes of the ballots agree in given bits as rarely as random numbers do. This is not proved here: it is the
/// theorem of Dietzfelbinger, Universal hashing and k-wise independent random variables via integer arithmetic without
/// primes, 1996.
#[derive(Clone, Copy)]
pub struct BallotHashing {
    /// What the ballot is multiplied by.
    pub factor: u128,
    /// What is added to the product.
    pub term: u128,
}

impl BallotHashing {
    /// Fixed parameters, the same in each run. Anyone who writes ballots can make them collide.
    pub fn fixed() -> BallotHashing
        ensures { result ≡ fixed_hashing }
    {
        BallotHashing {
            factor: 0x9e37_79b9_7f4a_7c15_f39c_c060_5ced_c835,
            term: 0x243f_6a88_85a3_08d3_1319_8a2e_0370_7344,
        }
    }

    /// Parameters derived from secret keys.
    pub fn secret(keys: &RandomState) -> BallotHashing
        ensures { result ≡ hashing_of keys.now }
    {
        BallotHashing {
            factor: joined(keys.hash_one(0_u64), keys.hash_one(1_u64)),
            term: joined(keys.hash_one(2_u64), keys.hash_one(3_u64)),
        }
    }
}

fn joined(low: u64, high: u64) -> u128
    ensures { result ≡ low + high * 2 ^ 64 }
{
    u128::from(low) + u128::from(high) * ABOVE_WORDS
}

impl BuildHasher for BallotHashing {
    type Hasher = BallotHasher;

    ghost build_hasher = { begun };

    fn build_hasher(&self) -> BallotHasher {
        BallotHasher {
            factor: self.factor,
            sum: self.term,
        }
    }
}

/// The hash of one ballot. If more than eight bytes are written at once, only the last eight count.
#[derive(Clone, Copy)]
pub struct BallotHasher {
    factor: u128,
    sum: u128,
}

impl Hasher for BallotHasher {
    ghost write = { with_word };

    ghost finish = { upper_half };

    fn finish(&self) -> u64 {
        (self.sum >> 64) as u64
    }

    fn write(&mut self, bytes: &[u8]) {
        let product = self.factor.wrapping_mul(u128::from(word_of_bytes(bytes)));
        self.sum = product.wrapping_add(self.sum);
    }
}

/// The bytes as a big-endian word, modulo 2^64.
#[tactic(auto, unfolding(crate::specs::Hashing::word_of_bytes))]
fn word_of_bytes(bytes: &[u8]) -> u64
    ensures { result ≡ word_of_bytes 0 bytes.now }
{
    let mut word = 0_u64;
    let mut rest = bytes;
    while let [byte, after @ ..] = rest {
        word = word.wrapping_mul(256).wrapping_add(u64::from(*byte));
        rest = after;
    }
    word
}
