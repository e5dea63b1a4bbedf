//! How codes are hashed: with numbers that the author of a dump does not know.
ghost use Rattle.std.specs.Prelude.{◌≡◌, ◌^◌, ◌<◌, length};
ghost use Rattle.vcd_view.specs.CodeHash.{drawn, hashed, mixed};

use crate::key::key_of;
use std::hash::{BuildHasher, Hasher};

/// Two numbers by which codes are hashed. Somebody who does not know them cannot choose codes with
/// equal hashes.
// 100,000 codes that are crafted for a known seed take 75 times as long as others.
#[derive(Clone, Copy, PartialEq, Eq, Debug)]
pub struct CodeSeed {
    /// What a word is multiplied by, to 128 bits.
    pub factor: u128,
    /// What is added to the product.
    pub more: u128,
}

impl CodeSeed {
    /// Returns the seed that consists of four hashes of `hasher`: `factor` of its hashes of 0 and
    /// 1, and `more` of those of 2 and 3.
    pub fn of<B: BuildHasher>(hasher: &B) -> CodeSeed
        ensures factor { result.factor ≡ drawn B.BuildHasher B.Hasher.Hasher hasher.now 0 }
        ensures more { result.more ≡ drawn B.BuildHasher B.Hasher.Hasher hasher.now 2 }
    {
        CodeSeed {
            factor: drawn(hasher, 0),
            more: drawn(hasher, 2),
        }
    }

    /// Returns the hash of some bytes and one word more; `state` is the hash of these bytes. It is
    /// the upper half of `(state ^ word) * factor + more` in 128 bits.
    #[inline(always)]
    pub fn mixed(self, state: u64, word: u64) -> u64
        ensures { result ≡ mixed self state word }
    {
        let product = u128::from(state ^ word)
            .wrapping_mul(self.factor)
            .wrapping_add(self.more);
        (product >> 64) as u64
    }

    /// Returns the hash of these bytes; `state` is the hash of the bytes before them, a multiple of
    /// 8, or 0 if there are none. Each eight bytes are mixed in as one word, and the last ones, if
    /// they are fewer, as one more. Without bytes the result is `state`.
    #[inline(always)]
    pub fn hashed(self, state: u64, bytes: &[u8]) -> u64
        ensures { result ≡ hashed self state bytes.now }
    {
        match bytes {
            [a, b, c, d, e, f, g, h] => {
                self.mixed(state, u64::from_le_bytes([*a, *b, *c, *d, *e, *f, *g, *h]))
            }
            _ => self.hashed_by_words(state, bytes),
        }
    }

    /// Returns what `hashed` returns, by a loop over words of eight bytes.
    fn hashed_by_words(self, state: u64, bytes: &[u8]) -> u64
        ensures { result ≡ hashed self state bytes.now }
    {
        let mut hash = state;
        let mut rest = bytes;
        while let [a, b, c, d, e, f, g, h, more @ ..] = rest {
            hash = self.mixed(hash, u64::from_le_bytes([*a, *b, *c, *d, *e, *f, *g, *h]));
            rest = more;
        }
        if rest.is_empty() {
            hash
        } else {
            self.mixed(hash, key_of(rest))
        }
    }
}

/// Returns a number of 128 bits: its upper half is the hash of `first` that `hasher` returns, and
/// its lower half the one of `first + 1`.
fn drawn<B: BuildHasher>(hasher: &B, first: u64) -> u128
    requires { first < 2 ^ 32 }
    ensures { result ≡ drawn B.BuildHasher B.Hasher.Hasher hasher.now first }
{
    let high = hasher.hash_one(first);
    let low = hasher.hash_one(first + 1);
    u128::from(high) * (1 << 64) + u128::from(low)
}

/// A hasher that a code's bytes are fed to.
#[derive(Clone, Copy)]
pub struct CodeHasher {
    seed: CodeSeed,
    state: u64,
}

impl BuildHasher for CodeSeed {
    type Hasher = CodeHasher;

    ghost build_hasher = { λ s. record { seed = s; state = 0 } };

    /// Returns a hasher with this seed that was fed no bytes.
    #[inline(always)]
    fn build_hasher(&self) -> CodeHasher {
        CodeHasher {
            seed: *self,
            state: 0,
        }
    }
}

impl Hasher for CodeHasher {
    ghost write = { λ h bytes. record { seed = h.seed; state = hashed h.seed h.state bytes } };

    ghost finish = { λ h. h.state };

    /// Returns the hash of the bytes that were fed so far.
    #[inline(always)]
    fn finish(&self) -> u64 {
        self.state
    }

    /// Continues the hash with these bytes, as `CodeSeed::hashed` does. Bytes that come in several
    /// calls have the hash of all of them only if each call but the last has a multiple of 8.
    #[inline(always)]
    fn write(&mut self, bytes: &[u8]) {
        self.state = self.seed.hashed(self.state, bytes);
    }
}
