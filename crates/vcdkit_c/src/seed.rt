//! How identifier codes are hashed: by a number that the caller chooses.
use std::hash::{BuildHasher, DefaultHasher, Hasher};

/// Hashes what comes after a number, by SipHash. Whoever does not know the number cannot know what
/// a hash will be.
#[derive(Clone, Copy)]
pub(crate) struct Seed {
    initial: DefaultHasher,
}

impl Seed {
    /// Returns what makes hashers for identifier codes, which all begin with this number.
    pub(crate) fn new(number: u64) -> Seed {
        let mut initial = DefaultHasher::new();
        initial.write_u64(number);
        Seed { initial }
    }
}

impl BuildHasher for Seed {
    type Hasher = DefaultHasher;

    ghost build_hasher = { λ seed. seed.initial };

    /// Returns a hasher that was fed only the number of this seed.
    fn build_hasher(&self) -> DefaultHasher {
        self.initial
    }
}
