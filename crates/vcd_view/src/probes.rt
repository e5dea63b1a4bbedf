// Comparisons of codes, counted.
ghost use Rattle.std.specs.Prelude.{◌≡◌, ℕ, ◌+◌};
ghost use Rattle.vcd_view.specs.Names.{nat_cmp, slice_cmp};
ghost use base.Fml.{ftrue};

use std::cmp::Ordering;
use std::marker::{Model, PhantomData};

/// How many comparisons of codes were made. It takes no bytes.
#[derive(Drop)]
pub struct Probes {
    marker: PhantomData<u8>,
    pub ghost count: { ℕ },
}

impl Model for Probes {
    ghost also_owns = { λ _. ftrue };
}

impl Probes {
    /// Returns a count of comparisons that begins at 0.
    pub fn new() -> Self
        ensures { result.count ≡ 0 }
    {
        Probes {
            marker: PhantomData,
        }
    }

    /// Returns this count with one more comparison.
    fn after_one(&self) -> Self
        ensures { result.count ≡ self.now.count + 1 }
    {
        Probes {
            marker: PhantomData,
        }
    }

    /// Returns how `code` compares with `other` in the order of their bytes, and adds 1 to this
    /// count, which only proofs see.
    pub fn probe(&mut self, code: &[u8], other: &[u8]) -> Ordering
        ensures order { result ≡ slice_cmp nat_cmp code.now other.now }
        ensures counted { self.new.count ≡ self.old.count + 1 }
    {
        *self = self.after_one();
        code.cmp(other)
    }
}
