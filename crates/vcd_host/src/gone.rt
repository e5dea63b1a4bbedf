//! Bytes that were dropped.
ghost use Rattle.std.specs.Prelude.{◌≡◌, ℕ, List, [], ◌++◌};
ghost use Rattle.std.specs.Borrow.{ftrue};

use std::marker::{Model, PhantomData};

/// The bytes that were dropped, one after the other. They take no memory: only contracts read them.
#[derive(Drop)]
pub(crate) struct Gone {
    marker: PhantomData<u8>,
    pub ghost bytes: { List ℕ },
}

impl Model for Gone {
    ghost also_owns = { λ _. ftrue };
}

impl Gone {
    /// Returns a record of dropped bytes that has none yet.
    pub(crate) fn new() -> Gone
        ensures { result.bytes ≡ [] }
    {
        Gone {
            marker: PhantomData,
        }
    }

    /// Adds these bytes, for which an output has no room, to the record. It takes no memory, as
    /// only contracts see the record.
    #[inline(always)]
    pub(crate) fn push(&mut self, _bytes: &[u8])
        ensures { self.new.bytes ≡ self.old.bytes ++ _bytes.now }
    {}
}
