// A header while it is read.
ghost use Rattle.std.specs.Prelude.{◌≡◌, ◌-◌, length, unwrap_or, slice_get};
ghost use Rattle.vcd_head.specs.Names.{IsNew};

use crate::codes::Codes;
use std::alloc::Global;
use vcd_view::{CodeSeed, Row, Scale};

// What the phrases read so far declare.
#[derive(Drop)]
pub(crate) struct Draft {
    pub(crate) text: Vec<u8>,
    pub(crate) rows: Vec<Row>,
    pub(crate) codes: Codes,
    pub(crate) date: Vec<u8>,
    pub(crate) version: Vec<u8>,
    pub(crate) scale: Option<Scale>,
    // 1 plus the row of each open scope, outermost first.
    pub(crate) scopes: Vec<usize>,
}

impl Draft {
    /// Returns an empty draft, for a header of which nothing was read. Codes that are added to it
    /// are hashed with `seed`.
    pub(crate) fn new(alloc: Global, seed: CodeSeed) -> Self
        ensures { IsNew result }
    {
        Draft {
            text: Vec::new(alloc),
            rows: Vec::new(alloc),
            codes: Codes::new(alloc, seed),
            date: Vec::new(alloc),
            version: Vec::new(alloc),
            scale: None,
            scopes: Vec::new(alloc),
        }
    }

    /// Returns 1 plus the index of the row of the innermost open scope, or 0 if none is open.
    #[inline(always)]
    pub(crate) fn parent(&self) -> usize
        ensures { result ≡ unwrap_or
            (slice_get self.now.scopes.items (length self.now.scopes.items - 1)) 0 }
    {
        self.scopes.last().copied().unwrap_or(0)
    }
}
