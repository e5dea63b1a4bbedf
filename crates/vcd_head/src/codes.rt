// The distinct codes of a header while it is read.
ghost use Rattle.std.specs.Prelude.{◌≡◌, position};
ghost use Rattle.vcd_head.specs.Names.{HasNone, is_declared_as, is_key};

use crate::code_key::CodeKey;
use indexmap::IndexSet;
use std::alloc::Global;
use vcd_view::{Code, CodeSeed};

// The codes in order of first declaration, found by their bytes.
#[derive(Drop)]
pub(crate) struct Codes {
    pub(crate) list: Vec<Code>,
    // The keys of the first codes in the list, each above the one before it. Simulators number
    // codes in the order of declaration, so most headers have no other codes.
    pub(crate) rising: Vec<u64>,
    // The key of each code after the first ones.
    pub(crate) keys: IndexSet<CodeKey, CodeSeed>,
}

impl Codes {
    /// Returns a list of no codes. Codes that are added to it are hashed with `seed`.
    pub(crate) fn new(alloc: Global, seed: CodeSeed) -> Self
        ensures { HasNone result }
    {
        Codes {
            list: Vec::new(alloc),
            rising: Vec::new(alloc),
            keys: IndexSet::with_hasher(alloc, seed),
        }
    }
}

/// Returns whether the code at index `position` of `list` was declared with this size, and as the
/// code of an event exactly if `event` is true; false if there is no such index.
#[inline(always)]
pub(crate) fn is_declared_as(list: &[Code], position: usize, size: usize, event: bool) -> bool
    ensures { result ≡ is_declared_as list.now position size event }
{
    list.get(position)
        .is_some_and(|code| code.size == size && code.event == event)
}

/// Returns the index in `keys` of the key of the code with these bytes, by a look at each key.
/// `None` if none of them is the key of this code.
pub(crate) fn index_among(keys: &[CodeKey], bytes: &[u8]) -> Option<usize>
    ensures { result ≡ position (is_key bytes.now) keys.now }
{
    keys.iter().position(|key| key.is_of(bytes))
}
