// The keys by which the set of codes finds them.
ghost use Rattle.std.specs.Prelude.{◌≡◌, bytes_eq, IfOk};
ghost use Rattle.vcd_head.specs.Names.{nat_list_eq_equiv, on_equiv, on_per, partial_equiv_from_equiv, same_shape, same_writes, shape_in, shape_of, writes_of};

use std::alloc::{AllocError, Global};
use std::hash::{Hash, Hasher};
use vcd_view::key_of;

// A code as the set `Codes::keys` has it: a short one as its key (`key_of`), a longer one as its
// bytes.
#[derive(Drop)]
pub(crate) enum CodeKey {
    Short(u64),
    Long(Vec<u8>),
}

impl CodeKey {
    /// Returns the key by which the set `Codes::keys` finds the identifier code with these bytes. A
    /// code of at most 7 bytes takes no memory. Fails if there is no memory for a longer one.
    #[inline(always)]
    pub(crate) fn of(alloc: Global, bytes: &[u8]) -> Result<CodeKey, AllocError>
        ensures { IfOk result (λ key. shape_of key ≡ shape_in bytes.now) }
    {
        let key = key_of(bytes);
        if key != 0 {
            return Ok(CodeKey::Short(key));
        }
        Ok(CodeKey::Long(Vec::from_slice(alloc, bytes)?))
    }

    /// Returns whether this is the key of the identifier code with these bytes.
    pub(crate) fn is_of(&self, bytes: &[u8]) -> bool
        ensures { result ≡ bytes_eq (shape_in bytes.now) (shape_of self.now) }
    {
        let key = key_of(bytes);
        match self {
            CodeKey::Short(own) => key != 0 && key == *own,
            CodeKey::Long(own) => key == 0 && bytes == own.as_slice(),
        }
    }
}

impl PartialEq for CodeKey {
    ghost eq = { same_shape };

    ghost laws = { on_per shape_of (partial_equiv_from_equiv nat_list_eq_equiv) };

    /// Returns whether both are keys of the same identifier code.
    #[inline(always)]
    fn eq(&self, other: &CodeKey) -> bool {
        match (self, other) {
            (CodeKey::Short(a), CodeKey::Short(b)) => *a == *b,
            (CodeKey::Long(a), CodeKey::Long(b)) => *a == *b,
            _ => false,
        }
    }
}

impl Eq for CodeKey {
    ghost laws = { on_equiv shape_of nat_list_eq_equiv };
}

impl Hash for CodeKey {
    ghost hash_input = { writes_of };

    ghost respects_eq = { same_writes };

    /// Feeds a short code's key, or the bytes of a long one, to the hasher `state`.
    #[inline(always)]
    fn hash<H: Hasher>(&self, state: &mut H) {
        match self {
            CodeKey::Short(key) => state.write_u64(*key),
            CodeKey::Long(bytes) => state.write(bytes),
        }
    }
}
