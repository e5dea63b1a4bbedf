// Increasing keys of codes.
ghost use Rattle.std.specs.Prelude.{◌≡◌, ◌-◌, nat_eq, length, position, slice_get, unwrap_or};
ghost use Rattle.vcd_head.specs.Names.{Rises};

/// Returns the last of these keys, which increase, or 0 if there is none.
#[inline(always)]
pub(crate) fn last_rising(rising: &[u64]) -> u64
    ensures { result ≡ unwrap_or (slice_get rising.now (length rising.now - 1)) 0 }
{
    rising.last().copied().unwrap_or(0)
}

/// Returns the index of `key` in `rising`, whose keys increase; `None` if it is not among them.
// Most new codes need one comparison and no hash: otherwise the header of 184,002 codes takes 15 %
// more instructions.
#[inline(always)]
pub(crate) fn index_in_rising(rising: &[u64], key: u64) -> Option<usize>
    ensures { Rises rising.now → result ≡ position (nat_eq key) rising.now }
{
    if key > last_rising(rising) {
        return None;
    }
    rising.binary_search(&key).ok()
}
