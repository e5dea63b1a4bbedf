//! Copies into bytes that were lent.
ghost use Rattle.vcdkit_c.specs.Names.{Fills};

/// Copies `from` to the first bytes of `to`, as far as there is room, and returns the length of
/// `from`, which may be more than was copied. The other bytes of `to` stay as they are.
pub(crate) fn fill(to: &mut [u8], from: &[u8]) -> u64
    ensures { Fills to.new result from.now }
{
    let n = from.len().min(to.len());
    to[..n].copy_from_slice(&from[..n]);
    from.len() as u64
}
