// Rows as they are read, and as they are stored.
ghost use Rattle.std.specs.Prelude.{◌≡◌, ◌+◌, ◌^◌, ◌<◌, ◌≤◌, [], ◌∷◌, ◌++◌, IfOk, IfErr, vec_len};
ghost use Rattle.vcd_head.specs.Names.{IsNarrow, row_of};

use crate::fault::HeadFault;
use vcd_view::{Kind, Row};

// A row before some of its numbers are stored in 32 bits.
#[derive(Clone, Copy)]
pub(crate) struct WideRow {
    pub(crate) kind: Kind,
    pub(crate) parent: usize,
    pub(crate) start: usize,
    pub(crate) word: usize,
    pub(crate) name: usize,
    pub(crate) all: usize,
    pub(crate) code: usize,
}

/// Returns the length of a token as a number of 32 bits. Fails with `OutOfMemory` for a token of 4
/// GiB or more.
#[inline(always)]
pub(crate) fn token_len(len: usize) -> Result<u32, HeadFault>
    ensures held { IfOk result (λ held. held ≡ len) }
    ensures long { IfErr result (λ fault. (fault ≡ HeadFault.OutOfMemory) × (2 ^ 32 ≤ len)) }
{
    u32::try_from(len).or(Err(HeadFault::OutOfMemory))
}

/// Returns an index of a row or of a code as a number of 32 bits. The index of each declaration
/// that is allowed fits. One that does not fit becomes 2^32 - 1.
#[inline(always)]
fn in_32_bits(number: usize) -> u32
    ensures { number < 2 ^ 32 → result ≡ number }
{
    u32::try_from(number).unwrap_or(u32::MAX)
}

/// Appends an item to a list. Fails with `OutOfMemory` if there is no memory; then the list does
/// not change.
// With `Vec::push`, which returns the item then, the header of 184,002 codes takes 5 % more
// instructions for its rows only.
#[inline(always)]
pub(crate) fn append<T: Copy>(list: &mut Vec<T>, item: T) -> Result<(), HeadFault>
    ensures items { IfOk result (λ _. list.new.items ≡ list.old.items ++ item ∷ []) }
    ensures len { IfOk result (λ _. vec_len list.new ≡ vec_len list.old + 1) }
    ensures memory { IfErr result (λ fault. fault ≡ HeadFault.OutOfMemory) }
{
    list.reserve(1)?;
    list.push_reserved(item);
    Ok(())
}

/// Appends a declaration to `rows`. Fails with `OutOfMemory` if there is no memory, or if its type
/// or name has 4 GiB or more; then `rows` does not change.
#[inline(always)]
pub(crate) fn push(rows: &mut Vec<Row>, row: WideRow) -> Result<(), HeadFault>
    ensures items { IsNarrow row
        → IfOk result (λ _. rows.new.items ≡ rows.old.items ++ row_of row ∷ []) }
    ensures len { IfOk result (λ _. vec_len rows.new ≡ vec_len rows.old + 1) }
    ensures memory { IfErr result (λ fault. fault ≡ HeadFault.OutOfMemory) }
{
    let word = token_len(row.word)?;
    let name = token_len(row.name)?;
    let stored = Row {
        kind: row.kind,
        parent: in_32_bits(row.parent),
        word,
        name,
        code: in_32_bits(row.code),
        start: row.start,
        all: row.all,
    };
    append(rows, stored)
}
