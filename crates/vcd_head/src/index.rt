// The order of codes by their bytes.
ghost use Rattle.std.specs.Prelude.{◌≡◌, ◌^◌, ◌<◌, ◌≤◌, List, length, map, get_or, IfOk, IfSome};
ghost use Rattle.vcd_head.specs.Names.{AnyHeld, AreRanks, IsIndex, prefix_in, position_in_rank, range_with_len, rank_of};

use std::alloc::{AllocError, Global};
use vcd_view::{Code, code_bytes};

// How many bytes of a code a rank has at most.
const RANK_BYTES: usize = 4;

// How many indexes a rank can distinguish.
const RANK_POSITIONS: usize = 16_777_216;

/// Returns the indexes of the codes in the order of the codes' bytes, which lie in `text`. Fails if
/// there is no memory.
pub(crate) fn index_of(alloc: Global, text: &[u8], codes: &[Code]) -> Result<Vec<usize>, AllocError>
    ensures { AnyHeld text.now codes.now (λ cs. IfOk result (λ index. IsIndex cs index.items)) }
{
    match index_by_ranks(alloc, text, codes)? {
        Some(index) => Ok(index),
        None => index_by_bytes(alloc, text, codes),
    }
}

/// Returns the indexes of short codes in the order of the codes' bytes, which lie in `text`, by
/// sorting numbers instead of texts. `None` if a code has more than 4 bytes, or if there are more
/// than 16,777,216 codes. Fails if there is no memory.
fn index_by_ranks(
    alloc: Global,
    text: &[u8],
    codes: &[Code],
) -> Result<Option<Vec<usize>>, AllocError>
    ensures { AnyHeld text.now codes.now (λ cs.
        IfOk result (λ found. IfSome found (λ index. IsIndex cs index.items))) }
{
    let Some(ranks) = ranks_of(alloc, text, codes)? else {
        return Ok(None);
    };
    let mut index = ranks;
    index.sort_unstable();
    ranks_to_indexes(&mut index);
    Ok(Some(index))
}

/// Returns for each code, in the order of `codes`, the number that `rank_of` makes of its bytes,
/// which lie in `text`, and its index. `None` if a code has more than 4 bytes, or if there are more
/// than 16,777,216 codes. Fails if there is no memory.
fn ranks_of(alloc: Global, text: &[u8], codes: &[Code]) -> Result<Option<Vec<usize>>, AllocError>
    ensures { IfOk result (λ some. IfSome some (λ ranks. AreRanks text.now codes.now ranks.items)) }
{
    if codes.len() > RANK_POSITIONS {
        return Ok(None);
    }
    let mut ranks = Vec::with_capacity(alloc, codes.len())?;
    for position in 0..codes.len() {
        let bytes = code_bytes(text, codes, position);
        if bytes.len() > RANK_BYTES {
            return Ok(None);
        }
        ranks.push(rank_of(bytes, position))?;
    }
    Ok(Some(ranks))
}

/// Returns the bytes of a code (at most 4), how many they are, and its index `position` (below
/// 16,777,216) in one number. Such numbers are in the order of the codes' bytes, so that they can
/// be sorted without a look at the codes.
#[inline(always)]
fn rank_of(bytes: &[u8], position: usize) -> usize
    requires short { length bytes.now ≤ 4 }
    requires position { position < 16777216 }
    ensures { result ≡ rank_of bytes.now position }
{
    let front = prefix_of(bytes, RANK_BYTES);
    (front as usize * 8 + bytes.len()) * RANK_POSITIONS + position
}

/// Replaces each number that `rank_of` returned by the index in it.
fn ranks_to_indexes(ranks: &mut [usize])
    ensures { ranks.new ≡ map position_in_rank ranks.old }
{
    for rank in ranks.iter_mut() {
        *rank %= RANK_POSITIONS;
    }
}

/// Returns the indexes of codes of any length in the order of the codes' bytes, which lie in
/// `text`. Fails if there is no memory.
fn index_by_bytes(alloc: Global, text: &[u8], codes: &[Code]) -> Result<Vec<usize>, AllocError>
    ensures { AnyHeld text.now codes.now (λ cs. IfOk result (λ index. IsIndex cs index.items)) }
{
    let mut index = positions_below(alloc, codes.len())?;
    index.sort_unstable_by(|a, b| code_bytes(text, codes, *a).cmp(code_bytes(text, codes, *b)));
    Ok(index)
}

/// Returns the numbers below `count`, in order. Fails if there is no memory.
fn positions_below(alloc: Global, count: usize) -> Result<Vec<usize>, AllocError>
    ensures { IfOk result (λ positions. positions.items ≡ range_with_len 0 count) }
{
    let mut positions = Vec::with_capacity(alloc, count)?;
    for position in 0..count {
        positions.push(position)?;
    }
    Ok(positions)
}

/// Returns the first `count` bytes (at most 8) as a number, the first byte as the highest. Missing
/// bytes count as zeros.
#[inline(always)]
fn prefix_of(bytes: &[u8], count: usize) -> u64
    requires { count ≤ 8 }
    ensures front { result ≡ prefix_in count bytes.now }
    ensures small { result < 256 ^ count }
{
    let mut number = 0;
    for position in 0..count {
        number = number * 256 + byte_at(bytes, position);
    }
    number
}

/// Returns the byte at index `position`, or 0 if there is none.
#[inline(always)]
fn byte_at(bytes: &[u8], position: usize) -> u64
    ensures byte { result ≡ get_or bytes.now position 0 }
    ensures small { result < 256 }
{
    u64::from(bytes.get(position).copied().unwrap_or(0))
}
