// The entries by which codes are looked up: where the entry of a code is, and what it keeps. Any
// code may have any entry, and two codes may have the same one. Where an entry is decides only how
// fast a look-up is.
ghost use Rattle.std.specs.Prelude.{◌≡◌, ◌+◌, ◌-◌, ◌%◌, ◌^◌, ◌<◌, ◌≤◌, true, bit_and, length, IfSome};
ghost use Rattle.vcd_view.specs.Names.{HasEntry, IsAt, above, are_right, entry_after, entry_in, size_or_zero_of, number_in};

use crate::code_hash::CodeSeed;
use crate::key::key_of;
use crate::view::{Code, Entry, code_in, text_in};

/// Returns the index of the entry in which a look-up of this code begins, in a table of `entries`
/// entries. `entries` is a power of two.
///
/// Simulators number codes from `!` on in base 94, the lowest digit first, in the order of
/// declaration. Read as a number in base 99, nearly all of these have entries of their own, side by
/// side. As 99 is odd, each byte of any other code also decides on the lowest bits.
// It reads one entry of 16 bytes. A binary search takes some 340 ns for each change of 27,505
// codes. In base 94, `check` of 300 codes `aaaaa`.. takes twice as many instructions.
#[inline(always)]
pub(crate) fn entry_of(code: &[u8], entries: usize) -> usize
    ensures { result ≡ entry_in code.now entries }
{
    entry_for(code_number(code), entries)
}

/// Returns the low bits of a number, as an index into a table of `entries` entries, a power of two.
/// The number comes from a code (`code_number`) or from a hash. If `entries` is 0, the result is
/// the number itself.
#[inline(always)]
fn entry_for(number: usize, entries: usize) -> usize
    ensures { result ≡ bit_and number ((entries + (2 ^ 64 - 1)) % 2 ^ 64) }
{
    number & entries.wrapping_sub(1)
}

/// Returns the number whose digits in base 99 are the bytes of a code, each less 32, the first byte
/// as the lowest digit. It wraps at 2^64, so long codes may have the same number.
#[inline(always)]
pub(crate) fn code_number(code: &[u8]) -> usize
    ensures { result ≡ number_in code.now }
{
    match code {
        [first] => above(0, *first),
        [first, second] => above(above(0, *second), *first),
        [first, second, third] => above(above(above(0, *third), *second), *first),
        [first, second, third, fourth] => above(
            above(above(above(0, *fourth), *third), *second),
            *first,
        ),
        _ => long_code_number(code),
    }
}

/// Returns the number in base 99 that has `byte` less 32 as its lowest digit and the digits of
/// `number` above that. It wraps at 2^64.
#[inline(always)]
fn above(number: usize, byte: u8) -> usize
    ensures { result ≡ above number byte }
{
    number
        .wrapping_mul(99)
        .wrapping_add(usize::from(byte).wrapping_sub(32))
}

/// Returns what `code_number` returns for a code of any length, by a loop over its bytes.
fn long_code_number(code: &[u8]) -> usize
    ensures { result ≡ number_in code.now }
{
    let mut number: usize = 0;
    let mut position = code.len();
    while position > 0 {
        position -= 1;
        number = above(number, code[position]);
    }
    number
}

// The least key of the entry of a code of 8 bytes or more.
const LONG: u64 = 1 << 63;

/// How many of the entries to which the hash of a code leads a look-up looks at, at most.
pub(crate) const MAX_LOOKS: usize = 64;

/// Returns the index of the entry that a look-up by `hash` looks at after it has looked at `looks`
/// others, in a table of `entries` entries, a power of two.
///
/// The lower half of the hash says where the first of these entries is, and the upper half how far
/// one is from the next, so that the second look already leaves a crowded part of the table.
#[inline(always)]
pub(crate) fn entry_after(hash: u64, looks: usize, entries: usize) -> usize
    ensures { result ≡ entry_after hash looks entries }
{
    let step = (hash >> 32) as usize | 1;
    entry_for(
        (hash as usize).wrapping_add(looks.wrapping_mul(step)),
        entries,
    )
}

/// Returns the key of the entry of a code of 8 bytes or more, which has this hash: its highest bit
/// is set. No shorter code has such a key.
#[inline(always)]
pub(crate) fn long_key(hash: u64) -> u64
    ensures key { result ≡ hash % 2 ^ 63 + 2 ^ 63 }
    ensures long { 2 ^ 63 ≤ result }
{
    hash % LONG + LONG
}

/// Returns the index of a code in `codes`, if its entry is the third or fourth of the four beside
/// each other that its number leads to, or one that its hash leads to. `None` if it has none of
/// these; then it may still be in `codes`. `text` has the bytes of the codes, `entries` are their
/// entries, and `seed` hashes them, as in a `HeadView`.
// For codes of 8 bytes or more, and codes crafted to share entries: `check` of 100,000 takes 1.5 to
// 2.6 times as long as for ordinary codes, and with only the binary search 8 to 13 times.
pub(crate) fn index_by_hash(
    text: &[u8],
    codes: &[Code],
    entries: &[Entry],
    seed: CodeSeed,
    code: &[u8],
) -> Option<usize>
    requires right { are_right text.now codes.now entries.now ≡ true }
    ensures { IfSome result (λ position. IsAt text.now codes.now code.now position) }
{
    let key = key_of(code);
    if key == 0 {
        let hash = seed.hashed(0, code);
        return index_of_long(text, codes, entries, hash, code);
    }
    match index_beside(entries, entry_of(code, entries.len()), key) {
        Some(position) => Some(position),
        None => index_of_key(entries, seed.mixed(0, key), key),
    }
}

/// Returns the index of the code with this key, if the entry at `own ^ 2` or `own ^ 3` of the table
/// `entries` has the key; otherwise `None`. The four entries from `own` to `own ^ 3` have 64 bytes,
/// so a look at them reads at most one cache line more than a look at the first.
fn index_beside(entries: &[Entry], own: usize, key: u64) -> Option<usize>
    ensures { IfSome result (λ position. HasEntry entries.now key position) }
{
    for other in 2..4 {
        let entry = entries.get(own ^ other)?;
        if entry.key == key {
            return Some(entry.position as usize);
        }
    }
    None
}

/// Returns the index of the code with this key, if a look-up by `hash` in the table `entries` finds
/// its entry in at most `MAX_LOOKS` looks, and no empty entry before it; otherwise `None`.
fn index_of_key(entries: &[Entry], hash: u64, key: u64) -> Option<usize>
    ensures { IfSome result (λ position. HasEntry entries.now key position) }
{
    for looks in 0..MAX_LOOKS {
        let entry = entries.get(entry_after(hash, looks, entries.len()))?;
        if entry.key == key {
            return Some(entry.position as usize);
        }
        if entry.key == 0 {
            return None;
        }
    }
    None
}

/// Returns the index in `codes` of this code of 8 bytes or more, if a look-up by `hash`, the hash
/// of the code, finds its entry in the table `entries`. `None` if it does not; then the code may
/// still be in `codes`, whose bytes lie in `text`.
///
/// As another code may have the same key, the bytes are compared too.
fn index_of_long(
    text: &[u8],
    codes: &[Code],
    entries: &[Entry],
    hash: u64,
    code: &[u8],
) -> Option<usize>
    ensures { IfSome result (λ position. IsAt text.now codes.now code.now position) }
{
    let position = index_of_key(entries, hash, long_key(hash))?;
    let other = code_in(codes, position)?;
    if text_in(text, other.start, other.len as usize) == code {
        Some(position)
    } else {
        None
    }
}

/// Returns the size of a code: how many binary digits a change of it may have. It is 0 if its
/// variables are events, or if the size does not fit into 32 bits.
pub(crate) fn size_or_zero_of(code: Code) -> u32
    ensures { result ≡ size_or_zero_of code }
{
    if code.event {
        return 0;
    }
    u32::try_from(code.size).unwrap_or(0)
}
