// How the entries are filled by which codes are looked up. Any code may have any entry, or none:
// where an entry is decides only how fast a look-up is.
ghost use Rattle.std.specs.Prelude.{◌≡◌, ◌*◌, ◌≤◌, ◌<◌, ℕ, List, true, length, slice_get, Some, IfSome};
ghost use Rattle.vcd_view.specs.Names.{KeepsRight, MayHaveKey, is_right, text_in};

use crate::code_hash::CodeSeed;
use crate::entries::{MAX_LOOKS, code_number, entry_after, entry_of, long_key, size_or_zero_of};
use crate::key::key_of;
use crate::view::{Code, Entry, text_in};

/// Returns how many entries the table for these codes needs: a power of two, at most three for each
/// code, or none if there is no code. The bytes of the codes lie in `text`. `in_order` says that
/// the codes are in the order of their numbers (`code_number`).
///
/// It is the least power of two that has one entry for each code, or twice as many if three for
/// each code allow that. If the codes are in order and the number of the last is less than that
/// power, each code has an entry of its own, and no more are needed.
// With 1.5 to 3 entries for each code, the header of 184,002 codes in order takes 1 % more
// instructions, and 14 % more page faults.
pub fn entries_needed(text: &[u8], codes: &[Code], in_order: bool) -> usize
    ensures { result ≤ 3 * length codes.now }
{
    let Some(last) = codes.last() else {
        return 0;
    };
    let least = codes.len().next_power_of_two();
    let greatest = code_number(text_in(text, last.start, last.len as usize));
    if in_order && greatest < least || 2 * least > 3 * codes.len() {
        least
    } else {
        2 * least
    }
}

/// Writes the entries of these codes to the table `entries`, a power of two of empty ones
/// (`Entry::default`). The bytes of the codes lie in `text`, and `seed` hashes them. A code gets no
/// entry if none of those that may be its own is free, and only a binary search finds it then.
pub fn fill_entries(entries: &mut [Entry], text: &[u8], codes: &[Code], seed: CodeSeed)
    ensures right { KeepsRight text.now codes.now entries.old entries.new }
    ensures len { length entries.new ≡ length entries.old }
{
    for (position, code) in codes.iter().enumerate() {
        let bytes = text_in(text, code.start, code.len as usize);
        let (key, free) = key_and_entry_for(entries, bytes, seed);
        if let Some(at) = free {
            entries[at] = entry_with(position, *code, key);
        }
    }
}

/// Returns the key of the entry of a code with these bytes, and the index of the entry that it gets
/// in the table `entries`: the one that its number leads to, one of the three beside it, or one
/// that its hash by `seed` leads to, whichever of these is free first. `None` if none is free.
#[inline(always)]
fn key_and_entry_for(entries: &[Entry], bytes: &[u8], seed: CodeSeed) -> (u64, Option<usize>)
    ensures key { MayHaveKey bytes.now result.0 }
    ensures free { IfSome result.1 (λ at. at < length entries.now) }
{
    let key = key_of(bytes);
    if key == 0 {
        let hash = seed.hashed(0, bytes);
        return (long_key(hash), free_by(entries, hash));
    }
    match free_near(entries, entry_of(bytes, entries.len())) {
        Some(at) => (key, Some(at)),
        None => (key, free_by(entries, seed.mixed(0, key))),
    }
}

/// Returns the index of the first free entry among the four of the table `entries` at `own`, `own ^
/// 1`, `own ^ 2` and `own ^ 3`. `None` if each of the four is taken or out of range.
#[inline(always)]
fn free_near(entries: &[Entry], own: usize) -> Option<usize>
    ensures { IfSome result (λ at. at < length entries.now) }
{
    for other in 0..4 {
        if is_free(entries, own ^ other) {
            return Some(own ^ other);
        }
    }
    None
}

/// Returns the index of the first free entry of the table `entries` that `hash` leads to, in at
/// most `MAX_LOOKS` looks. `None` if all of these are taken.
fn free_by(entries: &[Entry], hash: u64) -> Option<usize>
    ensures { IfSome result (λ at. at < length entries.now) }
{
    for looks in 0..MAX_LOOKS {
        let at = entry_after(hash, looks, entries.len());
        if is_free(entries, at) {
            return Some(at);
        }
    }
    None
}

/// Returns whether index `at` of the table `entries` is in range and no code has the entry there.
#[inline(always)]
fn is_free(entries: &[Entry], at: usize) -> bool
    ensures { result ≡ true → at < length entries.now }
{
    matches!(entries.get(at), Some(entry) if entry.key == 0)
}

/// Returns an entry for the code at index `position`, with this key and the size of the code. It is
/// an empty entry if the index does not fit into 32 bits.
#[inline(always)]
fn entry_with(position: usize, code: Code, key: u64) -> Entry
    ensures { (text : List ℕ) (codes : List Code) → slice_get codes position ≡ Some code
        → MayHaveKey (text_in text code.start code.len) key → is_right text codes result ≡ true }
{
    let Ok(position) = u32::try_from(position) else {
        return Entry::default();
    };
    Entry {
        key,
        position,
        size_or_zero: size_or_zero_of(code),
    }
}
