// Codes that are looked up.
ghost use Rattle.std.specs.Prelude.{List, true, ◌≡◌, ◌+◌, ◌≤◌, ◌<◌, length, option_map, IfSome, Some};
ghost use Rattle.vcd_view.specs.Names.{AllByRecursion, AnyCodes, AnyHeader, AreBytes, Finds, Header, IdCode, IsIndex, IsSized, IsViewOf, are_right, bits_of, key_in};

use crate::code_hash::CodeSeed;
use crate::entries::{entry_of, index_by_hash, size_or_zero_of};
use crate::key::key_of;
use crate::probes::Probes;
use crate::view::{Code, Entry, HeadView, code_bytes, code_in};
use std::cmp::Ordering;

/// A code that was looked up.
#[derive(Clone, Copy, PartialEq, Eq, Debug)]
pub struct Found {
    /// The index of the code among the distinct codes.
    pub position: usize,
    /// The size of the code: how many digits a change of it may have. It is 0 if its variables are
    /// events, or if the size does not fit into 32 bits; then the view's code has it.
    pub size_or_zero: usize,
}

/// Returns the index of an identifier code in `view.codes`; `None` if the header does not declare
/// it. It searches as `find_counted` does; `find_sized` takes less time.
pub fn find(view: HeadView<'_>, code: &[u8]) -> Option<usize>
    ensures found { (h : Header) → IsViewOf view.entry h → Finds h.codes code.now result }
    ensures within { IfSome result (λ position. position < length view.entry.codes.now) }
{
    find_counted(view, code, &mut Probes::new())
}

/// Returns the index of an identifier code in `view.codes`; `None` if the header does not declare
/// it. `probes` counts the codes that it is compared with: at most as many as the number of codes
/// has binary digits.
pub fn find_counted(view: HeadView<'_>, code: &[u8], probes: &mut Probes) -> Option<usize>
    ensures found { (h : Header) → IsViewOf view.entry h → Finds h.codes code.now result }
    ensures within { IfSome result (λ position. position < length view.entry.codes.now) }
    ensures never_falls { probes.old.count ≤ probes.new.count }
    ensures counted { 0 < length view.entry.index.now → probes.old.count < probes.new.count }
    ensures few { AnyHeader view.entry (λ h.
        probes.new.count ≤ probes.old.count + length (bits_of (length h.codes))) }
{
    search(view.text, view.codes, view.index, code, probes)
}

/// Returns the index of an identifier code in `view.codes`, and its size; `None` if the header does
/// not declare it.
///
/// A look at one entry finds nearly all codes that simulators use, and a look at the first one
/// beside it most of the others. The rest are looked for in the other two beside it and by their
/// hash, and those that are not found so by a binary search.
#[inline(always)]
pub fn find_sized(view: HeadView<'_>, code: &[u8]) -> Option<Found>
    ensures found { (h : Header) → IsViewOf view.entry h
        → Finds h.codes code.now (option_map (λ found. found.position) result) }
    ensures sized { IfSome result (λ found. IsSized view.entry.codes.now found) }
{
    if let Some(found) = find_in_entry(view, code, 0) {
        return Some(found);
    }
    if let Some(found) = find_in_entry(view, code, 1) {
        return Some(found);
    }
    let position = find_slowly(
        view.text,
        view.codes,
        view.index,
        view.entries,
        view.seed,
        code,
    )?;
    let code = code_in(view.codes, position)?;
    Some(Found {
        position,
        size_or_zero: size_or_zero_of(code) as usize,
    })
}

/// Returns the index and size of an identifier code, by a look at only one entry: the one that its
/// number leads to if `other` is 0, and the first one beside it if `other` is 1. `None` if that is
/// not the entry of the code, or if the code has more than 7 bytes; then `find_sized` may find it.
// Most changes that rtl_433 writes are of a code that the entry beside its own holds. If
// `find_slowly` looks there, `check` takes 27 % more.
#[inline(always)]
pub fn find_in_entry(view: HeadView<'_>, code: &[u8], other: usize) -> Option<Found>
    ensures found { (h : Header) → IsViewOf view.entry h
        → IfSome result (λ found. Finds h.codes code.now (Some found.position)) }
    ensures sized { IfSome result (λ found. IsSized view.entry.codes.now found) }
    ensures short { IfSome result (λ _. 0 < key_in code.now) }
{
    let key = key_of(code);
    if key == 0 {
        return None;
    }
    let own = entry_of(code, view.entries.len());
    let entry = view.entries.get(own ^ other)?;
    if entry.key == key {
        Some(Found {
            position: entry.position as usize,
            size_or_zero: entry.size_or_zero as usize,
        })
    } else {
        None
    }
}

/// Returns the index in `codes` of a code that the first two entries to look at do not have: by a
/// look at the other two beside them, by its hash, or else by a binary search. `None` if the code
/// is not in `codes`. `text`, `codes`, `index`, `entries` and `seed` are those of a `HeadView`.
///
/// It takes no view, so that a look-up by one entry need not make one ready, and it returns only a
/// number, which needs no memory.
#[inline(never)]
fn find_slowly(
    text: &[u8],
    codes: &[Code],
    index: &[usize],
    entries: &[Entry],
    seed: CodeSeed,
    code: &[u8],
) -> Option<usize>
    requires right { are_right text.now codes.now entries.now ≡ true }
    ensures found { AnyCodes text.now codes.now (λ ks. AllByRecursion (λ (k : IdCode). AreBytes k.text) ks
        → IsIndex ks index.now → Finds ks code.now result) }
    ensures within { IfSome result (λ position. position < length codes.now) }
{
    match index_by_hash(text, codes, entries, seed, code) {
        Some(position) => Some(position),
        None => search(text, codes, index, code, &mut Probes::new()),
    }
}

/// Returns the index of a code in `codes`, whose bytes lie in `text`, by a binary search in
/// `index`, which has the indexes of all codes in the order of their bytes; `None` if the code is
/// not in `codes`. `probes` counts the comparisons. It takes single slices, so that no view has to
/// be made ready for it.
#[inline(never)]
fn search(
    text: &[u8],
    codes: &[Code],
    index: &[usize],
    code: &[u8],
    probes: &mut Probes,
) -> Option<usize>
    ensures found { AnyCodes text.now codes.now (λ ks. IsIndex ks index.now → Finds ks code.now result) }
    ensures within { IfSome result (λ position. position < length codes.now) }
    ensures never_falls { probes.old.count ≤ probes.new.count }
    ensures counted { 0 < length index.now → probes.old.count < probes.new.count }
    ensures few { (ks : List IdCode) → IsIndex ks index.now
        → probes.new.count ≤ probes.old.count + length (bits_of (length ks)) }
{
    let mut low = 0;
    let mut high = index.len();
    while low < high {
        let middle = low + (high - low) / 2;
        let position = index[middle];
        match probes.probe(code_bytes(text, codes, position), code) {
            Ordering::Less => low = middle + 1,
            Ordering::Greater => high = middle,
            Ordering::Equal => return (position < codes.len()).then_some(position),
        }
    }
    None
}
