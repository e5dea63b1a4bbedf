// Paths with ranges, by number: several variables of one path may have different ranges.
ghost use Rattle.std.specs.Prelude.{◌≡◌, ◌++◌, ◌∷◌, [], ℕ, List, drop, length, IfOk};
ghost use Rattle.vcd_model.specs.Compare.{range_of};
ghost use Rattle.vcd_view.specs.Over.{AnyVariable};
ghost use Rattle.vcd_compare.specs.Paths.{AreApart, IsNumberOf};
ghost use Rattle.vcd_compare.specs.Slices.{EntersSlice, HasSlices, no_blanks, tail_of};

use crate::paths::enter_text;
use indexmap::IndexSet;
use std::alloc::{AllocError, Global};
use vcd_view::{CodeSeed, HeadView};

// Distinct pairs of a path and a range.
#[derive(Drop)]
pub(crate) struct Slices {
    // The distinct ranges.
    pub(crate) ranges: IndexSet<Vec<u8>, CodeSeed>,
    // Of each pair the number of the path and the index of the range.
    pub(crate) pairs: IndexSet<(usize, usize), CodeSeed>,
}

impl Slices {
    /// Returns no pairs. Those that are entered are hashed with `seed`.
    pub(crate) fn new(alloc: Global, seed: CodeSeed) -> Self
        ensures { (texts : List (List ℕ)) → HasSlices texts result [] }
    {
        Slices {
            ranges: IndexSet::with_hasher(alloc, seed),
            pairs: IndexSet::with_hasher(alloc, seed),
        }
    }
}

/// Returns the index of the pair of the path with this number and of a range. It is entered if it
/// is new.
pub(crate) fn enter_slice(
    alloc: Global,
    slices: &mut Slices,
    path: usize,
    range: &[u8],
) -> Result<usize, AllocError>
    ensures { IfOk result (λ index. (texts : List (List ℕ)) (list : List (List ℕ × List ℕ))
        (t : List ℕ) → AreApart texts → HasSlices texts slices.old list → IsNumberOf texts path t
        → EntersSlice texts list slices.new (t, range.now) index) }
{
    let number = enter_text(alloc, &mut slices.ranges, range)?;
    let Ok((index, _)) = slices.pairs.insert_full((path, number)) else {
        return Err(AllocError);
    };
    Ok(index)
}

/// Returns what follows the name of the variable at index `row` in its reference.
pub(crate) fn tail_of<'a>(view: HeadView<'a>, row: usize) -> &'a [u8]
    ensures { AnyVariable view.entry row (λ _ v. result.now ≡ tail_of v) }
{
    behind(view.reference_of(row), view.name_of(row))
}

/// Returns what follows the first bytes of a text, as many as `front` has; no bytes if there are
/// fewer.
fn behind<'a>(text: &'a [u8], front: &[u8]) -> &'a [u8]
    ensures { result.now ≡ drop (length front.now) text.now }
{
    text.get(front.len()..).unwrap_or(&[])
}

/// Returns the range of the variable at index `row`: what follows its name, without blanks.
pub(crate) fn range_bytes(
    alloc: Global,
    view: HeadView<'_>,
    row: usize,
) -> Result<Vec<u8>, AllocError>
    ensures { IfOk result (λ range. AnyVariable view.entry row (λ _ v. range.items ≡ range_of v)) }
{
    without_blanks(alloc, tail_of(view, row))
}

/// Returns the bytes of a text that are no blanks.
fn without_blanks(alloc: Global, text: &[u8]) -> Result<Vec<u8>, AllocError>
    ensures { IfOk result (λ bytes. bytes.items ≡ no_blanks text.now) }
{
    let mut bytes = Vec::new(alloc);
    for byte in text {
        push_no_blank(&mut bytes, *byte)?;
    }
    Ok(bytes)
}

/// Appends a byte, unless it is a blank.
fn push_no_blank(bytes: &mut Vec<u8>, byte: u8) -> Result<(), AllocError>
    ensures { IfOk result (λ _. bytes.new.items ≡ bytes.old.items ++ no_blanks (byte ∷ [])) }
{
    if byte == b' ' {
        return Ok(());
    }
    bytes.push(byte)?;
    Ok(())
}
