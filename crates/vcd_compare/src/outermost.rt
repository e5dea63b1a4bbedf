//! Which pairs of names no other one covers.
ghost use Rattle.std.specs.Prelude.{◌≡◌, ◌<◌, ℕ, List, IfOk, IfSome};
ghost use Rattle.std.specs.List.{AllZip, list_any};
ghost use Rattle.vcd_model.specs.Within.{Names, outermost};
ghost use Rattle.vcd_compare.specs.HasPairs.{AreNumbersOf};
ghost use Rattle.vcd_compare.specs.Outermost.{AreAround, AreKeysOf, firsts, is_within};
ghost use Rattle.vcd_compare.specs.Paths.{AreApart, HasTexts};

use crate::paths::{Paths, node_at};
use indexmap::IndexSet;
use std::alloc::{AllocError, Global};
use vcd_view::CodeSeed;

/// Returns those of these pairs of names that no other one covers, each once, in order. The names
/// are given by the numbers of their paths. The time grows with the lengths of the names.
pub(crate) fn outermost(
    alloc: Global,
    seed: CodeSeed,
    paths: &Paths,
    names: &[(usize, usize)],
) -> Result<Vec<(usize, usize)>, AllocError>
    ensures { IfOk result (λ numbers. (texts : List (List ℕ)) (ns : List Names)
        → HasTexts paths.now texts → AllZip (AreNumbersOf texts) names.now ns
        → AllZip (AreNumbersOf texts) numbers.items (outermost ns)) }
{
    let all = distinct(alloc, seed, names)?;
    let mut outermost = Vec::new(alloc);
    for pair in all.as_slice() {
        if !is_covered(paths, &all, *pair) {
            outermost.push(*pair)?;
        }
    }
    Ok(outermost)
}

/// Returns these pairs, each once, in order.
fn distinct(
    alloc: Global,
    seed: CodeSeed,
    pairs: &[(usize, usize)],
) -> Result<IndexSet<(usize, usize), CodeSeed>, AllocError>
    ensures { IfOk result (λ all. (texts : List (List ℕ)) (ns : List Names) → AreApart texts
        → AllZip (AreNumbersOf texts) pairs.now ns
        → AllZip (AreNumbersOf texts) all.keys (firsts ns) × AreKeysOf texts all.keys ns) }
{
    let mut all = IndexSet::with_hasher(alloc, seed);
    for pair in pairs {
        let Ok(_) = all.insert(*pair) else {
            return Err(AllocError);
        };
    }
    Ok(all)
}

/// Returns whether two paths are inside the two of one of these pairs, with the same rest after
/// both.
fn is_covered(paths: &Paths, all: &IndexSet<(usize, usize), CodeSeed>, pair: (usize, usize)) -> bool
    ensures { (texts : List (List ℕ)) (n : Names) (ns : List Names) → HasTexts paths.now texts
        → AreNumbersOf texts pair n → AreKeysOf texts all.now.keys ns
        → result ≡ list_any (is_within n) ns }
{
    let mut inner = pair;
    while let Some(around) = both_around(paths, inner) {
        if all.contains(&around) {
            return true;
        }
        inner = around;
    }
    false
}

/// Returns the paths around two paths, if both have one and the same last part follows it.
fn both_around(paths: &Paths, pair: (usize, usize)) -> Option<(usize, usize)>
    ensures smaller { IfSome result (λ around. around.0 < pair.0) }
    ensures around { (texts : List (List ℕ)) (n : Names) → HasTexts paths.now texts
        → AreNumbersOf texts pair n → AreAround texts n result }
{
    let (one, part) = node_at(&paths.nodes, pair.0);
    let (other, last) = node_at(&paths.nodes, pair.1);
    if one == 0 || one >= pair.0 || other == 0 || part != last {
        return None;
    }
    Some((one, other))
}
