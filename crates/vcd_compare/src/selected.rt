// What names select: the variables inside each of some paths.
ghost use Rattle.std.specs.Prelude.{◌≡◌, ◌∷◌, [], ◌<◌, ◌≤◌, ◌^◌, ◌+◌, ◌++◌, ℕ, List, cond, false, get_or, length, flat_map, replicate, set, IfOk};
ghost use Rattle.std.specs.List.{AllZip};
ghost use Rattle.vcd_compare.specs.Paths.{HasTexts, IsNumberOf};
ghost use Rattle.vcd_compare.specs.HasPairs.{AreNumbersOf};
ghost use Rattle.vcd_compare.specs.Selected.{AreInside, AreMarks, AreNamedBelow, AreNearest, AreWithin, IsPutInside, both_names, first_above, lists_in};
ghost use Rattle.vcd_model.specs.Within.{Names};

use crate::paths::{Paths, node_at};
use crate::variables::{Variables, number_at};
use std::alloc::{AllocError, Global};

/// Returns by the number of a name's path the indexes of the variables that the name selects, and
/// no exception. The numbers of the names are at most `named`.
pub(crate) fn selected_by(
    alloc: Global,
    paths: &Paths,
    variables: &Variables,
    names: &[(usize, usize)],
    named: usize,
    exceptions: &[usize],
) -> Result<Vec<Vec<usize>>, AllocError>
    requires { named < 2 ^ 63 }
    ensures { IfOk result (λ lists. (texts es : List (List ℕ)) (ns : List Names)
        → HasTexts paths.now texts → AreNamedBelow texts (both_names ns) (named + 1)
        → AreWithin variables.now.paths.items (length texts)
        → AllZip (AreNumbersOf texts) names.now ns → AllZip (IsNumberOf texts) exceptions.now es
        → AreInside texts (both_names ns) es variables.now.paths.items
        (length variables.now.paths.items) lists.items) }
{
    let numbers = both_of(alloc, names)?;
    let nearest = nearest_of(alloc, paths, &numbers)?;
    let left_out = nearest_of(alloc, paths, exceptions)?;
    inside_of(alloc, paths, &nearest, &left_out, &variables.paths, named)
}

/// Returns both numbers of each pair, in one list.
fn both_of(alloc: Global, numbers: &[(usize, usize)]) -> Result<Vec<usize>, AllocError>
    ensures { IfOk result (λ all. all.items ≡ flat_map (λ m. m.0 ∷ m.1 ∷ []) numbers.now) }
{
    let mut all = Vec::with_capacity(alloc, numbers.len().saturating_mul(2))?;
    for (one, other) in numbers {
        all.push(*one)?;
        all.push(*other)?;
    }
    Ok(all)
}

/// Returns for each number of a path, and for 0, the number of the nearest path among these that it
/// is, or that it is inside of; 0 if there is none.
pub(crate) fn nearest_of(
    alloc: Global,
    paths: &Paths,
    numbers: &[usize],
) -> Result<Vec<usize>, AllocError>
    ensures { IfOk result (λ nearest. (texts names : List (List ℕ)) → HasTexts paths.now texts
        → AllZip (IsNumberOf texts) numbers.now names
        → AreNearest texts names (length texts) nearest.items) }
{
    let marks = marks_of(alloc, numbers, paths.nodes.len())?;
    let mut nearest = Vec::with_capacity(alloc, marks.len())?;
    nearest.push(0)?;
    for index in 0..paths.nodes.len() {
        let (around, _) = paths.nodes.as_slice()[index];
        let number = nearest_at(&marks, index + 1, &nearest, around);
        nearest.push(number)?;
    }
    Ok(nearest)
}

/// Returns for 0 and each number up to `count` whether it is one of these.
fn marks_of(alloc: Global, numbers: &[usize], count: usize) -> Result<Vec<bool>, AllocError>
    requires { count < 2 ^ 63 }
    ensures { IfOk result (λ marks. AreMarks numbers.now count marks.items) }
{
    let mut marks = vec![in alloc; false; count + 1]?;
    for number in numbers {
        if *number < marks.len() {
            marks[*number] = true;
        }
    }
    Ok(marks)
}

/// Returns this number if it is marked, and else what is nearest to the number `around`.
fn nearest_at(marks: &[bool], number: usize, nearest: &[usize], around: usize) -> usize
    ensures { result ≡ cond (get_or marks.now number false) number (get_or nearest.now around 0) }
{
    match marks.get(number) {
        Some(true) => number,
        _ => number_at(nearest, around),
    }
}

/// Returns for each number of a path the indexes of the items inside that path, if it is one of
/// those that `nearest` has. These are at most `named`. What is inside a path that is left out is
/// not listed. Each item is the number of the path around it.
pub(crate) fn inside_of(
    alloc: Global,
    paths: &Paths,
    nearest: &[usize],
    left_out: &[usize],
    items: &[usize],
    named: usize,
) -> Result<Vec<Vec<usize>>, AllocError>
    requires { named < 2 ^ 63 }
    ensures { IfOk result (λ lists. (texts names es : List (List ℕ)) → HasTexts paths.now texts
        → AreNearest texts names (length texts) nearest.now
        → AreNearest texts es (length texts) left_out.now → AreWithin items.now (length texts)
        → AreNamedBelow texts names (named + 1)
        → AreInside texts names es items.now (length items.now) lists.items) }
{
    let mut lists = no_lists(alloc, named + 1)?;
    for index in 0..items.len() {
        put_inside(paths, nearest, left_out, items[index], index, &mut lists)?;
    }
    Ok(lists)
}

/// Returns `count` empty lists.
fn no_lists(alloc: Global, count: usize) -> Result<Vec<Vec<usize>>, AllocError>
    ensures { IfOk result (λ lists. lists_in lists.items ≡ replicate count []) }
{
    let mut lists = Vec::with_capacity(alloc, count)?;
    for _ in 0..count {
        lists.push(Vec::new(alloc))?;
    }
    Ok(lists)
}

/// Puts an index into the list of each path that the item at this index is inside of: `around` is
/// the number of the path around it.
fn put_inside(
    paths: &Paths,
    nearest: &[usize],
    left_out: &[usize],
    around: usize,
    index: usize,
    lists: &mut Vec<Vec<usize>>,
) -> Result<(), AllocError>
    ensures { IfOk result (λ _. (texts names es : List (List ℕ)) → HasTexts paths.now texts
        → AreNearest texts names (length texts) nearest.now
        → AreNearest texts es (length texts) left_out.now
        → around ≤ length texts → AreNamedBelow texts names (length lists.old.items)
        → IsPutInside texts names es around index lists.old.items lists.new.items) }
{
    if number_at(left_out, around) != 0 {
        return Ok(());
    }
    let mut number = number_at(nearest, around);
    while number != 0 {
        push_at(lists, number, index)?;
        number = number_above(paths, nearest, number);
    }
    Ok(())
}

/// Returns the number that is nearest to the path around the one with this number. It is smaller.
fn number_above(paths: &Paths, nearest: &[usize], number: usize) -> usize
    requires { 0 < number }
    ensures is { result ≡ first_above paths.now.nodes.keys nearest.now number }
    ensures smaller { result < number }
{
    let (around, _) = node_at(&paths.nodes, number);
    let above = number_at(nearest, around);
    if above < number { above } else { 0 }
}

/// Appends a number to the list at this index, if there is one.
fn push_at(lists: &mut Vec<Vec<usize>>, at: usize, number: usize) -> Result<(), AllocError>
    ensures { IfOk result (λ _. lists_in lists.new.items ≡ set (lists_in lists.old.items) at
        (get_or (lists_in lists.old.items) at [] ++ number ∷ [])) }
{
    if at < lists.len() {
        lists[at].push(number)?;
    }
    Ok(())
}

/// Returns the list at this index, an empty one if there is none.
pub(crate) fn list_at(lists: &[Vec<usize>], index: usize) -> &[usize]
    ensures { result.now ≡ get_or (lists_in lists.now) index [] }
{
    match lists.get(index) {
        Some(list) => list,
        None => &[],
    }
}
