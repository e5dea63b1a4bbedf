// The variables of a header, found by their paths and ranges.
ghost use Rattle.std.specs.Prelude.{◌≡◌, ◌==◌, ◌<◌, ◌^◌, ℕ, suc, cond, replicate, List, [], Some, get_or, length, set, slice_get, take, IfOk};
ghost use Rattle.vcd_compare.specs.Paths.{AreApart, EntersPath, HasTexts, IsNumberOf};
ghost use Rattle.vcd_compare.specs.Variables.{AddsVariable, AreNumbered, AreVariables, Declaration, HasSome, Header, IsAround, IsViewOf, NumbersRows, path_of, used_by};

use crate::paths::{Paths, enter_path};
use crate::slices::{Slices, enter_slice, range_bytes};
use indexmap::IndexSet;
use std::alloc::{AllocError, Global};
use vcd_view::{CodeSeed, HeadView, Kind};

// Which variables have a path.
#[derive(Clone, Copy)]
pub(crate) enum Users {
    None,
    // Only the variable with this index.
    One(usize),
    Several,
}

// The variables of a header, in order.
#[derive(Drop)]
pub(crate) struct Variables {
    pub(crate) rows: Vec<usize>,
    // Of each variable the number of its path.
    pub(crate) paths: Vec<usize>,
    // The pairs of a path and a range that variables have.
    pub(crate) slices: Slices,
    // Of each variable the index of its pair, and how many variables before it have this pair.
    pub(crate) keys: IndexSet<(usize, usize), CodeSeed>,
    // For the number of each path the variables that have it.
    pub(crate) users: Vec<Users>,
}

/// Returns for each declaration of a header the number of its path. Paths that are new are entered.
pub(crate) fn number_rows(
    alloc: Global,
    view: HeadView<'_>,
    paths: &mut Paths,
) -> Result<Vec<usize>, AllocError>
    ensures { IfOk result (λ numbers. (h : Header) (texts : List (List ℕ)) → IsViewOf view.entry h
        → HasTexts paths.old texts → NumbersRows h texts paths.new numbers.items) }
{
    let mut numbers = Vec::with_capacity(alloc, view.rows.len())?;
    for row in 0..view.rows.len() {
        let number = enter_row(alloc, view, row, &numbers, paths)?;
        numbers.push(number)?;
    }
    Ok(numbers)
}

/// Returns the number of the path of the declaration at index `row`. The rows before it have the
/// paths with these numbers. A path that is new is entered.
fn enter_row(
    alloc: Global,
    view: HeadView<'_>,
    row: usize,
    numbers: &[usize],
    paths: &mut Paths,
) -> Result<usize, AllocError>
    ensures { IfOk result (λ number. (h : Header) (d : Declaration) (texts : List (List ℕ))
        → IsViewOf view.entry h → slice_get h.declarations row ≡ Some d
        → HasTexts paths.old texts → AreNumbered h texts numbers.now row
        → EntersPath texts paths.new (path_of (take row h.declarations) d) number) }
{
    let around = number_around(view, row, numbers);
    enter_path(alloc, paths, around, view.name_of(row))
}

/// Returns the number of the path of the scope around the declaration at index `row`, or 0 if it is
/// in no scope. The rows before it have the paths with these numbers.
fn number_around(view: HeadView<'_>, row: usize, numbers: &[usize]) -> usize
    ensures { (h : Header) (texts : List (List ℕ)) → IsViewOf view.entry h
        → row < length h.declarations → AreNumbered h texts numbers.now row
        → IsAround h texts row result }
{
    let Some(scope) = view.scope_of(row) else {
        return 0;
    };
    number_at(numbers, scope)
}

/// Returns the number at this index, or 0 if there is none.
pub(crate) fn number_at(numbers: &[usize], index: usize) -> usize
    ensures { result ≡ get_or numbers.now index 0 }
{
    match numbers.get(index) {
        Some(number) => *number,
        None => 0,
    }
}

/// Returns the variables of a header whose declarations have the paths with these numbers, of
/// `count` paths.
pub(crate) fn variables_of(
    alloc: Global,
    view: HeadView<'_>,
    numbers: &[usize],
    count: usize,
) -> Result<Variables, AllocError>
    requires { count < 2 ^ 63 }
    ensures { IfOk result (λ vs. (h : Header) (texts : List (List ℕ)) → IsViewOf view.entry h
        → AreNumbered h texts numbers.now (length h.declarations) → AreApart texts
        → length texts ≡ count → AreVariables h texts vs) }
{
    let mut variables = no_variables(alloc, view, count)?;
    let mut counts = Vec::with_capacity(alloc, view.rows.len())?;
    for row in 0..view.rows.len() {
        let path = number_at(numbers, row);
        take_row(alloc, view, &mut variables, &mut counts, row, path)?;
    }
    Ok(variables)
}

/// Returns no variables, with room for those of a header that has `count` paths.
fn no_variables(alloc: Global, view: HeadView<'_>, count: usize) -> Result<Variables, AllocError>
    requires { count < 2 ^ 63 }
    ensures { IfOk result (λ vs. (h : Header) (texts : List (List ℕ)) → length texts ≡ count
        → HasSome h texts 0 vs []) }
{
    Ok(Variables {
        rows: Vec::with_capacity(alloc, view.rows.len())?,
        paths: Vec::with_capacity(alloc, view.rows.len())?,
        slices: Slices::new(alloc, view.seed),
        keys: IndexSet::with_capacity_and_hasher(alloc, view.rows.len(), view.seed)?,
        users: no_users(alloc, count + 1)?,
    })
}

/// Returns `count` times that no variable has a path.
fn no_users(alloc: Global, count: usize) -> Result<Vec<Users>, AllocError>
    ensures { IfOk result (λ users. users.items ≡ replicate count Users.None) }
{
    let mut users = Vec::with_capacity(alloc, count)?;
    for _ in 0..count {
        users.push(Users::None)?;
    }
    Ok(users)
}

/// Adds the declaration at index `row`, which has the path with this number, if it is a variable.
/// `counts` has for each pair of a path and a range how many variables have it.
fn take_row(
    alloc: Global,
    view: HeadView<'_>,
    variables: &mut Variables,
    counts: &mut Vec<usize>,
    row: usize,
    path: usize,
) -> Result<(), AllocError>
    ensures { IfOk result (λ _. (h : Header) (d : Declaration) (texts : List (List ℕ))
        → IsViewOf view.entry h → AreApart texts → slice_get h.declarations row ≡ Some d
        → IsNumberOf texts path (path_of (take row h.declarations) d)
        → HasSome h texts row variables.old counts.old.items
        → HasSome h texts (suc row) variables.new counts.new.items) }
{
    let Some(declared) = view.row_at(row) else {
        return Ok(());
    };
    match declared.kind {
        Kind::Scope => Ok(()),
        Kind::Up => Ok(()),
        Kind::Var => {
            let range = range_bytes(alloc, view, row)?;
            add_variable(alloc, variables, counts, row, path, &range)
        }
    }
}

/// Adds the variable at index `row`, which has the path with this number and this range. `counts`
/// has for each pair of a path and a range how many variables have it.
fn add_variable(
    alloc: Global,
    variables: &mut Variables,
    counts: &mut Vec<usize>,
    row: usize,
    path: usize,
    range: &[u8],
) -> Result<(), AllocError>
    ensures { IfOk result (λ _. AddsVariable variables.old variables.new counts.old.items
        counts.new.items row path range.now) }
{
    let slice = enter_slice(alloc, &mut variables.slices, path, range)?;
    let nth = count_one(counts, slice)?;
    use_path(&mut variables.users, path, variables.rows.len());
    variables.rows.push(row)?;
    variables.paths.push(path)?;
    let Ok(_) = variables.keys.insert((slice, nth)) else {
        return Err(AllocError);
    };
    Ok(())
}

/// Adds 1 to the count at this index, and returns what it was. A count that is not there is 0.
fn count_one(counts: &mut Vec<usize>, index: usize) -> Result<usize, AllocError>
    ensures { IfOk result (λ was. (was ≡ get_or counts.old.items index 0)
        × ((n : ℕ) → get_or counts.new.items n 0
        ≡ cond (n == index) (suc was) (get_or counts.old.items n 0))) }
{
    while counts.len() <= index {
        counts.push(0)?;
    }
    let was = counts[index];
    let Some(more) = was.checked_add(1) else {
        return Err(AllocError);
    };
    counts[index] = more;
    Ok(was)
}

/// Adds the variable with this index to those that have the path with this number.
fn use_path(users: &mut Vec<Users>, path: usize, index: usize)
    ensures { users.new.items ≡ set users.old.items path
        (used_by index (get_or users.old.items path Users.None)) }
{
    if path < users.len() {
        users[path] = match users[path] {
            Users::None => Users::One(index),
            Users::One(_) => Users::Several,
            Users::Several => Users::Several,
        };
    }
}
