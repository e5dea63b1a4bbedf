//! Which variables are compared: the pairs that names make of a header's variables.
ghost use Rattle.std.specs.Prelude.{◌≡◌, ◌<◌, ◌^◌, ◌++◌, ◌∷◌, [], ℕ, List, Some, length, map, slice_get, IfErr, IfOk, None};
ghost use Rattle.std.specs.List.{AllZip};
ghost use Rattle.vcd_model.specs.Compare.{Asked, Named, Pair, all_named};
ghost use Rattle.vcd_model.specs.Declarations.{Declaration};
ghost use Rattle.vcd_model.specs.Header.{Header};
ghost use Rattle.vcd_model.specs.Within.{Names, alone_in, compared_in, outermost, unlike_in, unselected};
ghost use Rattle.vcd_view.specs.Views.{IsViewOf};
ghost use Rattle.vcd_compare.specs.Classes.{AddsEnd, EntersClass, HasClasses};
ghost use Rattle.vcd_compare.specs.Counterparts.{AreSelected, FindPlaces, IsNth, place_of, selected_in};
ghost use Rattle.vcd_compare.specs.Paths.{HasTexts};
ghost use Rattle.vcd_compare.specs.Pairs.{AreFew, ArePairs, IsNamedAt, IsShownAt, codes_of, names_in};
ghost use Rattle.vcd_compare.specs.Unselected.{IsFaultOf};
ghost use Rattle.vcd_compare.specs.HasPairs.{AreNumbersOf, EntersNames, EntersTexts, HasPairs, HasSelected, IsNumbered, alone_at, compared_at, compared_of, unlike_at, unlike_of};

use crate::counterparts::{Places, counterpart_of, place_paths, shows_range};
use crate::kinds::{code_of, is_same_kind, kind_of};
use crate::outermost::outermost;
use crate::paths::{Paths, enter_path};
use crate::selected::{list_at, selected_by};
use crate::unselected::{PairsFault, refuse_unselected};
use crate::variables::{Variables, number_at, number_rows, variables_of};
use indexmap::IndexSet;
use std::alloc::{AllocError, Global};
use vcd_view::{CodeSeed, HeadView};

/// Two names: of a variable and of what it is compared with, or of two scopes whose variables are
/// compared.
#[derive(Drop)]
pub struct NamePair {
    pub one: Vec<u8>,
    pub other: Vec<u8>,
}

/// A pair of variables that are compared.
#[derive(Clone, Copy)]
pub(crate) struct PairRow {
    // The row of the first of the two, and whether lines show its range.
    pub(crate) row: usize,
    pub(crate) ranged: bool,
    // The number of the two codes among all such pairs of codes.
    pub(crate) class: usize,
}

/// A code of a class: the first code of class k is end 2k, and the other one is end 2k + 1.
#[derive(Clone, Copy)]
pub(crate) struct End {
    pub(crate) code: usize,
    // 1 plus the index of the last end before this one that has the same code, or 0.
    pub(crate) earlier: usize,
}

/// The rows of two variables of different kinds, and whether lines show the range of the first.
#[derive(Clone, Copy)]
pub(crate) struct UnlikeRows {
    pub(crate) one: usize,
    pub(crate) ranged: bool,
    pub(crate) other: usize,
}

/// The variables that are compared, and those that are not although a name selects them.
#[derive(Drop)]
pub struct Pairs {
    // The pairs, in the order of the names, and of each in that of declaration.
    pub(crate) rows: Vec<PairRow>,
    // The two ends of each class.
    pub(crate) ends: Vec<End>,
    // How many classes there are.
    pub(crate) classes: usize,
    // For each code, 1 plus the index of its last end, or 0.
    pub(crate) last: Vec<usize>,
    // The rows of the variables without a counterpart, of the first names and of the others.
    pub(crate) alone_one: Vec<usize>,
    pub(crate) alone_other: Vec<usize>,
    // The variables whose counterpart is of another kind.
    pub(crate) unlike: Vec<UnlikeRows>,
}

impl Pairs {
    /// Returns the indexes of the two codes of a class; `None` if there is no such class.
    #[inline(always)]
    pub(crate) fn codes_of(&self, class: usize) -> Option<(usize, usize)>
        ensures { result ≡ codes_of self.now.ends.items class }
    {
        let first = class.saturating_mul(2);
        let one = self.ends.get(first)?;
        let other = self.ends.get(first.saturating_add(1))?;
        Some((one.code, other.code))
    }
}

// Names and the variables of a header, by the numbers of their paths.
#[derive(Drop)]
struct Numbered {
    paths: Paths,
    names: Vec<(usize, usize)>,
    // The greatest number of a name, or more.
    named: usize,
    exceptions: Vec<usize>,
    variables: Variables,
}

/// Returns the pairs that these names make of the variables of a header, each pair once. The
/// variables that one of `exceptions` selects are left out. The time grows with the header, the
/// names, and for each name that no other one covers the variables that it selects and the paths
/// above them inside the name.
///
/// # Errors
///
/// The first name that selects nothing, otherwise the first exception that selects nothing; or that
/// there is no memory.
pub fn pairs_of(
    alloc: Global,
    view: HeadView<'_>,
    names: &[NamePair],
    exceptions: &[Vec<u8>],
) -> Result<Pairs, PairsFault>
    ensures pairs { IfOk result (λ ps. (h : Header) (q : Asked) → IsViewOf view.entry h
        → q.exceptions ≡ map (λ e. e.items) exceptions.now
        → ArePairs ps h q (outermost (names_in names.now))
        × AreFew ps h q (outermost (names_in names.now))) }
    ensures selected { IfOk result (λ _. (h : Header) (q : Asked) → IsViewOf view.entry h
        → q.exceptions ≡ map (λ e. e.items) exceptions.now
        → unselected q h (names_in names.now) ≡ None) }
    ensures faults { IfErr result (λ fault. (h : Header) (q : Asked) → IsViewOf view.entry h
        → q.exceptions ≡ map (λ e. e.items) exceptions.now
        → IsFaultOf q h (names_in names.now) fault) }
{
    let all = number_all(alloc, view, names, exceptions)?;
    pairs_of_numbered(alloc, view, &all)
}

/// Returns the pairs that the names make of the variables of a header, both by the numbers of their
/// paths, as `pairs_of` does.
fn pairs_of_numbered(alloc: Global, view: HeadView<'_>, all: &Numbered) -> Result<Pairs, PairsFault>
    requires { all.now.named < 2 ^ 63 }
    ensures pairs { IfOk result (λ ps. (h : Header) (q : Asked) (ns : List Names)
        → IsViewOf view.entry h → IsNumbered all.now h q ns
        → ArePairs ps h q (outermost ns) × AreFew ps h q (outermost ns)) }
    ensures selected { IfOk result (λ _. (h : Header) (q : Asked) (ns : List Names)
        → IsNumbered all.now h q ns → unselected q h ns ≡ None) }
    ensures faults { IfErr result (λ fault. (h : Header) (q : Asked) (ns : List Names)
        → IsNumbered all.now h q ns → IsFaultOf q h ns fault) }
{
    refuse_unselected(
        alloc,
        &all.paths,
        &all.variables,
        &all.names,
        &all.exceptions,
    )?;
    let names = outermost(alloc, view.seed, &all.paths, &all.names)?;
    let lists = selected_by(
        alloc,
        &all.paths,
        &all.variables,
        &names,
        all.named,
        &all.exceptions,
    )?;
    Ok(pairs_between(alloc, view, &all.paths, &all.variables, &lists, &names)?)
}

/// Returns the paths of these names and of the declarations of a header, each with a number.
fn number_all(
    alloc: Global,
    view: HeadView<'_>,
    names: &[NamePair],
    exceptions: &[Vec<u8>],
) -> Result<Numbered, AllocError>
    ensures named { IfOk result (λ all. all.named < 2 ^ 63) }
    ensures numbered { IfOk result (λ all. (h : Header) (q : Asked) → IsViewOf view.entry h
        → q.exceptions ≡ map (λ e. e.items) exceptions.now
        → IsNumbered all h q (names_in names.now)) }
{
    let mut paths = Paths::new(alloc, view.seed);
    let names = number_names(alloc, names, &mut paths)?;
    let named = paths.nodes.len();
    let exceptions = number_texts(alloc, exceptions, &mut paths)?;
    let rows = number_rows(alloc, view, &mut paths)?;
    let variables = variables_of(alloc, view, &rows, paths.nodes.len())?;
    Ok(Numbered {
        paths,
        names,
        named,
        exceptions,
        variables,
    })
}

/// Returns the pairs that names make of the variables of a header: `numbers` are those of the
/// names' paths, and `lists` has for each the indexes of the variables that the name selects.
fn pairs_between(
    alloc: Global,
    view: HeadView<'_>,
    paths: &Paths,
    variables: &Variables,
    lists: &[Vec<usize>],
    numbers: &[(usize, usize)],
) -> Result<Pairs, AllocError>
    ensures { IfOk result (λ ps. (q : Asked) (h : Header) (ns : List Names)
        (texts : List (List ℕ)) → IsViewOf view.entry h
        → HasSelected paths.now variables.now lists.now q h ns texts
        → AllZip (AreNumbersOf texts) numbers.now ns → ArePairs ps h q ns) }
{
    let mut places = Places::new(alloc, paths.nodes.len())?;
    let mut pairs = no_pairs(alloc, view.codes.len())?;
    let mut keys = IndexSet::with_hasher(alloc, view.seed);
    for (one, other) in numbers {
        let selected = list_at(lists, *one);
        place_paths(paths, variables, *one, *other, selected, &mut places)?;
        add_pairs(
            view,
            variables,
            &places.numbers,
            selected,
            &mut keys,
            &mut pairs,
        )?;
        let selected = list_at(lists, *other);
        place_paths(paths, variables, *other, *one, selected, &mut places)?;
        add_alone(variables, &places.numbers, selected, &mut pairs.alone_other)?;
    }
    Ok(pairs)
}

/// Returns no pairs of a header that has `codes` codes.
fn no_pairs(alloc: Global, codes: usize) -> Result<Pairs, AllocError>
    ensures { IfOk result (λ ps. (h : Header) → codes ≡ length h.codes
        → HasPairs [] ps h [] [] [] []) }
{
    Ok(Pairs {
        rows: Vec::new(alloc),
        ends: Vec::new(alloc),
        classes: 0,
        last: vec![in alloc; 0usize; codes]?,
        alone_one: Vec::new(alloc),
        alone_other: Vec::new(alloc),
        unlike: Vec::new(alloc),
    })
}

/// Returns for each pair of these names the numbers that its two names have among `paths`. A name
/// that is new is entered, as is each path that it begins with, up to a dot. Fails if memory runs
/// out.
fn number_names(
    alloc: Global,
    names: &[NamePair],
    paths: &mut Paths,
) -> Result<Vec<(usize, usize)>, AllocError>
    ensures { IfOk result (λ numbers. (texts : List (List ℕ)) → HasTexts paths.old texts
        → EntersNames texts paths.new (names_in names.now) numbers.items) }
{
    let mut numbers = Vec::with_capacity(alloc, names.len())?;
    for name in names {
        let one = enter_path(alloc, paths, 0, &name.one)?;
        let other = enter_path(alloc, paths, 0, &name.other)?;
        numbers.push((one, other))?;
    }
    Ok(numbers)
}

/// Returns the numbers of these texts among `paths`. Those that are new are entered.
fn number_texts(
    alloc: Global,
    texts: &[Vec<u8>],
    paths: &mut Paths,
) -> Result<Vec<usize>, AllocError>
    ensures { IfOk result (λ numbers. (known : List (List ℕ)) → HasTexts paths.old known
        → EntersTexts known paths.new (map (λ t. t.items) texts.now) numbers.items) }
{
    let mut numbers = Vec::with_capacity(alloc, texts.len())?;
    for text in texts {
        numbers.push(enter_path(alloc, paths, 0, text)?)?;
    }
    Ok(numbers)
}

/// Adds the variables that the first of two names selects, each with its counterpart. They have
/// the indexes `selected`, and `places` are the counterparts of their paths.
fn add_pairs(
    view: HeadView<'_>,
    variables: &Variables,
    places: &[Option<usize>],
    selected: &[usize],
    keys: &mut IndexSet<(usize, usize), CodeSeed>,
    pairs: &mut Pairs,
) -> Result<(), AllocError>
    ensures { IfOk result (λ _. (q : Asked) (h : Header) (n : Names) (texts : List (List ℕ))
        (compared unlike : List Pair) (ones others : List Named) → IsViewOf view.entry h
        → FindPlaces q h n texts variables.now places.now → AreSelected q h n selected.now
        → HasPairs keys.old.keys pairs.old h compared unlike ones others
        → HasPairs keys.new.keys pairs.new h (compared ++ compared_in q h (n ∷ []))
        (unlike ++ unlike_in q h (n ∷ [])) (ones ++ alone_in q h n) others) }
{
    for index in selected {
        take_variable(view, variables, places, *index, keys, pairs)?;
    }
    Ok(())
}

/// Adds the variable at this index, which the first of two names selects, with its counterpart:
/// `places` are the counterparts of paths.
fn take_variable(
    view: HeadView<'_>,
    variables: &Variables,
    places: &[Option<usize>],
    index: usize,
    keys: &mut IndexSet<(usize, usize), CodeSeed>,
    pairs: &mut Pairs,
) -> Result<(), AllocError>
    ensures { IfOk result (λ _. (q : Asked) (h : Header) (n : Names) (texts : List (List ℕ))
        (j : ℕ) (v : Named) (compared unlike : List Pair) (ones others : List Named)
        → IsViewOf view.entry h → FindPlaces q h n texts variables.now places.now
        → IsNth h index v → slice_get (selected_in q h n) j ≡ Some v
        → HasPairs keys.old.keys pairs.old h compared unlike ones others
        → HasPairs keys.new.keys pairs.new h (compared ++ compared_at h (place_of h n v ∷ []))
        (unlike ++ unlike_at h (place_of h n v ∷ [])) (ones ++ alone_at (place_of h n v ∷ []))
        others) }
{
    let row = number_at(&variables.rows, index);
    match counterpart_of(variables, places, index) {
        None => {
            pairs.alone_one.push(row)?;
            Ok(())
        }
        Some(other) => {
            let ranged = shows_range(variables, index);
            let other = number_at(&variables.rows, other);
            add_pair(view, row, ranged, other, keys, pairs)
        }
    }
}

/// Adds the variables that a name selects and that have no counterpart to `alone`. The name selects
/// those with the indexes `selected`.
fn add_alone(
    variables: &Variables,
    places: &[Option<usize>],
    selected: &[usize],
    alone: &mut Vec<usize>,
) -> Result<(), AllocError>
    ensures { IfOk result (λ _. (q : Asked) (h : Header) (n : Names) (texts : List (List ℕ))
        (others : List Named) → FindPlaces q h n texts variables.now places.now
        → AreSelected q h n selected.now → AllZip (IsNamedAt h) alone.old.items others
        → AllZip (IsNamedAt h) alone.new.items (others ++ alone_in q h n)) }
{
    for index in selected {
        if counterpart_of(variables, places, *index).is_none() {
            alone.push(number_at(&variables.rows, *index))?;
        }
    }
    Ok(())
}

/// Adds the pair of the variables at two rows: to the pairs that are compared, or to those of
/// different kinds. With the first row is given whether lines show its range. `keys` are the pairs
/// of codes that have a class. Fails if there is no memory; then the pairs are of no use.
fn add_pair(
    view: HeadView<'_>,
    one: usize,
    ranged: bool,
    other: usize,
    keys: &mut IndexSet<(usize, usize), CodeSeed>,
    pairs: &mut Pairs,
) -> Result<(), AllocError>
    ensures { IfOk result (λ _. (h : Header) (p : Pair) (compared unlike : List Pair)
        (ones others : List Named) → IsViewOf view.entry h → IsShownAt h one ranged p.path p.one
        → slice_get h.declarations other ≡ Some (Declaration.Var p.other)
        → HasPairs keys.old.keys pairs.old h compared unlike ones others
        → HasPairs keys.new.keys pairs.new h (compared ++ compared_of p) (unlike ++ unlike_of p)
        ones others) }
{
    if !is_same_kind(kind_of(view, one), kind_of(view, other)) {
        pairs.unlike.push(UnlikeRows { one, ranged, other })?;
        return Ok(());
    }
    let codes = (code_of(view, one), code_of(view, other));
    let class = enter_class(codes, keys, &mut pairs.ends, &mut pairs.last)?;
    pairs.classes = keys.len();
    pairs.rows.push(PairRow {
        row: one,
        ranged,
        class,
    })?;
    Ok(())
}

/// Returns the number of the class of two codes, the index of these in `keys`. If it is new, its
/// ends are added. Fails if there is no memory; then a class may lack ends.
fn enter_class(
    codes: (usize, usize),
    keys: &mut IndexSet<(usize, usize), CodeSeed>,
    ends: &mut Vec<End>,
    last: &mut Vec<usize>,
) -> Result<usize, AllocError>
    ensures { IfOk result (λ class. (codes.0 < length last.old.items)
        → (codes.1 < length last.old.items)
        → HasClasses keys.old.keys ends.old.items last.old.items
        → EntersClass keys.old.keys keys.new.keys ends.old.items ends.new.items
        last.old.items last.new.items codes class) }
{
    let Ok((class, new)) = keys.insert_full(codes) else {
        return Err(AllocError);
    };
    if new {
        add_end(codes.0, ends, last)?;
        add_end(codes.1, ends, last)?;
    }
    Ok(class)
}

/// Adds an end with this code.
fn add_end(code: usize, ends: &mut Vec<End>, last: &mut Vec<usize>) -> Result<(), AllocError>
    ensures { IfOk result (λ _. code < length last.old.items
        → AddsEnd ends.old.items ends.new.items last.old.items last.new.items code) }
{
    if code >= last.len() {
        return Ok(());
    }
    ends.push(End {
        code,
        earlier: last[code],
    })?;
    last[code] = ends.len();
    Ok(())
}
