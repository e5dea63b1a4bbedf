// The counterpart of a path: the same path with the second name in place of the first.
ghost use Rattle.std.specs.Prelude.{◌≡◌, ◌<◌, ◌≤◌, ◌^◌, ◌&&◌, ◌||◌, ℕ, cond, is_some, List, Some, None, get_or, length, set, slice_get, IfOk};
ghost use Rattle.vcd_model.specs.Bytes.{is_empty};
ghost use Rattle.vcd_model.specs.Compare.{Asked, Named, all_named, name_in, only_at, range_of};
ghost use Rattle.vcd_model.specs.Header.{Header};
ghost use Rattle.vcd_model.specs.Within.{Names};
ghost use Rattle.vcd_compare.specs.Counterparts.{ArePlaces, AreSelected, Climbs, FindPlaces, IsFound, IsBelow, IsCounterpart, IsNth, IsPlace, IsPlacing, IsReady, IsSettled, Settles, StaySettled, looked_up, place_of_node, replaced, selected_in, with_range, without_range};
ghost use Rattle.vcd_compare.specs.Pairs.{named_by};
ghost use Rattle.vcd_compare.specs.Paths.{HasTexts, IsNumberOf, texts_in};
ghost use Rattle.vcd_compare.specs.Variables.{AreVariables, index_in};

use crate::paths::{Paths, key_at, node_at};
use crate::variables::{Users, Variables, number_at};
use indexmap::IndexSet;
use std::alloc::{AllocError, Global};
use vcd_view::CodeSeed;

// What is known of the counterparts of paths, by the number of a path.
#[derive(Drop)]
pub(crate) struct Places {
    // The number of the counterpart, or `None` if there is no such path.
    pub(crate) numbers: Vec<Option<usize>>,
    // The turn in which that was last settled, or 0. Each call of `place_paths` is a turn.
    turns: Vec<usize>,
    // The number of this turn.
    turn: usize,
    // Paths that are still to be settled, each inside the next one.
    climbed: Vec<usize>,
}

impl Places {
    /// Returns room for `count` paths, before the first turn.
    pub(crate) fn new(alloc: Global, count: usize) -> Result<Self, AllocError>
        requires { count < 2 ^ 63 }
        ensures { IfOk result (IsReady count) }
    {
        Ok(Places {
            numbers: vec![in alloc; None; count + 1]?,
            turns: vec![in alloc; 0usize; count + 1]?,
            turn: 0,
            climbed: Vec::new(alloc),
        })
    }
}

/// Sets the place of the path of each of these variables, which the name with number `one` selects:
/// the number of the path that has the path with number `other` in place of that with number `one`,
/// or `None` if there is no such path. `selected` has the indexes of the variables.
pub(crate) fn place_paths(
    paths: &Paths,
    variables: &Variables,
    one: usize,
    other: usize,
    selected: &[usize],
    places: &mut Places,
) -> Result<(), AllocError>
    ensures { IfOk result (λ _. (q : Asked) (h : Header) (n : Names) (texts : List (List ℕ))
        → HasTexts paths.now texts → AreVariables h texts variables.now
        → IsNumberOf texts one n.0 → IsNumberOf texts other n.1 → AreSelected q h n selected.now
        → IsReady (length texts) places.old → IsReady (length texts) places.new
        × ArePlaces q h n texts places.new.numbers.items) }
{
    let Some(turn) = places.turn.checked_add(1) else {
        return Err(AllocError);
    };
    places.turn = turn;
    settle(places, one, Some(other));
    for index in selected {
        place_path(paths, number_at(&variables.paths, *index), places)?;
    }
    Ok(())
}

/// Sets the place of the path with this number, and of each path around it that is not settled in
/// this turn.
fn place_path(paths: &Paths, number: usize, places: &mut Places) -> Result<(), AllocError>
    ensures { IfOk result (λ _. (n : Names) (texts : List (List ℕ)) → HasTexts paths.now texts
        → IsPlacing n texts places.old → IsBelow n texts number
        → IsPlacing n texts places.new × IsSettled places.new number
        × StaySettled places.old places.new) }
{
    let turn = places.turn;
    climb(paths, number, &places.turns, turn, &mut places.climbed)?;
    while let Some(inner) = places.climbed.pop() {
        let place = place_inside(paths, inner, &places.numbers);
        settle(places, inner, place);
    }
    Ok(())
}

/// Lists in `climbed` the number of a path, then that of the path around it, and so on, up to the
/// first that is settled in this turn, which is not listed.
fn climb(
    paths: &Paths,
    from: usize,
    turns: &[usize],
    turn: usize,
    climbed: &mut Vec<usize>,
) -> Result<(), AllocError>
    ensures { IfOk result (λ _. (n : Names) (texts : List (List ℕ)) → HasTexts paths.now texts
        → ((m : ℕ) → IsNumberOf texts m n.0 → get_or turns.now m 0 ≡ turn) → IsBelow n texts from
        → (top : ℕ) × Climbs paths.now.nodes.keys n texts from climbed.new.items top
        × (get_or turns.now top 0 ≡ turn)) }
{
    climbed.clear();
    let mut number = from;
    while number > 0 && number_at(turns, number) != turn {
        climbed.push(number)?;
        let (around, _) = node_at(&paths.nodes, number);
        number = around.min(number - 1);
    }
    Ok(())
}

/// Returns the place of the path with this number, by that of the path around it.
fn place_inside(paths: &Paths, number: usize, places: &[Option<usize>]) -> Option<usize>
    ensures { (texts : List (List ℕ)) → HasTexts paths.now texts
        → number ≤ length paths.now.nodes.keys
        → result ≡ place_of_node paths.now.nodes.keys places.now number }
{
    if number > paths.nodes.len() {
        return None;
    }
    let (around, part) = node_at(&paths.nodes, number);
    match node_inside(paths, place_at(places, around), part) {
        Some(found) => Some(found.saturating_add(1)),
        None => None,
    }
}

/// Returns the index of the node that consists of the number in `place` and of `part`, or `None`.
/// It first tries the node that was entered right after that path. Along a path of many parts this
/// is the one, and then there is no look-up.
fn node_inside(paths: &Paths, place: Option<usize>, part: usize) -> Option<usize>
    ensures { (texts : List (List ℕ)) → HasTexts paths.now texts
        → result ≡ looked_up paths.now.nodes.keys part place }
{
    let around = place?;
    let (first, last) = key_at(&paths.nodes, around);
    if around < paths.nodes.len() && first == around && last == part {
        return place;
    }
    looked_up(&paths.nodes, place, part)
}

/// Sets the place of the path with this number. It is settled in this turn.
fn settle(places: &mut Places, number: usize, place: Option<usize>)
    ensures { Settles places.old places.new number place }
{
    set_at(&mut places.numbers, number, place);
    set_at(&mut places.turns, number, places.turn);
}

/// Sets the item at this index, if there is one.
fn set_at<T: Copy>(items: &mut Vec<T>, index: usize, item: T)
    ensures { items.new.items ≡ set items.old.items index item }
{
    if index < items.len() {
        items[index] = item;
    }
}

/// Returns the place at this index, `None` if there is none.
fn place_at(places: &[Option<usize>], index: usize) -> Option<usize>
    ensures { result ≡ get_or places.now index None }
{
    match places.get(index) {
        Some(place) => *place,
        None => None,
    }
}

/// Returns the index of the key that consists of the number in `place` and of `second`, or `None`.
fn looked_up(
    keys: &IndexSet<(usize, usize), CodeSeed>,
    place: Option<usize>,
    second: usize,
) -> Option<usize>
    ensures { result ≡ looked_up keys.now.keys second place }
{
    keys.get_index_of(&(place?, second))
}

/// Returns the variable that is compared with the variable at this index, which the first of two
/// names selects. Its path is the counterpart of that one's path.
pub(crate) fn counterpart_of(
    variables: &Variables,
    places: &[Option<usize>],
    index: usize,
) -> Option<usize>
    ensures { (q : Asked) (h : Header) (n : Names) (texts : List (List ℕ)) (j : ℕ) (v : Named)
        → FindPlaces q h n texts variables.now places.now → IsNth h index v
        → slice_get (selected_in q h n) j ≡ Some v → IsPlace h n v result }
{
    match same_range(variables, places, index) {
        Some(found) => Some(found),
        None => lone_counterpart(variables, places, index),
    }
}

/// Returns the variable that has the same range, and equally many of this path and this range
/// before it.
fn same_range(variables: &Variables, places: &[Option<usize>], index: usize) -> Option<usize>
    ensures { (q : Asked) (h : Header) (n : Names) (texts : List (List ℕ)) (j : ℕ) (v : Named)
        → FindPlaces q h n texts variables.now places.now → IsNth h index v
        → slice_get (selected_in q h n) j ≡ Some v → IsFound h (with_range h n v) result }
{
    let pairs = &variables.slices.pairs;
    let (slice, nth) = key_at(&variables.keys, index);
    let (path, range) = key_at(pairs, slice);
    let place = looked_up(pairs, place_at(places, path), range);
    looked_up(&variables.keys, place, nth)
}

/// Returns the only variable of the path, if the variable at this index is the only one of its path
/// too, and one of the two has no range.
fn lone_counterpart(variables: &Variables, places: &[Option<usize>], index: usize) -> Option<usize>
    ensures { (q : Asked) (h : Header) (n : Names) (texts : List (List ℕ)) (j : ℕ) (v : Named)
        → FindPlaces q h n texts variables.now places.now → IsNth h index v
        → slice_get (selected_in q h n) j ≡ Some v → IsFound h (without_range h n v) result }
{
    let path = number_at(&variables.paths, index);
    let own = only_at(variables, path);
    match only_in_place(variables, place_at(places, path)) {
        None => None,
        Some(other) => {
            let lacks = lacks_range(variables, index);
            index_if(own, lacks, lacks_range(variables, other), other)
        }
    }
}

/// Returns this index if the first variable is the only one of its path, and one of the two has no
/// range.
fn index_if(own: Option<usize>, one: bool, two: bool, index: usize) -> Option<usize>
    ensures { result ≡ cond (is_some own && (one || two)) (Some index) None }
{
    if own.is_some() && (one || two) {
        return Some(index);
    }
    None
}

/// Returns whether lines show the range of the variable at this index after its path: whether
/// another variable has the path.
pub(crate) fn shows_range(variables: &Variables, index: usize) -> bool
    ensures { (h : Header) (texts : List (List ℕ)) (v : Named) → AreVariables h texts variables.now
        → IsNth h index v → named_by result v.path v.variable ≡ name_in h v }
{
    only_at(variables, number_at(&variables.paths, index)).is_none()
}

/// Returns the only variable of the path that is this place.
fn only_in_place(variables: &Variables, place: Option<usize>) -> Option<usize>
    ensures { (h : Header) (n : Names) (texts : List (List ℕ)) (t : List ℕ)
        → AreVariables h texts variables.now → IsCounterpart texts n t place
        → IsFound h (only_at (all_named h) (replaced n t)) result }
{
    match place {
        Some(path) => only_at(variables, path),
        None => None,
    }
}

/// Returns the only variable of the path with this number; `None` if there are none or several.
fn only_at(variables: &Variables, path: usize) -> Option<usize>
    ensures { (h : Header) (texts : List (List ℕ)) (t : List ℕ) → AreVariables h texts variables.now
        → IsNumberOf texts path t → IsFound h (only_at (all_named h) t) result }
{
    index_in(users_at(&variables.users, path))
}

/// Returns which variables have the path with this number.
fn users_at(users: &[Users], path: usize) -> Users
    ensures { result ≡ get_or users.now path Users.None }
{
    match users.get(path) {
        Some(users) => *users,
        None => Users::None,
    }
}

/// Returns the index of the only one of these variables.
fn index_in(users: Users) -> Option<usize>
    ensures { result ≡ index_in users }
{
    match users {
        Users::None => None,
        Users::One(index) => Some(index),
        Users::Several => None,
    }
}

/// Returns whether the variable at this index has no range.
fn lacks_range(variables: &Variables, index: usize) -> bool
    ensures { (h : Header) (texts : List (List ℕ)) (v : Named) → AreVariables h texts variables.now
        → IsNth h index v → result ≡ is_empty (range_of v.variable) }
{
    let (slice, _) = key_at(&variables.keys, index);
    let (_, range) = key_at(&variables.slices.pairs, slice);
    is_empty_at(&variables.slices.ranges, range)
}

/// Returns whether the text at this index is empty.
fn is_empty_at(texts: &IndexSet<Vec<u8>, CodeSeed>, index: usize) -> bool
    ensures { (t : List ℕ) → slice_get (texts_in texts.now) index ≡ Some t → result ≡ is_empty t }
{
    match texts.as_slice().get(index) {
        Some(text) => text.is_empty(),
        None => true,
    }
}
