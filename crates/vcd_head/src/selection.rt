//! Selection of variables by their paths (profile).
ghost use Rattle.std.specs.Prelude.{◌≡◌, ◌≢◌, false, ◌+◌, ◌<◌, ◌≤◌, ◌∷◌, ◌++◌, ℕ, List, length, map, string_bytes, [], IfOk, IfSome};
ghost use Rattle.vcd_head.specs.Names.{AnyHeader, AnyRow, AnyVariable, AreClosed, Declaration, GoesOnAfter, Header, IsFirstFalse, IsViewOf, Marked, RefusesUnmatched, first_unmatched, marked_places, marks_of, row_and_scopes, row_path, selects_after, selects_path};

use crate::enclosing::Enclosing;
use crate::inside::{Inside, LEVELS, Open};
use crate::names::{GROUP_NAMES, Group, put_name_order};
use vcd_view::{HeadView, Kind};

// What a name says of a path, once it was compared with a prefix of the path.
pub(crate) enum Match<'n> {
    // This much of the name is left.
    Rest(&'n [u8]),
    // The name ended at a dot.
    Selected,
    // The name differs.
    Differs,
}

/// Returns whether the text is exactly the name, or begins with the name and a dot.
pub(crate) fn is_or_goes_on(text: &[u8], name: &[u8]) -> bool
    ensures { result ≡ selects_path text.now name.now }
{
    match text.strip_prefix(name) {
        Some(rest) => rest.is_empty() || rest.starts_with(b"."),
        None => false,
    }
}

/// Returns what a name says of a path that begins with this component and a dot: `Selected` if it
/// selects every such path, the `Rest` of the name if it begins with the component and the dot too,
/// and otherwise `Differs`.
pub(crate) fn after_component<'n>(name: &'n [u8], component: &[u8]) -> Match<'n>
    ensures rest { GoesOnAfter result name.now (length component.now + 1) }
    ensures selects { (text : List ℕ)
        → selects_after result text ≡ selects_path (component.now ++ 46 ∷ text) name.now }
{
    if is_or_goes_on(component, name) {
        return Match::Selected;
    }
    let Some(after) = name.strip_prefix(component) else {
        return Match::Differs;
    };
    match after.strip_prefix(b".") {
        Some(rest) => Match::Rest(rest),
        None => Match::Differs,
    }
}

/// Returns whether a name selects the variable at index `row`: the variable's path is the name, or
/// begins with it and a dot.
pub fn selects(view: HeadView<'_>, row: usize, name: &str) -> bool
    ensures { AnyVariable view.entry row (λ h v. result ≡ selects_path (row_path h row v) name.now) }
{
    let mut rest = name.as_bytes();
    let mut scopes = Enclosing::new(row);
    while let Some(scope) = scopes.next(view) {
        match after_component(rest, view.name_of(scope)) {
            Match::Rest(after) => rest = after,
            Match::Selected => return true,
            Match::Differs => return false,
        }
    }
    is_or_goes_on(view.name_of(row), rest)
}

/// Sets the elements of the declaration at index `row` and of each scope around it to 1 in `marks`,
/// which has one byte for each row. It stops at the first one that is 1 already, because the scopes
/// around it are marked too.
fn mark_with_scopes(view: HeadView<'_>, row: usize, marks: &mut [u8])
    requires { row < length marks.old }
    ensures marks { AnyRow view.entry row (λ h. AreClosed h.declarations marks.old
        → Marked (row_and_scopes h row) marks.old marks.new) }
    ensures len { length marks.new ≡ length marks.old }
{
    let mut next = Some(row);
    while let Some(declared) = next {
        if marks[declared] == 1 {
            return;
        }
        marks[declared] = 1;
        next = view.scope_of(declared);
    }
}

/// Sets the elements of all variables, and of the scopes around them, to 1 in `marks`, which has
/// one byte for each row. The other elements stay as they are.
// It needs no names in order, and so not their 88 KB of stack.
fn mark_all(view: HeadView<'_>, marks: &mut [u8])
    requires { length marks.old ≡ length view.rows.now }
    ensures marks { (h : Header) → IsViewOf view.entry h → AreClosed h.declarations marks.old
        → Marked (marked_places [] h.declarations) marks.old marks.new }
    ensures len { length marks.new ≡ length marks.old }
{
    for row in 0..view.rows.len() {
        if matches!(view.rows[row].kind, Kind::Var) {
            mark_with_scopes(view, row, marks);
        }
    }
}

/// Sets the elements of the variables that some name selects, and of the scopes around them, to 1
/// in `marks`, which has one byte for each row; the other elements stay as they are. A name is the
/// path of a variable, or of a scope, which selects all variables inside it. There are at most
/// 16,384 names. Returns the index of the first name that selects nothing, although the elements of
/// the other names are set; `None` if each name selects some variable.
fn mark_selected(view: HeadView<'_>, names: &[String], marks: &mut [u8]) -> Option<usize>
    requires len { length marks.old ≡ length view.rows.now }
    requires few { length names.now ≤ 16384 }
    ensures marks { (h : Header) → IsViewOf view.entry h → AreClosed h.declarations marks.old
        → Marked (marked_places (map string_bytes names.now) h.declarations) marks.old marks.new }
    ensures closed { (h : Header) → IsViewOf view.entry h → AreClosed h.declarations marks.old
        → AreClosed h.declarations marks.new }
    ensures names { (h : Header) → IsViewOf view.entry h
        → result ≡ first_unmatched (map string_bytes names.now) h.declarations }
    ensures within { IfSome result (λ position. position < length names.now) }
    ensures len { length marks.new ≡ length marks.old }
{
    let mut order = [0; GROUP_NAMES];
    put_name_order(&mut order, names);
    let group = Group::new(names, &order);
    let mut inside = [Inside::outermost(&group); LEVELS];
    let mut open = Open::new(&group, &mut inside);
    let mut matched = [false; GROUP_NAMES];
    for row in 0..view.rows.len() {
        if open.take_row(view, row, &group, &mut matched) {
            mark_with_scopes(view, row, marks);
        }
    }
    first_false(&matched, names.len())
}

/// Returns the index of the first of the first `count` flags that is not set; `None` if all of
/// these are set.
fn first_false(flags: &[bool], count: usize) -> Option<usize>
    requires { count ≤ length flags.now }
    ensures { IsFirstFalse flags.now count result }
{
    flags[..count].iter().position(|flag| !*flag)
}

/// Marks the variables that the names select (all if there are no names) and the scopes around
/// them: in `marks`, which has one byte for each row, their elements become 1, and all others 0.
/// Fails with the index of the first name that selects nothing; then `marks` may have any values.
pub fn select(view: HeadView<'_>, names: &[String], marks: &mut [u8]) -> Result<(), usize>
    requires marks { length marks.old ≡ length view.rows.now }
    ensures marks { (h : Header) → IsViewOf view.entry h
        → IfOk result (λ _. marks.new ≡ marks_of (map string_bytes names.now) h.declarations) }
    ensures names { AnyHeader view.entry (λ h.
        RefusesUnmatched (map string_bytes names.now) h result) }
{
    marks.fill(0);
    if names.is_empty() {
        mark_all(view, marks);
        return Ok(());
    }
    let mut done = names.len().min(GROUP_NAMES);
    if let Some(position) = mark_selected(view, &names[..done], marks) {
        return Err(position);
    }
    while done < names.len() {
        let from = done;
        done = names.len().min(from.saturating_add(GROUP_NAMES));
        if let Some(position) = mark_selected(view, &names[from..done], marks) {
            return Err(from + position);
        }
    }
    Ok(())
}
