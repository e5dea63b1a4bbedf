//! The path of a variable, and whether its values are real numbers.
ghost use Rattle.std.specs.Prelude.{◌≡◌, take};
ghost use Rattle.vcd_model.specs.Selection.{is_variable};
ghost use Rattle.vcd_view.specs.Over.{AnyDeclared, AnyVariable};
ghost use Rattle.vcd_strobe.specs.Named.{has_path, is_real};

use vcd_view::{HeadView, Kind};

/// Returns whether the declaration at index `row` is a variable.
fn is_variable(view: HeadView<'_>, row: usize) -> bool
    ensures { AnyDeclared view.entry row (λ _ d. result ≡ is_variable d) }
{
    match view.row_at(row) {
        Some(row) => matches!(row.kind, Kind::Var),
        None => false,
    }
}

/// Returns whether the declaration at index `row` is a variable, and a text is its path.
pub(crate) fn has_path(view: HeadView<'_>, row: usize, path: &str) -> bool
    ensures { AnyDeclared view.entry row
        (λ h d. result ≡ has_path (take row h.declarations) path.now d) }
{
    if !is_variable(view, row) {
        return false;
    }
    let mut rest = path.as_bytes();
    let mut part = row;
    while let Some(scope) = view.scope_of(part) {
        let Some(front) = rest.strip_suffix(view.name_of(part)) else {
            return false;
        };
        let Some(front) = front.strip_suffix(b".") else {
            return false;
        };
        rest = front;
        part = scope;
    }
    rest == view.name_of(part)
}

/// Returns whether the variable at index `row` is a real number: its type begins with `real`, such
/// as `realtime`, or is `shortreal`.
pub(crate) fn is_real(view: HeadView<'_>, row: usize) -> bool
    ensures { AnyVariable view.entry row (λ _ v. result ≡ is_real v) }
{
    let word = view.type_of(row);
    word.starts_with(b"real") || word == b"shortreal".as_slice()
}
