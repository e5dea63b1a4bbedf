// What two variables need to have in common so that their values are compared.
ghost use Rattle.std.specs.Prelude.{◌≡◌, Some, slice_get};
ghost use Rattle.vcd_model.specs.Compare.{kind_of as kind_of_variable, same_kind};
ghost use Rattle.vcd_model.specs.Declarations.{code_of as code_of_variable};
ghost use Rattle.vcd_view.specs.Over.{AnyVariable};
ghost use Rattle.vcd_compare.specs.Kinds.{model_kind};

use vcd_view::HeadView;

// The kind of a variable. A real number may be declared with any size. It has a type that begins
// with `real`, such as `realtime`, or `shortreal`.
#[derive(Clone, Copy)]
pub(crate) enum VariableKind {
    Event,
    Real,
    // It has this many digits.
    Digits(usize),
}

/// Returns the kind of the variable at index `row`.
pub(crate) fn kind_of(view: HeadView<'_>, row: usize) -> VariableKind
    ensures { AnyVariable view.entry row (λ h v. model_kind result ≡ kind_of_variable v) }
{
    let word = view.type_of(row);
    if word == b"event".as_slice() {
        return VariableKind::Event;
    }
    if word.starts_with(b"real") {
        return VariableKind::Real;
    }
    if word == b"shortreal".as_slice() {
        return VariableKind::Real;
    }
    match view.code_at(code_of(view, row)) {
        Some(code) => VariableKind::Digits(code.size),
        None => VariableKind::Digits(0),
    }
}

/// Returns whether variables of these kinds are compared.
pub(crate) fn is_same_kind(one: VariableKind, other: VariableKind) -> bool
    ensures { result ≡ same_kind (model_kind one) (model_kind other) }
{
    match one {
        VariableKind::Event => matches!(other, VariableKind::Event),
        VariableKind::Real => matches!(other, VariableKind::Real),
        VariableKind::Digits(size) => {
            matches!(other, VariableKind::Digits(number) if number == size)
        }
    }
}

/// Returns the index of the code of the variable at index `row`.
pub(crate) fn code_of(view: HeadView<'_>, row: usize) -> usize
    ensures { AnyVariable view.entry row
        (λ h v. slice_get h.codes result ≡ Some (code_of_variable v)) }
{
    match view.row_at(row) {
        Some(row) => row.code as usize,
        None => 0,
    }
}
