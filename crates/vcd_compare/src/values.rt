//! Whether two values that a table holds match.
ghost use Rattle.std.specs.Prelude.{◌≡◌, ◌-◌, ℕ, List, Some, drop, length, slice_get};
ghost use Rattle.vcd_body.specs.Names.{IsLaidOut, codes_shown, value_in};
ghost use Rattle.vcd_model.specs.Compare.{all_match, digits_match, match};
ghost use Rattle.vcd_model.specs.Values.{Value};
ghost use Rattle.vcd_view.specs.declared.view.Code.{Code};
ghost use Rattle.vcd_compare.specs.Asked.{rule_of};

use crate::asked::Asked;
use vcd_body::{Shown, Table};
use vcd_view::HeadView;

/// Returns whether a digit of the first variable matches one of the second.
#[inline(always)]
fn digits_match(asked: Asked, one: u8, other: u8) -> bool
    ensures { result ≡ digits_match (rule_of asked) one other }
{
    one == other || (asked.x_of_one && one == b'x') || (asked.x_of_other && other == b'x')
}

/// Returns how many digits the value of the code at index `code` has, if it has digits.
fn count_of(table: &Table<'_>, view: HeadView<'_>, code: usize) -> usize
    ensures { (ds : List ℕ) → IsLaidOut table.now
        → value_in (codes_shown view.entry) table.now code ≡ Some (Value.Bits ds)
        → result ≡ length ds }
{
    match view.code_at(code) {
        Some(declared) => declared.size.max(table.held_digits(code)),
        None => 0,
    }
}

/// Returns whether the last `last` of `count` digits that the codes at these indexes have in the
/// table match. Both codes have digits.
#[inline(always)]
fn last_match(
    table: &Table<'_>,
    view: HeadView<'_>,
    asked: Asked,
    one: usize,
    other: usize,
    count: usize,
    last: usize,
) -> bool
    ensures { (ds es : List ℕ) → IsLaidOut table.now → length ds ≡ count → length es ≡ count
        → value_in (codes_shown view.entry) table.now one ≡ Some (Value.Bits ds)
        → value_in (codes_shown view.entry) table.now other ≡ Some (Value.Bits es)
        → result ≡ all_match (rule_of asked) (drop (count - last) ds) (drop (count - last) es) }
{
    for back in 0..count.min(last) {
        let index = count - 1 - back;
        let (Some(a), Some(b)) = (
            table.digit(view, one, index),
            table.digit(view, other, index),
        ) else {
            return false;
        };
        if !digits_match(asked, a, b) {
            return false;
        }
    }
    true
}

/// Returns whether the digits that the codes at these indexes have in the table match: there are as
/// many, and each matches. Both codes have digits.
// It ends at the first digit that neither code holds, since all further left are the same.
fn all_match(table: &Table<'_>, view: HeadView<'_>, asked: Asked, one: usize, other: usize) -> bool
    ensures { (ds es : List ℕ) → IsLaidOut table.now
        → value_in (codes_shown view.entry) table.now one ≡ Some (Value.Bits ds)
        → value_in (codes_shown view.entry) table.now other ≡ Some (Value.Bits es)
        → result ≡ all_match (rule_of asked) ds es }
{
    let count = count_of(table, view, one);
    if count != count_of(table, view, other) {
        return false;
    }
    let held = table.held_digits(one).max(table.held_digits(other));
    last_match(
        table,
        view,
        asked,
        one,
        other,
        count,
        held.saturating_add(1),
    )
}

/// Returns whether the values that the codes at these indexes have in the table match.
pub(crate) fn values_match(
    table: &Table<'_>,
    view: HeadView<'_>,
    asked: Asked,
    one: usize,
    other: usize,
) -> bool
    ensures { (c d : Code) → IsLaidOut table.now → slice_get view.entry.codes.now one ≡ Some c
        → slice_get view.entry.codes.now other ≡ Some d
        → result ≡ match (rule_of asked)
        (value_in (codes_shown view.entry) table.now one)
        (value_in (codes_shown view.entry) table.now other) }
{
    match table.get(one) {
        Shown::Unset => match table.get(other) {
            Shown::Unset => true,
            Shown::Bits => asked.x_of_one,
            Shown::Real => asked.x_of_one,
        },
        Shown::Bits => match table.get(other) {
            Shown::Unset => asked.x_of_other,
            Shown::Bits => all_match(table, view, asked, one, other),
            Shown::Real => false,
        },
        Shown::Real => match table.get(other) {
            Shown::Unset => asked.x_of_other,
            Shown::Bits => false,
            Shown::Real => table.real(one) == table.real(other),
        },
    }
}
