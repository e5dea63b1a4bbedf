//! A change as a row of numbers.
ghost use Rattle.std.specs.Prelude.{◌≡◌};
ghost use Rattle.vcd_body.specs.Items.{model_form};
ghost use Rattle.vcd_changes.specs.Rows.{row_of};

use crate::digits::digits_of;
use vcd_body::Form;

/// A change of a variable's value: its time in ticks, the last 64 digits, and which of them are 0
/// or 1.
#[repr(C)]
#[derive(Clone, Copy, PartialEq, Eq, Debug)]
pub struct ChangeRow {
    /// The time in ticks.
    pub time: u64,
    /// Which digits are 1.
    pub value: u64,
    /// Which digits are 0 or 1: all 64 if the whole value is known, none for a real number.
    pub known: u64,
}

/// Returns the row of a change of this form and text at `time`, in ticks: which of the last 64
/// digits are `1` (`value`), and which are `0` or `1` (`known`). For a real number both are 0.
// Not inlined, since most changes are of other codes.
#[inline(never)]
pub(crate) fn row_of(time: u64, form: Form, text: &[u8]) -> ChangeRow
    ensures { result ≡ row_of time (model_form form) text.now }
{
    match form {
        Form::Scalar | Form::Vector => {
            let digits = digits_of(text);
            ChangeRow {
                time,
                value: digits.value,
                known: digits.known,
            }
        }
        Form::RealText => ChangeRow {
            time,
            value: 0,
            known: 0,
        },
    }
}
