//! The value of a value change.
ghost use Rattle.std.specs.Prelude.{◌≡◌, ℕ};
ghost use Rattle.vcd_body.specs.Names.{Kept, with_change, with_text, with_value, with_value_change};

use crate::item::Form;
use crate::values::bits::Bits;

/// The value of a value change.
#[derive(Clone, Copy)]
pub enum Value<'a> {
    /// Digits, as they are written.
    Digits(&'a [u8]),
    /// The text of a real number.
    Real(&'a [u8]),
    /// Binary digits as their number.
    Bits(Bits),
}

impl<'a> Value<'a> {
    /// Returns the value of a change of this form and text, as `change_text` returns it.
    #[inline(always)]
    pub fn of_text(form: Form, text: &'a [u8]) -> Value<'a>
        ensures sets { (k : Kept) → with_value result k ≡ with_text form text.now k }
        ensures follows { (size : ℕ) (k : Kept)
            → with_value_change size result k ≡ with_change size form text.now k }
    {
        match form {
            Form::RealText => Value::Real(text),
            Form::Scalar | Form::Vector => Value::Digits(text),
        }
    }
}
