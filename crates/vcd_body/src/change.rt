// Value changes as they are written.
ghost use Rattle.std.specs.Prelude.{◌≡◌, ◌≢◌, ℕ, ◌-◌, ◌^◌, ◌<◌, ◌≤◌, ◌++◌, ◌∷◌, [], false, drop, get_or, length};
ghost use Rattle.vcd_body.specs.Names.{Puts, PutsTo, Serves, extended, line_under, short, str_to_ascii_lowercase};

use crate::digits::{Digits, Lower, first_needed, put_from};
use crate::item::Form;
use crate::words::{clear_bits, first_marked, others_32};
use vcd_text::{Sink, WriteFailed, put};

/// Returns how many bytes at the front equal the first one, which counts too. If all bytes are
/// equal, the result is one less. There must be at least 32 bytes, and it compares 32 in one step.
fn same_as_first(bytes: &[u8]) -> usize
    requires { 32 ≤ length bytes.now }
    ensures few { result < length bytes.now }
    ensures same { (k : ℕ) → k < result → get_or bytes.now k 0 ≡ get_or bytes.now 0 0 }
{
    let first = bytes[0];
    let (at, others) = first_marked::<32, _>(bytes.len(), |at| others_32(bytes, at, first));
    at + clear_bits(others, 32)
}

/// Returns how many digits on the left can be left out if that is easy to find: if there are at
/// least 32 digits and the first is not `1`, those that equal the first, except one or two of them.
/// Otherwise it returns 0. There has to be a digit.
// Without it `pick` of all of `samples/verilator.vcd` takes 5 % more.
fn lead_left_out(digits: &[u8]) -> usize
    requires { 0 < length digits.now }
    ensures { Serves result (str_to_ascii_lowercase digits.now) }
{
    if digits.len() < 32 || digits[0] == b'1' {
        return 0;
    }
    same_as_first(digits).saturating_sub(1)
}

/// Returns how many digits on the left can be left out without a change of the value that the rest
/// extends to. There has to be a digit.
#[inline(never)]
pub(crate) fn needless(digits: &[u8]) -> usize
    requires { 0 < length digits.now }
    ensures few { result ≤ length digits.now }
    ensures rest { (size : ℕ)
        → str_to_ascii_lowercase (drop result digits.now) ≡ short (extended digits.now size) }
{
    first_needed(Lower { text: digits }, lead_left_out(digits))
}

/// Writes the byte `first`, the identifier code `id` and a line feed, which is how the line of a
/// change ends. If a write fails, a prefix was written.
#[inline(never)]
pub(crate) fn put_code_text<W: Sink>(w: &mut W, first: u8, id: &[u8]) -> Result<(), WriteFailed>
    requires { (W.device w.old).failures < 2 ^ 64 - 1 }
    ensures { Puts (W.device w.old) (W.device w.new) (first ∷ id.now ++ 10 ∷ []) result }
{
    put(w, &[first])?;
    put(w, id)?;
    put(w, b"\n")
}

/// Writes the line of a change of a code of one bit: its digits, and the identifier code `id` right
/// after them. If a write fails, a prefix was written.
#[cold]
#[inline(never)]
pub(crate) fn put_bit_line<D: Digits, W: Sink>(
    digits: D,
    id: &[u8],
    w: &mut W,
) -> Result<(), WriteFailed>
    requires { (W.device w.old).failures < 2 ^ 64 - 1 }
    ensures { PutsTo W.device w.old w.new (D.digits digits ++ (id.now ++ 10 ∷ [])) result }
{
    put_from(digits, 0, w)?;
    put(w, id)?;
    put(w, b"\n")
}

/// Writes the line of a change of a real number: `r`, the text, a blank and the identifier code
/// `id`. If a write fails, a prefix was written.
#[inline(never)]
pub(crate) fn put_real<W: Sink>(w: &mut W, text: &[u8], id: &[u8]) -> Result<(), WriteFailed>
    requires { (W.device w.old).failures < 2 ^ 64 - 1 }
    ensures { PutsTo W.device w.old w.new (114 ∷ text.now ++ (32 ∷ id.now ++ 10 ∷ [])) result }
{
    put(w, b"r")?;
    put(w, text)?;
    put_code_text(w, b' ', id)
}

/// Writes the line of a change that is not written as a vector: of an event (as `1`, whatever the
/// text is), of a real number, or of digits of a code of one bit, by its form and text, under the
/// identifier code `id`. `event` says whether it is of an event; if it is not, digits must not be
/// empty. If a write fails, a prefix was written.
pub(crate) fn put_nonvector<W: Sink>(
    event: bool,
    form: Form,
    text: &[u8],
    id: &[u8],
    w: &mut W,
) -> Result<(), WriteFailed>
    requires failures { (W.device w.old).failures < 2 ^ 64 - 1 }
    requires digits { event ≡ false → form ≢ Form.RealText → 0 < length text.now }
    ensures { (size : ℕ) → (event ≡ false → form ≢ Form.RealText → size ≡ 1)
        → PutsTo W.device w.old w.new (line_under id.now size event form text.now) result }
{
    if event {
        return put_code_text(w, b'1', id);
    }
    match form {
        Form::RealText => put_real(w, text, id),
        Form::Scalar | Form::Vector => put_bit_line(Lower { text }, id, w),
    }
}
