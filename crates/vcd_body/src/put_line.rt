// Changes as they are written, from their form and text.
ghost use Rattle.std.specs.Prelude.{◌≡◌, ◌≢◌, ℕ, ◌-◌, ◌^◌, ◌<◌, ◌≤◌, ◌++◌, ◌∷◌, [], false, true, drop, length};
ghost use Rattle.vcd_body.specs.Names.{Puts, PutsTo, id_line, id_text};

use crate::change::{needless, put_code_text, put_nonvector};
use crate::digits::{Digits, Lower, put_from};
use crate::id::Id;
use crate::item::Form;
use crate::renamed::put_code_line;
use vcd_text::{Sink, WriteFailed, put};
use vcd_view::NewCode;

/// Writes the byte `first`, the identifier code `id` and a line feed, which is how the line of a
/// change ends. If a write fails, a prefix was written.
#[inline(always)]
fn put_code_under<W: Sink>(first: u8, id: Id<'_>, w: &mut W) -> Result<(), WriteFailed>
    requires { (W.device w.old).failures < 2 ^ 64 - 1 }
    ensures { Puts (W.device w.old) (W.device w.new) (first ∷ id_text id.entry ++ 10 ∷ []) result }
{
    match id {
        Id::Own(code) => put_code_text(w, first, code),
        Id::Number(number) => put_code_line(first, number, w),
    }
}

/// Writes the line of a vector: `b`, the digits from index `from` on, which is not after the last,
/// a blank and the identifier code `id`. If a write fails, a prefix was written.
#[inline(never)]
pub(crate) fn put_vector<D: Digits, W: Sink>(
    digits: D,
    from: usize,
    id: Id<'_>,
    w: &mut W,
) -> Result<(), WriteFailed>
    requires failures { (W.device w.old).failures < 2 ^ 64 - 1 }
    requires within { from ≤ length (D.digits digits) }
    ensures { PutsTo W.device w.old w.new
        (98 ∷ drop from (D.digits digits) ++ (32 ∷ id_text id.entry ++ 10 ∷ [])) result }
{
    put(w, b"b")?;
    put_from(digits, from, w)?;
    put_code_under(b' ', id, w)
}

/// Writes the line of a change that is not written as a vector: of an event (as `1`, whatever the
/// text is), of a real number, or of digits of a code of one bit, by its form and text, under the
/// identifier code `id`. `event` says whether it is of an event; if it is not, digits must not be
/// empty. If a write fails, a prefix was written.
#[inline(never)]
fn put_nonvector_under<W: Sink>(
    event: bool,
    form: Form,
    text: &[u8],
    id: Id<'_>,
    w: &mut W,
) -> Result<(), WriteFailed>
    requires failures { (W.device w.old).failures < 2 ^ 64 - 1 }
    requires digits { event ≡ false → form ≢ Form.RealText → 0 < length text.now }
    ensures { (size : ℕ) → (event ≡ false → form ≢ Form.RealText → size ≡ 1)
        → PutsTo W.device w.old w.new (id_line id.entry size event form text.now) result }
{
    match id {
        Id::Own(code) => put_nonvector(event, form, text, code, w),
        Id::Number(number) => put_nonvector(event, form, text, NewCode::of(number).text(), w),
    }
}

/// Returns whether a change of this form is scalar (a digit and its code) and of a code of one bit
/// that is no event. `size` and `event` are those of its code.
#[inline(always)]
pub(crate) fn is_bit(size: usize, event: bool, form: Form) -> bool
    ensures bit { result ≡ true → (size ≡ 1) × (event ≡ false) × (form ≡ Form.Scalar) }
    ensures other { result ≡ false → size ≡ 1 → event ≡ false → form ≢ Form.Scalar }
{
    (size == 1) & !event & (form == Form::Scalar)
}

/// Returns whether a change of this form has digits, and its code has several bits and is no event.
/// `size` and `event` are those of the code.
#[inline(always)]
fn is_vector(size: usize, event: bool, form: Form) -> bool
    ensures vector { result ≡ true → (size ≢ 1) × (event ≡ false) × (form ≢ Form.RealText) }
    ensures other { result ≡ false → event ≡ false → form ≢ Form.RealText → size ≡ 1 }
{
    (size != 1) & !event & (form != Form::RealText)
}

/// Writes the line of a change of this form under the identifier code `id`. `size` and `event` are
/// those of the change's code in the header. An event is written as `1`, whatever its text is. The
/// digits of a code of one bit are written as a scalar (`1!`), and those of any other size as a
/// vector (`b101 !`), with the shortest digits that extend to the same value. `text` is as
/// `change_text` returns it. For a change of digits that is no event it must not be empty. If a
/// write fails, a prefix was written.
#[cold]
#[inline(never)]
pub fn put_change<W: Sink>(
    size: usize,
    event: bool,
    form: Form,
    text: &[u8],
    id: Id<'_>,
    w: &mut W,
) -> Result<(), WriteFailed>
    requires failures { (W.device w.old).failures < 2 ^ 64 - 1 }
    requires digits { event ≡ false → form ≢ Form.RealText → 0 < length text.now }
    ensures { PutsTo W.device w.old w.new (id_line id.entry size event form text.now) result }
{
    match text {
        [digit] if is_bit(size, event, form) => put_code_under(digit.to_ascii_lowercase(), id, w),
        _ if is_vector(size, event, form) => put_vector(Lower { text }, needless(text), id, w),
        _ => put_nonvector_under(event, form, text, id, w),
    }
}
