// The value that is held, as it is written.
ghost use Rattle.std.specs.Prelude.{◌-◌, ◌^◌, ◌<◌, ◌∷◌, Bool, replicate};
ghost use Rattle.vcd_body.specs.Names.{Puts, PutsTo, digits_of, extend, held_in, line_if_set, shown, value_at_size};

use crate::change::{put_bit_line, put_real};
use crate::digits::{BLOCK, Digits, extension, first_needed, put_from};
use crate::id::Id;
use crate::put_line::put_vector;
use crate::values::slot::{HeldValue, State};
use vcd_text::{Sink, WriteFailed, put};

/// Writes a digit `count` times. If a write fails, a prefix was written.
fn put_repeated<W: Sink>(digit: u8, count: usize, w: &mut W) -> Result<(), WriteFailed>
    requires { (W.device w.old).failures < 2 ^ 64 - 1 }
    ensures { Puts (W.device w.old) (W.device w.new) (replicate count digit) result }
{
    let block = [digit; BLOCK];
    let mut rest = count;
    while rest > 0 {
        let some = rest.min(BLOCK);
        put(w, &block[..some])?;
        rest -= some;
    }
    Ok(())
}

/// Writes the line of a change to the held value of a code of this size, under the identifier code
/// `id`; nothing if there is no value. If a write fails, a prefix was written.
pub(crate) fn put_value_line<W: Sink>(
    held: HeldValue<'_>,
    size: usize,
    id: &[u8],
    w: &mut W,
) -> Result<(), WriteFailed>
    requires failures { (W.device w.old).failures < 2 ^ 64 - 1 }
    ensures { (event : Bool) → PutsTo W.device w.old w.new (line_if_set (record {
      text = id.now;
      size = size;
      event = event;
    }) (value_at_size size (held_in held.entry))) result }
{
    match held.holding.state {
        State::Unset => Ok(()),
        State::Real => put_real(w, held.bytes, id),
        _ if size == 1 => put_bit_line(held, id, w),
        _ => put_vector(held, first_needed(held, 0), Id::Own(id), w),
    }
}

/// Writes the held digits, extended on the left to `size` digits. If more are held, it writes
/// these. If a write fails, a prefix was written.
// With each digit asked for at its place instead, `sample` at many times takes 40 % more.
fn put_extended<W: Sink>(held: HeldValue<'_>, size: usize, w: &mut W) -> Result<(), WriteFailed>
    requires failures { (W.device w.old).failures < 2 ^ 64 - 1 }
    ensures { Puts (W.device w.old) (W.device w.new) (extend (digits_of held.entry) size) result }
{
    let missing = size.saturating_sub(held.count());
    put_repeated(extension(held), missing, w)?;
    put_from(held, 0, w)
}

/// Writes `r` and the text of a real number. If a write fails, a prefix was written.
fn put_real_text<W: Sink>(text: &[u8], w: &mut W) -> Result<(), WriteFailed>
    requires { (W.device w.old).failures < 2 ^ 64 - 1 }
    ensures { Puts (W.device w.old) (W.device w.new) (114 ∷ text.now) result }
{
    put(w, b"r")?;
    put(w, text)
}

/// Writes the held value in full: its digits, extended to `size`, or `r` and the text of a real
/// number; `-` if there is no value. If a write fails, a prefix was written.
pub(crate) fn put_value<W: Sink>(
    held: HeldValue<'_>,
    size: usize,
    w: &mut W,
) -> Result<(), WriteFailed>
    requires failures { (W.device w.old).failures < 2 ^ 64 - 1 }
    ensures { PutsTo W.device w.old w.new (shown (value_at_size size (held_in held.entry))) result }
{
    match held.holding.state {
        State::Unset => put(w, b"-"),
        State::Real => put_real_text(held.bytes, w),
        _ => put_extended(held, size, w),
    }
}
