// The room of an engine.
ghost use Rattle.std.specs.Prelude.{◌≡◌, ℕ, ◌-◌, ◌^◌, length, min, sum_by};
ghost use Rattle.vcd_view.specs.Names.{FitsEachInput, Header, IsViewOf, room, room_of, value_bytes};

use crate::view::{HeadView, Need};

/// Returns how much memory a command needs for the codes and declarations of this header: bytes for
/// values, one slot for each code, one mark for each declaration. If the values need 2^64 bytes or
/// more, `values` is 2^64 - 1.
pub fn need(view: HeadView<'_>) -> Need
    ensures lengths { (result.slots ≡ length view.entry.codes.now)
        × (result.marks ≡ length view.entry.rows.now) }
    ensures values { result.values ≡ min (sum_by value_bytes view.entry.codes.now) (2 ^ 64 - 1) }
    ensures room { (h : Header) → IsViewOf view.entry h → room result ≡ room_of h }
    ensures fits { FitsEachInput view.entry result }
{
    let mut values = 0;
    for code in view.codes {
        values = usize::saturating_add(values, code.value_bytes());
    }
    Need {
        values,
        slots: view.codes.len(),
        marks: view.rows.len(),
    }
}
