//! What a merge sets in each seat when it starts.
ghost use Rattle.std.specs.Prelude.{◌≡◌, ℕ, ◌≤◌, List, length};
ghost use Rattle.vcd_merge.specs.Names.{AreBegun, AreOpen, factor, Header, IsExponent, IsViewOf, least_exponent as least_of, ShowHeaders};

use crate::seat::Seat;
use vcd_head::{Head, least_exponent};
use vcd_view::HeadView;

/// Returns the factor by which a merge multiplies the times of an input with this header, a power
/// of ten. `least` is the exponent of the finest time scale of all inputs.
fn factor_of(view: HeadView<'_>, least: i8) -> u64
    ensures { (hs : List Header) (h : Header) → IsViewOf view.entry h → IsExponent least
        → least ≡ least_of hs → result ≡ factor hs h }
{
    let power = view.exponent().abs_diff(least);
    10u64.checked_pow(u32::from(power)).unwrap_or(u64::MAX)
}

/// Sets what a merge of inputs with these headers, at most 64, needs in each seat, of which there
/// is one for each input: the factor of its times, the number of the first code that the merged
/// dump has for it, time 0, and that the input has not finished. Feeds and registers do not change.
pub(crate) fn set_seats(heads: &[Head], seats: &mut [Seat])
    requires many { length heads.now ≤ 64 }
    requires heads { length heads.now ≡ length seats.old }
    ensures seats { (hs : List Header) → ShowHeaders heads.now hs
        → AreBegun hs seats.old seats.new }
    ensures kept { AreOpen seats.old seats.new }
    ensures len { length seats.new ≡ length seats.old }
{
    let least = least_exponent(heads);
    let mut first: u64 = 0;
    for input in 0..seats.len() {
        let view = heads[input].view();
        let seat = seats[input];
        seats[input] = Seat {
            factor: factor_of(view, least),
            time: 0,
            first,
            finished: false,
            ..seat
        };
        first = first.saturating_add(view.codes.len() as u64);
    }
}
