//! Clocks, and whether a change is a turn of one.
ghost use Rattle.std.specs.Prelude.{◌≡◌, ℕ, ◌<◌, ◌^◌, Option, false};
ghost use Rattle.std.specs.List.{list_any};
ghost use Rattle.vcd_body.specs.Contents.{IsLaidOut};
ghost use Rattle.vcd_body.specs.Kept.{is_digit};
ghost use Rattle.vcd_strobe.specs.Clocks.{goes, turns_at};

use crate::edge_lines::place_of;
use vcd_body::Table;
use vcd_view::HeadView;

/// A clock: one bit of a code.
#[derive(Clone, Copy, PartialEq, Eq, Debug)]
pub struct Clock {
    /// The index of the code.
    pub code: usize,
    /// The index of the bit among the digits of the code, from the left.
    pub index: usize,
    /// Whether its falling edges count, and not its rising ones.
    pub falls: bool,
}

/// Returns whether there is a digit, and it is this one.
#[inline(always)]
fn is_digit(digit: Option<u8>, is: u8) -> bool
    ensures { result ≡ is_digit digit is }
{
    match digit {
        Some(there) => there == is,
        None => false,
    }
}

impl Clock {
    /// Returns whether it turns if its bit was this digit, and becomes some other.
    #[inline(always)]
    fn may_go(self, before: Option<u8>) -> bool
        ensures { (after : Option ℕ) → result ≡ false → goes self.falls before after ≡ false }
    {
        if self.falls {
            is_digit(before, b'1')
        } else {
            is_digit(before, b'0')
        }
    }

    /// Returns whether it turns if its bit was the one digit, and becomes the other.
    #[inline(always)]
    fn goes(self, before: Option<u8>, after: Option<u8>) -> bool
        ensures { result ≡ goes self.falls before after }
    {
        if self.falls {
            is_digit(before, b'1') && is_digit(after, b'0')
        } else {
            is_digit(before, b'0') && is_digit(after, b'1')
        }
    }

    /// Returns whether it turns if the value of the code at index `code` goes from that in one
    /// place to that in another.
    #[inline(always)]
    fn turns(
        self,
        places: HeadView<'_>,
        table: &Table<'_>,
        code: usize,
        from: usize,
        to: usize,
    ) -> bool
        ensures { IsLaidOut table.now → code < 2 ^ 60 → from < 4 → to < 4
            → result ≡ turns_at places.entry table.now code from to self }
    {
        if self.code != code {
            return false;
        }
        let before = table.digit(places, place_of(code, from), self.index);
        if !self.may_go(before) {
            return false;
        }
        let after = table.digit(places, place_of(code, to), self.index);
        self.goes(before, after)
    }
}

/// Returns whether one of the clocks turns if the value of the code at index `code` goes from that
/// in one place to that in another.
#[inline(always)]
pub(crate) fn is_turn(
    clocks: &[Clock],
    places: HeadView<'_>,
    table: &Table<'_>,
    code: usize,
    from: usize,
    to: usize,
) -> bool
    ensures { IsLaidOut table.now → code < 2 ^ 60 → from < 4 → to < 4
        → result ≡ list_any (turns_at places.entry table.now code from to) clocks.now }
{
    for clock in clocks {
        if clock.turns(places, table, code, from, to) {
            return true;
        }
    }
    false
}
