// Times with a unit, in ticks of a header's time scale.
ghost use Rattle.std.specs.Prelude.{◌≡◌, ◌*◌, ◌/◌, ◌^◌, ◌<◌, pos, ◌+ℤ◌, nat_abs, option_map};
ghost use Rattle.vcd_head.specs.Names.{Header, IsViewOf, Scale, SomeIff, asked, div_ceil, moment_ticks, tick_fault_number, ticks, told, with_unit};

use crate::words::unit_of;
use vcd_view::HeadView;

/// A time as it is asked for.
#[derive(Clone, Copy, PartialEq, Eq, Debug)]
pub struct Moment {
    /// How many units it is after the time 0; without a unit, how many ticks.
    pub number: u64,
    /// The unit's power of ten in seconds: -9 for `ns`.
    pub unit: Option<i8>,
}

impl Moment {
    /// Returns the time that is `number` units after the time 0, or `number` ticks if `unit` is
    /// empty. `None` if `unit` is neither empty nor `s`, `ms`, `us`, `ns`, `ps` or `fs`.
    pub fn from_parts(number: u64, unit: &[u8]) -> Option<Moment>
        ensures { option_map asked result ≡ with_unit number unit.now }
    {
        if unit.is_empty() {
            return Some(Moment { number, unit: None });
        }
        let unit = unit_of(unit)?;
        Some(Moment {
            number,
            unit: Some(unit),
        })
    }
}

/// Why a moment has no number of ticks.
#[derive(Clone, Copy, PartialEq, Eq, Debug)]
pub enum TickFault {
    /// The moment has a unit, and the header declares no time scale (fault 12).
    NoTimescale = 12,
    /// The moment is 2^64 ticks or more (fault 22).
    OutOfRange = 22,
}

impl TickFault {
    /// Returns the number of this fault, by which `text_of` of `vcd_text` returns its message.
    pub fn number(self) -> u8
        ensures { result ≡ tick_fault_number self }
    {
        self as u8
    }
}

/// Returns how many ticks of the header's time scale a moment is after the time 0. If it is between
/// two ticks, the result is the later one if `up` is true, otherwise the earlier one. It is exact
/// for every unit and every scale. A moment without a unit is a number of ticks already, whatever
/// the scale.
///
/// # Errors
///
/// `NoTimescale` if there is a unit and the header declares no time scale; `OutOfRange` if there
/// would be 2^64 ticks or more.
pub fn ticks(view: HeadView<'_>, moment: Moment, up: bool) -> Result<u64, TickFault>
    ensures ticks { told result
        ≡ moment_ticks (option_map (λ (s : Scale). s.exponent) view.entry.scale) (asked moment) up }
    ensures header { (h : Header) → IsViewOf view.entry h
        → told result ≡ moment_ticks h.scale (asked moment) up }
{
    let Some(unit) = moment.unit else {
        return Ok(moment.number);
    };
    let Some(scale) = view.scale else {
        return Err(TickFault::NoTimescale);
    };
    unit_ticks(moment.number, unit, scale.exponent, up).ok_or(TickFault::OutOfRange)
}

/// Returns how many ticks `number` units are, rounded up if `up` is true, otherwise down. `None` if
/// they are 2^64 or more. `unit` and `tick` say how long a unit and a tick are: powers of ten in
/// seconds.
fn unit_ticks(number: u64, unit: i8, tick: i8, up: bool) -> Option<u64>
    ensures { SomeIff result (ticks number unit tick up < 2 ^ 64) (ticks number unit tick up) }
{
    let unit = in_femtoseconds(unit);
    let tick = in_femtoseconds(tick);
    if tick <= unit {
        multiplied(number, unit - tick)
    } else if up {
        Some(divided_up(number, tick - unit))
    } else {
        Some(divided(number, tick - unit))
    }
}

/// The power of ten in seconds of a femtosecond.
const FEMTOSECOND: i8 = -15;

/// Returns how far `exponent` is from -15: the power of ten in femtoseconds, if `exponent` is one
/// in seconds.
fn in_femtoseconds(exponent: i8) -> u8
    ensures { result ≡ nat_abs (exponent +ℤ pos 15) }
{
    exponent.abs_diff(FEMTOSECOND)
}

/// Returns `number` times 10 to the power `power`. `None` if that is 2^64 or more.
fn multiplied(number: u64, power: u8) -> Option<u64>
    ensures { SomeIff result (number * 10 ^ power < 2 ^ 64) (number * 10 ^ power) }
{
    if number == 0 {
        return Some(0);
    }
    number.checked_mul(10u64.checked_pow(u32::from(power))?)
}

/// Returns `number` divided by 10 to the power `power`, rounded down.
fn divided(number: u64, power: u8) -> u64
    ensures { result ≡ number / 10 ^ power }
{
    match 10u64.checked_pow(u32::from(power)) {
        Some(divisor) => number / divisor,
        None => 0,
    }
}

/// Returns `number` divided by 10 to the power `power`, rounded up.
fn divided_up(number: u64, power: u8) -> u64
    ensures { result ≡ div_ceil number (10 ^ power) }
{
    match 10u64.checked_pow(u32::from(power)) {
        Some(divisor) => number.div_ceil(divisor),
        None => number.min(1),
    }
}
