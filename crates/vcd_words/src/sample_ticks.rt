// The times of a sample in ticks, written over their numbers, so that no memory is taken.
ghost use Rattle.std.specs.Prelude.{◌≡◌, ◌||◌, ℕ, List, true, false, length, MatchResult, OnOk};
ghost use Rattle.vcd_words.specs.Names.{all_ticks, AreRefused, AreTicks, do_rise, has_units, Header, IsViewOf, KeepsRequest, times_with, Want};

use crate::refusal::Refusal;
use vcd_head::{Moment, ticks};
use vcd_view::HeadView;

/// Returns whether some of these times has a unit (is `Some`).
fn has_units(units: &[Option<i8>]) -> bool
    ensures { result ≡ has_units units.now }
{
    units.iter().any(|unit| unit.is_some())
}

/// Returns whether each time is greater than the one before it.
fn do_rise(times: &[u64]) -> bool
    ensures { result ≡ do_rise times.now }
{
    times.is_sorted_by(|first, second| first < second)
}

/// Replaces each number of a time by the time in ticks of this header's time scale, rounded down.
/// `units` has the unit of each number, `None` for ticks. Fails with the reason at the first time
/// that has a unit while the header has no time scale, or that is 2^64 ticks or more; then only the
/// numbers before it were replaced.
fn write_ticks(numbers: &mut [u64], units: &[Option<i8>], view: HeadView<'_>) -> Result<(), Refusal>
    requires { length units.now ≡ length numbers.old }
    ensures { (h : Header) → IsViewOf view.entry h → MatchResult result
        (λ _. AreTicks (all_ticks h.scale numbers.old units.now) numbers.new)
        (AreRefused (all_ticks h.scale numbers.old units.now)) }
{
    for (place, number) in numbers.iter_mut().enumerate() {
        let time = Moment {
            number: *number,
            unit: units[place],
        };
        *number = ticks(view, time, false)?;
    }
    Ok(())
}

/// Replaces the numbers of a sample's times by the times in ticks of this header's time scale, each
/// rounded down, and all units by `None`. Changes nothing if no time has a unit. Fails with the
/// reason if there is a unit and the header has no time scale, if a time is 2^64 ticks or more, or
/// if the times do not increase in ticks; then the numbers may have any values.
pub(crate) fn write_times(
    numbers: &mut Vec<u64>,
    units: &mut Vec<Option<i8>>,
    view: HeadView<'_>,
) -> Result<(), Refusal>
    requires paired { length units.old.items ≡ length numbers.old.items }
    requires order { (has_units units.old.items || do_rise numbers.old.items) ≡ true }
    ensures same { (names : List (List ℕ)) → KeepsRequest view.entry
        (Want.Sample (times_with numbers.old.items units.old.items) names)
        (Want.Sample (times_with numbers.new.items units.new.items) names) result }
    ensures no_units { OnOk result (has_units units.new.items ≡ false) }
    ensures paired { length units.new.items ≡ length numbers.new.items }
    ensures many { length numbers.new.items ≡ length numbers.old.items }
    ensures order { (has_units units.new.items || do_rise numbers.new.items) ≡ true }
{
    if !has_units(units) {
        return Ok(());
    }
    write_ticks(numbers, units, view)?;
    if !do_rise(numbers) {
        return Err(Refusal::NotRising);
    }
    units.fill(None);
    Ok(())
}
