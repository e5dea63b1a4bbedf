//! The clocks of names.
ghost use Rattle.std.specs.Prelude.{◌≡◌, Some, length, map, slice_get};
ghost use Rattle.vcd_model.specs.Declarations.{code_of as code_of_variable};
ghost use Rattle.vcd_model.specs.Header.{Header};
ghost use Rattle.vcd_view.specs.Over.{AnyVariable};
ghost use Rattle.vcd_view.specs.Views.{IsViewOf};
ghost use Rattle.vcd_strobe.specs.Named.{FindsBit, FindsClock, FindsClocks, FindsIndex, FindsRow, model_name};

use crate::clocks::Clock;
use crate::paths::{has_path, is_real};
use vcd_view::HeadView;

/// What names a clock.
#[derive(PartialEq, Eq, Debug, Drop)]
pub struct ClockName {
    /// The argument.
    pub word: String,
    /// The path before its last `@`, if it has a place; otherwise all of it.
    pub path: String,
    /// The place of a bit from the right, counted from 0, which is the number after that `@`.
    pub place: Option<u64>,
    /// Whether its falling edges count, and not its rising ones.
    pub falls: bool,
}

/// Why a name is that of no clock.
#[derive(Clone, Copy, PartialEq, Eq, Debug)]
pub enum NoClock {
    /// No variable has the path.
    Missing,
    /// Variables with different codes have the path.
    Several,
    /// The variable is an event.
    Event,
    /// The variable is a real number.
    Real,
    /// The variable has this many bits, and the name has no place.
    Wide(usize),
    /// The variable has this many bits, and the place is too high.
    High(usize),
}

/// Returns the index of the code of the variable at index `row`.
fn code_of(view: HeadView<'_>, row: usize) -> usize
    ensures { AnyVariable view.entry row
        (λ h v. slice_get h.codes result ≡ Some (code_of_variable v)) }
{
    match view.row_at(row) {
        Some(row) => row.code as usize,
        None => 0,
    }
}

/// Returns the row of the first variable that has this path. `None` if there is none. Fails with
/// `Several` if not all that have it have one code.
fn row_at(view: HeadView<'_>, path: &str) -> Result<Option<usize>, NoClock>
    ensures { (h : Header) → IsViewOf view.entry h → FindsRow h path.now result }
{
    let mut first = None;
    for row in 0..view.rows.len() {
        if !has_path(view, row, path) {
            continue;
        }
        match first {
            None => first = Some(row),
            Some(one) => {
                if code_of(view, one) != code_of(view, row) {
                    return Err(NoClock::Several);
                }
            }
        }
    }
    Ok(first)
}

/// Returns the index from the left of the bit of a code at this place from the right: only one bit
/// needs no place. Fails if there is no such bit.
fn index_in(size: usize, place: Option<u64>) -> Result<usize, NoClock>
    ensures { FindsIndex size place result }
{
    let place = match place {
        Some(place) => place as usize,
        None if size == 1 => 0,
        None => return Err(NoClock::Wide(size)),
    };
    if size <= place {
        return Err(NoClock::High(size));
    }
    Ok(size - 1 - place)
}

/// Returns the clock that is the bit at a place of the variable at index `row`. Fails if there is
/// no such bit.
fn bit_of(view: HeadView<'_>, row: usize, place: Option<u64>, falls: bool) -> Result<Clock, NoClock>
    ensures { AnyVariable view.entry row (λ h v. FindsBit h v place falls result) }
{
    let code = code_of(view, row);
    let Some(declared) = view.code_at(code) else {
        return Err(NoClock::Missing);
    };
    if declared.event {
        return Err(NoClock::Event);
    }
    if is_real(view, row) {
        return Err(NoClock::Real);
    }
    let index = index_in(declared.size, place)?;
    Ok(Clock { code, index, falls })
}

/// Returns the clock of a name: the variable that has the argument as its path, or if there is
/// none, the bit. Fails with the reason if there is no clock.
fn clock_of(view: HeadView<'_>, name: &ClockName) -> Result<Clock, NoClock>
    ensures { (h : Header) → IsViewOf view.entry h → FindsClock h (model_name name.now) result }
{
    if let Some(row) = row_at(view, &name.word)? {
        return bit_of(view, row, None, name.falls);
    }
    match row_at(view, &name.path)? {
        Some(row) => bit_of(view, row, name.place, name.falls),
        None => Err(NoClock::Missing),
    }
}

/// Sets `clocks` to the clocks of the names, in order: as many as there are names.
///
/// # Errors
///
/// The index of the first name that is that of no clock, and why.
pub fn find_clocks(
    view: HeadView<'_>,
    names: &[ClockName],
    clocks: &mut [Clock],
) -> Result<(), (usize, NoClock)>
    requires clocks { length clocks.old ≡ length names.now }
    ensures finds { (h : Header) → IsViewOf view.entry h
        → FindsClocks h (map model_name names.now) clocks.new result }
    ensures len { length clocks.new ≡ length clocks.old }
{
    for at in 0..names.len() {
        match clock_of(view, &names[at]) {
            Ok(clock) => clocks[at] = clock,
            Err(why) => return Err((at, why)),
        }
    }
    Ok(())
}
