//! Words that are numbers and times: the times after `--from` and `--to`, and those between the
//! commas of `--at`.
ghost use Rattle.std.specs.Prelude.{◌≡◌, ◌∷◌, ◌++◌, [], ℕ, List, None, OnOk, true, Some, IfErr, IfOk, cond, filter_map, length, map, option_map};
ghost use Rattle.vcd_words.specs.Names.{asked, cut_in, decimal_value, GivesWant, is_ascii_digit, is_asked, is_number, IsFaultIn, IsOrderOf, model_want, ModelMoment, moment_of, parts, sample_of, some_names, take_while, time_of, times_of, Want as ModelWant};

use crate::job::{UseFault, Want};
use crate::words::copied_some;
use std::alloc::{AllocError, Global};
use vcd_head::Moment;
use vcd_text::decimal_of;

/// How many digits a number may have.
const MAX_DIGITS: usize = 20;

/// Returns the number that 1 to 20 decimal digits spell. `None` if these bytes are anything else,
/// or if the number is 2^64 or more.
pub fn number_of(digits: &[u8]) -> Option<u64>
    ensures { result ≡ cond (is_number digits.now) (Some (decimal_value digits.now)) None }
{
    if digits.len() > MAX_DIGITS {
        return None;
    }
    decimal_of(digits)
}

/// Returns how many decimal digits a word begins with.
fn digits_before(word: &[u8]) -> usize
    ensures { result ≡ length (take_while is_ascii_digit word.now) }
{
    word.iter().take_while(|byte| byte.is_ascii_digit()).count()
}

/// Returns the time that a word spells: 1 to 20 digits with a value below 2^64, and then nothing
/// (ticks) or one of the units `s`, `ms`, `us`, `ns`, `ps` and `fs`. `None` if the word is anything
/// else.
pub(crate) fn moment_of(word: &str) -> Option<Moment>
    ensures { option_map asked result ≡ moment_of word.now }
{
    let bytes = word.as_bytes();
    let (digits, unit) = bytes.split_at(digits_before(bytes));
    Moment::from_parts(number_of(digits)?, unit)
}

/// Returns the time that a word spells. Fails with `BadTime` if `moment_of` returns `None`.
pub(crate) fn time_of<'a>(word: &'a str) -> Result<Moment, UseFault<'a>>
    ensures time { IfOk result (λ moment. time_of word.entry.now ≡ Ok (asked moment)) }
    ensures fault { IfErr result (λ fault. IsFaultIn fault (time_of word.entry.now)) }
{
    moment_of(word).ok_or(UseFault::BadTime(word))
}

/// Returns the want of a `cut` between the times that these words spell. Fails with `BadTime` at
/// the first word that is no time, and with `FromAboveTo` if neither time has a unit and `from` is
/// above `to`. With a unit that is checked once the time scale is known.
pub(crate) fn cut_of<'a>(from: &'a str, to: &'a str) -> Result<Want, UseFault<'a>>
    ensures want { IfOk result (λ want. cut_in from.entry.now to.entry.now ≡ Ok (model_want want)) }
    ensures asked { IfOk result (λ want. is_asked want ≡ true) }
    ensures fault { IfErr result (λ fault. IsFaultIn fault (cut_in from.entry.now to.entry.now)) }
{
    let from = time_of(from)?;
    let to = time_of(to)?;
    if from.unit.is_none() && to.unit.is_none() && to.number < from.number {
        return Err(UseFault::FromAboveTo);
    }
    Ok(Want::Cut(from, to))
}

/// What is known of some times.
#[derive(Clone, Copy)]
struct TimesOrder {
    /// Whether one of them has a unit.
    has_unit: bool,
    /// Whether each number is above the one before it.
    rises: bool,
    /// The last number.
    last: Option<u64>,
}

impl TimesOrder {
    /// Returns what is known before the first time: none has a unit, and they increase.
    fn new() -> TimesOrder
        ensures { IsOrderOf [] result }
    {
        TimesOrder {
            has_unit: false,
            rises: true,
            last: None,
        }
    }

    /// Returns the order of the same times and of `time` after them: whether a time has a unit,
    /// whether the numbers increase, and the last number.
    fn with(self, time: Moment) -> TimesOrder
        ensures { (times : List ModelMoment) → IsOrderOf times self
            → IsOrderOf (times ++ asked time ∷ []) result }
    {
        TimesOrder {
            has_unit: self.has_unit || time.unit.is_some(),
            rises: self.rises && self.last.is_none_or(|last| last < time.number),
            last: Some(time.number),
        }
    }
}

/// Checks the words between the commas of `at`, the times of a sample. Fails with `BadTime` at the
/// first word that is no time, and with `NotRising` if no time has a unit and the numbers do not
/// increase. It takes no memory.
fn check_times<'a>(at: &'a str) -> Result<(), UseFault<'a>>
    ensures times { OnOk result ((names : List (List ℕ)) → (times : List ModelMoment)
        × (times_of (parts at.entry.now) ≡ Ok times)
        × (sample_of names (Ok times) ≡ Ok (ModelWant.Sample times names))) }
    ensures fault { IfErr result (λ fault. (names : List (List ℕ))
        → IsFaultIn fault (sample_of names (times_of (parts at.entry.now)))) }
{
    let mut order = TimesOrder::new();
    for word in at.split(',') {
        order = order.with(time_of(word)?);
    }
    if !order.has_unit && !order.rises {
        return Err(UseFault::NotRising);
    }
    Ok(())
}

/// Returns the numbers, without their units, of the times between the commas of `at`. Words that
/// are no times are left out. Fails if memory runs out.
fn numbers_in(alloc: Global, at: &str) -> Result<Vec<u64>, AllocError>
    ensures { IfOk result (λ numbers. numbers.items
        ≡ map (λ (m : ModelMoment). m.number) (filter_map moment_of (parts at.now))) }
{
    at.split(',')
        .filter_map(moment_of)
        .map(|time| time.number)
        .collect(alloc)
}

/// Returns the units of the times between the commas of `at`, as powers of ten in seconds: `None`
/// for a time without a unit. Words that are no times are left out. Fails if memory runs out.
fn units_in(alloc: Global, at: &str) -> Result<Vec<Option<i8>>, AllocError>
    ensures { IfOk result (λ units. units.items
        ≡ map (λ (m : ModelMoment). m.unit) (filter_map moment_of (parts at.now))) }
{
    at.split(',')
        .filter_map(moment_of)
        .map(|time| time.unit)
        .collect(alloc)
}

/// Returns the want of a `sample` of these names at the times between the commas of `at`; of all
/// variables if `names` is `None`. Fails with `BadTime` at the first word that is no time, with
/// `NotRising` if no time has a unit and the numbers do not increase, or if memory runs out. It
/// takes no memory before the times were checked.
pub(crate) fn sample_of<'a>(
    alloc: Global,
    at: &'a str,
    names: Option<&[&str]>,
) -> Result<Want, UseFault<'a>>
    ensures { GivesWant (sample_of (some_names names.entry) (times_of (parts at.entry.now))) result }
{
    check_times(at)?;
    let numbers = numbers_in(alloc, at)?;
    let units = units_in(alloc, at)?;
    let names = copied_some(alloc, names)?;
    Ok(Want::Sample(numbers, units, names))
}
