// `merge`.
use crate::command::Left;
use crate::fault::{Fault, Wrong};
use crate::header_text::{Naming, put_input};
use crate::item::{Item, Said, last_mark};
use crate::item_text::ItemText;
use crate::number::power_of_ten;
use crate::outcome::Opened;
use crate::refusal::left_with;
use crate::scale::{SECOND, Scale, put_scale};
use crate::text::Text;
use crate::variables::selected;
use std::alloc::{AllocError, Global};

#[derive(Clone, Copy)]
enum Due<'t> {
    Item(Item<'t>),
    Fault(Fault),
}

// An item of an input, its times scaled, or the fault after all its items.
#[derive(Clone, Copy)]
struct Entry<'t> {
    // The scaled time that is current in its input.
    time: u64,
    due: Due<'t>,
    name: &'t str,
    // The number of the input's first code.
    first: usize,
}

fn scale_of(input: &Opened<'_>) -> Scale {
    input.header.scale.unwrap_or(SECOND)
}

// Returns the finest scale.
fn least_scale(inputs: &[Opened<'_>]) -> Scale {
    let mut least = Scale { exponent: u8::MAX };
    for input in inputs {
        let scale = scale_of(input);
        if scale.exponent < least.exponent {
            least = scale;
        }
    }
    least
}

// Returns an item with its times scaled, or a fault if its timestamp is then too large.
fn scaled<'t>(item: &Item<'t>, factor: u64) -> Due<'t> {
    let said = match item.said {
        Said::Time(time) => match time.checked_mul(factor) {
            Some(time) => Said::Time(time),
            None => {
                return Due::Fault(Fault {
                    wrong: Wrong::TimeTooLarge,
                    line: item.line,
                });
            }
        },
        said => said,
    };
    Due::Item(Item {
        said,
        time: item.time.saturating_mul(factor),
        ..*item
    })
}

// Adds the entries of an input, whose codes are numbered from a number on.
fn push_entries<'t>(
    entries: &mut Vec<Entry<'t>>,
    input: &Opened<'t>,
    factor: u64,
    first: usize,
) -> Result<(), AllocError> {
    let name = input.name;
    for item in input.body.items.as_slice() {
        let due = scaled(item, factor);
        let time = item.time.saturating_mul(factor);
        entries.push(Entry {
            time,
            due,
            name,
            first,
        })?;
        if matches!(due, Due::Fault(_)) {
            return Ok(());
        }
    }
    if let Some(fault) = input.body.fault {
        let last = last_mark(input.body.items.as_slice()).unwrap_or(0);
        entries.push(Entry {
            time: last.saturating_mul(factor),
            due: Due::Fault(fault),
            name,
            first,
        })?;
    }
    Ok(())
}

// Returns the entries of all inputs, one input after the other.
fn entries_of<'t>(
    alloc: Global,
    inputs: &[Opened<'t>],
    least: Scale,
) -> Result<Vec<Entry<'t>>, AllocError> {
    let mut entries = Vec::new(alloc);
    let mut first: usize = 0;
    for input in inputs {
        let exponent = scale_of(input).exponent.saturating_sub(least.exponent);
        push_entries(&mut entries, input, power_of_ten(exponent), first)?;
        first = first.saturating_add(input.header.codes.len());
    }
    Ok(entries)
}

// Writes the merged header.
fn put_merged(
    alloc: Global,
    text: &mut Text,
    inputs: &[Opened<'_>],
    least: Scale,
) -> Result<(), AllocError> {
    put_scale(text, least);
    let mut place = (1, 0);
    for input in inputs {
        let variables = selected(alloc, &input.header, &[])?;
        put_input(text, place, &input.header, variables.as_slice());
        let (number, first): (u64, usize) = place;
        place = (
            number.saturating_add(1),
            first.saturating_add(input.header.codes.len()),
        );
    }
    text.put(b"$enddefinitions $end\n");
    Ok(())
}

// Writes the changes up to the first fault, and returns it with its input's name. If there is none,
// writes the line of the greatest timestamp too.
fn put_entries<'t>(
    lines: &mut ItemText,
    entries: &[Entry<'t>],
) -> Result<Option<(&'t str, Fault)>, AllocError> {
    let mut greatest: Option<u64> = None;
    for entry in entries {
        match entry.due {
            Due::Fault(fault) => return Ok(Some((entry.name, fault))),
            Due::Item(item) => {
                greatest = greatest.max(item.mark());
                if item.change().is_some() && item.is_written() {
                    lines.put_item(&item, Naming::From(entry.first))?;
                }
            }
        }
    }
    if let Some(time) = greatest {
        lines.put_time(time)?;
    }
    Ok(None)
}

// Returns the outcome of a merge of inputs. The order of entries is by time, then input, then index
// in the input.
pub(crate) fn merge(alloc: Global, inputs: &[Opened<'_>]) -> Result<Left, AllocError> {
    let least = least_scale(inputs);
    let mut entries = entries_of(alloc, inputs, least)?;
    entries.sort_by_key(|entry| entry.time)?;
    let mut lines = ItemText::new(alloc);
    put_merged(alloc, &mut lines.text, inputs, least)?;
    match put_entries(&mut lines, entries.as_slice())? {
        Some((name, fault)) => left_with(alloc, lines.text, name, Some(fault)),
        None => left_with(alloc, lines.text, "", None),
    }
}
