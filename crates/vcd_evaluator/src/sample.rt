// `sample`.
use crate::header::Code;
use crate::item::last_mark;
use crate::outcome::Dump;
use crate::text::Text;
use crate::value::{Value, change_at, put_digits};
use crate::variables::{Placed, put_path};

// Writes the value of a code at a time, in full.
fn put_value(text: &mut Text, dump: &Dump<'_, '_>, code: &Code<'_>, time: u64) {
    match change_at(dump.items, code, time) {
        None => text.put(b"-"),
        Some(change) => match change.value {
            Value::Digits(digits) => put_digits(text, digits, code.size, 0),
            Value::Real(real) => {
                text.put(b"r");
                text.put(real);
            }
        },
    }
}

// Writes the values of these variables at a time.
fn put_values(text: &mut Text, dump: &Dump<'_, '_>, variables: &[Placed<'_>], time: u64) {
    for placed in variables {
        if !placed.variable.code.is_event {
            text.put_number(time);
            text.put(b" ");
            put_path(text, dump.header, placed);
            text.put(b" ");
            put_value(text, dump, &placed.variable.code, time);
            text.put(b"\n");
        }
    }
}

// Writes the values of these variables at each time that some timestamp is past; at the end of the
// dump at all times.
pub(crate) fn put_sample(
    text: &mut Text,
    dump: &Dump<'_, '_>,
    variables: &[Placed<'_>],
    times: &[u64],
) {
    let last = last_mark(dump.items);
    for time in times {
        if dump.is_whole || last.is_some_and(|mark| *time < mark) {
            put_values(text, dump, variables, *time);
        }
    }
}
