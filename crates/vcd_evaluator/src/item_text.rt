// Items as they are written, each after the line of its time.
use crate::header_text::{Naming, put_code};
use crate::item::{Change, Item, Said};
use crate::text::Text;
use crate::value::{Value, put_digits, put_shortest};
use std::alloc::{AllocError, Global};

// A text of items, and the times whose lines it has.
#[derive(Drop)]
pub(crate) struct ItemText {
    pub(crate) text: Text,
    times: Vec<u64>,
}

impl ItemText {
    pub(crate) fn new(alloc: Global) -> Self {
        ItemText {
            text: Text::new(alloc),
            times: Vec::new(alloc),
        }
    }

    // Writes the line of a time, if it is not there yet.
    pub(crate) fn put_time(&mut self, time: u64) -> Result<(), AllocError> {
        if self.times.as_slice().contains(&time) {
            return Ok(());
        }
        self.text.put(b"#");
        self.text.put_number(time);
        self.text.put(b"\n");
        self.times.push(time)?;
        Ok(())
    }

    // Writes the line of an item, after the line of its time.
    pub(crate) fn put_item(&mut self, item: &Item<'_>, naming: Naming) -> Result<(), AllocError> {
        self.put_time(item.time)?;
        put_line(&mut self.text, &item.said, naming);
        Ok(())
    }
}

// Writes the value of a change of a code that is no event, before the code.
fn put_value(text: &mut Text, change: &Change<'_>) {
    let size = change.code.size;
    match change.value {
        Value::Digits(digits) if size == 1 => put_digits(text, digits, size, 0),
        Value::Digits(digits) => {
            text.put(b"b");
            put_shortest(text, digits, size);
            text.put(b" ");
        }
        Value::Real(real) => {
            text.put(b"r");
            text.put(real);
            text.put(b" ");
        }
    }
}

// Writes the line of a change.
pub(crate) fn put_change(text: &mut Text, change: &Change<'_>, naming: Naming) {
    if change.code.is_event {
        text.put(b"1");
    } else {
        put_value(text, change);
    }
    put_code(text, &change.code, naming);
    text.put(b"\n");
}

// Writes the line of what an item says.
fn put_line(text: &mut Text, said: &Said<'_>, naming: Naming) {
    match said {
        Said::Time(_) => {}
        Said::Begin(section) => {
            text.put(section.keyword());
            text.put(b"\n");
        }
        Said::End => text.put(b"$end\n"),
        Said::Change(change) => put_change(text, change, naming),
    }
}
