// `pick`.
use crate::header_text::{Naming, put_header};
use crate::item::{Item, last_mark};
use crate::item_text::ItemText;
use crate::outcome::Dump;
use crate::variables::Placed;
use std::alloc::AllocError;

// Returns whether an item is a begin or an end of a section, or a change of one of these variables
// that may be written.
fn is_kept(item: &Item<'_>, variables: &[Placed<'_>]) -> bool {
    item.is_written()
        && match item.change() {
            Some(change) => variables
                .iter()
                .any(|placed| placed.variable.code.text == change.code.text),
            None => true,
        }
}

// Writes the dump of these variables.
pub(crate) fn put_pick(
    lines: &mut ItemText,
    dump: &Dump<'_, '_>,
    variables: &[Placed<'_>],
) -> Result<(), AllocError> {
    put_header(&mut lines.text, dump.header, variables);
    for item in dump.items {
        if is_kept(item, variables) {
            lines.put_item(item, Naming::Own)?;
        }
    }
    match last_mark(dump.items) {
        Some(time) if dump.is_whole => lines.put_time(time),
        _ => Ok(()),
    }
}
