// `cut`.
use crate::header_text::{Naming, put_header};
use crate::item::last_mark;
use crate::item_text::{ItemText, put_change};
use crate::outcome::Dump;
use crate::value::change_before;
use crate::variables::Placed;
use std::alloc::AllocError;

// Writes the section that a cut begins with: the values before its first time.
fn put_start(lines: &mut ItemText, dump: &Dump<'_, '_>, from: u64) -> Result<(), AllocError> {
    lines.put_time(from)?;
    lines.text.put(b"$dumpvars\n");
    for code in dump.header.codes.as_slice() {
        if let Some(change) = change_before(dump.items, code, from)
            && !code.is_event
        {
            put_change(&mut lines.text, &change, Naming::Own);
        }
    }
    lines.text.put(b"$end\n");
    Ok(())
}

// Writes the items from the first time on. None of them is past the last time.
fn put_kept(lines: &mut ItemText, dump: &Dump<'_, '_>, from: u64) -> Result<(), AllocError> {
    for item in dump.items {
        if from <= item.time && item.is_written() {
            lines.put_item(item, Naming::Own)?;
        }
    }
    Ok(())
}

// Writes the dump between these times. Its items end with the first timestamp past the last time.
pub(crate) fn put_cut(
    lines: &mut ItemText,
    dump: &Dump<'_, '_>,
    variables: &[Placed<'_>],
    (from, to): (u64, u64),
) -> Result<(), AllocError> {
    put_header(&mut lines.text, dump.header, variables);
    let last = last_mark(dump.items);
    let begins = from == 0 || last.is_some_and(|mark| from <= mark);
    if begins || dump.is_whole {
        put_start(lines, dump, from)?;
        put_kept(lines, dump, from)?;
    }
    match last {
        Some(mark) if to < mark => lines.put_time(to),
        Some(mark) if dump.is_whole && from < mark => lines.put_time(mark),
        _ => Ok(()),
    }
}
