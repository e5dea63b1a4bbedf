// `check` and `list`.
use crate::header::{Declaration, Header};
use crate::item::{Item, Said, last_mark};
use crate::outcome::Dump;
use crate::text::Text;
use crate::variables::{Placed, put_path};

// How many there are of each kind.
#[derive(Clone, Copy)]
struct Counts {
    scopes: u64,
    variables: u64,
    times: u64,
    sections: u64,
    changes: u64,
}

fn count_header(header: &Header<'_>, counts: &mut Counts) {
    for declaration in header.declarations.as_slice() {
        match declaration {
            Declaration::Scope { .. } => counts.scopes = counts.scopes.saturating_add(1),
            Declaration::Up => {}
            Declaration::Var(_) => counts.variables = counts.variables.saturating_add(1),
        }
    }
}

fn count_items(items: &[Item<'_>], counts: &mut Counts) {
    for item in items {
        match item.said {
            Said::Time(_) => counts.times = counts.times.saturating_add(1),
            Said::Begin(_) => counts.sections = counts.sections.saturating_add(1),
            Said::End => {}
            Said::Change(_) => counts.changes = counts.changes.saturating_add(1),
        }
    }
}

fn put_count(text: &mut Text, name: &[u8], count: u64) {
    text.put(name);
    text.put_number(count);
    text.put(b"\n");
}

// Writes the report of a dump, at its end.
pub(crate) fn put_report(text: &mut Text, dump: &Dump<'_, '_>) {
    if !dump.is_whole {
        return;
    }
    let mut counts = Counts {
        scopes: 0,
        variables: 0,
        times: 0,
        sections: 0,
        changes: 0,
    };
    count_header(dump.header, &mut counts);
    count_items(dump.items, &mut counts);
    put_count(text, b"scopes ", counts.scopes);
    put_count(text, b"variables ", counts.variables);
    put_count(text, b"codes ", dump.header.codes.len() as u64);
    put_count(text, b"times ", counts.times);
    put_count(text, b"sections ", counts.sections);
    put_count(text, b"changes ", counts.changes);
    match last_mark(dump.items) {
        Some(time) => put_count(text, b"last ", time),
        None => text.put(b"last -\n"),
    }
}

// Writes a row for each variable.
pub(crate) fn put_list(text: &mut Text, header: &Header<'_>, variables: &[Placed<'_>]) {
    for placed in variables {
        put_path(text, header, placed);
        text.put(b" ");
        text.put(placed.variable.kind);
        text.put(b" ");
        text.put_number(placed.variable.code.size as u64);
        text.put(b" ");
        text.put(placed.variable.code.text);
        text.put(b"\n");
    }
}
