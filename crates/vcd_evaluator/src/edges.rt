// `edges`.
use crate::header::Code;
use crate::item::Item;
use crate::outcome::Dump;
use crate::text::Text;
use crate::value::{Value, are_same};
use crate::variables::{Placed, put_path};

#[derive(Clone, Copy)]
struct Edges {
    changes: u64,
    rises: u64,
    falls: u64,
}

const NO_EDGES: Edges = Edges {
    changes: 0,
    rises: 0,
    falls: 0,
};

fn last_digit(value: Value<'_>) -> Option<u8> {
    match value {
        Value::Digits(digits) => digits.last().copied(),
        Value::Real(_) => None,
    }
}

// Returns these counts with those of one more value, after the value before it.
fn with_step(edges: Edges, before: Value<'_>, after: Value<'_>, size: usize) -> Edges {
    let (rises, falls) = match (last_digit(before), last_digit(after)) {
        (Some(b'0'), Some(b'1')) => (1, 0),
        (Some(b'1'), Some(b'0')) => (0, 1),
        _ => (0, 0),
    };
    let changes = u64::from(!are_same(before, after, size));
    Edges {
        changes: edges.changes.saturating_add(changes),
        rises: edges.rises.saturating_add(rises),
        falls: edges.falls.saturating_add(falls),
    }
}

// Returns the counts of a code that is no event.
fn edges_of(items: &[Item<'_>], code: &Code<'_>) -> Edges {
    let mut edges = NO_EDGES;
    let mut last = None;
    for item in items {
        if let Some(change) = item.change_of(code) {
            if let Some(before) = last {
                edges = with_step(edges, before, change.value, code.size);
            }
            last = Some(change.value);
        }
    }
    edges
}

// Returns how often an event was triggered outside sections.
fn marks_of(items: &[Item<'_>], code: &Code<'_>) -> Edges {
    let mut edges = NO_EDGES;
    for item in items {
        if item.change_of(code).is_some() && !item.in_section {
            edges.changes = edges.changes.saturating_add(1);
        }
    }
    edges
}

fn put_counts(text: &mut Text, edges: Edges) {
    text.put(b" ");
    text.put_number(edges.changes);
    text.put(b" ");
    text.put_number(edges.rises);
    text.put(b" ");
    text.put_number(edges.falls);
    text.put(b"\n");
}

// Writes a row for each of these variables, at the end of the dump.
pub(crate) fn put_edges(text: &mut Text, dump: &Dump<'_, '_>, variables: &[Placed<'_>]) {
    for placed in variables {
        let code = &placed.variable.code;
        let edges = if code.is_event {
            marks_of(dump.items, code)
        } else {
            edges_of(dump.items, code)
        };
        if dump.is_whole {
            put_path(text, dump.header, placed);
            put_counts(text, edges);
        }
    }
}
