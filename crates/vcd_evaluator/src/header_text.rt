// Headers as they are written.
use crate::header::{Code, Declaration, Header, Variable, is_open};
use crate::scale::put_scale;
use crate::text::Text;
use crate::variables::Placed;

// How codes are written: as they were declared, or by numbers from some number on.
#[derive(Clone, Copy)]
pub(crate) enum Naming {
    Own,
    From(usize),
}

// Writes the digits of a number in base 94, least first, from `!` on.
fn put_new_code(text: &mut Text, number: usize) {
    let mut rest = number;
    for _ in 0..10 {
        text.put_byte((rest % 94) as u8 + b'!');
        rest /= 94;
        if rest == 0 {
            break;
        }
    }
}

pub(crate) fn put_code(text: &mut Text, code: &Code<'_>, naming: Naming) {
    match naming {
        Naming::Own => text.put(code.text),
        Naming::From(first) => put_new_code(text, first.saturating_add(code.number)),
    }
}

fn put_scope(text: &mut Text, kind: &[u8], name: &[u8]) {
    text.put(b"$scope ");
    text.put(kind);
    text.put(b" ");
    text.put(name);
    text.put(b" $end\n");
}

fn put_up(text: &mut Text) {
    text.put(b"$upscope $end\n");
}

fn put_variable(text: &mut Text, variable: &Variable<'_>, naming: Naming) {
    text.put(b"$var ");
    text.put(variable.kind);
    text.put(b" ");
    text.put_number(variable.code.size as u64);
    text.put(b" ");
    put_code(text, &variable.code, naming);
    text.put(b" ");
    text.put_words(variable.reference);
    text.put(b" $end\n");
}

// Returns whether some variable is in the scope that was opened at this index, or in one inside it.
fn holds_some(header: &Header<'_>, variables: &[Placed<'_>], scope: usize) -> bool {
    let declarations = header.declarations.as_slice();
    variables
        .iter()
        .any(|placed| is_open(declarations, scope, placed.place))
}

// Returns whether a scope that holds some variable is open at an index, and not at a later one.
fn closes_some(
    header: &Header<'_>,
    variables: &[Placed<'_>],
    (place, later): (usize, usize),
) -> bool {
    let declarations = header.declarations.as_slice();
    (0..place).any(|scope| {
        is_open(declarations, scope, place)
            && !is_open(declarations, scope, later)
            && holds_some(header, variables, scope)
    })
}

// Writes what is declared at an index, if it is one of these variables, or opens or closes a scope
// that holds some of them.
fn put_declaration(
    text: &mut Text,
    header: &Header<'_>,
    variables: &[Placed<'_>],
    place: usize,
    naming: Naming,
) {
    match header.declarations.as_slice().get(place) {
        Some(Declaration::Scope { kind, name }) if holds_some(header, variables, place) => {
            put_scope(text, kind, name);
        }
        Some(Declaration::Var(variable)) if variables.iter().any(|placed| placed.place == place) =>
            {
                put_variable(text, variable, naming);
            }
        Some(Declaration::Up) if closes_some(header, variables, (place, place.saturating_add(1))) =>
            {
                put_up(text);
            }
        _ => {}
    }
}

// Writes the declarations of these variables and of the scopes around them.
fn put_declarations(
    text: &mut Text,
    header: &Header<'_>,
    variables: &[Placed<'_>],
    naming: Naming,
) {
    let count = header.declarations.len();
    for place in 0..count {
        put_declaration(text, header, variables, place, naming);
    }
    for scope in 0..count {
        if is_open(header.declarations.as_slice(), scope, count)
            && holds_some(header, variables, scope)
        {
            put_up(text);
        }
    }
}

// Writes a date or a version, if there is one.
fn put_note(text: &mut Text, keyword: &[u8], words: &[u8]) {
    if !words.is_empty() {
        text.put(keyword);
        text.put(b"\n\t");
        text.put_words(words);
        text.put(b"\n$end\n");
    }
}

// Writes the header of these variables.
pub(crate) fn put_header(text: &mut Text, header: &Header<'_>, variables: &[Placed<'_>]) {
    put_note(text, b"$date", header.date);
    put_note(text, b"$version", header.version);
    if let Some(scale) = header.scale {
        put_scale(text, scale);
    }
    put_declarations(text, header, variables, Naming::Own);
    text.put(b"$enddefinitions $end\n");
}

// Writes what a merged header has of an input, the first of which is 1: a scope of its own with all
// its declarations.
pub(crate) fn put_input(
    text: &mut Text,
    (input, first): (u64, usize),
    header: &Header<'_>,
    variables: &[Placed<'_>],
) {
    text.put(b"$scope module in");
    text.put_number(input);
    text.put(b" $end\n");
    put_declarations(text, header, variables, Naming::From(first));
    put_up(text);
}
