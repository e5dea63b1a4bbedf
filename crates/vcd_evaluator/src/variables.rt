// The variables of a header by their paths, and which of them names select.
use crate::header::{Declaration, Header, Variable, is_open};
use crate::text::Text;
use crate::token::split_before;
use std::alloc::{AllocError, Global};

// A variable, and its index among the declarations.
#[derive(Clone, Copy)]
pub(crate) struct Placed<'t> {
    pub(crate) place: usize,
    pub(crate) variable: Variable<'t>,
}

// Writes the names of the scopes around a variable, outermost first, and the first token of its
// reference, with dots between.
pub(crate) fn put_path(text: &mut Text, header: &Header<'_>, placed: &Placed<'_>) {
    let declarations = header.declarations.as_slice();
    for (scope, declaration) in declarations.iter().enumerate() {
        if let Declaration::Scope { name, .. } = declaration
            && is_open(declarations, scope, placed.place)
        {
            text.put(name);
            text.put_byte(b'.');
        }
    }
    let (name, _) = split_before(placed.variable.reference, true);
    text.put(name);
}

fn path_of(alloc: Global, header: &Header<'_>, placed: &Placed<'_>) -> Result<Vec<u8>, AllocError> {
    let mut path = Text::new(alloc);
    put_path(&mut path, header, placed);
    path.finish()
}

// Returns whether the path is the name, or begins with it and a dot.
fn selects(name: &str, path: &[u8]) -> bool {
    let bytes = name.as_bytes();
    path.starts_with(bytes)
        && match path.get(bytes.len()) {
            Some(next) => *next == b'.',
            None => true,
        }
}

// Returns whether some name selects the path. If there are no names, all paths are selected.
fn is_selected(names: &[&str], path: &[u8]) -> bool {
    names.is_empty() || names.iter().any(|name| selects(name, path))
}

// Returns the variables that names select, or all if there are no names.
pub(crate) fn selected<'t>(
    alloc: Global,
    header: &Header<'t>,
    names: &[&str],
) -> Result<Vec<Placed<'t>>, AllocError> {
    let mut variables = Vec::new(alloc);
    for (place, declaration) in header.declarations.iter().enumerate() {
        if let Declaration::Var(variable) = declaration {
            let placed = Placed {
                place,
                variable: *variable,
            };
            let path = path_of(alloc, header, &placed)?;
            if is_selected(names, path.as_slice()) {
                variables.push(placed)?;
            }
        }
    }
    Ok(variables)
}

// Returns the first name that selects no variable.
pub(crate) fn first_unmatched<'n>(
    alloc: Global,
    header: &Header<'_>,
    names: &[&'n str],
) -> Result<Option<&'n str>, AllocError> {
    for name in names {
        if selected(alloc, header, &[*name])?.is_empty() {
            return Ok(Some(*name));
        }
    }
    Ok(None)
}
