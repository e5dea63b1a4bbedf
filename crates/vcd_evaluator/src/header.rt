// What a header declares.
use crate::scale::Scale;
use std::alloc::{AllocError, Global};

// A code, with the size and kind of its first declaration.
#[derive(Clone, Copy)]
pub(crate) struct Code<'t> {
    pub(crate) text: &'t [u8],
    pub(crate) size: usize,
    pub(crate) is_event: bool,
    // How many other codes were declared before it.
    pub(crate) number: usize,
}

#[derive(Clone, Copy)]
pub(crate) struct Variable<'t> {
    pub(crate) kind: &'t [u8],
    pub(crate) code: Code<'t>,
    // One token or more, as the input has them.
    pub(crate) reference: &'t [u8],
}

#[derive(Clone, Copy)]
pub(crate) enum Declaration<'t> {
    Scope { kind: &'t [u8], name: &'t [u8] },
    Up,
    Var(Variable<'t>),
}

#[derive(Drop)]
pub(crate) struct Header<'t> {
    // The last date and version, as the input has them.
    pub(crate) date: &'t [u8],
    pub(crate) version: &'t [u8],
    pub(crate) scale: Option<Scale>,
    pub(crate) declarations: Vec<Declaration<'t>>,
    // The distinct codes, in the order of their first declaration.
    pub(crate) codes: Vec<Code<'t>>,
}

impl<'t> Header<'t> {
    // Returns a header that says nothing yet.
    pub(crate) fn new(alloc: Global) -> Self {
        Header {
            date: b"",
            version: b"",
            scale: None,
            declarations: Vec::new(alloc),
            codes: Vec::new(alloc),
        }
    }

    // Returns how many scopes are open after all declarations.
    pub(crate) fn open_scopes(&self) -> usize {
        let mut opened: usize = 0;
        for declaration in self.declarations.as_slice() {
            opened = match declaration {
                Declaration::Scope { .. } => opened.saturating_add(1),
                Declaration::Up => opened.saturating_sub(1),
                Declaration::Var(_) => opened,
            };
        }
        opened
    }

    // Declares a variable, and its code if no other variable has it.
    pub(crate) fn declare(&mut self, variable: Variable<'t>) -> Result<(), AllocError> {
        if find_code(self.codes.as_slice(), variable.code.text).is_none() {
            self.codes.push(variable.code)?;
        }
        self.declarations.push(Declaration::Var(variable))?;
        Ok(())
    }
}

// Returns the code with this text.
pub(crate) fn find_code<'t>(codes: &[Code<'t>], text: &[u8]) -> Option<Code<'t>> {
    codes.iter().copied().find(|code| code.text == text)
}

// Returns whether a scope that was opened at an index is still open at a later one.
pub(crate) fn is_open(declarations: &[Declaration<'_>], scope: usize, place: usize) -> bool {
    let mut depth: usize = 0;
    for declaration in declarations.iter().take(place).skip(scope) {
        depth = match declaration {
            Declaration::Scope { .. } => depth.saturating_add(1),
            Declaration::Up => depth.saturating_sub(1),
            Declaration::Var(_) => depth,
        };
        if depth == 0 {
            return false;
        }
    }
    scope < place
}
