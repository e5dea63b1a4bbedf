//! What a run is asked for, what it reads, and what it ends with.

/// A command with its arguments.
#[derive(Clone, Copy)]
pub enum Command<'a> {
    /// `check`.
    Check,
    /// `list`.
    List,
    /// `pick` of these names, one or more.
    Pick(&'a [&'a str]),
    /// `cut`, with its times as arguments.
    Cut {
        /// The argument of `--from`.
        from: &'a str,
        /// The argument of `--to`.
        to: &'a str,
    },
    /// `sample`.
    Sample {
        /// The argument of `--at`.
        times: &'a str,
        /// The names; all variables if there is none.
        names: &'a [&'a str],
    },
    /// `edges` of these names, or of all variables if there is none.
    Edges(&'a [&'a str]),
    /// `merge` of all inputs.
    Merge,
}

impl<'a> Command<'a> {
    // Returns the names of variables.
    pub(crate) fn names(self) -> &'a [&'a str] {
        match self {
            Command::Pick(names) | Command::Sample { names, .. } | Command::Edges(names) => names,
            _ => &[],
        }
    }
}

/// An input.
#[derive(Clone, Copy)]
pub struct Input<'a> {
    /// How messages name it.
    pub name: &'a str,
    /// Its bytes.
    pub bytes: &'a [u8],
    /// Whether a read fails after its bytes, and they do not end.
    pub fails: bool,
}

/// What a run ends with.
#[derive(Drop)]
pub struct Left {
    /// The bytes on standard output.
    pub output: Vec<u8>,
    /// The bytes on the error stream.
    pub message: Vec<u8>,
    /// The exit status.
    pub status: u8,
}
