// The code under which a change is written: one of a header, or a new one.

/// Under which code a change is written.
#[derive(Clone, Copy, PartialEq, Eq, Debug)]
pub enum Id<'a> {
    /// The code with these bytes.
    Own(&'a [u8]),
    /// The new code of this number, as a merge assigns them.
    Number(u64),
}
