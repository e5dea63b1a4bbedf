// A header as slices and numbers.
ghost use Rattle.std.specs.Prelude.{◌≡◌, ◌<◌, true, false, length, take, Some, slice_get, option_map, unwrap_or, IfSome};
ghost use Rattle.vcd_view.specs.Entries.{are_right, code_bytes, text_in};

use crate::code_hash::CodeSeed;

/// What a row declares.
#[derive(Clone, Copy, PartialEq, Eq, Debug)]
pub enum Kind {
    /// A scope that is opened.
    Scope,
    /// A scope that is closed.
    Up,
    /// A variable.
    Var,
}

/// A declaration: indexes and offsets count from 0, lengths are in bytes. What a kind does not have
/// is 0.
#[derive(Clone, Copy, PartialEq, Eq, Debug)]
pub struct Row {
    pub kind: Kind,
    /// 1 plus the row of the enclosing scope (for `Up` of the scope that it closes), or 0 if there
    /// is none.
    pub parent: u32,
    /// The length of the type in bytes.
    pub word: u32,
    /// The length of the reference's first token: a scope's name, or that of a variable.
    pub name: u32,
    /// The index of a variable's code in `codes`.
    pub code: u32,
    /// Where the type begins in the text. The reference comes right after it.
    pub start: usize,
    /// The length of the whole reference: its tokens with a space between.
    pub all: usize,
}

/// An identifier code (clause 18, $var).
#[derive(Clone, Copy, PartialEq, Eq, Debug)]
pub struct Code {
    /// Where in the text the code begins.
    pub start: usize,
    /// The size of its variables, 1 to 16,777,215 bits (profile).
    pub size: usize,
    /// The length of the code in bytes.
    pub len: u32,
    /// Whether its variables are events.
    pub event: bool,
}

// How many bytes of the values a code gets at least: as many as the text of a real number may have.
const LEAST_BYTES: usize = 64;

impl Code {
    ghost use Rattle.vcd_view.specs.Needs.{value_bytes};

    /// Returns how many bytes of the values the code gets: enough for its longest value with four
    /// digits to a byte, and for any real number.
    #[inline(always)]
    pub fn value_bytes(self) -> usize
        ensures { result ≡ value_bytes self }
    {
        self.size.div_ceil(4).max(LEAST_BYTES)
    }
}

/// The entry of a code in the table of a look-up, or an empty one, with key 0.
// It has the size because a change would otherwise read 32 bytes of `codes`, which are far away.
#[derive(Clone, Copy, Default, PartialEq, Eq, Debug)]
pub struct Entry {
    /// The key of the code (`key_of`); of a code of 8 bytes or more, its hash with the highest bit
    /// set.
    pub key: u64,
    /// The index of the code in `codes`.
    pub position: u32,
    /// The size of the code; 0 if its variables are events, or if the size does not fit into 32
    /// bits.
    pub size_or_zero: u32,
}

/// A time scale (clause 18, $timescale).
#[derive(Clone, Copy, PartialEq, Eq, Debug)]
pub struct Scale {
    /// The power of ten in seconds, -15 to 2.
    pub exponent: i8,
}

/// A header.
#[derive(Clone, Copy)]
pub struct HeadView<'a> {
    /// The texts that rows and codes point into.
    pub text: &'a [u8],
    /// The declarations, in order.
    pub rows: &'a [Row],
    /// The distinct codes, in order of first declaration.
    pub codes: &'a [Code],
    /// The indexes of the codes, in increasing order of their bytes.
    pub index: &'a [usize],
    /// Codes by their numbers and hashes, only for look-ups: a power of two of entries, at most
    /// three for each code.
    pub entries: &'a [Entry],
    /// What codes are hashed by among the entries.
    pub seed: CodeSeed,
    /// The last date: its tokens with a space between. It is empty if there is none.
    pub date: &'a [u8],
    /// The last version: its tokens with a space between. It is empty if there is none.
    pub version: &'a [u8],
    /// The last time scale.
    pub scale: Option<Scale>,
    pub ghost right: { are_right text.now codes.now entries.now ≡ true },
}

impl<'a> HeadView<'a> {
    ghost use Rattle.vcd_view.specs.Names.{AnyDeclared, AnyRow, Header, IsViewOf, code_text, exponent, name_of, parent, reference_of, type_of};

    /// Returns the declaration at index `row` of the header; `None` if there is no such index.
    #[inline(always)]
    pub fn row_at(self, row: usize) -> Option<Row>
        ensures { result ≡ slice_get self.entry.rows.now row }
    {
        self.rows.get(row).copied()
    }

    /// Returns the identifier code at index `position` of the distinct codes; `None` if there is no
    /// such index.
    #[inline(always)]
    pub fn code_at(self, position: usize) -> Option<Code>
        ensures { result ≡ slice_get self.entry.codes.now position }
    {
        code_in(self.codes, position)
    }

    /// Returns `len` bytes of the header's text from offset `start` on; no bytes if the text has
    /// fewer. Rows and codes have such offsets and lengths.
    #[inline(always)]
    pub fn text_at(self, start: usize, len: usize) -> &'a [u8]
        ensures { result.now ≡ text_in self.entry.text.now start len }
    {
        text_in(self.text, start, len)
    }

    /// Returns the index of the row of the scope that encloses the declaration at index `row`; for
    /// an `$upscope` of the scope that it closes. `None` if it is in no scope, or if there is no
    /// such row.
    #[inline(always)]
    pub fn scope_of(self, row: usize) -> Option<usize>
        ensures earlier { IfSome result (λ scope. scope < row) }
        ensures scope { AnyRow self.entry row (λ h. result ≡ parent (take row h.declarations)) }
    {
        let scope = (self.row_at(row)?.parent as usize).checked_sub(1)?;
        (scope < row).then_some(scope)
    }

    /// Returns the type of the scope or the variable at index `row`, such as `module` or `wire`; no
    /// bytes for an `$upscope` or if there is no such row.
    #[inline(always)]
    pub fn type_of(self, row: usize) -> &'a [u8]
        ensures { AnyDeclared self.entry row (λ _ d. result.now ≡ type_of d) }
    {
        match self.row_at(row) {
            Some(row) => self.text_at(row.start, row.word as usize),
            None => &[],
        }
    }

    /// Returns the name of the scope or the variable at index `row`: the first token of its
    /// reference. It is empty for an `$upscope` or if there is no such row.
    #[inline(always)]
    pub fn name_of(self, row: usize) -> &'a [u8]
        ensures { AnyDeclared self.entry row (λ _ d. result.now ≡ name_of d) }
    {
        match self.row_at(row) {
            Some(row) => self.text_at(
                row.start.saturating_add(row.word as usize),
                row.name as usize,
            ),
            None => &[],
        }
    }

    /// Returns the whole reference of the scope or the variable at index `row`: its tokens with a
    /// space between, such as `data [7:0]`. It is empty for an `$upscope` or if there is no such
    /// row.
    #[inline(always)]
    pub fn reference_of(self, row: usize) -> &'a [u8]
        ensures { AnyDeclared self.entry row (λ _ d. result.now ≡ reference_of d) }
    {
        match self.row_at(row) {
            Some(row) => self.text_at(row.start.saturating_add(row.word as usize), row.all),
            None => &[],
        }
    }

    /// Returns the bytes of the identifier code at index `position` of the distinct codes; no bytes
    /// if there is no such index.
    #[inline(always)]
    pub fn code_text(self, position: usize) -> &'a [u8]
        ensures { (h : Header) → IsViewOf self.entry h → result.now ≡ code_text h.codes position }
    {
        code_bytes(self.text, self.codes, position)
    }

    /// Returns the power of ten of the header's time scale, in seconds, such as -9 for 1 ns. It is
    /// 0, that is 1 s, if the header has no time scale.
    pub fn exponent(self) -> i8
        ensures { (h : Header) → IsViewOf self.entry h → result ≡ exponent h }
    {
        self.scale.map_or(0, |scale| scale.exponent)
    }

    /// Returns whether the variables of the identifier code at index `position` are events; false
    /// if there is no such index.
    #[inline(always)]
    pub fn is_event(self, position: usize) -> bool
        ensures event { (h : Header) → IsViewOf self.entry h
            → result ≡ unwrap_or (option_map (λ c. c.event) (slice_get h.codes position)) false }
        ensures value { result ≡ unwrap_or
            (option_map (λ (c : Code). c.event) (slice_get self.entry.codes.now position)) false }
    {
        match self.code_at(position) {
            Some(code) => code.event,
            None => false,
        }
    }
}

/// Returns the code at index `position` of `codes`; `None` if there is no such index.
#[inline(always)]
pub(crate) fn code_in(codes: &[Code], position: usize) -> Option<Code>
    ensures { result ≡ slice_get codes.now position }
{
    codes.get(position).copied()
}

/// Returns the bytes of the code at index `position` of `codes`, which lie in `text`; no bytes if
/// there is no such index.
#[inline(always)]
pub fn code_bytes<'a>(text: &'a [u8], codes: &[Code], position: usize) -> &'a [u8]
    ensures { result.now ≡ code_bytes text.now codes.now position }
{
    match code_in(codes, position) {
        Some(code) => text_in(text, code.start, code.len as usize),
        None => &[],
    }
}

/// Returns `len` bytes of `text` from offset `start` on; no bytes if the text has fewer.
#[inline(always)]
pub(crate) fn text_in(text: &[u8], start: usize, len: usize) -> &[u8]
    ensures { result.now ≡ text_in text.now start len }
{
    text.get(start..start.saturating_add(len)).unwrap_or(&[])
}

/// The lengths of the slices that an engine over a header works in.
#[derive(Clone, Copy, PartialEq, Eq, Debug)]
pub struct Need {
    /// Bytes for the current values: for each code `value_bytes`.
    pub values: usize,
    /// Slots, and shares: one of each for each code.
    pub slots: usize,
    /// Selection flags: one for each row.
    pub marks: usize,
}
