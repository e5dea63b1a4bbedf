// A header that was read.
ghost use Rattle.std.specs.Prelude.{◌≡◌, true};
ghost use Rattle.vcd_view.specs.Entries.{are_right};

use vcd_view::{Code, CodeSeed, Entry, HeadView, Row, Scale};

/// A header in memory of its own.
#[derive(Drop)]
pub struct Head {
    pub(crate) text: Vec<u8>,
    pub(crate) rows: Vec<Row>,
    pub(crate) codes: Vec<Code>,
    pub(crate) index: Vec<usize>,
    pub(crate) entries: Vec<Entry>,
    pub(crate) seed: CodeSeed,
    pub(crate) date: Vec<u8>,
    pub(crate) version: Vec<u8>,
    pub(crate) scale: Option<Scale>,
    pub(crate) ghost right: { are_right text.items codes.items entries.items ≡ true },
}

impl Head {
    ghost use Rattle.vcd_head.specs.Names.{parts, shown};

    /// Returns this header as slices and numbers, in the form that other crates take.
    pub fn view(&self) -> HeadView<'_>
        ensures { parts result ≡ shown self.now }
    {
        HeadView {
            text: &self.text,
            rows: &self.rows,
            codes: &self.codes,
            index: &self.index,
            entries: &self.entries,
            seed: self.seed,
            date: &self.date,
            version: &self.version,
            scale: self.scale,
        }
    }
}
