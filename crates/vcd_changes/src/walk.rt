//! The changes of a code among the items that are whole in a feed's chunk.
ghost use Rattle.std.specs.Prelude.{◌≡◌, ◌-◌, ◌^◌, ◌<◌, ◌≤◌, List, Some, false, length, slice_get, take};
ghost use Rattle.vcd_body.specs.Reads.{GaveItems};
ghost use Rattle.vcd_body.specs.declared.item.Regs.{Regs};
ghost use Rattle.vcd_head.specs.Model.Header.{Header};
ghost use Rattle.vcd_head.specs.Model.Input.{Input};
ghost use Rattle.vcd_head.specs.Model.Tokens.{Token};
ghost use Rattle.vcd_head.specs.Views.{IsViewOf};
ghost use Rattle.vcd_model.specs.Declarations.{IdCode};
ghost use Rattle.vcd_model.specs.Items.{BodyItem};
ghost use Rattle.vcd_text.specs.Ahead.{passed_of};
ghost use Rattle.vcd_text.specs.Advances.{Advances, CallEnd};
ghost use Rattle.vcd_text.specs.Feed.{seen};
ghost use Rattle.vcd_changes.specs.Rows.{GaveRows};
ghost use Rattle.vcd_changes.specs.Walk.{Came, HasRoom, is_full, rows_at};

use crate::row::{ChangeRow, row_of};
use std::io;
use vcd_body::{Item, Regs, ScannedItem, Visit, Walked, pass_items, walk_ahead};
use vcd_head::HeadView;
use vcd_text::{Ahead, Feed, Sink, Source, Watch, WriteFailed};

/// The rows that a walk over these items fills.
#[derive(Drop)]
struct Rows<'r> {
    rows: &'r mut [ChangeRow],
}

impl<'r> Rows<'r> {
    /// Returns these rows in the struct that a walk over items fills.
    #[inline(always)]
    fn new(rows: &'r mut [ChangeRow]) -> Rows<'r>
        ensures loan { result.rows.ghost_name ≡ rows.entry.ghost_name }
        ensures rows { result.rows.now ≡ rows.old }
    {
        Rows { rows }
    }
}

/// What such a walk keeps, only as numbers: how many rows are filled, and how many there are.
#[derive(Clone, Copy)]
struct Collecting {
    count: usize,
    room: usize,
    // The index of the code among the header's.
    index: usize,
    // How many bytes ahead there are up to the end of the last row's change.
    end: usize,
}

impl Collecting {
    ghost use Rattle.vcd_changes.specs.Walk.{is_full, passed_with};

    /// Returns whether all rows are filled.
    #[inline(always)]
    fn is_full(&self) -> bool
        ensures { result ≡ is_full self.now }
    {
        self.room <= self.count
    }

    /// Returns by how many bytes the feed has to be moved on after a walk that ended at `ahead`: up
    /// to the end of the last row's change if the rows are full, otherwise past all items that the
    /// walk handled.
    #[inline(always)]
    fn bytes_to_pass(&self, ahead: Ahead<'_>) -> usize
        ensures { result ≡ passed_with ahead.entry self.now }
    {
        if self.is_full() {
            self.end
        } else {
            ahead.passed()
        }
    }
}

// `is_over` is always false, so this visitor ends a walk only before a timestamp or a section's
// begin or end. Once the rows are full, the walk still visits the changes up to the next of these,
// and `bytes_to_pass` leaves them out.
impl<'r> Visit<Rows<'r>> for Collecting {
    ghost use Rattle.std.specs.Prelude.{false};
    ghost use Rattle.vcd_changes.specs.Walk.{HasRoom, TakesRow, is_full};

    ghost stands = { λ collecting rows _ _. HasRoom collecting rows };

    ghost takes = { λ view s t result. TakesRow view s t result };

    ghost stops_before = { λ collecting _ _. is_full collecting };

    ghost over = { λ _. false };

    /// Returns whether the rows are full, which ends the walk before a timestamp or a section's
    /// begin or end.
    #[inline(always)]
    fn ends_before(&self, _rows: &Rows<'r>, _time: u64) -> bool {
        self.is_full()
    }

    /// Returns false: only `ends_before` ends such a walk.
    #[inline(always)]
    fn is_over(&self) -> bool
        ensures { result ≡ false }
    {
        false
    }

    /// Does nothing: `regs` has the time at each change.
    #[inline(always)]
    fn take_timestamp(
        &mut self,
        _rows: &mut Rows<'r>,
        _view: HeadView<'_>,
        _regs: Regs,
        _time: u64,
        _timestamp: ScannedItem<'_>,
    ) {}

    /// Fills the next row with a change of the code, at the last time of `regs`, unless the rows
    /// are full, and notes where the change ends. Any other change does nothing. It writes nothing
    /// to the sink, and never fails.
    #[inline(always)]
    fn take_change<W: Sink>(
        &mut self,
        rows: &mut Rows<'r>,
        _view: HeadView<'_>,
        regs: Regs,
        change: ScannedItem<'_>,
        _out: &mut W,
    ) -> Result<(), WriteFailed> {
        let Item::Change { code, form } = change.item else {
            unreachable!()
        };
        if code == self.index && !self.is_full() {
            rows.rows[self.count] = row_of(regs.time, form, change.text);
            self.count += 1;
            self.end = change.end;
        }
        Ok(())
    }

    /// Does nothing, and never fails.
    #[inline(always)]
    fn take_section<W: Sink>(
        &mut self,
        _rows: &mut Rows<'r>,
        _view: HeadView<'_>,
        _before: Regs,
        _after: Regs,
        _section: ScannedItem<'_>,
        _out: &mut W,
    ) -> Result<(), WriteFailed> {
        Ok(())
    }
}

/// Fills the rows with the changes of one code among the items that lie completely in the chunk,
/// from `ahead` on, until the rows are full. Returns the look-ahead, the registers and `collecting`
/// after the items that the walk handled; `bytes_to_pass` says which of these the feed has to
/// move past.
///
/// `collecting` says which code that is, and how many rows are filled before; they must not be
/// full. `regs` are the registers before these items, and `ahead` must be at its first byte.
// Not inlined, so that the loop has all registers.
#[inline(never)]
fn walk_rows<'a>(
    rows: &mut Rows<'_>,
    collecting: Collecting,
    view: HeadView<'_>,
    regs: Regs,
    ahead: Ahead<'a>,
) -> Walked<'a, Collecting>
    requires room { HasRoom collecting rows.old }
    requires some { is_full collecting ≡ false }
    requires first { passed_of ahead ≡ 0 }
    ensures loan { rows.new.rows.ghost_name ≡ rows.old.rows.ghost_name }
    ensures came { Came view.entry (rows_at ahead.entry regs collecting rows.old)
        (rows_at result.ahead result.regs result.visit rows.new) }
{
    let mut out = Watch::new(io::sink());
    walk_ahead(rows, collecting, view, regs, ahead, &mut out)
}

/// Fills the rows after the first `count`, which is at most their number, with the changes of the
/// code at `index` among the items that lie completely in the feed's chunk, until all rows are
/// full, and returns how many are filled. Moves the feed past these items, and sets `regs` to the
/// registers after them. If all rows are full already, nothing changes.
pub(crate) fn collect_ahead<S: Source>(
    feed: &mut Feed<'_, '_, '_, '_, S>,
    view: HeadView<'_>,
    index: usize,
    regs: &mut Regs,
    rows: &mut [ChangeRow],
    count: usize,
) -> usize
    requires { count ≤ length rows.old }
    ensures reads { (h : Header) (i : Input) (front : List Token) (items : List BodyItem)
        (code : IdCode) → IsViewOf view.entry h → GaveItems h.codes i front items feed.old regs.old
        → slice_get h.codes index ≡ Some code
        → GaveRows h.codes i front items code.text feed.new regs.new
        (take count rows.old) (take result rows.new) }
    ensures most { result ≤ length rows.new }
    ensures advances { Advances S.failures feed.old feed.new CallEnd.GoesOn }
    ensures bounded { seen feed.new < 2 ^ 63 }
{
    let ahead = feed.ahead();
    if rows.len() <= count {
        return count;
    }
    let collecting = Collecting {
        count,
        room: rows.len(),
        index,
        end: 0,
    };
    let mut lent = Rows::new(rows);
    let walked = walk_rows(&mut lent, collecting, view, *regs, ahead);
    let passed = walked.visit.bytes_to_pass(walked.ahead);
    *regs = walked.regs;
    let count = walked.visit.count;
    pass_items(feed, passed);
    count
}
