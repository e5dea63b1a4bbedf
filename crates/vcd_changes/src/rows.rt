//! The changes of a code in a body, one row for each.
ghost use Rattle.std.specs.Prelude.{◌≡◌, ◌-◌, ◌^◌, ◌<◌, ◌≤◌, ◌++◌, List, Some, length, slice_get, take};
ghost use Rattle.vcd_body.specs.Given.{item_text};
ghost use Rattle.vcd_body.specs.Fault.{call_end};
ghost use Rattle.vcd_body.specs.Reads.{GaveItems};
ghost use Rattle.vcd_head.specs.Model.Header.{Header};
ghost use Rattle.vcd_head.specs.Model.Input.{Input};
ghost use Rattle.vcd_model.specs.Declarations.{IdCode};
ghost use Rattle.vcd_model.specs.Items.{BodyItem};
ghost use Rattle.vcd_head.specs.Model.Tokens.{Token};
ghost use Rattle.vcd_head.specs.Views.{IsViewOf};
ghost use Rattle.vcd_text.specs.Advances.{Advances};
ghost use Rattle.vcd_text.specs.Feed.{source_of};
ghost use Rattle.vcd_changes.specs.Rows.{Collects, row_added};

use crate::row::{ChangeRow, row_of};
use crate::walk::collect_ahead;
use vcd_body::{BodyFault, Item, Regs, change_text, next_item};
use vcd_head::HeadView;
use vcd_text::{Feed, Source};

/// Why no more rows were filled.
#[derive(Clone, Copy, PartialEq, Eq)]
pub(crate) enum Filled {
    /// The body has no further change.
    All,
    /// The rows are full.
    Full,
}

/// Adds a row for `item`, which `next_item` returned last, after the first `count` rows, if it is a
/// change of the code at `index`, and returns how many rows are filled then. `count` is less than
/// the number of rows. Any other item changes nothing. `time` is the time of the item, in ticks.
fn add_row<S: Source>(
    feed: &Feed<'_, '_, '_, '_, S>,
    item: Item,
    index: usize,
    time: u64,
    rows: &mut [ChangeRow],
    count: usize,
) -> usize
    requires { count < length rows.old }
    ensures rows { take result rows.new
        ≡ take count rows.old ++ row_added index time (item_text feed.now item) item }
    ensures most { result ≤ length rows.new }
{
    match item {
        Item::Change { code, form } if code == index => {
            rows[count] = row_of(time, form, change_text(feed, form));
            count + 1
        }
        _ => count,
    }
}

/// Fills the rows with the next changes of the code at `index`, until they are full or the body
/// ends, and returns which of these it was. Sets `count` to the number of rows that are filled,
/// also if it fails, and `regs` to the registers where the feed is then. Fails with the fault of
/// the body, after the rows before it.
pub(crate) fn collect_rows<S: Source>(
    feed: &mut Feed<'_, '_, '_, '_, S>,
    view: HeadView<'_>,
    index: usize,
    regs: &mut Regs,
    rows: &mut [ChangeRow],
    count: &mut usize,
) -> Result<Filled, BodyFault>
    requires { S.failures (source_of feed.old) < 2 ^ 64 - 1 }
    ensures reads { (h : Header) (i : Input) (front : List Token) (items : List BodyItem)
        (code : IdCode) → IsViewOf view.entry h → GaveItems h.codes i front items feed.old regs.old
        → slice_get h.codes index ≡ Some code
        → Collects h.codes i front items code.text feed.new regs.new count.new rows.new result }
    ensures most { count.new ≤ length rows.new }
    ensures advances { Advances S.failures feed.old feed.new (call_end result) }
{
    *count = 0;
    'items: loop {
        *count = collect_ahead(feed, view, index, regs, rows, *count);
        if *count == rows.len() {
            return Ok(Filled::Full);
        }
        let item = next_item(feed, view, regs)?;
        if item == Item::Finish {
            return Ok(Filled::All);
        }
        *count = add_row(feed, item, index, regs.time, rows, *count);
    }
}
