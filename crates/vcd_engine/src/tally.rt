//! What `edges` counts of each code (changes, rises, falls), and the lines that it writes.
ghost use Rattle.std.specs.Prelude.{◌≡◌, ℕ, ◌-◌, ◌^◌, ◌<◌, ◌∷◌, ◌++◌, [], List, true, false, length, Some, slice_get, decimal, flat_map};
ghost use Rattle.vcd_engine.specs.Names.{AreTallied, AtRow, BodyItem, Change, change_to, Code, Counts, edges_line, HasBits, Header, HeadView, IdCode, IsText, IsViewOf, KeepsTable, leaves_open, marks_of, Puts, PutsWhere, selected, Takes};

use vcd_body::{Bits, Form, Item, Table, Value};
use vcd_head::{is_marked, put_path};
use vcd_text::{Sink, WriteFailed, put, put_number};
use vcd_view::{HeadView, Kind};

/// Sets the value of the code at index `code`, which is no event, in the table by a change of this
/// form and text. If it differs from the value before, counts a change, and also a rise or fall if
/// it is one. `size` is the size of the code, in bits; `bits` has the digits of the text as a
/// number, or is `None` if that is not known.
#[inline(always)]
pub(crate) fn take_value(
    table: &mut Table<'_>,
    code: usize,
    size: usize,
    form: Form,
    text: &[u8],
    bits: Option<Bits>,
)
    requires bits { HasBits (Item.Change code form) text.now bits }
    ensures takes { (view : HeadView) (h : Header) (items : List BodyItem) (c : IdCode)
        → IsViewOf view h → slice_get h.codes code ≡ Some c → c.event ≡ false → c.size ≡ size
        → ((d : Code) → slice_get view.codes.now code ≡ Some d → IsText form d text.now)
        → length items < 2 ^ 63 → AreTallied table.old h items
        → AreTallied table.new h (items ++ change_to c form text.now ∷ []) }
    ensures keeps { KeepsTable table.old table.new }
{
    match bits {
        Some(bits) => table.follow(code, size, Value::Bits(bits)),
        None => table.follow(code, size, Value::of_text(form, text)),
    }
}

/// Adds 1 to the table's counter of changes of the event at index `code`, up to 2^64 - 1. Nothing
/// changes if `inside` says that a section is open, or if there is no such code.
#[inline(always)]
pub(crate) fn count_trigger(table: &mut Table<'_>, code: usize, inside: bool)
    ensures takes { (view : HeadView) (h : Header) (items : List BodyItem) (c : IdCode) (d : Change)
        → IsViewOf view h → slice_get h.codes code ≡ Some c → c.event ≡ true → d.code ≡ c
        → inside ≡ leaves_open items → length items < 2 ^ 63 → AreTallied table.old h items
        → AreTallied table.new h (items ++ BodyItem.Changes d ∷ []) }
    ensures keeps { KeepsTable table.old table.new }
{
    if !inside {
        table.bump(code, 0);
    }
}

/// Writes a space and a number. Fails if a write does.
fn put_counter<W: Sink>(number: u64, out: &mut W) -> Result<(), WriteFailed>
    requires { (W.device out.old).failures < 2 ^ 64 - 1 }
    ensures { Puts (W.device out.old) (W.device out.new) (32 ∷ decimal number) result }
{
    put(out, b" ")?;
    put_number(out, number)
}

/// Writes the line of `edges` for the variable at index `row`: its path, and how often its value
/// changes, rises and falls, by the table. Writes nothing if there is no such row. Fails if a write
/// does.
fn put_edges_line<W: Sink>(
    table: &Table<'_>,
    view: HeadView<'_>,
    row: usize,
    out: &mut W,
) -> Result<(), WriteFailed>
    requires failures { (W.device out.old).failures < 2 ^ 64 - 1 }
    ensures { PutsWhere W.device out.old out.new result (λ takes. AtRow view.entry row (λ h s.
        (items : List BodyItem) → AreTallied table.now h items → takes (edges_line items s))) }
{
    let Some(variable) = view.row_at(row) else {
        return Ok(());
    };
    let [changes, rises, falls] = table.tally(variable.code as usize);
    put_path(view, row, out)?;
    put_counter(changes, out)?;
    put_counter(rises, out)?;
    put_counter(falls, out)?;
    put(out, b"\n")
}

/// Writes the line of `edges` for each selected variable, in order of declaration. `marks` has a
/// byte for each row, 1 at a selected variable. Fails if a write does.
pub(crate) fn put_edges_lines<W: Sink>(
    table: &Table<'_>,
    view: HeadView<'_>,
    marks: &[u8],
    out: &mut W,
) -> Result<(), WriteFailed>
    requires failures { (W.device out.old).failures < 2 ^ 64 - 1 }
    ensures takes { (h : Header) (items : List BodyItem) (names : List (List ℕ))
        → IsViewOf view.entry h → marks.now ≡ marks_of names h.declarations
        → AreTallied table.now h items → Takes (W.device out.old) (W.device out.new)
        (flat_map (edges_line items) (selected names h.declarations)) result }
    ensures counts { Counts (W.device out.old) (W.device out.new) result }
{
    for (row, declared) in view.rows.iter().enumerate() {
        if declared.kind == Kind::Var && is_marked(marks, row) {
            put_edges_line(table, view, row, out)?;
        }
    }
    Ok(())
}
