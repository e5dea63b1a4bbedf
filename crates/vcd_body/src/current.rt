//! The current values of codes after one more item.
ghost use Rattle.vcd_body.specs.Current.{GivesSame, HoldsOneMore};
ghost use Rattle.vcd_body.specs.Names.{HasBits, KeepsTable};

use crate::change::needless;
use crate::item::{Form, Item};
use crate::values::bits::Bits;
use crate::values::table::Table;
use crate::values::value::Value;

/// Returns the text of a change of this form without the digits that its value does not need.
#[inline(always)]
fn shortest(form: Form, text: &[u8]) -> &[u8]
    ensures { GivesSame form text.now result.now }
{
    match form {
        Form::Vector if text.len() > 1 => &text[needless(text)..],
        _ => text,
    }
}

/// Sets the value of a change's code in the table: to `bits`, the digits of the text as a number,
/// or to the text if `bits` is `None`. Any other item changes nothing.
#[inline(always)]
pub fn set_item(table: &mut Table<'_>, item: Item, text: &[u8], bits: Option<Bits>)
    requires bits { HasBits item text.now bits }
    ensures held { HoldsOneMore table.old table.new item text.now }
    ensures keeps { KeepsTable table.old table.new }
{
    let Item::Change { code, form } = item else {
        return;
    };
    match bits {
        Some(bits) => table.set_value(code, Value::Bits(bits)),
        None => table.set(code, form, text),
    }
}

/// As `set_item`, but holds only those digits of a text that its value needs.
// Two values that are held so differ at once if their numbers of digits do (`are_too_few`).
#[inline(always)]
pub fn set_shortest(table: &mut Table<'_>, item: Item, text: &[u8], bits: Option<Bits>)
    requires bits { HasBits item text.now bits }
    ensures held { HoldsOneMore table.old table.new item text.now }
    ensures keeps { KeepsTable table.old table.new }
{
    match (item, bits) {
        (Item::Change { code, form }, None) => table.set(code, form, shortest(form, text)),
        _ => set_item(table, item, text, bits),
    }
}
