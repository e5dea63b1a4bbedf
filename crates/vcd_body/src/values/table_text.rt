//! The values of a table as they are written.
ghost use Rattle.std.specs.Prelude.{◌-◌, ◌^◌, ◌<◌};
ghost use Rattle.vcd_body.specs.Names.{Counts, IsLaidOut, Takes, codes_shown, line_of, shown, value_in};

use crate::values::held_text::{put_value, put_value_line};
use crate::values::table::Table;
use vcd_text::{Sink, WriteFailed, put};
use vcd_view::HeadView;

/// Writes the value that the code at index `code` has in the table, as the line of a change, with
/// the shortest digits; nothing if it has no value, or if there is no such code. If a write fails,
/// a prefix was written.
pub fn put_short<W: Sink>(
    view: HeadView<'_>,
    table: &Table<'_>,
    code: usize,
    w: &mut W,
) -> Result<(), WriteFailed>
    requires { (W.device w.old).failures < 2 ^ 64 - 1 }
    ensures takes { IsLaidOut table.now → Takes (W.device w.old) (W.device w.new)
        (line_of (codes_shown view.entry) table.now code) result }
    ensures counts { Counts (W.device w.old) (W.device w.new) result }
{
    let Some(declared) = view.code_at(code) else {
        return Ok(());
    };
    let Some(held) = table.held(code) else {
        return Ok(());
    };
    let id = view.text_at(declared.start, declared.len as usize);
    put_value_line(held, declared.size, id, w)
}

/// Writes the value that the code at index `code` has in the table: all its digits, or `r` and the
/// text of a real number; `-` if it has no value, or if there is no such code. It writes no code
/// and no line feed. If a write fails, a prefix was written.
pub fn put_full<W: Sink>(
    view: HeadView<'_>,
    table: &Table<'_>,
    code: usize,
    w: &mut W,
) -> Result<(), WriteFailed>
    requires { (W.device w.old).failures < 2 ^ 64 - 1 }
    ensures takes { IsLaidOut table.now → Takes (W.device w.old) (W.device w.new)
        (shown (value_in (codes_shown view.entry) table.now code)) result }
    ensures counts { Counts (W.device w.old) (W.device w.new) result }
{
    let Some(declared) = view.code_at(code) else {
        return put(w, b"-");
    };
    let Some(held) = table.held(code) else {
        return put(w, b"-");
    };
    put_value(held, declared.size, w)
}
