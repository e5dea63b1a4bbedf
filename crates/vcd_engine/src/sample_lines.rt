//! The lines of `sample`.
ghost use Rattle.std.specs.Prelude.{◌≡◌, ◌-◌, ◌^◌, ◌<◌, [], ◌∷◌, List, false, flat_map};
ghost use Rattle.vcd_engine.specs.Names.{AllByRecursion, AnySampled, AreHeld, AtRow, BodyItem, Counts, is_settled, PutsWhere, sample_lines, selected, Takes};

use crate::leads::rows_on;
use vcd_body::{Table, put_full};
use vcd_head::put_path;
use vcd_text::{Sink, WriteFailed, put, put_number};
use vcd_view::HeadView;

/// Writes the line of `sample` for the variable at index `row`: `time`, its path, and its value in
/// the table. Writes nothing for an event, and if there is no such row. The table must have the
/// values at `time`. Fails if a write does.
fn put_sample_line<W: Sink>(
    table: &Table<'_>,
    view: HeadView<'_>,
    row: usize,
    time: u64,
    out: &mut W,
) -> Result<(), WriteFailed>
    requires failures { (W.device out.old).failures < 2 ^ 64 - 1 }
    ensures { PutsWhere W.device out.old out.new result (λ takes. AtRow view.entry row (λ h s.
        (items : List BodyItem) → AreHeld table.now h items → is_settled items time ≡ false
        → takes (sample_lines (s ∷ []) items time))) }
{
    let Some(variable) = view.row_at(row) else {
        return Ok(());
    };
    if view.is_event(variable.code as usize) {
        return Ok(());
    }
    put_number(out, time)?;
    put(out, b" ")?;
    put_path(view, row, out)?;
    put(out, b" ")?;
    put_full(view, table, variable.code as usize, out)?;
    put(out, b"\n")
}

/// Writes the lines of `sample` for one time: one for each row whose flag in `marks` is 1. By any
/// other flag rows are skipped (`rows_on`). `marks` is as `lead_on` leaves it, and the table must
/// have the values at `time`. Fails if a write does.
fn put_sample<W: Sink>(
    table: &Table<'_>,
    view: HeadView<'_>,
    marks: &[u8],
    time: u64,
    out: &mut W,
) -> Result<(), WriteFailed>
    requires failures { (W.device out.old).failures < 2 ^ 64 - 1 }
    ensures { PutsWhere W.device out.old out.new result (λ takes.
        AnySampled view.entry table.now marks.now (λ h items names. is_settled items time ≡ false
        → takes (sample_lines (selected names h.declarations) items time))) }
{
    let mut row = 0;
    while row < marks.len() {
        let mark = marks[row];
        if mark == 1 {
            put_sample_line(table, view, row, time, out)?;
        }
        row = row.saturating_add(rows_on(mark));
    }
    Ok(())
}

/// Writes the lines of `sample` for each of these times: one for each row whose flag in `marks` is
/// 1. By any other flag rows are skipped (`rows_on`). `marks` is as `lead_on` leaves it, and the
/// table must have the values at all of these times. Fails if a write does.
pub(crate) fn put_samples<W: Sink>(
    table: &Table<'_>,
    view: HeadView<'_>,
    marks: &[u8],
    times: &[u64],
    out: &mut W,
) -> Result<(), WriteFailed>
    requires failures { (W.device out.old).failures < 2 ^ 64 - 1 }
    ensures takes { AnySampled view.entry table.now marks.now (λ h items names.
        AllByRecursion (λ t. is_settled items t ≡ false) times.now
        → Takes (W.device out.old) (W.device out.new)
        (flat_map (sample_lines (selected names h.declarations) items) times.now) result) }
    ensures counts { Counts (W.device out.old) (W.device out.new) result }
{
    for time in times {
        put_sample(table, view, marks, *time, out)?;
    }
    Ok(())
}
