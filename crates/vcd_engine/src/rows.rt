//! `list`: the variables of a header.
ghost use Rattle.std.specs.Prelude.{◌≡◌, ◌∷◌, ◌-◌, ◌^◌, ◌<◌, MatchResult, Some};
ghost use Rattle.vcd_engine.specs.Names.{AtRow, Counts, IsWithinEachBound, list_line, list_text, no_room, Puts, PutsWhere, TakesHeader, Whole, Write};

use vcd_body::{Done, Stop};
use vcd_head::put_path;
use vcd_text::{Sink, WriteFailed, put, put_number};
use vcd_view::{HeadView, Kind};

/// Writes a space and a word. Fails if a write does.
fn put_word<W: Sink>(out: &mut W, word: &[u8]) -> Result<(), WriteFailed>
    requires { (W.device out.old).failures < 2 ^ 64 - 1 }
    ensures { Puts (W.device out.old) (W.device out.new) (32 ∷ word.now) result }
{
    put(out, b" ")?;
    put(out, word)
}

/// Writes the line of `list` for the variable at index `row`: its path, type, size in bits and
/// code. Writes nothing if there is no such row. Fails if a write does.
fn put_list_line<W: Sink>(view: HeadView<'_>, row: usize, out: &mut W) -> Result<(), WriteFailed>
    requires failures { (W.device out.old).failures < 2 ^ 64 - 1 }
    ensures { PutsWhere W.device out.old out.new result (λ takes.
        AtRow view.entry row (λ _ s. takes (list_line s))) }
{
    let Some(variable) = view.row_at(row) else {
        return Ok(());
    };
    let Some(code) = view.code_at(variable.code as usize) else {
        return Ok(());
    };
    let kind = view.type_of(row);
    let bytes = view.code_text(variable.code as usize);
    put_path(view, row, out)?;
    put_word(out, kind)?;
    put(out, b" ")?;
    put_number(out, code.size as u64)?;
    put_word(out, bytes)?;
    put(out, b"\n")
}

/// Writes a line for each variable, in order of declaration: its path, type, size in bits and code.
/// Returns `Done::Whole`. It does not read the body of the dump. Fails with `Stop::Write` if a
/// write failed.
pub fn list<W: Sink>(view: HeadView<'_>, out: &mut W) -> Result<Done, Stop>
    requires failures { (W.device out.old).failures < 2 ^ 64 - 1 }
    requires bound { IsWithinEachBound view no_room }
    ensures takes { TakesHeader view.entry (W.device out.old) (W.device out.new) list_text result }
    ensures counts { Counts (W.device out.old) (W.device out.new) result }
    ensures answer { MatchResult result (λ done. done ≡ Whole) (λ stop. stop ≡ Write) }
{
    for (row, declared) in view.rows.iter().enumerate() {
        if declared.kind == Kind::Var {
            put_list_line(view, row, out)?;
        }
    }
    Ok(Done::Whole)
}
