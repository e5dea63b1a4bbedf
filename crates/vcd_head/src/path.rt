//! Paths of variables.
ghost use Rattle.std.specs.Prelude.{◌-◌, ◌^◌, ◌<◌, take};
ghost use Rattle.vcd_head.specs.Names.{AnyRow, Counts, PutsWhere, TakesRow, path_of, scopes_text};

use crate::enclosing::Enclosing;
use vcd_text::{Sink, WriteFailed, put};
use vcd_view::HeadView;

/// Writes the names of the scopes around the declaration with index `row`, outermost first, each
/// with a dot after it. If a write fails, a prefix was written.
fn put_scopes<W: Sink>(view: HeadView<'_>, row: usize, w: &mut W) -> Result<(), WriteFailed>
    requires failures { (W.device w.old).failures < 2 ^ 64 - 1 }
    ensures { PutsWhere W.device w.old w.new result (λ takes.
        AnyRow view.entry row (λ h. takes (scopes_text (take row h.declarations)))) }
{
    let mut scopes = Enclosing::new(row);
    while let Some(scope) = scopes.next(view) {
        put(w, view.name_of(scope))?;
        put(w, b".")?;
    }
    Ok(())
}

/// Writes the path of the declaration with index `row`, such as `tb.cpu.clk`: the names of the
/// scopes around it, outermost first, and its own (the first token of its reference), with dots
/// between. Writes nothing if there is no such row. If a write fails, a prefix was written. It
/// takes little more than 1 KB of stack, however many scopes there are.
pub fn put_path<W: Sink>(view: HeadView<'_>, row: usize, w: &mut W) -> Result<(), WriteFailed>
    requires failures { (W.device w.old).failures < 2 ^ 64 - 1 }
    ensures takes { TakesRow view.entry row (W.device w.old) (W.device w.new)
        (λ h. path_of (take row h.declarations)) result }
    ensures counts { Counts (W.device w.old) (W.device w.new) result }
{
    put_scopes(view, row, w)?;
    put(w, view.name_of(row))
}
