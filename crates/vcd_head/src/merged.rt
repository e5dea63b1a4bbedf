//! The head of a merged dump.
ghost use Rattle.std.specs.Prelude.{◌≡◌, ℕ, ◌+◌, ◌-◌, ◌^◌, ◌<◌, ◌≤◌, List, length, take, flat_map};
ghost use Rattle.vcd_head.specs.Names.{AnyDeclared, AnyHeader, AnyRow, Counts, FitNumbers, Header, IsViewOf, IsPast, PutsTo, PutsWhere, ShowHeaders, Takes, closing, concat, due, each, enclosing, first_number, input_head, input_rows, least_exponent as least_of, merged_head, openings, up_line};

use crate::enclosing::Enclosing;
use crate::head::Head;
use crate::write::{put_phrase, put_scope_line, put_var_line, text_of_exponent};
use vcd_text::{Sink, WriteFailed, put, put_number};
use vcd_view::{HeadView, Kind, NewCode};

/// Returns the least power of ten, in seconds, of the time scales of these headers. A header
/// without a time scale counts as 1 s. The result is 0 if there is no header.
pub fn least_exponent(heads: &[Head]) -> i8
    ensures { (hs : List Header) → ShowHeaders heads.now hs → result ≡ least_of hs }
{
    let mut least: Option<i8> = None;
    for head in heads {
        let exponent = head.view().exponent();
        least = Some(match least {
            Some(other) => other.min(exponent),
            None => exponent,
        });
    }
    least.unwrap_or(0)
}

// The scopes that are open at a row of an input. The line that opens a scope is written at the
// first variable inside it, so each is written at most once, and only if it has a variable.
#[derive(Clone, Copy)]
pub(crate) struct OpenScopes {
    // How many scopes, the innermost, are not written yet.
    pub(crate) pending: usize,
    // How many scopes, the others, are written.
    pub(crate) written: usize,
}

impl OpenScopes {
    /// Changes the counts of open scopes by a row of this kind: a scope opens, a scope closes, or a
    /// variable has caused the lines of all open scopes to be written.
    fn pass_row(&mut self, kind: Kind)
        ensures { IsPast kind self.old.pending self.old.written self.new.pending self.new.written }
    {
        match kind {
            Kind::Scope => self.pending = self.pending.saturating_add(1),
            Kind::Up if self.pending > 0 => self.pending -= 1,
            Kind::Up => self.written = self.written.saturating_sub(1),
            Kind::Var => {
                self.written = self.written.saturating_add(self.pending);
                self.pending = 0;
            }
        }
    }
}

/// Writes the `$scope` lines of the innermost `count` scopes around the declaration at index `row`,
/// outermost first. If a write fails, a prefix was written.
fn put_openings<W: Sink>(
    view: HeadView<'_>,
    row: usize,
    count: usize,
    w: &mut W,
) -> Result<(), WriteFailed>
    requires failures { (W.device w.old).failures < 2 ^ 64 - 1 }
    ensures { PutsWhere W.device w.old w.new result (λ takes. AnyRow view.entry row (λ h.
        takes (openings h.declarations (take count (enclosing (take row h.declarations)))))) }
{
    let mut scopes = Enclosing::innermost(row, count);
    while let Some(scope) = scopes.next(view) {
        put_scope_line(view, scope, w)?;
    }
    Ok(())
}

/// Writes an `$upscope` line if the `$scope` line of the innermost of these open scopes was
/// written. Otherwise it writes nothing. Fails if the write fails.
fn put_closing<W: Sink>(scopes: OpenScopes, w: &mut W) -> Result<(), WriteFailed>
    requires failures { (W.device w.old).failures < 2 ^ 64 - 1 }
    ensures { PutsTo W.device w.old w.new (closing scopes.pending scopes.written) result }
{
    if scopes.pending > 0 || scopes.written == 0 {
        return Ok(());
    }
    put(w, b"$upscope $end\n")
}

/// Writes this many `$upscope` lines. If a write fails, a prefix was written.
fn put_closings<W: Sink>(count: usize, w: &mut W) -> Result<(), WriteFailed>
    requires failures { (W.device w.old).failures < 2 ^ 64 - 1 }
    ensures { PutsWhere W.device w.old w.new result (λ takes. (scopes : List ℕ)
        → length scopes ≡ count → takes (flat_map (λ scope. up_line) scopes)) }
{
    'scopes: for _ in 0..count {
        put(w, b"$upscope $end\n")?;
    }
    Ok(())
}

/// Writes the lines that a merged header has for the declaration at index `row` of an input. For a
/// variable: the `$scope` lines of the scopes around it that are not written yet, and its own line
/// with a new code; `first` is the number of the first new code of the input. For an `$upscope`:
/// its line, if that of its scope was written. For a scope, and if there is no such row, nothing.
/// `scopes` says which scopes are open before the row. If a write fails, a prefix was written.
fn put_input_row<W: Sink>(
    view: HeadView<'_>,
    row: usize,
    first: u64,
    scopes: OpenScopes,
    w: &mut W,
) -> Result<(), WriteFailed>
    requires failures { (W.device w.old).failures < 2 ^ 64 - 1 }
    ensures { PutsWhere W.device w.old w.new result (λ takes. AnyDeclared view.entry row (λ h d.
        FitNumbers first h
        → takes (due h first scopes.pending scopes.written (take row h.declarations) d))) }
{
    let Some(declared) = view.row_at(row) else {
        return Ok(());
    };
    match declared.kind {
        Kind::Scope => Ok(()),
        Kind::Up => put_closing(scopes, w),
        Kind::Var => {
            put_openings(view, row, scopes.pending, w)?;
            let id = NewCode::of(first.saturating_add(declared.code as u64));
            put_var_line(view, row, id.text(), w)
        }
    }
}

/// Writes the lines that a merged header has for all variables of an input and for the scopes
/// around these. The code at index k of the input becomes the new code with the number `first` + k.
/// If a write fails, a prefix was written.
fn put_input_rows<W: Sink>(view: HeadView<'_>, first: u64, w: &mut W) -> Result<(), WriteFailed>
    requires failures { (W.device w.old).failures < 2 ^ 64 - 1 }
    ensures { PutsWhere W.device w.old w.new result (λ takes.
        AnyHeader view.entry (λ h. FitNumbers first h → takes (input_rows first h))) }
{
    let mut scopes = OpenScopes {
        pending: 0,
        written: 0,
    };
    for row in 0..view.rows.len() {
        put_input_row(view, row, first, scopes, w)?;
        scopes.pass_row(view.rows[row].kind);
    }
    put_closings(scopes.written, w)
}

/// Writes what the header of a merged dump has for one input: a scope `in1`, `in2`, .. with the
/// input's `number`, counted from 1, and in it the input's variables and the scopes around these;
/// scopes without variables are left out. The code at index k of the input becomes the new code
/// with the number `first` + k. If a write fails, a prefix was written.
fn put_input_head<W: Sink>(
    view: HeadView<'_>,
    number: u64,
    first: u64,
    w: &mut W,
) -> Result<(), WriteFailed>
    requires failures { (W.device w.old).failures < 2 ^ 64 - 1 }
    ensures { PutsWhere W.device w.old w.new result (λ takes. (earlier : List Header) (h : Header)
        → IsViewOf view.entry h → number ≡ length earlier + 1 → first ≡ first_number earlier
        → FitNumbers first h → takes (input_head earlier h)) }
{
    put(w, b"$scope module in")?;
    put_number(w, number)?;
    put(w, b" $end\n")?;
    put_input_rows(view, first, w)?;
    put(w, b"$upscope $end\n")
}

/// Writes what the header of a merged dump has for each input, at most 64, in order. The new codes
/// are numbered from 0 on, those of an input after those of the inputs before it. If a write fails,
/// a prefix was written.
fn put_input_heads<W: Sink>(heads: &[Head], w: &mut W) -> Result<(), WriteFailed>
    requires heads { length heads.now ≤ 64 }
    requires failures { (W.device w.old).failures < 2 ^ 64 - 1 }
    ensures { PutsWhere W.device w.old w.new result (λ takes. (hs : List Header)
        → ShowHeaders heads.now hs → takes (concat (each input_head hs))) }
{
    let mut first: u64 = 0;
    for (position, head) in heads.iter().enumerate() {
        let view = head.view();
        put_input_head(view, position as u64 + 1, first, w)?;
        first = first.saturating_add(view.codes.len() as u64);
    }
    Ok(())
}

/// Writes the header of the dump that a merge of inputs with these headers makes, at most 64: the
/// least of their time scales, for each input a scope with its variables and the scopes around
/// these, and `$enddefinitions`. The codes are new ones, in the order of the inputs. If a write
/// fails, a prefix was written.
pub fn put_merged_head<W: Sink>(heads: &[Head], w: &mut W) -> Result<(), WriteFailed>
    requires heads { length heads.now ≤ 64 }
    requires failures { (W.device w.old).failures < 2 ^ 64 - 1 }
    ensures takes { (hs : List Header) → ShowHeaders heads.now hs
        → Takes (W.device w.old) (W.device w.new) (merged_head hs) result }
    ensures counts { Counts (W.device w.old) (W.device w.new) result }
{
    put_phrase(w, b"$timescale", text_of_exponent(least_exponent(heads)))?;
    put_input_heads(heads, w)?;
    put(w, b"$enddefinitions $end\n")
}
