//! Headers as they are written.
ghost use Rattle.std.specs.Prelude.{◌≡◌, ℕ, ◌-◌, ◌^◌, ◌<◌, List, [], ◌∷◌, flat_map, take, option_map, unwrap_or};
ghost use Rattle.vcd_head.specs.Names.{AnyDeclared, AnyHeader, AnyVariable, Counts, Header, IsViewOf, Keyword, PutsTo, PutsWhere, Takes, TakesHeader, enclosing, head_for, head_text, is_marked, keyword_text, marks_of, parent, reference_of, row_line, rows_text, scale_text, scope_line, three_lines, three_lines_of, type_of, up_lines_at, var_line};

use crate::flags::is_marked;
use vcd_text::{Sink, WriteFailed, put, put_number};
use vcd_view::{HeadView, Kind, Scale};

/// Writes these texts one after the other. If a write fails, a prefix was written.
fn put_texts<W: Sink>(w: &mut W, texts: &[&[u8]]) -> Result<(), WriteFailed>
    requires failures { (W.device w.old).failures < 2 ^ 64 - 1 }
    ensures { PutsTo W.device w.old w.new (flat_map (λ text. text.now) texts.now) result }
{
    for text in texts {
        put(w, text)?;
    }
    Ok(())
}

/// Writes a keyword, a text and `$end`, each on a line of its own. If a write fails, a prefix was
/// written.
pub(crate) fn put_phrase<W: Sink>(w: &mut W, keyword: &[u8], text: &[u8]) -> Result<(), WriteFailed>
    requires failures { (W.device w.old).failures < 2 ^ 64 - 1 }
    ensures { PutsWhere W.device w.old w.new result (λ takes. (k : Keyword)
        → keyword.now ≡ keyword_text k → takes (three_lines k text.now)) }
{
    put_texts(w, &[keyword, b"\n\t", text, b"\n$end\n"])
}

/// Writes a keyword, a text and `$end`, each on a line of its own, or nothing if the text is empty.
/// If a write fails, a prefix was written.
fn put_optional_phrase<W: Sink>(w: &mut W, keyword: &[u8], text: &[u8]) -> Result<(), WriteFailed>
    requires failures { (W.device w.old).failures < 2 ^ 64 - 1 }
    ensures { PutsWhere W.device w.old w.new result (λ takes. (k : Keyword)
        → keyword.now ≡ keyword_text k → takes (three_lines_of k text.now)) }
{
    if text.is_empty() {
        return Ok(());
    }
    put_phrase(w, keyword, text)
}

/// Returns the time scale whose power of ten in seconds is `exponent`, as a header has it (`10ns`
/// for -8). It is empty if no time scale has this exponent.
pub(crate) fn text_of_exponent(exponent: i8) -> &'static [u8]
    ensures { result.now ≡ scale_text exponent }
{
    match exponent {
        2 => b"100s",
        1 => b"10s",
        0 => b"1s",
        -1 => b"100ms",
        -2 => b"10ms",
        -3 => b"1ms",
        -4 => b"100us",
        -5 => b"10us",
        -6 => b"1us",
        -7 => b"100ns",
        -8 => b"10ns",
        -9 => b"1ns",
        -10 => b"100ps",
        -11 => b"10ps",
        -12 => b"1ps",
        -13 => b"100fs",
        -14 => b"10fs",
        -15 => b"1fs",
        _ => b"",
    }
}

/// Returns a time scale as a header has it, such as `10ns`. It is empty for `None`.
fn text_of_scale(scale: Option<Scale>) -> &'static [u8]
    ensures { result.now ≡ unwrap_or
        (option_map scale_text (option_map (λ x. x.exponent) scale)) [] }
{
    match scale {
        Some(scale) => text_of_exponent(scale.exponent),
        None => &[],
    }
}

/// Writes the `$scope` line of the scope at index `row`. Fails if the write fails.
pub(crate) fn put_scope_line<W: Sink>(
    view: HeadView<'_>,
    row: usize,
    w: &mut W,
) -> Result<(), WriteFailed>
    requires failures { (W.device w.old).failures < 2 ^ 64 - 1 }
    ensures { PutsWhere W.device w.old w.new result (λ takes. AnyDeclared view.entry row (λ _ d.
        takes (scope_line (type_of d) (reference_of d)))) }
{
    let type_text = view.type_of(row);
    let name = view.reference_of(row);
    put_texts(w, &[b"$scope ", type_text, b" ", name, b" $end\n"])
}

/// Writes the `$var` line of the variable at index `row`, with `code` instead of its own code. If
/// there is no such row, it writes nothing. Fails if the write fails.
pub(crate) fn put_var_line<W: Sink>(
    view: HeadView<'_>,
    row: usize,
    code: &[u8],
    w: &mut W,
) -> Result<(), WriteFailed>
    requires failures { (W.device w.old).failures < 2 ^ 64 - 1 }
    ensures { PutsWhere W.device w.old w.new result (λ takes. AnyVariable view.entry row (λ _ v.
        takes (var_line v code.now))) }
{
    let Some(declared) = view.row_at(row) else {
        return Ok(());
    };
    let Some(own) = view.code_at(declared.code as usize) else {
        return Ok(());
    };
    let type_text = view.type_of(row);
    let reference = view.reference_of(row);
    put_texts(w, &[b"$var ", type_text, b" "])?;
    put_number(w, own.size as u64)?;
    put_texts(w, &[b" ", code, b" ", reference, b" $end\n"])
}

/// Writes an `$upscope` line if the row at index `scope`, the scope that it closes, is marked (has
/// 1 in `marks`). Otherwise it writes nothing. Fails if the write fails.
fn put_up_line<W: Sink>(marks: &[u8], scope: usize, w: &mut W) -> Result<(), WriteFailed>
    requires failures { (W.device w.old).failures < 2 ^ 64 - 1 }
    ensures { PutsTo W.device w.old w.new (up_lines_at (is_marked marks.now) (scope ∷ [])) result }
{
    if is_marked(marks, scope) {
        return put(w, b"$upscope $end\n");
    }
    Ok(())
}

/// Writes the line of the declaration at index `row`: of a scope or a variable if it is marked (has
/// 1 in `marks`), and of an `$upscope` if the scope that it closes is marked. Otherwise it writes
/// nothing. A variable keeps its code. Fails if the write fails.
fn put_marked_row<W: Sink>(
    view: HeadView<'_>,
    marks: &[u8],
    row: usize,
    w: &mut W,
) -> Result<(), WriteFailed>
    requires failures { (W.device w.old).failures < 2 ^ 64 - 1 }
    ensures { PutsWhere W.device w.old w.new result (λ takes. AnyDeclared view.entry row (λ h d.
        takes (row_line (λ code. code) (is_marked marks.now) (take row h.declarations) d))) }
{
    let Some(declared) = view.row_at(row) else {
        return Ok(());
    };
    match declared.kind {
        Kind::Up => match view.scope_of(row) {
            Some(scope) => put_up_line(marks, scope, w),
            None => Ok(()),
        },
        Kind::Scope if is_marked(marks, row) => put_scope_line(view, row, w),
        Kind::Var if is_marked(marks, row) => {
            put_var_line(view, row, view.code_text(declared.code as usize), w)
        }
        _ => Ok(()),
    }
}

/// Returns the index of the row of the innermost scope that is still open at the end of the header.
/// `None` if none is open.
fn innermost_open_scope(view: HeadView<'_>) -> Option<usize>
    ensures { (h : Header) → IsViewOf view.entry h → result ≡ parent h.declarations }
{
    let last = view.rows.len().checked_sub(1)?;
    match view.rows[last].kind {
        Kind::Scope => Some(last),
        Kind::Up => view.scope_of(view.scope_of(last)?),
        Kind::Var => view.scope_of(last),
    }
}

/// Writes an `$upscope` line for each marked scope (one with 1 in `marks`) that is still open at
/// the end of the header. If a write fails, a prefix was written.
fn put_ups_at_end<W: Sink>(view: HeadView<'_>, marks: &[u8], w: &mut W) -> Result<(), WriteFailed>
    requires failures { (W.device w.old).failures < 2 ^ 64 - 1 }
    ensures { PutsWhere W.device w.old w.new result (λ takes. AnyHeader view.entry (λ h.
        takes (up_lines_at (is_marked marks.now) (enclosing h.declarations)))) }
{
    let mut next = innermost_open_scope(view);
    while let Some(scope) = next {
        put_up_line(marks, scope, w)?;
        next = view.scope_of(scope);
    }
    Ok(())
}

/// Writes the lines of the marked declarations, in order: those with 1 in `marks`, which has one
/// byte for each row. Each marked scope gets its `$upscope` where it closes in the header, or at
/// the end if it is still open there. If a write fails, a prefix was written.
fn put_declarations<W: Sink>(view: HeadView<'_>, marks: &[u8], w: &mut W) -> Result<(), WriteFailed>
    requires failures { (W.device w.old).failures < 2 ^ 64 - 1 }
    ensures { PutsWhere W.device w.old w.new result (λ takes. AnyHeader view.entry (λ h.
        takes (rows_text (λ code. code) (is_marked marks.now) h.declarations))) }
{
    for row in 0..view.rows.len() {
        put_marked_row(view, marks, row, w)?;
    }
    put_ups_at_end(view, marks, w)
}

/// Writes the header of the marked declarations: date, version and time scale if there are some,
/// the marked scopes and variables in order, an `$upscope` for each marked scope, and
/// `$enddefinitions`. A declaration is marked if the byte of its row in `marks` is 1. If a write
/// fails, a prefix was written.
pub fn put_head<W: Sink>(view: HeadView<'_>, marks: &[u8], w: &mut W) -> Result<(), WriteFailed>
    requires failures { (W.device w.old).failures < 2 ^ 64 - 1 }
    ensures takes { TakesHeader view.entry (W.device w.old) (W.device w.new)
        (λ h. head_text h (is_marked marks.now)) result }

    // If names gave the marks, this is the header for these names.
    ensures selected { (h : Header) (names : List (List ℕ)) → IsViewOf view.entry h
        → marks.now ≡ marks_of names h.declarations
        → Takes (W.device w.old) (W.device w.new) (head_for h names) result }
    ensures counts { Counts (W.device w.old) (W.device w.new) result }
{
    put_optional_phrase(w, b"$date", view.date)?;
    put_optional_phrase(w, b"$version", view.version)?;
    put_optional_phrase(w, b"$timescale", text_of_scale(view.scale))?;
    put_declarations(view, marks, w)?;
    put(w, b"$enddefinitions $end\n")
}
