//! The lines of a comparison.
ghost use Rattle.std.specs.Prelude.{◌≡◌, ◌-◌, ◌^◌, ◌<◌, ◌≤◌, ℕ, List, [], ◌∷◌, Some, IsSomeAnd, cond, codes, flat_map, slice_get, ◌==◌, get_or, length, not, take};
ghost use Rattle.std.specs.List.{AllZip};
ghost use Rattle.vcd_model.specs.Bytes.{is_empty};
ghost use Rattle.vcd_model.specs.Compare.{Asked, Named, Pair, alone_lines, kind_of as kind_of_variable, kind_shown, state_at, unlike_lines, value_line};
ghost use Rattle.vcd_model.specs.Declarations.{Declaration, IdCode, Variable};
ghost use Rattle.vcd_model.specs.Header.{Header};
ghost use Rattle.vcd_model.specs.Items.{BodyItem, time_after};
ghost use Rattle.vcd_model.specs.Sample.{shown};
ghost use Rattle.vcd_model.specs.Within.{Names, side, within_head};
ghost use Rattle.vcd_text.specs.Device.{Counts, PutsWhere, Takes};
ghost use Rattle.vcd_view.specs.Over.{AnyVariable};
ghost use Rattle.vcd_view.specs.Views.{IsViewOf};
ghost use Rattle.vcd_compare.specs.Comparing.{AreCurrent};
ghost use Rattle.vcd_compare.specs.LineTexts.{AreRowLines, AtAlone, AtClass, AtCode, AtPair, AtUnlike, HasCodes, states_of};
ghost use Rattle.vcd_compare.specs.Pairs.{ArePairs, IsClassOf, IsNamedAt, IsShownAt, IsUnlikeAt};
ghost use Rattle.vcd_compare.specs.Slices.{no_blanks, tail_of};

use crate::comparing::Comparison;
use crate::current::Current;
use crate::kinds::{VariableKind, kind_of};
use crate::pairs::{PairRow, Pairs, UnlikeRows};
use crate::slices::tail_of;
use crate::variables::number_at;
use vcd_body::put_full;
use vcd_head::put_path;
use vcd_text::{Sink, WriteFailed, put, put_number};
use vcd_view::HeadView;

/// Writes the state of the code at index `code` at this time, which is not before the last
/// timestamp: its value, or `-` if it has none; for an event `1` if it is triggered, otherwise `-`.
/// Fails if a write does.
fn put_state<W: Sink>(
    current: &Current<'_, '_>,
    view: HeadView<'_>,
    code: usize,
    time: u64,
    out: &mut W,
) -> Result<(), WriteFailed>
    requires failures { (W.device out.old).failures < 2 ^ 64 - 1 }
    ensures { PutsWhere W.device out.old out.new result (λ takes.
        AtCode view.entry current.now code time
        (λ items c. takes (shown (state_at 1 items c time)))) }
{
    if !view.is_event(code) {
        return put_full(view, &current.table, code, out);
    }
    if current.is_triggered(code, time) {
        put(out, b"1")
    } else {
        put(out, b"-")
    }
}

/// Writes the states of the two codes of a class at this time, which is not before the last
/// timestamp, with a blank between, and ends the line. Fails if a write does.
fn put_states<W: Sink>(
    current: &Current<'_, '_>,
    view: HeadView<'_>,
    class: usize,
    time: u64,
    out: &mut W,
) -> Result<(), WriteFailed>
    requires failures { (W.device out.old).failures < 2 ^ 64 - 1 }
    ensures { PutsWhere W.device out.old out.new result (λ takes.
        AtClass view.entry current.now class time (λ items p. takes (states_of items p time))) }
{
    let Some((one, other)) = current.pairs.codes_of(class) else {
        return Ok(());
    };
    put_state(current, view, one, time, out)?;
    put(out, b" ")?;
    put_state(current, view, other, time, out)?;
    put(out, b"\n")
}

/// Writes the path of the variable at index `row`, and its range after it if `ranged` says so.
/// Fails if a write does.
fn put_name<W: Sink>(
    view: HeadView<'_>,
    row: usize,
    ranged: bool,
    out: &mut W,
) -> Result<(), WriteFailed>
    requires failures { (W.device out.old).failures < 2 ^ 64 - 1 }
    ensures { PutsWhere W.device out.old out.new result (λ takes. (h : Header) (name : List ℕ)
        (v : Variable) → IsViewOf view.entry h → IsShownAt h row ranged name v → takes name) }
{
    put_path(view, row, out)?;
    put_without_blanks(shown_tail(view, row, ranged), out)
}

/// Returns what follows the name of the variable at index `row` in its reference if `ranged`
/// says so, otherwise nothing.
fn shown_tail<'a>(view: HeadView<'a>, row: usize, ranged: bool) -> &'a [u8]
    ensures { AnyVariable view.entry row (λ _ v. result.now ≡ cond ranged (tail_of v) []) }
{
    if ranged { tail_of(view, row) } else { &[] }
}

/// Writes the bytes of a text that are no blanks. Fails if a write does.
fn put_without_blanks<W: Sink>(text: &[u8], out: &mut W) -> Result<(), WriteFailed>
    requires failures { (W.device out.old).failures < 2 ^ 64 - 1 }
    ensures { PutsWhere W.device out.old out.new result (λ takes. takes (no_blanks text.now)) }
{
    for byte in text {
        put_no_blank(*byte, out)?;
    }
    Ok(())
}

/// Writes a byte, unless it is a blank. Fails if a write does.
fn put_no_blank<W: Sink>(byte: u8, out: &mut W) -> Result<(), WriteFailed>
    requires failures { (W.device out.old).failures < 2 ^ 64 - 1 }
    ensures { PutsWhere W.device out.old out.new result (λ takes.
        takes (no_blanks (byte ∷ []))) }
{
    if byte == b' ' {
        return Ok(());
    }
    put(out, &[byte])
}

/// Writes the line of a pair at this time, which is not before the last timestamp. Fails if a write
/// does.
fn put_line<W: Sink>(
    current: &Current<'_, '_>,
    view: HeadView<'_>,
    pair: PairRow,
    time: u64,
    out: &mut W,
) -> Result<(), WriteFailed>
    requires failures { (W.device out.old).failures < 2 ^ 64 - 1 }
    ensures { PutsWhere W.device out.old out.new result (λ takes.
        AtPair view.entry current.now pair time (λ items p.
        takes (value_line (side items) (side items) p time))) }
{
    put(out, b"differs ")?;
    put_number(out, time)?;
    put(out, b" ")?;
    put_name(view, pair.row, pair.ranged, out)?;
    put(out, b" ")?;
    put_states(current, view, pair.class, time, out)
}

/// Writes the lines of the first `count` rows that are due, at this time, which is not before the
/// last timestamp. Fails if a write does.
pub(crate) fn put_lines<W: Sink>(
    comparison: &Comparison<'_, '_>,
    view: HeadView<'_>,
    count: usize,
    time: u64,
    out: &mut W,
) -> Result<(), WriteFailed>
    requires failures { (W.device out.old).failures < 2 ^ 64 - 1 }
    requires within { count ≤ length comparison.now.due.now }
    ensures { PutsWhere W.device out.old out.new result (λ takes.
        AreRowLines view.entry comparison.now.current (take count comparison.now.due.now)
        time takes) }
{
    let current = &comparison.current;
    for index in 0..count {
        let row = number_at(comparison.due, index);
        if let Some(pair) = current.pairs.rows.get(row) {
            put_line(current, view, *pair, time, out)?;
        }
    }
    Ok(())
}

/// Writes the line of a variable without a counterpart: `alone`, the letter, and the path. Fails if
/// a write does.
fn put_alone_line<W: Sink>(
    view: HeadView<'_>,
    letter: &[u8],
    row: usize,
    out: &mut W,
) -> Result<(), WriteFailed>
    requires failures { (W.device out.old).failures < 2 ^ 64 - 1 }
    ensures { PutsWhere W.device out.old out.new result (λ takes.
        AtAlone view.entry row (λ v. takes (alone_lines letter.now (v ∷ [])))) }
{
    put(out, b"alone ")?;
    put(out, letter)?;
    put(out, b" ")?;
    put_name(view, row, true, out)?;
    put(out, b"\n")
}

/// Writes a line for each of these variables without a counterpart. Fails if a write does.
fn put_alone<W: Sink>(
    view: HeadView<'_>,
    letter: &[u8],
    rows: &[usize],
    out: &mut W,
) -> Result<(), WriteFailed>
    requires failures { (W.device out.old).failures < 2 ^ 64 - 1 }
    ensures { PutsWhere W.device out.old out.new result (λ takes.
        (h : Header) (vs : List Named) → IsViewOf view.entry h → AllZip (IsNamedAt h) rows.now vs
        → takes (alone_lines letter.now vs)) }
{
    for row in rows {
        put_alone_line(view, letter, *row, out)?;
    }
    Ok(())
}

/// Writes the kind of the variable at index `row`: `event`, `real`, or the size. Fails if a write
/// does.
fn put_kind<W: Sink>(view: HeadView<'_>, row: usize, out: &mut W) -> Result<(), WriteFailed>
    requires failures { (W.device out.old).failures < 2 ^ 64 - 1 }
    ensures { PutsWhere W.device out.old out.new result (λ takes.
        (h : Header) (v : Variable) → IsViewOf view.entry h
        → slice_get h.declarations row ≡ Some (Declaration.Var v)
        → takes (kind_shown (kind_of_variable v))) }
{
    match kind_of(view, row) {
        VariableKind::Event => put(out, b"event"),
        VariableKind::Real => put(out, b"real"),
        VariableKind::Digits(size) => put_number(out, size as u64),
    }
}

/// Writes the line of two variables of different kinds. Fails if a write does.
fn put_unlike_line<W: Sink>(
    view: HeadView<'_>,
    rows: UnlikeRows,
    out: &mut W,
) -> Result<(), WriteFailed>
    requires failures { (W.device out.old).failures < 2 ^ 64 - 1 }
    ensures { PutsWhere W.device out.old out.new result (λ takes.
        AtUnlike view.entry rows (λ p. takes (unlike_lines (p ∷ [])))) }
{
    put(out, b"size ")?;
    put_name(view, rows.one, rows.ranged, out)?;
    put(out, b" ")?;
    put_kind(view, rows.one, out)?;
    put(out, b" ")?;
    put_kind(view, rows.other, out)?;
    put(out, b"\n")
}

/// Writes a line for each of these pairs of variables, which are of different kinds. Fails if a
/// write does.
fn put_unlike<W: Sink>(
    view: HeadView<'_>,
    rows: &[UnlikeRows],
    out: &mut W,
) -> Result<(), WriteFailed>
    requires failures { (W.device out.old).failures < 2 ^ 64 - 1 }
    ensures { PutsWhere W.device out.old out.new result (λ takes.
        (h : Header) (ps : List Pair) → IsViewOf view.entry h → AllZip (IsUnlikeAt h) rows.now ps
        → takes (unlike_lines ps)) }
{
    for unlike in rows {
        put_unlike_line(view, *unlike, out)?;
    }
    Ok(())
}

/// Writes the lines about the header: of the variables without a counterpart, and of those whose
/// counterpart is of another kind. Fails if a write does.
pub(crate) fn put_header_lines<W: Sink>(
    view: HeadView<'_>,
    pairs: &Pairs,
    out: &mut W,
) -> Result<(), WriteFailed>
    requires failures { (W.device out.old).failures < 2 ^ 64 - 1 }
    ensures { PutsWhere W.device out.old out.new result (λ takes.
        (h : Header) (q : Asked) (ns : List Names) → IsViewOf view.entry h
        → ArePairs pairs.now h q ns → takes (within_head q h ns)) }
{
    put_alone(view, b"A", &pairs.alone_one, out)?;
    put_alone(view, b"B", &pairs.alone_other, out)?;
    put_unlike(view, &pairs.unlike, out)
}

/// Returns whether there are lines about the header.
pub(crate) fn has_header_lines(pairs: &Pairs) -> bool
    ensures { (h : Header) (q : Asked) (ns : List Names) → ArePairs pairs.now h q ns
        → result ≡ not (is_empty (within_head q h ns)) }
{
    !(pairs.alone_one.is_empty() && pairs.alone_other.is_empty() && pairs.unlike.is_empty())
}
