//! Flags that lead from one row with a line in a sample to the next, so that a time needs no look
//! at the rows without a line.
ghost use Rattle.std.specs.Prelude.{◌≡◌, ◌≢◌, ◌<◌, ◌≤◌, ℕ, List, length, get_or, MatchBool};
ghost use Rattle.vcd_engine.specs.Names.{HaveNoLine, Header, IsSelectedAt, IsViewOf, LeadOn, marks_of, rows_on};

use vcd_view::{HeadView, Kind};

/// Returns whether `sample` writes a line for the declaration at index `row`, which must exist:
/// `flag`, its mark, is 1 (selected), and it is a variable that is no event.
fn has_line(view: HeadView<'_>, row: usize, flag: u8) -> bool
    requires { row < length view.rows.now }
    ensures { (h : Header) (names : List (List ℕ)) → IsViewOf view.entry h
        → get_or (marks_of names h.declarations) row 0 ≡ flag → MatchBool result
        (IsSelectedAt names h.declarations row) (HaveNoLine names h.declarations row 1) }
{
    let declared = &view.rows[row];
    match declared.kind {
        Kind::Var => flag == 1 && !view.is_event(declared.code as usize),
        Kind::Scope | Kind::Up => false,
    }
}

/// Returns the flag of the first of `count` rows without a line: 2 + log2(`count`), rounded down.
/// For it `rows_on` returns how many rows to skip: more than half of them. `count` is 1 or more.
fn flag_over(count: usize) -> u8
    requires { 0 < count }
    ensures other { result ≢ 1 }
    ensures within { rows_on result ≤ count }
{
    2 + count.ilog2() as u8
}

/// Returns how many rows it is from a row with this flag to the next one to look at: a power of
/// two, which is 1 for the flags 0 to 2.
pub(crate) fn rows_on(flag: u8) -> usize
    ensures passes { result ≡ rows_on flag }
    ensures some { 0 < result }
{
    1 << flag.saturating_sub(2).min(63)
}

/// Turns `marks`, which has one byte for each row, 1 for each selected one, into flags by which
/// `sample` goes from row to row. The flag of a selected variable is 1, unless it is an event:
/// `sample` writes a line for it. For the flag of any other row, `rows_on` returns how many rows
/// may be skipped, this one included: none of them has a line.
// If `sample` looked at each row, its time would grow with the product of rows and times.
pub(crate) fn lead_on(view: HeadView<'_>, marks: &mut [u8])
    requires { length marks.old ≡ length view.rows.now }
    ensures leads { (h : Header) (names : List (List ℕ)) → IsViewOf view.entry h
        → marks.old ≡ marks_of names h.declarations → LeadOn names h.declarations marks.new }
    ensures len { length marks.new ≡ length marks.old }
{
    let mut row = marks.len();
    let mut without = 0;
    while row > 0 {
        row -= 1;
        if has_line(view, row, marks[row]) {
            without = 0;
        } else {
            without += 1;
            marks[row] = flag_over(without);
        }
    }
}
