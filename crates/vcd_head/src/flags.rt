//! Marks of rows and flags of codes, a byte each: which codes the marked variables have.
ghost use Rattle.std.specs.Prelude.{◌≡◌, ℕ, ◌≤◌, List, length};
ghost use Rattle.vcd_head.specs.Names.{AreFlags, Header, IsViewOf, is_marked, marks_of};

use vcd_view::{HeadView, Kind};

/// Returns whether the mark of a row, or the flag of a code, is 1. It is not if there is none at
/// this index.
#[inline]
pub fn is_marked(marks: &[u8], index: usize) -> bool
    ensures { result ≡ is_marked marks.now index }
{
    marks.get(index).copied().unwrap_or(0) == 1
}

/// Sets `flags`, at least one byte for each code: to 1 for the codes of the marked variables (those
/// with 1 in `marks`, one byte for each row), and to 0 for all others.
pub fn flag_codes(view: HeadView<'_>, marks: &[u8], flags: &mut [u8])
    requires codes { length view.codes.now ≤ length flags.old }
    ensures len { length flags.new ≡ length flags.old }
    ensures flags { (h : Header) (names : List (List ℕ)) → IsViewOf view.entry h
        → marks.now ≡ marks_of names h.declarations → AreFlags h names flags.new }
{
    flags.fill(0);
    for (row, mark) in view.rows.iter().zip(marks) {
        let code = row.code as usize;
        if row.kind == Kind::Var && *mark == 1 && code < view.codes.len() {
            flags[code] = 1;
        }
    }
}
