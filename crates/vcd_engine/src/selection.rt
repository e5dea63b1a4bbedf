//! The variables that names select: a mark for each row, and a flag for each code.
ghost use Rattle.std.specs.Prelude.{◌≡◌, ◌≤◌, length, map, string_bytes, MatchResult};
ghost use Rattle.vcd_engine.specs.Names.{AreSelected, Header, IsFirstUnmatched, IsUnmatched, IsViewOf};

use vcd_body::Stop;
use vcd_head::{flag_codes, select};
use vcd_view::HeadView;

/// Selects variables by these names (all if there are no names): sets `marks`, one byte for each
/// row, to 1 for these variables and the scopes around them and to 0 for all other rows, and
/// `flags`, at least one byte for each code, to 1 for their codes and to 0 for all others. Fails
/// with `Stop::Unmatched` at the first name that selects nothing; then `marks` and `flags` may have
/// any values.
pub(crate) fn select_codes(
    view: HeadView<'_>,
    names: &[String],
    marks: &mut [u8],
    flags: &mut [u8],
) -> Result<(), Stop>
    requires marks { length marks.old ≡ length view.rows.now }
    requires codes { length view.codes.now ≤ length flags.old }
    ensures selects { (h : Header) → IsViewOf view.entry h
        → MatchResult result (λ _. AreSelected (map string_bytes names.now) h marks.new flags.new)
        (IsFirstUnmatched (map string_bytes names.now) h) }
    ensures answer { MatchResult result (λ _. length flags.new ≡ length flags.old) IsUnmatched }
{
    if let Err(name) = select(view, names, marks) {
        return Err(Stop::Unmatched { name });
    }
    flag_codes(view, marks, flags);
    Ok(())
}
