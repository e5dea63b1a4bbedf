//! The length of the longest code.
ghost use Rattle.std.specs.Prelude.{◌≡◌};
ghost use Rattle.vcd_model.specs.Header.{Header};
ghost use Rattle.vcd_view.specs.Views.{IsViewOf};
ghost use Rattle.vcd_strobe.specs.Codes.{longest_text};

use vcd_view::HeadView;

/// Returns the length of the longest code in bytes; 0 if there is no code. The code of the time of
/// an edge is one byte longer: that many `!`.
pub fn longest_code(view: HeadView<'_>) -> usize
    ensures { (h : Header) → IsViewOf view.entry h → result ≡ longest_text h.codes }
{
    let mut longest = 0;
    for code in view.codes {
        longest = usize::max(longest, code.len as usize);
    }
    longest
}
