//! The items that lie completely in the chunk.
ghost use Rattle.std.specs.Prelude.{◌≡◌, false};
ghost use Rattle.vcd_strobe.specs.Ahead.{IsReady, StrobesOne};

use crate::whole::Strobe;
use vcd_body::{Item, Regs, ScannedItem, Visit};
use vcd_text::{Sink, WriteFailed};
use vcd_view::HeadView;

/// The visit of a strobe: it handles each item as it comes.
// Against taking none ahead it saves 23 % of the instructions over 89 scalars and a vector.
#[derive(Clone, Copy)]
pub(crate) struct EachItem;

impl<'r> Visit<Strobe<'r>> for EachItem {
    ghost stands = { λ visit strobe bytes regs. IsReady visit strobe bytes regs };

    ghost takes = { λ view s t result. StrobesOne view s t result };

    ghost stops_before = { λ _ _ _. false };

    ghost over = { λ _. false };

    /// Returns false: no item is left to the caller.
    #[inline(always)]
    fn ends_before(&self, _strobe: &Strobe<'r>, _time: u64) -> bool {
        false
    }

    /// Returns false: no item ends such a walk.
    #[inline(always)]
    fn is_over(&self) -> bool
        ensures { result ≡ false }
    {
        false
    }

    /// Does nothing.
    #[inline(always)]
    fn take_timestamp(
        &mut self,
        _strobe: &mut Strobe<'r>,
        _view: HeadView<'_>,
        _regs: Regs,
        _time: u64,
        _timestamp: ScannedItem<'_>,
    ) {}

    /// Handles the change, and writes the lines of the edge that it is, if it is one. Fails if a
    /// write does.
    #[inline(always)]
    fn take_change<W: Sink>(
        &mut self,
        strobe: &mut Strobe<'r>,
        view: HeadView<'_>,
        regs: Regs,
        change: ScannedItem<'_>,
        out: &mut W,
    ) -> Result<(), WriteFailed> {
        let Item::Change { code, form } = change.item else {
            return Ok(());
        };
        strobe.take_any(view, regs, code, form, change.text, out)
    }

    /// Does nothing, and never fails.
    #[inline(always)]
    fn take_section<W: Sink>(
        &mut self,
        _strobe: &mut Strobe<'r>,
        _view: HeadView<'_>,
        _before: Regs,
        _after: Regs,
        _section: ScannedItem<'_>,
        _out: &mut W,
    ) -> Result<(), WriteFailed> {
        Ok(())
    }
}
