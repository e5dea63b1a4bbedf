//! A strobe as a task.
ghost use Rattle.std.specs.Prelude.{◌≡◌, ◌-◌, ◌^◌, ◌<◌, ◌≤◌, IfOk, List, false, length};
ghost use Rattle.vcd_model.specs.Strobe.{edges_in};
ghost use Rattle.vcd_body.specs.Given.{IsGoodText};
ghost use Rattle.vcd_text.specs.Device.{Counts};
ghost use Rattle.vcd_view.specs.declared.view.HeadView.{HeadView};
ghost use Rattle.vcd_strobe.specs.Clocks.{clocks_shown};
ghost use Rattle.vcd_strobe.specs.declared.clocks.Clock.{Clock};
ghost use Rattle.vcd_strobe.specs.Strobes.{HasStrobed, SameStrobe, TakesAny};

use crate::ahead::EachItem;
use crate::whole::Strobe;
use vcd_body::{Form, Item, Regs, walk_ahead};
use vcd_run::{AheadEnd, Task};
use vcd_text::{Ahead, Sink, WriteFailed};
use vcd_view::HeadView;

impl Strobe<'_> {
    /// Handles a change of the code at index `code` of the header of `view`. `regs` are the
    /// registers. Fails if a write does.
    #[inline(always)]
    pub(crate) fn take_any<W: Sink>(
        &mut self,
        view: HeadView<'_>,
        regs: Regs,
        code: usize,
        form: Form,
        text: &[u8],
        out: &mut W,
    ) -> Result<(), WriteFailed>
        requires failures { (W.device out.old).failures < 2 ^ 64 - 1 }
        requires count { self.old.count ≤ length self.old.listed.now }
        requires sound { IsGoodText view.codes.now code form text.now }
        ensures takes { TakesAny view.entry self.old self.new regs code form text.now
            (W.device out.old) (W.device out.new) result }
        ensures counts { Counts (W.device out.old) (W.device out.new) result }
        ensures same { SameStrobe self.old self.new }
        ensures count { IfOk result (λ _. self.new.count ≤ length self.new.listed.now) }
    {
        let Some(role) = self.role(code) else {
            return Ok(());
        };
        if !role.is_followed() {
            return Ok(());
        }
        if !view.is_event(code) {
            return self.take_value(regs, code, form, text, out);
        }
        if regs.section.is_some() {
            return Ok(());
        }
        self.trigger(code, regs.time);
        Ok(())
    }
}

impl Task for Strobe<'_> {
    ghost keeps = { λ strobe plan h items. HasStrobed strobe plan h items };

    ghost tells = { λ strobe items _. strobe.edges
        ≡ length (edges_in (clocks_shown strobe.places strobe.clocks.now) items) };

    ghost is_ready = { λ strobe. strobe.count ≤ length strobe.listed.now };

    ghost Fixed = { HeadView × List Clock };

    ghost fixed = { λ strobe. (strobe.places, strobe.clocks.now) };

    ghost may_end = { λ _. false };

    /// Handles the items that lie completely in the chunk. Fails if a write does.
    fn take_ahead<W: Sink>(
        &mut self,
        view: HeadView<'_>,
        regs: Regs,
        ahead: Ahead<'_>,
        out: &mut W,
    ) -> AheadEnd {
        let walked = walk_ahead(self, EachItem, view, regs, ahead, out);
        AheadEnd {
            passed: walked.ahead.passed(),
            regs: walked.regs,
            written: walked.written(),
        }
    }

    /// Handles an item, and writes the lines of the edge that it is, if it is one. No item ends the
    /// run. Fails if a write does.
    fn take<W: Sink>(
        &mut self,
        view: HeadView<'_>,
        regs: Regs,
        item: Item,
        text: &[u8],
        out: &mut W,
    ) -> Result<bool, WriteFailed> {
        match item {
            Item::Change { code, form } => {
                self.take_any(view, regs, code, form, text, out)?;
                Ok(false)
            }
            Item::Time(_) | Item::Begin(_) | Item::End | Item::Finish => Ok(false),
        }
    }

    /// Writes nothing.
    fn close<W: Sink>(
        &mut self,
        _view: HeadView<'_>,
        _regs: Regs,
        _out: &mut W,
    ) -> Result<(), WriteFailed> {
        Ok(())
    }
}
