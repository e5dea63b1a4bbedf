//! A task that ends at the first timestamp above a time, and writes nothing.
ghost use Rattle.std.specs.Prelude.{◌≡◌, ℕ, List, true, ⊤};
ghost use Rattle.vcd_body.specs.Given.{IsItem};
ghost use Rattle.vcd_model.specs.Cut.{is_mark_above};
ghost use Rattle.vcd_model.specs.Declarations.{IdCode};
ghost use Rattle.vcd_model.specs.Items.{BodyItem};

use vcd_body::{Item, Regs};
use vcd_run::{AheadEnd, Task};
use vcd_text::{Ahead, Sink, WriteFailed};
use vcd_view::HeadView;

/// Ends at the first timestamp above a time.
#[derive(Drop)]
pub struct Until {
    pub until: u64,
}

/// Returns whether the item is a timestamp above this time.
fn is_past(item: Item, until: u64) -> bool
    ensures { (codes : List IdCode) (text : List ℕ) (x : BodyItem) → IsItem codes text item x
        → result ≡ is_mark_above until x }
{
    match item {
        Item::Time(time) => until < time,
        Item::Change { .. } | Item::Begin(_) | Item::End | Item::Finish => false,
    }
}

impl Task for Until {
    ghost use Rattle.vcd_run_tests.specs.Plans.{until_plan};

    ghost keeps = { λ task p h items. p ≡ until_plan task.until };

    ghost tells = { λ _ _ _. ⊤ };

    ghost is_ready = { λ _. ⊤ };

    ghost fixed = { λ _. tt };

    ghost may_end = { λ _. true };

    /// Takes nothing ahead.
    fn take_ahead<W: Sink>(
        &mut self,
        _view: HeadView<'_>,
        regs: Regs,
        _ahead: Ahead<'_>,
        _out: &mut W,
    ) -> AheadEnd {
        AheadEnd {
            passed: 0,
            regs,
            written: Ok(()),
        }
    }

    /// Returns whether the item is a timestamp above the time.
    fn take<W: Sink>(
        &mut self,
        _view: HeadView<'_>,
        _regs: Regs,
        item: Item,
        _text: &[u8],
        _out: &mut W,
    ) -> Result<bool, WriteFailed> {
        Ok(is_past(item, self.until))
    }

    /// Writes nothing.
    fn close<W: Sink>(
        &mut self,
        _view: HeadView<'_>,
        _regs: Regs,
        _out: &mut W,
    ) -> Result<(), WriteFailed> {
        Ok(())
    }
}
