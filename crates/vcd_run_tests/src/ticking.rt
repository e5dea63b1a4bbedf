//! A task that writes a byte for each timestamp, and one at the end.
ghost use Rattle.std.specs.Prelude.{◌≡◌, ◌-◌, ◌^◌, ◌<◌, ℕ, List, true, ⊤};
ghost use Rattle.vcd_body.specs.Given.{IsItem};
ghost use Rattle.vcd_model.specs.Declarations.{IdCode};
ghost use Rattle.vcd_model.specs.Items.{BodyItem};
ghost use Rattle.vcd_text.specs.Device.{Counts, Takes};
ghost use Rattle.vcd_run_tests.specs.Plans.{tick};

use vcd_body::{Item, Regs};
use vcd_run::{AheadEnd, Task};
use vcd_text::{Ahead, Sink, WriteFailed, put};
use vcd_view::HeadView;

/// Writes a byte for each timestamp, and one at the end.
#[derive(Drop)]
pub struct Ticking;

/// Writes a byte if the item is a timestamp.
fn put_tick<W: Sink>(item: Item, out: &mut W) -> Result<(), WriteFailed>
    requires { (W.device out.old).failures < 2 ^ 64 - 1 }
    ensures takes { (codes : List IdCode) (text : List ℕ) (x : BodyItem) → IsItem codes text item x
        → Takes (W.device out.old) (W.device out.new) (tick x) result }
    ensures counts { Counts (W.device out.old) (W.device out.new) result }
{
    match item {
        Item::Time(_) => put(out, b"t"),
        Item::Change { .. } | Item::Begin(_) | Item::End | Item::Finish => put(out, b""),
    }
}

impl Task for Ticking {
    ghost use Rattle.vcd_run_tests.specs.Plans.{ticking_plan};

    ghost keeps = { λ _ p h items. p ≡ ticking_plan };

    ghost tells = { λ _ _ _. ⊤ };

    ghost is_ready = { λ _. ⊤ };

    ghost fixed = { λ _. tt };

    ghost may_end = { λ _. true };

    /// Takes nothing ahead.
    fn take_ahead<W: Sink>(
        &mut self,
        _view: HeadView<'_>,
        regs: Regs,
        _ahead: Ahead<'_>,
        _out: &mut W,
    ) -> AheadEnd {
        AheadEnd {
            passed: 0,
            regs,
            written: Ok(()),
        }
    }

    /// Writes a byte if the item is a timestamp.
    fn take<W: Sink>(
        &mut self,
        _view: HeadView<'_>,
        _regs: Regs,
        item: Item,
        _text: &[u8],
        out: &mut W,
    ) -> Result<bool, WriteFailed> {
        match put_tick(item, out) {
            Ok(()) => Ok(false),
            Err(failed) => Err(failed),
        }
    }

    /// Writes a full stop.
    fn close<W: Sink>(
        &mut self,
        _view: HeadView<'_>,
        _regs: Regs,
        out: &mut W,
    ) -> Result<(), WriteFailed> {
        put(out, b".")
    }
}
