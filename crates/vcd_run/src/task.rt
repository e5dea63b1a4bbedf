//! What is done with the items of a body, as a trait.
ghost use Rattle.std.specs.Prelude.{◌≡◌, ℕ, ◌-◌, ◌^◌, ◌<◌, ◌≤◌, Bool, IfOk, List, false, length, true};
ghost use Rattle.vcd_body.specs.Given.{HasGoodText};
ghost use Rattle.vcd_model.specs.Header.{Header};
ghost use Rattle.vcd_model.specs.Items.{BodyItem};
ghost use Rattle.vcd_text.specs.Ahead.{bytes_of, passed_of};
ghost use Rattle.vcd_text.specs.Device.{Counts};
ghost use Rattle.vcd_run.specs.Plan.{Plan};
ghost use Rattle.vcd_run.specs.Task.{ClosesOver, RunsOver, TakesEach};

use vcd_body::{Item, Regs};
use vcd_text::{Ahead, Sink, WriteFailed};
use vcd_view::HeadView;

/// What a task has done with the items that lie completely in the chunk.
#[derive(Clone, Copy)]
pub struct AheadEnd {
    /// How many bytes ahead these items take: the feed has to be moved past them.
    pub passed: usize,
    /// The registers after these items.
    pub regs: Regs,
    /// Fails if a write of the output of these items did.
    pub written: Result<(), WriteFailed>,
}

/// A task: what it keeps between items, and what it does with an item.
pub trait Task: Drop {
    // Whether it has taken these items of a body with this header, and goes on by this plan.
    ghost keeps: { Self → Plan → Header → List BodyItem → Type 0 };

    // What it says of the items and of all that was written, once it has ended.
    ghost tells: { Self → List BodyItem → List ℕ → Type 0 };

    // Whether it can be called: this holds before each call.
    ghost is_ready: { Self → Type 0 };

    // What no call changes.
    ghost Fixed: { Type 0 } = { Unit {0} };

    ghost fixed: { Self → Fixed };

    // Whether an item may end the run of such a task.
    ghost may_end: { Fixed → Bool };

    /// Handles the items that lie completely in the chunk, from `ahead` on, up to an item that
    /// `take` has to handle, and writes their output to `out`. It reads nothing.
    fn take_ahead<W: Sink>(
        &mut self,
        view: HeadView<'_>,
        regs: Regs,
        ahead: Ahead<'_>,
        out: &mut W,
    ) -> AheadEnd
        requires failures { (W.device out.old).failures < 2 ^ 64 - 1 }
        requires ready { is_ready self.old }
        requires within { passed_of ahead ≤ length (bytes_of ahead) }
        ensures runs { RunsOver keeps view.entry ahead.entry regs self.old self.new
            (W.device out.old) (W.device out.new) result }
        ensures ready { IfOk result.written (λ _. is_ready self.new) }
        ensures fixed { fixed self.new ≡ fixed self.old };

    /// Handles an item that `next_item` returned, writes its output to `out`, and returns whether
    /// it ends the run. Fails if a write does.
    fn take<W: Sink>(
        &mut self,
        view: HeadView<'_>,
        regs: Regs,
        item: Item,
        text: &[u8],
        out: &mut W,
    ) -> Result<bool, WriteFailed>
        requires failures { (W.device out.old).failures < 2 ^ 64 - 1 }
        requires ready { is_ready self.old }
        requires sound { HasGoodText view.codes.now text.now item }
        ensures takes { TakesEach keeps tells view.entry regs item text.now self.old self.new
            (W.device out.old) (W.device out.new) result }
        ensures counts { Counts (W.device out.old) (W.device out.new) result }
        ensures ready { IfOk result (λ ended. ended ≡ false → is_ready self.new) }
        ensures fixed { fixed self.new ≡ fixed self.old }
        ensures early { IfOk result (λ ended. ended ≡ true → may_end (fixed self.old) ≡ true) };

    /// Writes the output at the end of a body without fault. Fails if a write does.
    fn close<W: Sink>(
        &mut self,
        view: HeadView<'_>,
        regs: Regs,
        out: &mut W,
    ) -> Result<(), WriteFailed>
        requires failures { (W.device out.old).failures < 2 ^ 64 - 1 }
        requires ready { is_ready self.old }
        ensures closes { ClosesOver keeps tells view.entry regs self.old self.new
            (W.device out.old) (W.device out.new) result }
        ensures counts { Counts (W.device out.old) (W.device out.new) result }
        ensures fixed { fixed self.new ≡ fixed self.old };
}
