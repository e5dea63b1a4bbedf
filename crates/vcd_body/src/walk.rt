//! The loop over the items that lie completely in a feed's chunk. All commands share it.
ghost use Rattle.std.specs.Prelude.{◌≡◌, ◌⊎◌, ℕ, ◌-◌, ◌^◌, ◌<◌, ◌≤◌, Bool, List, length, false, true, IfOk, Result, Ok};
ghost use Rattle.vcd_text.specs.Ahead.{bytes_of, passed_of};
ghost use Rattle.vcd_text.specs.Device.{Counts, Device};
ghost use Rattle.vcd_text.specs.declared.ahead.Ahead.{Ahead};
ghost use Rattle.vcd_text.specs.declared.device.WriteFailed.{WriteFailed};
ghost use Rattle.vcd_view.specs.declared.view.HeadView.{HeadView};
ghost use Rattle.vcd_body.specs.Items.{regs_after};
ghost use Rattle.vcd_body.specs.Taken.{IsChangeBy, IsSection, Opens, OpensVector, TakesItem};
ghost use Rattle.vcd_body.specs.Walk.{MayTakeTimestamp, MayTakeNext, MayTakeUpTo, Stage, TakesOne, Walks, WalksToLines, as_done, over_of, stage_at};
ghost use Rattle.vcd_body.specs.declared.item.Form.{Form};
ghost use Rattle.vcd_body.specs.declared.item.Item.TheVariants as item;
ghost use Rattle.vcd_body.specs.declared.item.Regs.{Regs};
ghost use Rattle.vcd_body.specs.declared.walk.WalkEnd.TheVariants as end;
ghost use Rattle.vcd_body.specs.declared.words.PhraseKind.TheVariants as kind;

use crate::ahead::{
    Opening, ScannedItem, VectorTokens, after_comments, line_timestamp, opening_ahead, real_ahead,
    scalar_ahead, section_ahead, short_ahead, time_ahead, timestamp_ahead, two_short_lines_come,
    vector_ahead, vector_bits, vector_tokens_ahead,
};
use crate::item::Regs;
use crate::words::PhraseKind;
use vcd_text::{Ahead, Sink, WriteFailed};
use vcd_view::HeadView;

/// A visitor: it says what is done with each of the items ahead, in a command that is lent. A loop
/// keeps it in CPU registers, so it is passed and returned by value.
pub trait Visit<C>: Drop {
    // Whether it can continue in these bytes, with these registers after the items so far.
    ghost stands: { Self → C → List ℕ → Regs → Type 0 };

    // Whether this is what it does with an item, from one stage of the walk to another, with this
    // result of its writes.
    ghost takes: { HeadView → Stage Self C → Stage Self C → Result (Unit {0}) WriteFailed → Type 0 };

    // Whether the walk leaves a timestamp with this time, and a section's keyword if this is the
    // last time.
    ghost stops_before: { Self → C → ℕ → Bool };

    // Whether no other item is to be taken.
    ghost over: { Self → Bool };

    /// Returns whether the walk has to stop before a timestamp with this time, and leave it to the
    /// caller. It is also asked before the begin or the end of a section, with the time of the last
    /// timestamp.
    fn ends_before(&self, command: &C, time: u64) -> bool
        requires { (bytes : List ℕ) × (regs : Regs) × stands self.now command.now bytes regs }
        ensures { result ≡ stops_before self.now command.now time };

    /// Returns whether the walk has to stop here, before any other item.
    fn is_over(&self) -> bool
        ensures { result ≡ over self.now };

    /// Handles a timestamp of this time, before which the walk does not have to stop
    /// (`ends_before`). `regs` are the registers before it.
    fn take_timestamp(
        &mut self,
        command: &mut C,
        view: HeadView<'_>,
        regs: Regs,
        time: u64,
        timestamp: ScannedItem<'_>,
    )
        requires stands { stands self.old command.old timestamp.bytes.now regs }
        requires no_stop { stops_before self.old command.old time ≡ false }
        requires item { (a a' : Ahead) × TakesItem view a a' regs timestamp }
        requires time { timestamp.item ≡ item.Time time }
        ensures takes { (a a' : Ahead) (out : Device)
            → TakesItem view.entry a a' regs timestamp.entry → takes view.entry
            (stage_at a regs self.old command.old out)
            (stage_at a' (regs_after regs timestamp.entry.item) self.new command.new out)
            (Ok tt) }
        ensures stands { stands self.new command.new timestamp.entry.bytes.now
            (regs_after regs timestamp.entry.item) };

    /// Handles a value change, and writes its output to `out`. `regs` are the registers, which a
    /// change leaves as they are. Fails if a write fails.
    fn take_change<W: Sink>(
        &mut self,
        command: &mut C,
        view: HeadView<'_>,
        regs: Regs,
        change: ScannedItem<'_>,
        out: &mut W,
    ) -> Result<(), WriteFailed>
        requires failures { (W.device out.old).failures < 2 ^ 64 - 1 }
        requires stands { stands self.old command.old change.bytes.now regs }
        requires item { (a a' : Ahead) × TakesItem view a a' regs change }
        requires form { (form : Form) × IsChangeBy form change }
        ensures takes { (a a' : Ahead) → TakesItem view.entry a a' regs change.entry
            → takes view.entry (stage_at a regs self.old command.old (W.device out.old))
            (stage_at a' regs self.new command.new (W.device out.new)) result }
        ensures counts { Counts (W.device out.old) (W.device out.new) result }
        ensures stands { IfOk result
            (λ _. stands self.new command.new change.entry.bytes.now regs) }
        ensures over { over self.new ≡ over self.old };

    /// Handles the begin or the end of a section, and writes its output to `out`. `before` are the
    /// registers before it, `after` those after it. Fails if a write fails.
    fn take_section<W: Sink>(
        &mut self,
        command: &mut C,
        view: HeadView<'_>,
        before: Regs,
        after: Regs,
        section: ScannedItem<'_>,
        out: &mut W,
    ) -> Result<(), WriteFailed>
        requires failures { (W.device out.old).failures < 2 ^ 64 - 1 }
        requires stands { stands self.old command.old section.bytes.now before }
        requires no_stop { stops_before self.old command.old before.time ≡ false }
        requires item { (a a' : Ahead) × TakesItem view a a' before section }
        requires section { IsSection section.item }
        requires after { after ≡ regs_after before section.item }
        ensures takes { (a a' : Ahead) → TakesItem view.entry a a' before section.entry
            → takes view.entry (stage_at a before self.old command.old (W.device out.old))
            (stage_at a' after self.new command.new (W.device out.new)) result }
        ensures counts { Counts (W.device out.old) (W.device out.new) result }
        ensures stands { IfOk result
            (λ _. stands self.new command.new section.entry.bytes.now after) };
}

/// Where a walk over items has ended, if no write failed.
#[derive(Clone, Copy, PartialEq, Eq, Debug)]
pub enum WalkEnd {
    /// Before two lines for the faster loop, `take_lines`. `walk_ahead` goes on there, and so never
    /// returns it.
    AtLines,
    /// Before an item that it leaves to its caller, or at the end of the items in the chunk.
    AtItem,
    /// After an item with which the visitor has ended the walk.
    Over,
}

/// How a walk has ended.
#[derive(Drop)]
pub struct Walked<'a, V> {
    /// The look-ahead after the items that were handled.
    pub ahead: Ahead<'a>,
    /// The registers after these items.
    pub regs: Regs,
    /// The visitor after these items.
    pub visit: V,
    /// Where the walk has ended after the last of these items; or that a write of its output
    /// failed.
    pub ended: Result<WalkEnd, WriteFailed>,
}

impl<'a, V> Walked<'a, V> {
    /// Returns the result of a walk: the look-ahead, the registers and the visitor after the items
    /// that were handled, and how it ended.
    #[inline(always)]
    fn ended_at(
        ahead: Ahead<'a>,
        regs: Regs,
        visit: V,
        ended: Result<WalkEnd, WriteFailed>,
    ) -> Walked<'a, V>
        ensures { result ≡ record {
          ahead = ahead.entry;
          regs = regs;
          visit = visit;
          ended = ended;
        } }
    {
        Walked {
            ahead,
            regs,
            visit,
            ended,
        }
    }

    /// Returns whether the other loop may handle more items: this one has left the next item to it.
    #[inline(always)]
    fn can_go_on(&self) -> bool
        ensures { result ≡ true → self.now.ended ≡ Ok end.AtItem }
    {
        matches!(self.ended, Ok(WalkEnd::AtItem))
    }

    /// Returns whether the visitor has ended the walk. Fails if a write of its output did.
    #[inline(always)]
    pub fn is_over(&self) -> Result<bool, WriteFailed>
        ensures { result ≡ over_of self.now.ended }
    {
        match self.ended {
            Ok(WalkEnd::Over) => Ok(true),
            Ok(WalkEnd::AtLines | WalkEnd::AtItem) => Ok(false),
            Err(failed) => Err(failed),
        }
    }

    /// Fails if a write of the visitor's output did.
    #[inline(always)]
    pub fn written(&self) -> Result<(), WriteFailed>
        ensures { result ≡ as_done self.now.ended }
    {
        match self.ended {
            Ok(_) => Ok(()),
            Err(failed) => Err(failed),
        }
    }
}

/// Has the visitor handle the timestamp whose token is that of `opening` and lies between `ahead`
/// and `to`. Sets `regs` and `ahead` to those after it. `None` if the token spells no time, if the
/// time may not come here, or if the visitor ends the walk before it; then nothing has changed.
#[inline(always)]
fn take_timestamp<'a, C, V: Visit<C>>(
    command: &mut C,
    visit: &mut V,
    view: HeadView<'_>,
    opening: Opening<'_>,
    regs: &mut Regs,
    ahead: &mut Ahead<'a>,
    to: Ahead<'a>,
) -> Option<()>
    requires stands { V.stands visit.old command.old (bytes_of ahead.old) regs.old }
    requires opens { Opens ahead.old to opening }
    requires kind { opening.kind ≡ kind.Timestamp }
    ensures { MayTakeTimestamp V.takes V.stands view.entry
        (stage_at ahead.old regs.old visit.old command.old)
        (stage_at ahead.new regs.new visit.new command.new) result }
{
    let time = time_ahead(opening, to)?;
    if visit.ends_before(command, time) {
        return None;
    }
    let before = *regs;
    let timestamp = timestamp_ahead(opening, time, to, regs)?;
    visit.take_timestamp(command, view, before, time, timestamp);
    *ahead = to;
    Some(())
}

/// Has the visitor handle the begin or the end of a section whose keyword is that of `opening` and
/// lies between `ahead` and `to`. Sets `regs` and `ahead` to those after it, and returns `Ok(true)`
/// (it was no change), or the failure of a write. `None` if the token is anything else, if it may
/// not come here, or if the visitor ends the walk before it; then nothing has changed.
#[inline(always)]
fn take_section<'a, C, V: Visit<C>, W: Sink>(
    command: &mut C,
    visit: &mut V,
    view: HeadView<'_>,
    opening: Opening<'_>,
    regs: &mut Regs,
    ahead: &mut Ahead<'a>,
    to: Ahead<'a>,
    out: &mut W,
) -> Option<Result<bool, WriteFailed>>
    requires failures { (W.device out.old).failures < 2 ^ 64 - 1 }
    requires stands { V.stands visit.old command.old (bytes_of ahead.old) regs.old }
    requires opens { Opens ahead.old to opening }
    ensures next { MayTakeNext V.takes V.stands view.entry
        (stage_at ahead.old regs.old visit.old command.old (W.device out.old))
        (stage_at ahead.new regs.new visit.new command.new (W.device out.new)) result }
{
    let before = *regs;
    if visit.ends_before(command, before.time) {
        return None;
    }
    let section = section_ahead(opening, to, regs)?;
    *ahead = to;
    match visit.take_section(command, view, before, *regs, section, out) {
        Ok(()) => Some(Ok(true)),
        Err(failed) => Some(Err(failed)),
    }
}

/// Has the visitor handle the change that the two tokens of a vector spell, which end at `to`, and
/// returns whether a write failed. `None` if the header does not declare the code, or if the digits
/// are bad or too many for it; then nothing has changed.
// Two arms, so that the compiler knows in each whether the digits have a number: without numbers
// `edges` of 27,505 codes takes 53 % more, and in one arm `check` of these takes 11 % more.
#[inline(always)]
fn take_vector<C, V: Visit<C>, W: Sink>(
    command: &mut C,
    visit: &mut V,
    view: HeadView<'_>,
    regs: Regs,
    tokens: VectorTokens<'_>,
    to: Ahead<'_>,
    out: &mut W,
) -> Option<Result<(), WriteFailed>>
    requires failures { (W.device out.old).failures < 2 ^ 64 - 1 }
    requires opens { (a : Ahead) × OpensVector a to tokens
        × V.stands visit.old command.old (bytes_of a) regs }
    ensures { (a : Ahead) → OpensVector a to.entry tokens.entry
        → MayTakeUpTo V.takes V.stands view.entry
        (stage_at a regs visit.old command.old (W.device out.old))
        (λ a'. stage_at a' regs visit.new command.new (W.device out.new)) to.entry result }
{
    match vector_bits(tokens, to.bytes()) {
        Some(bits) => {
            let change = vector_ahead(tokens, Some(bits), to, view)?;
            Some(visit.take_change(command, view, regs, change, out))
        }
        None => {
            let change = vector_ahead(tokens, None, to, view)?;
            Some(visit.take_change(command, view, regs, change, out))
        }
    }
}

/// Has the visitor handle the next item ahead, of any kind, and sets `regs` and `ahead` to those
/// after it. Returns `Ok(false)` if it was a change, `Ok(true)` if it was a timestamp or the begin
/// or the end of a section, or the failure of a write. `None` if the item does not lie completely
/// in the chunk, if it is bad or a comment, or if the visitor ends the walk before it; then nothing
/// has changed.
// What begins the item is asked once. Each arm is inlined: otherwise `check` takes nearly three
// times as many instructions.
#[inline(always)]
fn take_any<C, V: Visit<C>, W: Sink>(
    command: &mut C,
    visit: &mut V,
    view: HeadView<'_>,
    regs: &mut Regs,
    ahead: &mut Ahead<'_>,
    out: &mut W,
) -> Option<Result<bool, WriteFailed>>
    requires failures { (W.device out.old).failures < 2 ^ 64 - 1 }
    requires stands { V.stands visit.old command.old (bytes_of ahead.old) regs.old }
    ensures next { MayTakeNext V.takes V.stands view.entry
        (stage_at ahead.old regs.old visit.old command.old (W.device out.old))
        (stage_at ahead.new regs.new visit.new command.new (W.device out.new)) result }
{
    let mut to = *ahead;
    let opening = opening_ahead(&mut to)?;
    let taken = match opening.kind {
        PhraseKind::Bit | PhraseKind::Scalar => {
            let change = scalar_ahead(opening, to, view)?;
            visit.take_change(command, view, *regs, change, out)
        }
        PhraseKind::Vector => {
            let tokens = vector_tokens_ahead(opening, &mut to)?;
            take_vector(command, visit, view, *regs, tokens, to, out)?
        }
        PhraseKind::Timestamp => {
            take_timestamp(command, visit, view, opening, regs, ahead, to)?;
            return Some(Ok(true));
        }
        PhraseKind::Real => {
            let change = real_ahead(opening, &mut to, view)?;
            visit.take_change(command, view, *regs, change, out)
        }
        PhraseKind::Other => {
            return take_section(command, visit, view, opening, regs, ahead, to, out);
        }
    };
    *ahead = to;
    Some(taken.and(Ok(false)))
}

/// Has the visitor handle the next item ahead, if it is a change by `0` or `1` with a code of one
/// byte, on a line of its own, whose code a look at one entry finds. Then it moves past it and
/// returns whether a write failed. Otherwise `None`, and nothing has changed.
#[inline(always)]
fn take_short<C, V: Visit<C>, W: Sink, const CR_LF: bool>(
    command: &mut C,
    visit: &mut V,
    view: HeadView<'_>,
    regs: Regs,
    ahead: &mut Ahead<'_>,
    out: &mut W,
) -> Option<Result<(), WriteFailed>>
    requires failures { (W.device out.old).failures < 2 ^ 64 - 1 }
    requires stands { V.stands visit.old command.old (bytes_of ahead.old) regs }
    ensures next { MayTakeNext V.takes V.stands view.entry
        (stage_at ahead.old regs visit.old command.old (W.device out.old))
        (stage_at ahead.new regs visit.new command.new (W.device out.new)) result }
    ensures over { V.over visit.new ≡ V.over visit.old }
{
    let mut to = *ahead;
    let change = short_ahead::<CR_LF>(&mut to, view)?;
    *ahead = to;
    Some(visit.take_change(command, view, regs, change, out))
}

/// Has the visitor handle the next changes, as long as each is one that `take_short` takes, and
/// returns the look-ahead, the registers and the visitor after the last of them, and how the walk
/// ended: also whether a write failed, which ends the loop.
#[inline(always)]
fn take_shorts<'a, C, V: Visit<C>, W: Sink, const CR_LF: bool>(
    command: &mut C,
    mut visit: V,
    view: HeadView<'_>,
    regs: Regs,
    mut ahead: Ahead<'a>,
    out: &mut W,
) -> Walked<'a, V>
    requires failures { (W.device out.old).failures < 2 ^ 64 - 1 }
    requires stands { V.stands visit command.old (bytes_of ahead) regs }
    requires within { passed_of ahead ≤ length (bytes_of ahead) }
    requires on { V.over visit ≡ false }
    ensures { Walks V.takes V.stands V.over view.entry
        (stage_at ahead.entry regs visit command.old (W.device out.old))
        (stage_at result.ahead result.regs result.visit command.new (W.device out.new)) result.ended }
{
    'items: loop {
        let Some(taken) = take_short::<C, V, W, CR_LF>(
            command, &mut visit, view, regs, &mut ahead, out,
        ) else {
            return Walked::ended_at(ahead, regs, visit, Ok(WalkEnd::AtItem));
        };
        match taken {
            Ok(()) => {}
            Err(failed) => return Walked::ended_at(ahead, regs, visit, Err(failed)),
        }
    }
}

/// Has the visitor handle the next item ahead, if it is a timestamp at the next byte, of at most 15
/// bytes, with a line feed after it. Sets `regs` and `ahead` to those after it. `None` if it is
/// not, if its time may not come here, or if the visitor ends the walk before it; then nothing has
/// changed.
#[inline(always)]
fn take_timestamp_line<C, V: Visit<C>, const CR_LF: bool>(
    command: &mut C,
    visit: &mut V,
    view: HeadView<'_>,
    regs: &mut Regs,
    ahead: &mut Ahead<'_>,
) -> Option<()>
    requires stands { V.stands visit.old command.old (bytes_of ahead.old) regs.old }
    ensures { MayTakeTimestamp V.takes V.stands view.entry
        (stage_at ahead.old regs.old visit.old command.old)
        (stage_at ahead.new regs.new visit.new command.new) result }
{
    let mut to = *ahead;
    let opening = line_timestamp::<CR_LF>(&mut to)?;
    take_timestamp(command, visit, view, opening, regs, ahead, to)
}

/// Has the visitor handle the items that come next, as long as each is a change of two bytes or a
/// short timestamp on a line of its own, and returns the look-ahead, the registers and the visitor
/// after the last of them, and how the walk ended. The lines end with CR LF if `CR_LF` is true,
/// otherwise with LF. It also ends if the visitor ends the walk, or if a write fails.
// Without this loop `check` of scalars takes 72 % more and of 27,505 codes 3 % more, but of GHDL's
// dumps 16 % less, of rtl_433's 12 %, and of other tools' some 4 %.
#[inline(never)]
fn take_lines_with_end<'a, C, V: Visit<C>, W: Sink, const CR_LF: bool>(
    command: &mut C,
    mut visit: V,
    view: HeadView<'_>,
    mut regs: Regs,
    mut ahead: Ahead<'a>,
    out: &mut W,
) -> Walked<'a, V>
    requires failures { (W.device out.old).failures < 2 ^ 64 - 1 }
    requires stands { V.stands visit command.old (bytes_of ahead) regs }
    requires within { passed_of ahead ≤ length (bytes_of ahead) }
    requires on { V.over visit ≡ false }
    ensures { Walks V.takes V.stands V.over view.entry
        (stage_at ahead.entry regs visit command.old (W.device out.old))
        (stage_at result.ahead result.regs result.visit command.new (W.device out.new)) result.ended }
{
    // What is known from here on is not asked again for each line.
    if view.entries.is_empty() || !ahead.two_byte_line_comes::<CR_LF>() {
        return Walked::ended_at(ahead, regs, visit, Ok(WalkEnd::AtItem));
    }
    ahead.forget();
    'lines: loop {
        let shorts = take_shorts::<C, V, W, CR_LF>(command, visit, view, regs, ahead, out);
        if !shorts.can_go_on() {
            return shorts;
        }
        ahead = shorts.ahead;
        regs = shorts.regs;
        visit = shorts.visit;
        let Some(()) = take_timestamp_line::<C, V, CR_LF>(
            command, &mut visit, view, &mut regs, &mut ahead,
        ) else {
            return Walked::ended_at(ahead, regs, visit, Ok(WalkEnd::AtItem));
        };
        if visit.is_over() {
            return Walked::ended_at(ahead, regs, visit, Ok(WalkEnd::Over));
        }
    }
}

/// Has the visitor handle the items that come next, as `take_lines_with_end` does, with the line
/// end that comes first.
#[inline(always)]
fn take_lines<'a, C, V: Visit<C>, W: Sink>(
    command: &mut C,
    visit: V,
    view: HeadView<'_>,
    regs: Regs,
    ahead: Ahead<'a>,
    out: &mut W,
) -> Walked<'a, V>
    requires failures { (W.device out.old).failures < 2 ^ 64 - 1 }
    requires stands { V.stands visit command.old (bytes_of ahead) regs }
    requires within { passed_of ahead ≤ length (bytes_of ahead) }
    requires on { V.over visit ≡ false }
    ensures { Walks V.takes V.stands V.over view.entry
        (stage_at ahead.entry regs visit command.old (W.device out.old))
        (stage_at result.ahead result.regs result.visit command.new (W.device out.new)) result.ended }
{
    if ahead.two_byte_line_comes::<true>() {
        return take_lines_with_end::<C, V, W, true>(command, visit, view, regs, ahead, out);
    }
    take_lines_with_end::<C, V, W, false>(command, visit, view, regs, ahead, out)
}

/// Returns whether lines for `take_lines` come next: two of two bytes each, and the visitor has not
/// ended the walk.
#[inline(always)]
fn lines_come<C, V: Visit<C>>(visit: &V, ahead: Ahead<'_>) -> bool
    ensures { result ≡ true → V.over visit.now ≡ false }
{
    !visit.is_over() && two_short_lines_come(ahead)
}

/// Has the visitor handle the items ahead, one after the other, up to a comment, or up to two lines
/// for `take_lines` after a timestamp or a section's begin or end, and returns the look-ahead, the
/// registers and the visitor after the last of them, and how the walk ended. It also ends if the
/// visitor ends the walk, if a write fails, or at an item that is bad or does not lie completely in
/// the chunk. The first item is tried even if the visitor has already ended the walk.
// In each arm of an item the compiler knows whether it was a change. At its end, the walk forgets
// the white space that it has seen: otherwise this is saved before each item, and `check` of 27,505
// codes takes 6 % more.
#[inline(always)]
fn walk_items<'a, C, V: Visit<C>, W: Sink>(
    command: &mut C,
    mut visit: V,
    view: HeadView<'_>,
    mut regs: Regs,
    mut ahead: Ahead<'a>,
    out: &mut W,
) -> Walked<'a, V>
    requires failures { (W.device out.old).failures < 2 ^ 64 - 1 }
    requires stands { V.stands visit command.old (bytes_of ahead) regs }
    requires within { passed_of ahead ≤ length (bytes_of ahead) }
    ensures { WalksToLines V.takes V.stands V.over view.entry
        (stage_at ahead.entry regs visit command.old (W.device out.old))
        (stage_at result.ahead result.regs result.visit command.new (W.device out.new)) result.ended }
{
    'items: loop {
        let Some(taken) = take_any(command, &mut visit, view, &mut regs, &mut ahead, out) else {
            ahead.forget();
            return Walked::ended_at(ahead, regs, visit, Ok(WalkEnd::AtItem));
        };
        let was_no_change = match taken {
            Ok(was_no_change) => was_no_change,
            Err(failed) => return Walked::ended_at(ahead, regs, visit, Err(failed)),
        };
        if visit.is_over() {
            return Walked::ended_at(ahead, regs, visit, Ok(WalkEnd::Over));
        }
        if was_no_change && two_short_lines_come(ahead) {
            return Walked::ended_at(ahead, regs, visit, Ok(WalkEnd::AtLines));
        }
    }
}

/// Has the visitor `visit` handle the items that lie completely in the chunk, from `ahead` on, one
/// after the other, and returns the look-ahead, the registers and the visitor after the last of
/// them, and how the walk ended. Comments are skipped. The walk ends if the visitor ends it, if a
/// write fails, or at an item that is bad or does not lie completely in the chunk. The first item
/// is tried even if the visitor has already ended the walk.
///
/// Two loops take turns. `take_lines` is faster, but takes only changes of two bytes and short
/// timestamps, each on a line of its own. `walk_items` takes any item, and stops once two such
/// changes come next. The walk ends once a turn of both has moved past no byte.
// Registers, offset and visitor come and go by value, so that the loop over items keeps them out of
// memory: in a struct that is kept there they cost `check` of scalars 11 %.
#[inline(always)]
pub fn walk_ahead<'a, C, V: Visit<C>, W: Sink>(
    command: &mut C,
    mut visit: V,
    view: HeadView<'_>,
    mut regs: Regs,
    mut ahead: Ahead<'a>,
    out: &mut W,
) -> Walked<'a, V>
    requires failures { (W.device out.old).failures < 2 ^ 64 - 1 }
    requires stands { V.stands visit command.old (bytes_of ahead) regs }
    requires within { passed_of ahead ≤ length (bytes_of ahead) }
    ensures { Walks V.takes V.stands V.over view.entry
        (stage_at ahead.entry regs visit command.old (W.device out.old))
        (stage_at result.ahead result.regs result.visit command.new (W.device out.new)) result.ended }
{
    let mut at_lines = lines_come(&visit, ahead);
    'parts: loop {
        let from = ahead.passed();
        if at_lines {
            let lines = take_lines(command, visit, view, regs, ahead, out);
            if !lines.can_go_on() {
                return lines;
            }
            ahead = lines.ahead;
            regs = lines.regs;
            visit = lines.visit;
        }
        let items = walk_items(command, visit, view, regs, ahead, out);
        let Ok(end) = items.ended else {
            return items;
        };
        match end {
            WalkEnd::AtLines => {
                ahead = items.ahead;
                at_lines = true;
            }
            WalkEnd::AtItem => {
                ahead = after_comments(items.ahead);
                if ahead.passed() == from {
                    return items;
                }
                at_lines = lines_come(&items.visit, ahead);
            }
            WalkEnd::Over => return items,
        }
        regs = items.regs;
        visit = items.visit;
    }
}
