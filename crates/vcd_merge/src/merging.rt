//! The turn of one input of a merge, over its feed.
ghost use Rattle.std.specs.Prelude.{◌≡◌, ◌≢◌, ℕ, ◌-◌, ◌^◌, ◌<◌, ◌≤◌, ◌++◌, [], List, Option, Some, None, slice_get, IfOk, IfSome, MatchOption, Ok, true, false, is_some, ◌&&◌};
ghost use Rattle.vcd_merge.specs.Names.{Advances, AheadTurns, AtSeat, BodyItem, bytes_of, CallEnd, chunk_len_of, Code, Counts, CountsWrites, Device, failures_after, Fits, HasNotFailed, HasPassedOn, IsGoodText, IsRun, Lane, limit_of, longest_of, Moved, NamesInput, parked_of, passed_of, Puts, PutsDue, RunTurns, SameLoans, SameSeat, seat_with, seen, shown, source_of, spot_with, stage_with, time_due, Turns, Views};
ghost use Rattle.vcd_body.specs.declared.answer.Stop.TheVariants as stop;
ghost use Rattle.vcd_body.specs.declared.item.Item.TheVariants as item;
ghost use Rattle.vcd_body.specs.declared.item.Regs.{Regs};
ghost use Rattle.vcd_body.specs.Whole.{IsPrompt};

use crate::order::Turn;
use crate::seat::Seat;
use vcd_body::{
    Form, Item, Regs, ScannedItem, Stop, Visit, change_text, next_item, only_digit, pass_items,
    pass_on_before_read, put_code_line, put_renamed, put_renamed_ahead, put_time, walk_ahead,
};
use vcd_head::Head;
use vcd_text::{Feed, Sink, Source, WriteFailed};
use vcd_view::{Code, HeadView};

/// Returns whether a merge leaves out a change: that of an event (`event` is true) inside a section
/// (`inside` is true).
#[inline(always)]
fn is_left_out(event: bool, inside: bool) -> bool
    ensures { result ≡ (event && inside) }
{
    event && inside
}

/// Writes the line of `time`, unless `written` says that it was written last, and sets `written` to
/// `time`. Fails if a write does.
#[inline(always)]
fn put_due_time<W: Sink>(
    time: u64,
    written: &mut Option<u64>,
    out: &mut W,
) -> Result<(), WriteFailed>
    requires { (W.device out.old).failures < 2 ^ 64 - 1 }
    ensures puts { Puts (W.device out.old) (W.device out.new) (time_due written.old time) result }
    ensures written { IfOk result (λ _. written.new ≡ Some time) }
{
    if *written == Some(time) {
        return Ok(());
    }
    put_time(time, out)?;
    *written = Some(time);
    Ok(())
}

/// What a change needs to know of its input.
#[derive(Clone, Copy)]
struct Reached {
    // The time of the input, in ticks of the merged dump.
    time: u64,
    // The number that the first code of the input has in the merged dump.
    first: u64,
    // Whether a section is open.
    inside: bool,
}

/// Writes a change of the code at index `code` of `codes` under the code that the merged dump has
/// for it, after the line of its time, unless `written` says that it was written last. It is for
/// changes whose size the look-up did not return. Writes nothing for an event inside a section.
/// Fails if a write does.
// Not inlined, since it is rare.
#[cold]
#[inline(never)]
fn put_unsized<W: Sink>(
    code: usize,
    form: Form,
    text: &[u8],
    codes: &[Code],
    reached: Reached,
    written: &mut Option<u64>,
    out: &mut W,
) -> Result<(), WriteFailed>
    requires failures { (W.device out.old).failures < 2 ^ 64 - 1 }
    requires sound { IsGoodText codes.now code form text.now }
    ensures takes { (r : Regs) → reached.inside ≡ is_some r.section
        → PutsDue codes.now text.now (item.Change code form) r reached.time reached.first
        written.old written.new (W.device out.old) (W.device out.new) result }
    ensures counts { Counts (W.device out.old) (W.device out.new) result }
{
    let declared = codes[code];
    if is_left_out(declared.event, reached.inside) {
        return Ok(());
    }
    put_due_time(reached.time, written, out)?;
    let number = reached.first.saturating_add(code as u64);
    put_renamed(declared.size, declared.event, form, text, number, out)
}

/// What a walk over the items of an input keeps, as numbers.
#[derive(Clone, Copy)]
struct Merging {
    // The time of the input, in ticks of the merged dump.
    time: u64,
    // How many of these ticks one tick of the input has.
    factor: u64,
    // The number that the first code of the input has in the merged dump.
    first: u64,
    // Items are taken while the time is below this one.
    before: u64,
}

// The command is the time whose line was written last.
impl Visit<Option<u64>> for Merging {
    ghost use Rattle.std.specs.Prelude.{◌*◌, ◌^◌, nat_le};
    ghost use Rattle.vcd_merge.specs.MergeAhead.{TakesNext};

    ghost stands = { λ _ _ _ _. Unit {0} };

    ghost takes = { λ view s t result. TakesNext view s t result };

    ghost stops_before = { λ merging _ time. nat_le (2 ^ 64) (time * merging.factor) };

    ghost over = { λ merging. nat_le merging.before merging.time };

    /// Returns whether this time is 2^64 or more in ticks of the merged dump.
    // A time that does not fit once it is scaled is left: the step finds the fault.
    #[inline(always)]
    fn ends_before(&self, _written: &Option<u64>, time: u64) -> bool {
        time.checked_mul(self.factor).is_none()
    }

    /// Returns whether the time of the input has reached `before`, the end of its turn.
    #[inline(always)]
    fn is_over(&self) -> bool {
        self.before <= self.time
    }

    /// Sets the time of the input to that of a timestamp, in ticks of the merged dump.
    #[inline(always)]
    fn take_timestamp(
        &mut self,
        _written: &mut Option<u64>,
        _view: HeadView<'_>,
        _regs: Regs,
        time: u64,
        _timestamp: ScannedItem<'_>,
    ) {
        self.time = time * self.factor;
    }

    /// Writes a change under its code in the merged dump. The line of the input's time, in ticks of
    /// the merged dump, comes before it unless `written` says that it was written last; `written`
    /// then has this time. Writes nothing for an event inside a section. Fails if a write does.
    #[inline(always)]
    fn take_change<W: Sink>(
        &mut self,
        written: &mut Option<u64>,
        view: HeadView<'_>,
        regs: Regs,
        change: ScannedItem<'_>,
        out: &mut W,
    ) -> Result<(), WriteFailed> {
        let Item::Change { code, form } = change.item else {
            unreachable!()
        };
        if let Some(digit) = only_digit(change, form) {
            put_due_time(self.time, written, out)?;
            let number = self.first.wrapping_add(code as u64);
            return put_code_line(digit, number, out);
        }
        if change.size_or_zero == 0 {
            let inside = regs.section.is_some();
            let (time, first) = (self.time, self.first);
            let reached = Reached {
                time,
                first,
                inside,
            };
            return put_unsized(code, form, change.text, view.codes, reached, written, out);
        }
        put_due_time(self.time, written, out)?;
        let number = self.first.wrapping_add(code as u64);
        put_renamed_ahead(change, form, number, out)
    }

    /// Does nothing, and never fails.
    // A merge leaves out sections.
    #[inline(always)]
    fn take_section<W: Sink>(
        &mut self,
        _written: &mut Option<u64>,
        _view: HeadView<'_>,
        _before: Regs,
        _after: Regs,
        _section: ScannedItem<'_>,
        _out: &mut W,
    ) -> Result<(), WriteFailed> {
        Ok(())
    }
}

/// Handles the items of an input that lie completely in its feed's chunk: the first one, and those
/// after it while the input's time is below `before`. Writes their output to `out`, and moves the
/// feed past them. Returns whether the time has reached `before`. After it `seat` has the time and
/// the registers of the input, and `written` is the time whose line was written last, as before the
/// call. Fails if a write does.
#[inline(never)]
fn take_turn_ahead<S: Source, W: Sink>(
    head: &Head,
    before: u64,
    feed: &mut Feed<'_, '_, '_, '_, S>,
    seat: &mut Seat,
    written: &mut Option<u64>,
    out: &mut W,
) -> Result<bool, WriteFailed>
    requires out_failures { (W.device out.old).failures < 2 ^ 64 - 1 }
    requires unfinished { seat.old.finished ≡ false }
    requires open { HasNotFailed feed.old }
    ensures turns { (k scale first : ℕ) (l : Lane) (items : List BodyItem)
        → Views (shown head.now) l.header → AtSeat scale first l items (spot_with seat.old feed.old)
        → AheadTurns S.rest S.failures k scale first l before
        (stage_with items written.old seat.old feed.old (W.device out.old))
        written.new seat.new feed.new (W.device out.new) result }
    ensures advances { Advances S.failures feed.old feed.new CallEnd.GoesOn }
    ensures progress { result ≡ Ok true → seen feed.old < seen feed.new }
    ensures bounded { seen feed.new < 2 ^ 63 }
    ensures same { seat.new ≡ seat_with seat.old seat.new.regs seat.new.time }
    ensures counts { Counts (W.device out.old) (W.device out.new) result }
{
    let ahead = feed.ahead();
    let merging = Merging {
        time: seat.time,
        factor: seat.factor,
        first: seat.first,
        before,
    };
    let view = head.view();
    let walked = walk_ahead(written, merging, view, seat.regs, ahead, out);
    let passed = walked.ahead.passed();
    let ended = walked.is_over();
    seat.regs = walked.regs;
    seat.time = walked.visit.time;
    pass_items(feed, passed);
    ended
}

/// The number of the fault of a time that is 2^64 or more once it is scaled.
const TIME_TOO_LARGE: u8 = 20;

/// Returns how a merge stops at a timestamp whose time is 2^64 or more in ticks of the merged dump.
/// `input` is the index of the input, and `line` the line of the timestamp in it.
#[inline(always)]
fn time_too_large(input: usize, line: u64) -> Stop
    ensures { result ≡ stop.Dump input line 20 }
{
    Stop::Dump {
        input,
        line,
        fault: TIME_TOO_LARGE,
    }
}

/// Reads the next item of the input at index `input`. Writes a change under its code in the merged
/// dump, after the line of its time unless that was written last; nothing for an event inside a
/// section, and for any other item. It may wait for input, so `out` must keep nothing back.
///
/// After it `seat` has the time and the registers of the input, and whether it has finished;
/// `written` has the time whose line was written last. The caller parks the feed.
///
/// # Errors
///
/// The fault of the dump, also a time that is 2^64 or more in ticks of the merged dump, or a failed
/// read: nothing was written. `Stop::Write` if a write failed, after a prefix.
#[inline(always)]
fn read_item<S: Source, W: Sink>(
    head: &Head,
    input: usize,
    feed: &mut Feed<'_, '_, '_, '_, S>,
    seat: &mut Seat,
    written: &mut Option<u64>,
    out: &mut W,
) -> Result<(), Stop>
    requires feed_failures { S.failures (source_of feed.old) < 2 ^ 64 - 1 }
    requires out_failures { (W.device out.old).failures < 2 ^ 64 - 1 }
    requires unfinished { seat.old.finished ≡ false }
    requires prompt { IsPrompt (W.kept_back out.old) feed.old }
    requires open { HasNotFailed feed.old }
    ensures turns { (scale first : ℕ) (l : Lane) (items : List BodyItem)
        → Views (shown head.now) l.header → AtSeat scale first l items (spot_with seat.old feed.old)
        → Turns input scale first l items written.old written.new (spot_with seat.new feed.new)
        (W.device out.old) (W.device out.new) result }
    ensures moved { Moved S.failures feed.old feed.new seat.new result }
    ensures parked { seat.new.parked ≡ seat.old.parked }
    ensures same { SameSeat seat.old seat.new }
    ensures named { NamesInput input result }
    ensures writes { CountsWrites (W.device out.old) (W.device out.new) result }
    ensures passed_on { HasPassedOn (W.kept_back out.new) result }
{
    let view = head.view();
    let item = match next_item(feed, view, &mut seat.regs) {
        Ok(item) => item,
        Err(fault) => return Err(Stop::of_body(fault, input, feed.line())),
    };
    match item {
        Item::Finish => seat.finished = true,
        Item::Time(time) => match time.checked_mul(seat.factor) {
            Some(time) => seat.time = time,
            None => return Err(time_too_large(input, feed.line())),
        },
        Item::Change { code, form } => {
            let text = change_text(feed, form);
            let inside = seat.regs.section.is_some();
            let (time, first) = (seat.time, seat.first);
            let reached = Reached {
                time,
                first,
                inside,
            };
            put_unsized(code, form, text, view.codes, reached, written, out)?;
        }
        Item::Begin(_) => {}
        Item::End => {}
    }
    Ok(())
}

/// Handles the items of a turn with its input's feed, one and those after it while the input's time
/// is below `turn.before`, and writes their output to `out`. After it `seat` has the time and the
/// registers of the input, and whether it has finished; `written` has the time whose line was
/// written last. Before a read `out` writes what it keeps back to its device. Fails at a fault of
/// the input, at a failed read, and at a failed write.
// So most items cost no look at the seats and no new feed.
#[inline(always)]
pub(crate) fn take_turn<S: Source, W: Sink>(
    head: &Head,
    turn: Turn,
    feed: &mut Feed<'_, '_, '_, '_, S>,
    seat: &mut Seat,
    written: &mut Option<u64>,
    out: &mut W,
) -> Result<(), Stop>
    requires feed_failures { S.failures (source_of feed.old) < 2 ^ 64 - 1 }
    requires out_failures { (W.device out.old).failures < 2 ^ 64 - 1 }
    requires unfinished { seat.old.finished ≡ false }
    requires open { HasNotFailed feed.old }
    ensures turns { (scale first : ℕ) (l : Lane) (items : List BodyItem)
        → Views (shown head.now) l.header → AtSeat scale first l items (spot_with seat.old feed.old)
        → RunTurns S.rest S.failures turn.input scale first l turn.before
        (stage_with items written.old seat.old feed.old (W.device out.old))
        written.new (spot_with seat.new feed.new) (W.device out.new) result }
    ensures moved { Moved S.failures feed.old feed.new seat.new result }
    ensures parked { seat.new.parked ≡ seat.old.parked }
    ensures same { SameSeat seat.old seat.new }
    ensures named { NamesInput turn.input result }
    ensures writes { CountsWrites (W.device out.old) (W.device out.new) result }
    ensures passed_on { HasPassedOn (W.kept_back out.new) result }
{
    'items: loop {
        if take_turn_ahead(head, turn.before, feed, seat, written, out)? {
            return Ok(());
        }
        pass_on_before_read(feed, out)?;
        read_item(head, turn.input, feed, seat, written, out)?;
        if seat.finished || seat.time >= turn.before {
            return Ok(());
        }
    }
}
