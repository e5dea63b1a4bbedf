//! The start of a merge, a step of it over all inputs, and the loop over its steps.
ghost use Rattle.std.specs.Prelude.{◌≡◌, ◌≢◌, ℕ, ◌+◌, ◌-◌, ◌*◌, ◌^◌, ◌<◌, ◌≤◌, Bool, true, false, ◌⊎◌, take, slice_get, List, length, All, MatchOption, MatchBool, IfErr, IfOk, Some, Option, Ok, map};
ghost use Rattle.vcd_merge.specs.Names.{AllWait, AreBegun, AreMarked, AreParts, AreSeated, AtSeat, BodyItem, Counts, CountsWrites, Device, Dump, EndsAtReadOf, failures_after, failures_with, Follows, Gives, goes_on, greatest_time, HasBegun, HasPassedOn, Header, Holds, is_going, IsNext, IsReady, Lane, last_written, left_of, merge_close, merge_open, merged_head, merged_items, MergeIsWithinBound, NamesInput, no_windows, part, part_len, Runs, SameLengths, ShowHeaders, shown, Spot, spot_at, standing, standing_of, supply, Takes, Touches, TurnsAt, Views, windows_size, Writes};

use crate::beginning::set_seats;
use crate::merge_state::Merge;
use crate::merging::take_turn;
use crate::order::{Turn, TurnOrder};
use crate::seat::Seat;
use crate::windows::Windows;
use vcd_body::{Done, More, Stop, put_time_unless};
use vcd_head::{Head, put_merged_head};
use vcd_text::{Feed, Sink, Source, WriteFailed};

/// Returns the greatest timestamp of all inputs so far, in ticks of the merged dump; `None` if none
/// had a timestamp.
fn greatest_time(seats: &[Seat]) -> Option<u64>
    ensures { result ≡ greatest_time seats.now }
{
    let mut greatest: Option<u64> = None;
    for seat in seats {
        if seat.regs.marked {
            greatest = match greatest {
                Some(time) => Some(time.max(seat.time)),
                None => Some(seat.time),
            };
        }
    }
    greatest
}

/// Takes the turn of the input at index `turn.input`: reads its next item, and those after it while
/// its time is below `turn.before`, and writes their output to `out`. `heads`, `seats` and
/// `sources` have one element for each input, and `windows` one part; only those at this index are
/// used. The seat then has the time and the registers of the input, and whether it has finished;
/// `written` is the time whose line was written last, before the call and after it. Fails at a
/// fault of the input, at a failed read of it, and at a failed write.
#[inline(always)]
fn run_turn<S: Source, W: Sink>(
    heads: &[Head],
    turn: Turn,
    seats: &mut [Seat],
    sources: &mut [S],
    windows: &mut Windows<'_>,
    written: &mut Option<u64>,
    out: &mut W,
) -> Result<(), Stop>
    requires input { turn.input < length seats.old }
    requires reads { All (λ s. S.failures s < 2 ^ 64 - 1) sources.old }
    requires out_failures { (W.device out.old).failures < 2 ^ 64 - 1 }
    requires ready { IsReady (standing heads.now seats.old written.old sources.old windows.old) }
    requires unfinished { (s : Seat) → slice_get seats.old turn.input ≡ Some s → s.finished ≡ false }
    ensures turns { (scale first : ℕ) (l : Lane) (items : List BodyItem) (h : Head) (s : Spot)
        → slice_get heads.now turn.input ≡ Some h → Views (shown h) l.header
        → spot_at S.rest seats.old sources.old windows.old.chunks.now windows.old.tokens.now turn.input
        ≡ Some s → AtSeat scale first l items s
        → (s' : Spot) × (spot_at S.rest seats.new sources.new windows.new.chunks.now windows.new.tokens.now turn.input ≡ Some s')
        × TurnsAt S.rest S.failures sources.old turn.input scale first l turn.before items written.old written.new s s'
        (W.device out.old) (W.device out.new) result }
    ensures touches { Touches S.rest S.failures
        (standing heads.now seats.old written.old sources.old windows.old)
        (standing heads.now seats.new written.new sources.new windows.new)
        (W.device out.old) (W.device out.new) turn.input result }
    ensures last { EndsAtReadOf (map S.last_failed sources.new) result }
    ensures passed_on { HasPassedOn (W.kept_back out.new) result }
    ensures kept { (j : ℕ) → j ≢ turn.input → slice_get seats.new j ≡ slice_get seats.old j }
    ensures sources { length sources.new ≡ length sources.old }
    ensures seated { IfOk result
        (λ _. AreSeated windows.new.chunks.now windows.new.tokens.now seats.new) }
    ensures left { IfOk result (λ _. left_of seats.new < left_of seats.old) }
{
    let input = turn.input;
    let chunk_len = windows.chunks.len() / seats.len();
    let limit = windows.tokens.len() / seats.len();
    let chunk_at = input * chunk_len;
    let token_at = input * limit;
    let chunk = &mut windows.chunks[chunk_at..chunk_at + chunk_len];
    let token = &mut windows.tokens[token_at..token_at + limit];
    let value = &mut windows.values[token_at..token_at + limit];
    let seat = &mut seats[input];
    let mut feed = Feed::resume(&mut sources[input], chunk, token, value, seat.parked);
    let answer = take_turn(&heads[input], turn, &mut feed, seat, written, out);
    seat.parked = feed.parked();
    // A proof knows what a part holds after the feed only if the part is used after it.
    prove!(chunk.len() == chunk_len);
    prove!(token.len() == limit);
    prove!(value.len() == limit);
    answer
}

impl<'h, 's> Merge<'h, 's> {
    /// Begins a merge of at most 64 inputs with these headers, writes the header of the merged
    /// dump, and returns the merge, before its first item. A header without a time scale counts as
    /// 1 s. `seats` has one seat for each header. The parked feed in each seat is right after the
    /// header of its input, and stays there. What the heads keep must be within the bound of the
    /// definitions (`MergeIsWithinBound`).
    ///
    /// # Errors
    ///
    /// `Stop::Write` if a write failed; a prefix of the header was written.
    pub fn start<W: Sink>(
        heads: &'h [Head],
        seats: &'s mut [Seat],
        out: &mut W,
    ) -> Result<Merge<'h, 's>, Stop>
        requires many { length heads.now ≤ 64 }
        requires heads { length heads.now ≡ length seats.old }
        requires failures { (W.device out.old).failures < 2 ^ 64 - 1 }
        requires bound { (limit : ℕ) → MergeIsWithinBound limit heads.now no_windows }
        ensures takes { (hs : List Header) → ShowHeaders heads.now hs
            → Takes (W.device out.old) (W.device out.new) (merged_head hs) result }
        ensures counts { Counts (W.device out.old) (W.device out.new) result }
        ensures begun { IfOk result (HasBegun heads.now seats.old) }
        ensures seats { (hs : List Header) → ShowHeaders heads.now hs
            → IfOk result (λ merge. AreBegun hs seats.old merge.seats.now) }
        ensures stops { IfErr result (λ stop. stop ≡ Stop.Write) }
    {
        put_merged_head(heads, out)?;
        set_seats(heads, seats);
        Ok(Merge {
            heads,
            seats,
            written: None,
            going: true,
        })
    }

    /// Returns whether `merge_step` may be called: false once a step has returned anything but
    /// `Again`.
    #[inline]
    pub fn going(&self) -> bool
        ensures { result ≡ is_going self.now }
    {
        self.going
    }
}

/// Writes the end of a merged dump: the line of the greatest time of all inputs, unless there is
/// none, or `written` says that it was written last. Fails if a write does.
fn put_end<W: Sink>(seats: &[Seat], written: Option<u64>, out: &mut W) -> Result<(), WriteFailed>
    requires { (W.device out.old).failures < 2 ^ 64 - 1 }
    ensures takes { (hs : List Header) (ds : List Dump) → AreMarked hs ds seats.now
        → written ≡ last_written (merged_items ds)
        → Takes (W.device out.old) (W.device out.new) (merge_close (merged_items ds)) result }
    ensures counts { Counts (W.device out.old) (W.device out.new) result }
{
    match greatest_time(seats) {
        Some(time) => put_time_unless(written, time, out),
        None => Ok(()),
    }
}

/// Takes the next turn in `order`, with the arguments of `run_turn`, and puts its input back into
/// the order unless it has finished. Returns `Again` if some input has not finished; otherwise
/// writes the end of the merged dump and returns `Ended`. The seats then have what is kept of the
/// inputs, and `written` is the time whose line was written last. Fails at a fault of the input
/// whose turn it is, at a failed read of it, and at a failed write.
#[inline(always)]
fn run_step<S: Source, W: Sink>(
    heads: &[Head],
    order: &mut TurnOrder,
    seats: &mut [Seat],
    sources: &mut [S],
    windows: &mut Windows<'_>,
    written: &mut Option<u64>,
    out: &mut W,
) -> Result<More, Stop>
    requires reads { All (λ s. S.failures s < 2 ^ 64 - 1) sources.old }
    requires out_failures { (W.device out.old).failures < 2 ^ 64 - 1 }
    requires ready { IsReady (standing heads.now seats.old written.old sources.old windows.old) }
    requires few { length seats.old ≤ 64 }
    requires order { AllWait seats.old order.old.inputs order.old.len }
    ensures runs { Runs S.rest S.failures order.old.until
        (standing heads.now seats.old written.old sources.old windows.old)
        (standing heads.now seats.new written.new sources.new windows.new)
        (W.device out.old) (W.device out.new) result }
    ensures last { EndsAtReadOf (map S.last_failed sources.new) result }
    ensures passed_on { HasPassedOn (W.kept_back out.new) result }
    ensures order { result ≡ Ok More.Again → AllWait seats.new order.new.inputs order.new.len }
{
    let next = order.take_next(seats);
    run_turn(heads, next, seats, sources, windows, written, out)?;
    order.join(next.input, seats);
    if !order.is_empty() {
        return Ok(More::Again);
    }
    put_end(seats, *written, out)?;
    Ok(More::Ended(Done::Whole))
}

/// Returns the order in which the inputs that have not finished, of at most 64, take their turns.
/// Each turn ends at the time `until` at the latest. The seats do not change.
// They come as a `&mut`, since a proof learns nothing of what a shared borrow of a field reads.
fn order_of(seats: &mut [Seat], until: u64) -> TurnOrder
    requires { length seats.old ≤ 64 }
    ensures order { AllWait seats.old result.inputs result.len }
    ensures until { result.until ≡ until }
    ensures stay { seats.new ≡ seats.old }
{
    TurnOrder::of(seats, until)
}

/// Handles the next item of the input whose turn it is, and writes its output, or that at the end
/// of all inputs, to `out`. `sources` has one source for each input, and `windows` one part. At the
/// end of one input while others have items, nothing is written, and the input counts as finished.
/// Before a read `out` writes what it keeps back to its device; if that fails, nothing is read.
/// Returns `Again` if some input has not finished. After any other result do not call it again.
///
/// # Errors
///
/// The fault of the input whose turn it is, or a failed read of it: nothing was written.
/// `Stop::Write` if a write failed.
pub fn merge_step<S: Source, W: Sink>(
    merge: &mut Merge<'_, '_>,
    sources: &mut [S],
    windows: &mut Windows<'_>,
    out: &mut W,
) -> Result<More, Stop>
    requires reads { All (λ s. S.failures s < 2 ^ 64 - 1) sources.old }
    requires out_failures { (W.device out.old).failures < 2 ^ 64 - 1 }
    requires going { is_going merge.old ≡ true }
    requires ready { IsReady (standing_of merge.old sources.old windows.old) }
    requires bound { MergeIsWithinBound
        (part_len (length merge.old.seats.now) windows.old.tokens.now) merge.old.heads.now
        (windows_size windows.old) }
    ensures gives { (hs : List Header) (lanes : List Lane) (ds : List Dump)
        → Holds S.rest hs lanes ds (standing_of merge.old sources.old windows.old)
        → Gives S.rest hs lanes ds (standing_of merge.old sources.old windows.old)
        (standing_of merge.new sources.new windows.new)
        (W.device out.old) (W.device out.new) result }
    ensures ready { result ≡ Ok More.Again
        → IsReady (standing_of merge.new sources.new windows.new) }
    ensures lengths { (length merge.new.seats.now ≡ length merge.old.seats.now)
        × SameLengths windows.old windows.new }
    ensures heads { merge.new.heads.now ≡ merge.old.heads.now }
    ensures reads { (k : ℕ) × IsNext merge.old.seats.now k
        × (map S.failures sources.new ≡ failures_with (map S.failures sources.old) k result)
        × NamesInput k result
        × ((j : ℕ) → j ≢ k
        → (spot_at S.rest merge.new.seats.now sources.new windows.new.chunks.now windows.new.tokens.now j
        ≡ spot_at S.rest merge.old.seats.now sources.old windows.old.chunks.now windows.old.tokens.now j)
        × (slice_get sources.new j ≡ slice_get sources.old j)
        × (part (part_len (length merge.old.seats.now) windows.old.tokens.now) j windows.new.values.now
        ≡ part (part_len (length merge.old.seats.now) windows.old.tokens.now) j windows.old.values.now)) }
    ensures left { result ≡ Ok More.Again
        → left_of merge.new.seats.now < left_of merge.old.seats.now }
    ensures last { EndsAtReadOf (map S.last_failed sources.new) result }
    ensures passed_on { HasPassedOn (W.kept_back out.new) result }
    ensures writes { CountsWrites (W.device out.old) (W.device out.new) result }
    ensures going { is_going merge.new ≡ goes_on result }
{
    let mut order = order_of(merge.seats, 0);
    let answer = run_step(
        merge.heads,
        &mut order,
        merge.seats,
        sources,
        windows,
        &mut merge.written,
        out,
    );
    merge.going = matches!(answer, Ok(More::Again));
    answer
}

impl<'h, 's> Merge<'h, 's> {
    /// Handles all items that are left, to the end of the merge, writes their output to `out`, and
    /// returns `Done::Whole`. `sources` has one source for each input, and `windows` one part.
    /// `going` has to be true. Fails at a fault of an input, at a failed read, and at a failed
    /// write.
    pub fn finish<S: Source, W: Sink>(
        &mut self,
        sources: &mut [S],
        windows: &mut Windows<'_>,
        out: &mut W,
    ) -> Result<Done, Stop>
        requires reads { All (λ s. S.failures s < 2 ^ 64 - 1) sources.old }
        requires out_failures { (W.device out.old).failures < 2 ^ 64 - 1 }
        requires going { is_going self.old ≡ true }
        requires ready { IsReady (standing_of self.old sources.old windows.old) }
        requires bound { MergeIsWithinBound
            (part_len (length self.old.seats.now) windows.old.tokens.now) self.old.heads.now
            (windows_size windows.old) }

        // If the merge holds these items, and the output has what is due with them, it is the merge
        // of its inputs.
        ensures gives { (hs : List Header) (lanes : List Lane) (ds : List Dump)
            (names : List (List ℕ)) (begin : Device)
            → Holds S.rest hs lanes ds (standing_of self.old sources.old windows.old)
            → Writes begin (W.device out.old) (merge_open hs (merged_items ds))
            → Follows (part_len (length self.old.seats.now) windows.old.tokens.now)
            (part_len (length self.old.seats.now) windows.old.chunks.now) lanes names
            (map (supply S.rest S.failures) sources.old)
            (map (supply S.rest S.failures) sources.new)
            begin (W.device out.new) result }
        ensures lengths { (length self.new.seats.now ≡ length self.old.seats.now)
            × SameLengths windows.old windows.new }
        ensures reads { (k : ℕ) × (k < length sources.old)
            × (map S.failures sources.new ≡ failures_with (map S.failures sources.old) k result)
            × NamesInput k result }
        ensures last { EndsAtReadOf (map S.last_failed sources.new) result }
        ensures passed_on { HasPassedOn (W.kept_back out.new) result }
        ensures writes { CountsWrites (W.device out.old) (W.device out.new) result }
        ensures over { is_going self.new ≡ false }
    {
        let mut order = order_of(self.seats, u64::MAX);
        self.going = false;
        'items: loop {
            match run_step(
                self.heads,
                &mut order,
                self.seats,
                sources,
                windows,
                &mut self.written,
                out,
            )? {
                More::Again => {}
                More::Ended(done) => return Ok(done),
            }
        }
    }
}
