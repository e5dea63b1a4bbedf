//! A whole strobe over a body.
ghost use Rattle.std.specs.Prelude.{◌≡◌, ◌↔◌, ℕ, ◌-◌, ◌^◌, ◌<◌, ◌≤◌, List, [], length};
ghost use Rattle.vcd_model.specs.Header.{Header};
ghost use Rattle.vcd_model.specs.Input.{Input};
ghost use Rattle.vcd_model.specs.Strobe.{Clock as ModelClock, bare, edges_in, strobe_head, time_code};
ghost use Rattle.vcd_model.specs.Tokens.{Token};
ghost use Rattle.vcd_text.specs.Advances.{HasNotFailed};
ghost use Rattle.vcd_text.specs.Device.{Counts, Puts, Takes};
ghost use Rattle.vcd_text.specs.Feed.{HasGiven, chunk_len_of, limit_of, seen, source_of, supply_of};
ghost use Rattle.vcd_view.specs.Views.{IsViewOf};
ghost use Rattle.vcd_head.specs.Marks.{marks_of};
ghost use Rattle.vcd_body.specs.Answer.{EndsAtRead};
ghost use Rattle.vcd_body.specs.Prompt.{HasPassedOn};
ghost use Rattle.vcd_run.specs.Run.{BodyGives, CountsBoth, ReadsNeeded, SameWindows, left_of};
ghost use Rattle.vcd_strobe.specs.Heads.{variable_lines};
ghost use Rattle.vcd_strobe.specs.Strobes.{HasStrobed, strobe_plan};

use crate::whole::Strobe;
use vcd_body::{Done, Stop};
use vcd_head::put_head;
use vcd_run::run_to_end;
use vcd_text::{Feed, Sink, Source, WriteFailed, put};
use vcd_view::HeadView;

/// Writes the variable of the time of an edge, which has this code, in its scope.
fn put_variable<W: Sink>(id: &[u8], out: &mut W) -> Result<(), WriteFailed>
    requires { (W.device out.old).failures < 2 ^ 64 - 1 }
    ensures { Puts (W.device out.old) (W.device out.new) (variable_lines id.now) result }
{
    put(out, b"$scope module strobe $end\n$var time 64 ")?;
    put(out, id)?;
    put(out, b" time $end\n$upscope $end\n")
}

/// Returns the header without date, version and time scale.
fn bare(view: HeadView<'_>) -> HeadView<'_>
    ensures { (h : Header) → IsViewOf view.entry h → IsViewOf result (bare h) }
{
    HeadView {
        text: view.text,
        rows: view.rows,
        codes: view.codes,
        index: view.index,
        entries: view.entries,
        seed: view.seed,
        date: &[],
        version: &[],
        scale: None,
    }
}

/// Writes the head of a strobe of the marked variables: those with 1 in `marks`. `id` is the code
/// of the time of an edge. If a write fails, a prefix was written.
fn put_strobe_head<W: Sink>(
    view: HeadView<'_>,
    marks: &[u8],
    id: &[u8],
    out: &mut W,
) -> Result<(), WriteFailed>
    requires failures { (W.device out.old).failures < 2 ^ 64 - 1 }
    ensures takes { (h : Header) (names : List (List ℕ)) → IsViewOf view.entry h
        → marks.now ≡ marks_of names h.declarations → id.now ≡ (time_code h).text
        → Takes (W.device out.old) (W.device out.new) (strobe_head h names) result }
    ensures counts { Counts (W.device out.old) (W.device out.new) result }
{
    put_variable(id, out)?;
    put_head(bare(view), marks, out)
}

/// Writes the head of a strobe of the variables that are marked (have 1 in `marks`, as `select`
/// sets them), and the lines of all edges of the body that follows the header of `view`. `strobe`
/// is one before the first item. Once the body was read to its end, its `edges` are 0 if and only
/// if there was no edge.
///
/// # Errors
///
/// The first fault of the body, a failed read, or `Stop::Write` if a write failed.
pub fn strobe<S: Source, W: Sink>(
    view: HeadView<'_>,
    feed: &mut Feed<'_, '_, '_, '_, S>,
    strobe: &mut Strobe<'_>,
    marks: &[u8],
    out: &mut W,
) -> Result<Done, Stop>
    requires feed_failures { S.failures (source_of feed.old) < 2 ^ 64 - 1 }
    requires out_failures { (W.device out.old).failures < 2 ^ 64 - 1 }
    requires open { HasNotFailed feed.old }
    requires ready { strobe.old.count ≤ length strobe.old.listed.now }
    ensures gives { (h : Header) (names : List (List ℕ)) (ks : List ModelClock) (i : Input)
        (front : List Token) → IsViewOf view.entry h → marks.now ≡ marks_of names h.declarations
        → HasStrobed strobe.old (strobe_plan ks h names) h [] → HasGiven i front feed.old
        → BodyGives (λ items _. strobe.new.edges ≡ 0 ↔ edges_in ks items ≡ [])
        (strobe_plan ks h names) h i front (limit_of feed.old)
        (seen feed.new) (W.device out.old) (W.device out.new) result }
    ensures needed { (h : Header) (names : List (List ℕ)) (ks : List ModelClock) (i : Input)
        (front : List Token) → IsViewOf view.entry h → marks.now ≡ marks_of names h.declarations
        → HasStrobed strobe.old (strobe_plan ks h names) h [] → HasGiven i front feed.old
        → ReadsNeeded (strobe_plan ks h names) h (limit_of feed.old) (chunk_len_of feed.old) i
        (left_of i (seen feed.new) result) front (supply_of feed.old) (supply_of feed.new)
        (W.device out.old) (W.device out.new) }

    // A failed read or write is counted, and is the last call of its device. No other is.
    ensures devices { CountsBoth S.failures feed.old feed.new
        (W.device out.old) (W.device out.new) result }
    ensures last { EndsAtRead (S.last_failed (source_of feed.new)) result }
    ensures windows { SameWindows feed.old feed.new }

    // If a read fails, the sink keeps nothing back of the output that was due before that read.
    ensures passed_on { HasPassedOn (W.kept_back out.new) result }
{
    put_strobe_head(view, marks, strobe.id, out)?;
    run_to_end(strobe, view, feed, out)
}
