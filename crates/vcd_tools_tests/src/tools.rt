// Headers that are listed, bodies that are counted, and tasks that are taken step by step.
ghost use Rattle.std.specs.Prelude.{◌≡◌, ◌-◌, ◌^◌, ◌<◌, ◌≤◌, true};
ghost use Rattle.vcd_tools.specs.Laws.KeptValues.{CutKeeps, MergeKeeps, PickKeeps};
ghost use Rattle.vcd_tools.specs.Model.Laws.{IsValid, NothingRevised};
ghost use Rattle.vcd_text.specs.Feed.{chunk_len_of, limit_of, source_of};
ghost use Rattle.vcd_text.specs.Watch.{failed_calls};
ghost use Rattle.vcd_tools.specs.Engine.{is_going, request_of};
ghost use Rattle.vcd_tools.specs.Room.{AreWithinBound, HasRoomFor, room_in, room_size, view_in};

use super::over::{FAULTY, KINDS, KINDS_CUT};
use std::alloc::Global;
use std::test::Fail;
use vcd_body::{Share, Slot};
use vcd_head::{Head, HeadFault, HeadView, read_head};
use vcd_text::doubles::Narrow;
use vcd_text::{Feed, Sink, Source, Watch};
use vcd_tools::{Done, Engine, More, Room, Stop, Task, check, laws, list, step};

const NESTED: &[u8] = b"$var event 1 % go $end\n$scope module tb $end\n$var wire 1 ! clk $end\n\
    $scope module u $end\n$var reg 4 \" q [3:0] $end\n$upscope $end\n$var real 1 # r $end\n\
    $enddefinitions $end\n";

const NESTED_LIST: &[u8] = b"go event 1 %\ntb.clk wire 1 !\ntb.u.q reg 4 \"\ntb.r real 1 #\n";

fn read(alloc: Global, text: &[u8]) -> Result<Head, HeadFault> {
    let mut source = Watch::new(text);
    let mut chunk = [0u8; 7];
    let mut token = [0u8; 64];
    let mut value = [0u8; 64];
    let mut feed = Feed::new(&mut source, &mut chunk, &mut token, &mut value);
    read_head(alloc, &mut feed, 16_777_216)
}

// Whether a list of a header has this result, and this is written.
fn is_listed(head: &Head, answer: Result<Done, Stop>, written: &[u8]) -> bool {
    let mut out = Watch::new(Narrow::new(256));
    list(head.view(), &mut out) == answer && out.device.held() == written
}

#[test]
fn a_header_is_listed(rt: HostRuntime) -> Result<(), Fail> {
    let head = read(rt.alloc(), NESTED)?;
    assert!(rt; is_listed(&head, Ok(Done::Whole), NESTED_LIST));
    Ok(())
}

// Icarus Verilog's way to write a dump.
const ICARUS: &[u8] = b"$date\n\tTue Mar  5 10:00:00 2024\n$end\n$version\n\tIcarus Verilog\n$end\n\
    $timescale\n\t1ns\n$end\n$scope module tb $end\n$var wire 8 ! data [7:0] $end\n\
    $var reg 1 \" clk $end\n$upscope $end\n$enddefinitions $end\n\
    #0\n$dumpvars\n0\"\nbx !\n$end\n#5\n1\"\nb101 !\n#10\n";

const ICARUS_COUNTS: &[u8] =
    b"scopes 1\nvariables 2\ncodes 2\ntimes 3\nsections 1\nchanges 4\nlast 10\n";

// Runs `check` over a source.
fn check_over<S: Source, W: Sink>(
    alloc: Global,
    source: &mut S,
    out: &mut W,
) -> Result<Result<Done, Stop>, HeadFault>
    requires source { S.failures source.old ≡ 0 }
    requires out { (W.device out.old).failures ≡ 0 }
{
    let mut chunk = [0u8; 7];
    let mut token = [0u8; 64];
    let mut value = [0u8; 64];
    let mut feed = Feed::new(source, &mut chunk, &mut token, &mut value);
    let head = read_head(alloc, &mut feed, 16_777_216)?;
    Ok(check(head.view(), &mut feed, out))
}

// Whether a dump has this result, and this is written.
fn is_checked(
    alloc: Global,
    text: &[u8],
    answer: Result<Done, Stop>,
    written: &[u8],
) -> Result<bool, HeadFault> {
    let mut source = Watch::new(text);
    let mut out = Watch::new(Narrow::new(256));
    let given = check_over(alloc, &mut source, &mut out)?;
    Ok(given == answer && out.device.held() == written)
}

#[test]
fn a_body_is_counted(rt: HostRuntime) -> Result<(), Fail> {
    assert!(rt; is_checked(rt.alloc(), ICARUS, Ok(Done::Whole), ICARUS_COUNTS)?);
    Ok(())
}

// What is written before the first step of a task, after each step but the last, and after the
// last one, and what that one returns; of a task that is refused as it begins, why.
#[derive(Clone, Copy)]
struct Steps<'a> {
    before: &'a [u8],
    after_each: &'a [&'a [u8]],
    last: Result<More, Stop>,
    after_last: &'a [u8],
}

// Whether an engine continues after its next step, and this is written then.
fn steps_on<S: Source>(
    engine: &mut Engine<'_, '_, '_>,
    feed: &mut Feed<'_, '_, '_, '_, S>,
    out: &mut Watch<Narrow>,
    written: &[u8],
) -> bool
    requires feed_failures { S.failures (source_of feed.old) < 2 ^ 64 - 1 }
    requires out_failures { failed_calls out.old < 2 ^ 64 - 1 }
    requires going { is_going engine.old ≡ true }
    requires bound { AreWithinBound (limit_of feed.old) (chunk_len_of feed.old)
        (view_in engine.old) (room_in engine.old) }
    ensures feed_failures { result ≡ true → S.failures (source_of feed.new) < 2 ^ 64 - 1 }
    ensures out_failures { result ≡ true → failed_calls out.new < 2 ^ 64 - 1 }
    ensures going { result ≡ true → is_going engine.new ≡ true }
    ensures bound { AreWithinBound (limit_of feed.new) (chunk_len_of feed.new)
        (view_in engine.new) (room_in engine.new) }
{
    match step(engine, feed, out) {
        Ok(More::Again) => engine.going() && out.device.held() == written,
        Ok(More::Ended(_)) | Err(_) => false,
    }
}

// Whether the next step of an engine is its last one, as these steps have it.
fn ends<S: Source>(
    engine: &mut Engine<'_, '_, '_>,
    feed: &mut Feed<'_, '_, '_, '_, S>,
    out: &mut Watch<Narrow>,
    steps: &Steps<'_>,
) -> bool
    requires feed_failures { S.failures (source_of feed.old) < 2 ^ 64 - 1 }
    requires out_failures { failed_calls out.old < 2 ^ 64 - 1 }
    requires going { is_going engine.old ≡ true }
    requires bound { AreWithinBound (limit_of feed.old) (chunk_len_of feed.old)
        (view_in engine.old) (room_in engine.old) }
{
    let last = step(engine, feed, out);
    last == steps.last && !engine.going() && out.device.held() == steps.after_last
}

// Whether an engine takes these steps, and no more.
fn takes_steps<S: Source>(
    engine: &mut Engine<'_, '_, '_>,
    feed: &mut Feed<'_, '_, '_, '_, S>,
    out: &mut Watch<Narrow>,
    steps: &Steps<'_>,
) -> bool
    requires feed_failures { S.failures (source_of feed.old) < 2 ^ 64 - 1 }
    requires out_failures { failed_calls out.old < 2 ^ 64 - 1 }
    requires going { is_going engine.old ≡ true }
    requires bound { AreWithinBound (limit_of feed.old) (chunk_len_of feed.old)
        (view_in engine.old) (room_in engine.old) }
{
    for written in steps.after_each {
        if !steps_on(engine, feed, out, written) {
            return false;
        }
    }
    ends(engine, feed, out, steps)
}

// Whether a task in this room takes these steps, and no more; or why it is refused as it begins.
fn takes_steps_in<S: Source>(
    view: HeadView<'_>,
    feed: &mut Feed<'_, '_, '_, '_, S>,
    room: Room<'_>,
    task: Task<'_>,
    steps: &Steps<'_>,
) -> Result<bool, Stop>
    requires feed_failures { S.failures (source_of feed.old) < 2 ^ 64 - 1 }
    requires valid { IsValid (request_of task) }
    requires room { HasRoomFor task view room }
    requires bound { AreWithinBound (limit_of feed.old) (chunk_len_of feed.old) view
        (room_size room) }
{
    let mut out = Watch::new(Narrow::new(256));
    let mut engine = Engine::start(task, &view, room, &mut out)?;
    Ok(
        engine.going()
            && out.device.held() == steps.before
            && takes_steps(&mut engine, feed, &mut out, steps),
    )
}

// Whether a task after a header takes these steps, and no more, in the room that it needs.
fn takes_steps_behind<S: Source>(
    alloc: Global,
    view: HeadView<'_>,
    feed: &mut Feed<'_, '_, '_, '_, S>,
    task: Task<'_>,
    steps: &Steps<'_>,
) -> Result<bool, Fail>
    requires feed_failures { S.failures (source_of feed.old) < 2 ^ 64 - 1 }
    requires valid { IsValid (request_of task) }
    requires chunk { chunk_len_of feed.old ≤ 65536 }
{
    let need = task.need(view);
    let mut values = vec![in alloc; 0u8; need.values]?;
    let mut slots = vec![in alloc; Slot::new(); need.slots]?;
    let mut shares = vec![in alloc; Share::new(); need.slots]?;
    let mut marks = vec![in alloc; 0u8; need.marks]?;
    let room = Room {
        values: &mut values,
        slots: &mut slots,
        shares: &mut shares,
        marks: &mut marks,
    };
    Ok(match takes_steps_in(view, feed, room, task, steps) {
        Ok(takes) => takes,
        Err(stop) => steps.after_each.is_empty() && steps.last == Err(stop),
    })
}

// Whether a task over a dump takes these steps, and no more.
fn takes_steps_over(
    alloc: Global,
    text: &[u8],
    task: Task<'_>,
    steps: &Steps<'_>,
) -> Result<bool, Fail>
    requires { IsValid (request_of task) }
{
    let mut source = Watch::new(text);
    let mut chunk = [0u8; 7];
    let mut token = [0u8; 64];
    let mut value = [0u8; 64];
    let mut feed = Feed::new(&mut source, &mut chunk, &mut token, &mut value);
    let head = read_head(alloc, &mut feed, 16_777_216)?;
    takes_steps_behind(alloc, head.view(), &mut feed, task, steps)
}

// A dump that ends in a vector.
const CUT_SHORT: &[u8] = b"$timescale 1ns $end\n$scope module tb $end\n$var wire 1 ! clk $end\n\
    $var reg 4 \" q [3:0] $end\n$upscope $end\n$enddefinitions $end\n\
    #0\n0!\n#5\nb10";

const CUT_SHORT_HEAD: &[u8] =
    b"$timescale\n\t1ns\n$end\n$scope module tb $end\n$var wire 1 ! clk $end\n\
        $var reg 4 \" q [3:0] $end\n$upscope $end\n$enddefinitions $end\n";

const CUT_SHORT_PICKED: &[u8] =
    b"$timescale\n\t1ns\n$end\n$scope module tb $end\n$var wire 1 ! clk $end\n\
        $var reg 4 \" q [3:0] $end\n$upscope $end\n$enddefinitions $end\n\
        #0\n0!\n";

// A task whose name selects nothing does not begin.
#[test]
fn steps_of_names_write_what_is_due(rt: HostRuntime) -> Result<(), Fail> {
    let names = [String::from_str(rt.alloc(), "tb")?];
    let steps = Steps {
        before: CUT_SHORT_HEAD,
        after_each: &[CUT_SHORT_HEAD, CUT_SHORT_PICKED, CUT_SHORT_PICKED],
        last: Err(Stop::Dump {
            input: 0,
            line: 10,
            fault: 2,
        }),
        after_last: CUT_SHORT_PICKED,
    };
    let task = Task::Pick(&names);
    assert!(rt; takes_steps_over(rt.alloc(), CUT_SHORT, task, &steps)?);
    let refused = Steps {
        before: b"",
        after_each: &[],
        last: Err(Stop::Unmatched { name: 0 }),
        after_last: b"",
    };
    assert!(rt; takes_steps_over(rt.alloc(), KINDS, task, &refused)?);
    Ok(())
}

// What is written of the cut of `KINDS` at first, with the timestamp 10, and with each change of
// that time.
const CUT: &[u8] =
    b"$var wire 1 ! a $end\n$var real 1 \" r $end\n$var event 1 # e $end\n$var wire 2 % u $end\n\
        $enddefinitions $end\n";

const CUT_BEGUN: &[u8] =
    b"$var wire 1 ! a $end\n$var real 1 \" r $end\n$var event 1 # e $end\n$var wire 2 % u $end\n\
        $enddefinitions $end\n\
        #10\n$dumpvars\n0!\nr1.5 \"\n$end\n";

const CUT_CHANGED: &[u8] =
    b"$var wire 1 ! a $end\n$var real 1 \" r $end\n$var event 1 # e $end\n$var wire 2 % u $end\n\
        $enddefinitions $end\n\
        #10\n$dumpvars\n0!\nr1.5 \"\n$end\n1!\n";

const CUT_MARKED: &[u8] =
    b"$var wire 1 ! a $end\n$var real 1 \" r $end\n$var event 1 # e $end\n$var wire 2 % u $end\n\
        $enddefinitions $end\n\
        #10\n$dumpvars\n0!\nr1.5 \"\n$end\n1!\n1#\n";

const CUT_STEPS: Steps<'static> = Steps {
    before: CUT,
    after_each: &[CUT, CUT, CUT, CUT, CUT_BEGUN, CUT_CHANGED, CUT_MARKED],
    last: Ok(More::Ended(Done::Early)),
    after_last: KINDS_CUT,
};

const CHECKED: &[u8] = b"$timescale 1ns $end $var wire 1 ! clk $end $enddefinitions $end #5 1!";

const CHECK_STEPS: Steps<'static> = Steps {
    before: b"",
    after_each: &[b"", b""],
    last: Ok(More::Ended(Done::Whole)),
    after_last: b"scopes 0\nvariables 1\ncodes 1\ntimes 1\nsections 0\nchanges 1\nlast 5\n",
};

const SAMPLE_STEPS: Steps<'static> = Steps {
    before: b"",
    after_each: &[b"", b""],
    last: Ok(More::Ended(Done::Early)),
    after_last: b"1 v 0001\n1 w -\n",
};

#[test]
fn steps_write_what_is_due(rt: HostRuntime) -> Result<(), Fail> {
    assert!(rt; takes_steps_over(rt.alloc(), CHECKED, Task::Check, &CHECK_STEPS)?);
    let cut = Task::Cut { from: 10, to: 15 };
    assert!(rt; takes_steps_over(rt.alloc(), KINDS, cut, &CUT_STEPS)?);
    let sample = Task::Sample {
        times: &[1],
        names: &[],
    };
    assert!(rt; takes_steps_over(rt.alloc(), FAULTY, sample, &SAMPLE_STEPS)?);
    Ok(())
}

// The laws on what commands write, as a caller has them.
fn laws_hold()
    ensures pick { PickKeeps }
    ensures cut { CutKeeps }
    ensures merge { MergeKeeps }
    ensures revised { NothingRevised }
{
    laws::pick_keeps();
    laws::cut_keeps();
    laws::merge_keeps();
    laws::nothing_revised();
}

#[test]
fn callers_have_the_laws() {
    laws_hold();
}
