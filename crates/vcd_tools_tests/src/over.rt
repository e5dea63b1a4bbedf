// Tasks that are run over a dump, in the room that they need.
ghost use Rattle.std.specs.Prelude.{◌≡◌, ◌-◌, ◌^◌, ◌<◌, ◌≤◌};
ghost use Rattle.vcd_tools.specs.Model.Laws.{IsValid};
ghost use Rattle.vcd_text.specs.Advances.{HasNotFailed};
ghost use Rattle.vcd_text.specs.Feed.{chunk_len_of, limit_of, source_of};
ghost use Rattle.vcd_tools.specs.Engine.{request_of};
ghost use Rattle.vcd_tools.specs.Room.{AreWithinBound, HasRoomFor, room_size};

use std::alloc::{AllocError, Global};
use std::test::Fail;
use vcd_body::{Share, Slot};
use vcd_head::{HeadFault, HeadView, read_head};
use vcd_text::doubles::Narrow;
use vcd_text::{Feed, Sink, Source, Watch};
use vcd_tools::{Done, Room, Stop, Task, cut, edges, pick, sample};

// Runs a task after a header, by its function, in the room that it needs. A check has no room: its
// tests call it themselves, and nothing is run for it here.
fn run_behind<S: Source, W: Sink>(
    alloc: Global,
    view: HeadView<'_>,
    feed: &mut Feed<'_, '_, '_, '_, S>,
    task: Task<'_>,
    out: &mut W,
) -> Result<Result<Done, Stop>, AllocError>
    requires feed_failures { S.failures (source_of feed.old) < 2 ^ 64 - 1 }
    requires out_failures { (W.device out.old).failures < 2 ^ 64 - 1 }
    requires open { HasNotFailed feed.old }
    requires valid { IsValid (request_of task) }
    requires chunk { chunk_len_of feed.old ≤ 65536 }
{
    let need = task.need(view);
    let mut values = vec![in alloc; 0u8; need.values]?;
    let mut slots = vec![in alloc; Slot::new(); need.slots]?;
    let mut shares = vec![in alloc; Share::new(); need.slots]?;
    let mut marks = vec![in alloc; 0u8; need.marks]?;
    let room = Room {
        values: &mut values,
        slots: &mut slots,
        shares: &mut shares,
        marks: &mut marks,
    };
    Ok(match task {
        Task::Check => Ok(Done::Early),
        Task::Pick(names) => pick(view, feed, room, names, out),
        Task::Cut { from, to } => cut(view, feed, room, from, to, out),
        Task::Sample { times, names } => sample(view, feed, room, times, names, out),
        Task::Edges(names) => edges(view, feed, room, names, out),
    })
}

// Runs a task over a source.
fn run_over<S: Source, W: Sink>(
    alloc: Global,
    source: &mut S,
    task: Task<'_>,
    out: &mut W,
) -> Result<Result<Done, Stop>, HeadFault>
    requires source { S.failures source.old ≡ 0 }
    requires out { (W.device out.old).failures ≡ 0 }
    requires valid { IsValid (request_of task) }
{
    let mut chunk = [0u8; 7];
    let mut token = [0u8; 64];
    let mut value = [0u8; 64];
    let mut feed = Feed::new(source, &mut chunk, &mut token, &mut value);
    let head = read_head(alloc, &mut feed, 16_777_216)?;
    Ok(run_behind(alloc, head.view(), &mut feed, task, out)?)
}

// Whether a task over a dump has this result, and this is written.
fn is_run(
    alloc: Global,
    text: &[u8],
    task: Task<'_>,
    answer: Result<Done, Stop>,
    written: &[u8],
) -> Result<bool, HeadFault>
    requires { IsValid (request_of task) }
{
    let mut source = Watch::new(text);
    let mut out = Watch::new(Narrow::new(256));
    let given = run_over(alloc, &mut source, task, &mut out)?;
    Ok(given == answer && out.device.held() == written)
}

// A clock and four bits in a scope, and changes of both whose last digits can be left out.
const CLOCKED: &[u8] = b"$timescale 1ns $end\n$scope module tb $end\n$var wire 1 ! clk $end\n\
    $var reg 4 \" q [3:0] $end\n$upscope $end\n$enddefinitions $end\n\
    #0\nb0010 \"\nb1 !\n";

const CLOCK_PICKED: &[u8] =
    b"$timescale\n\t1ns\n$end\n$scope module tb $end\n$var wire 1 ! clk $end\n$upscope $end\n\
        $enddefinitions $end\n\
        #0\n1!\n";

#[test]
fn a_pick_has_its_dump(rt: HostRuntime) -> Result<(), Fail> {
    let names = [String::from_str(rt.alloc(), "tb.clk")?];
    let task = Task::Pick(&names);
    assert!(rt; is_run(rt.alloc(), CLOCKED, task, Ok(Done::Whole), CLOCK_PICKED)?);
    Ok(())
}

// A value of each kind, and one that is never set.
pub(crate) const KINDS: &[u8] =
    b"$var wire 1 ! a $end\n$var real 1 \" r $end\n$var event 1 # e $end\n$var wire 2 % u $end\n\
        $enddefinitions $end\n\
        #9\n0!\nr1.5 \"\n1#\n#10\n1!\n1#\n#20\nr2 \"\n#21\n0!\n";

pub(crate) const KINDS_CUT: &[u8] =
    b"$var wire 1 ! a $end\n$var real 1 \" r $end\n$var event 1 # e $end\n$var wire 2 % u $end\n\
        $enddefinitions $end\n\
        #10\n$dumpvars\n0!\nr1.5 \"\n$end\n1!\n1#\n#15\n";

// A dump with a word that is no item after its second timestamp.
pub(crate) const FAULTY: &[u8] =
    b"$var wire 4 ! v $end\n$var wire 8 \" w $end\n$enddefinitions $end\n#1\nb1 !\n#2\n?\n";

#[test]
fn a_cut_and_a_sample_end_early(rt: HostRuntime) -> Result<(), Fail> {
    let early = Ok(Done::Early);
    let cut = Task::Cut { from: 10, to: 15 };
    assert!(rt; is_run(rt.alloc(), KINDS, cut, early, KINDS_CUT)?);
    let sample = Task::Sample {
        times: &[1],
        names: &[],
    };
    assert!(rt; is_run(rt.alloc(), FAULTY, sample, early, b"1 v 0001\n1 w -\n")?);
    Ok(())
}

// A value of each kind, an alias, digits that are written in two ways, and a trigger of an event in
// a section.
const ALIASED: &[u8] =
    b"$var wire 2 ! a $end\n$var wire 2 ! b $end\n$var real 1 \" r $end\n$var event 1 # e $end\n\
        $var wire 2 % u $end\n$enddefinitions $end\n\
        #9\n$dumpvars\nb0 !\nr1.5 \"\n1#\n$end\n#10\nb01 !\n1#\n#20\nr2 \"\nb1 !\n#21\nb00 !\n1#\n";

const ALIASED_EDGES: &[u8] = b"a 2 1 1\nb 2 1 1\nr 1 0 0\ne 2 0 0\nu 0 0 0\n";

#[test]
fn edges_are_counted(rt: HostRuntime) -> Result<(), Fail> {
    let task = Task::Edges(&[]);
    assert!(rt; is_run(rt.alloc(), ALIASED, task, Ok(Done::Whole), ALIASED_EDGES)?);
    Ok(())
}
