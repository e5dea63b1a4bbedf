// Runs of the two tasks, over sources that return five bytes in each read, and devices that fail.
ghost use Rattle.std.specs.Prelude.{◌≡◌, ◌≤◌};

use crate::{Ticking, Until};
use std::alloc::Global;
use std::process::Abort;
use std::test::Fail;
use vcd_body::{Done, Stop};
use vcd_head::{HeadFault, read_head};
use vcd_run::{Task, run_to_end};
use vcd_text::doubles::{Narrow, Pieces};
use vcd_text::{Feed, Sink, Source, Watch};

// Runs a task over a source.
fn run_over<T: Task, S: Source, W: Sink>(
    alloc: Global,
    task: &mut T,
    source: &mut S,
    out: &mut W,
) -> Result<Result<Done, Stop>, HeadFault>
    requires source { S.failures source.old ≡ 0 }
    requires out { (W.device out.old).failures ≡ 0 }
    requires ready { T.is_ready task.old }
{
    let mut chunk = [0u8; 7];
    let mut token = [0u8; 64];
    let mut value = [0u8; 64];
    let mut feed = Feed::new(source, &mut chunk, &mut token, &mut value);
    let head = read_head(alloc, &mut feed, 16_777_216)?;
    Ok(run_to_end(task, head.view(), &mut feed, out))
}

// A run: a dump, whose header has one line; whether a read fails at its end; how many bytes the
// output has room for; the answer; and what is written.
#[derive(Clone, Copy)]
struct Case {
    dump: &'static [u8],
    fails: bool,
    room: usize,
    answer: Result<Done, Stop>,
    written: &'static [u8],
}

// Each of these runs of a task ends as it says.
fn end_so<R: Abort + AllocGlobal, T: Task>(rt: &R, task: &mut T, case: Case) -> Result<(), Fail>
    requires room { case.room ≤ 1024 }
    requires ready { T.is_ready task.old }
{
    let mut pieces = Pieces::new(case.dump, 5);
    pieces.broken = case.fails;
    let mut source = Watch::new(pieces);
    let mut out = Watch::new(Narrow::new(case.room));
    let answer = run_over(rt.alloc(), task, &mut source, &mut out)?;
    assert!(rt; answer == case.answer);
    assert_eq!(rt; out.device.held(), case.written);
    Ok(())
}

static TICKING: [Case; 6] = [
    Case {
        dump: b"$enddefinitions $end\n",
        fails: false,
        room: 9,
        answer: Ok(Done::Whole),
        written: b".",
    },
    Case {
        dump: b"$enddefinitions $end\n#0\n#5\n$dumpvars\n$end\n#5",
        fails: false,
        room: 9,
        answer: Ok(Done::Whole),
        written: b"ttt.",
    },
    // A time below the one before it.
    Case {
        dump: b"$enddefinitions $end\n#5\n#4\n#6\n",
        fails: false,
        room: 9,
        answer: Err(Stop::Dump {
            input: 0,
            line: 3,
            fault: 14,
        }),
        written: b"t",
    },
    Case {
        dump: b"$enddefinitions $end\n#5\n#6\n",
        fails: true,
        room: 9,
        answer: Err(Stop::Read { input: 0 }),
        written: b"tt",
    },
    // The third byte, which is that of an item or that of the end, is not taken.
    Case {
        dump: b"$enddefinitions $end\n#5\n#6\n#7\n",
        fails: false,
        room: 2,
        answer: Err(Stop::Write),
        written: b"tt",
    },
    Case {
        dump: b"$enddefinitions $end\n#5\n#6\n",
        fails: false,
        room: 2,
        answer: Err(Stop::Write),
        written: b"tt",
    },
];

static UNTIL_5: [Case; 2] = [
    Case {
        dump: b"$enddefinitions $end\n#0\n#5\n",
        fails: false,
        room: 0,
        answer: Ok(Done::Whole),
        written: b"",
    },
    Case {
        dump: b"$enddefinitions $end\n#0\n#6\n?\n",
        fails: false,
        room: 0,
        answer: Ok(Done::Early),
        written: b"",
    },
];

#[test]
fn runs_end_as_they_should(rt: HostRuntime) -> Result<(), Fail> {
    for case in &TICKING {
        end_so(&rt, &mut Ticking, *case)?;
    }
    for case in &UNTIL_5 {
        end_so(&rt, &mut Until { until: 5 }, *case)?;
    }
    Ok(())
}
