// Runs over texts, as a table has them, and dumps that several tests have.
ghost use Rattle.std.specs.Prelude.{◌≡◌, ◌≤◌, IfOk, true};
ghost use Rattle.vcdkit.specs.Job.{is_asked};

use std::alloc::{AllocError, Global};
use std::process::Abort;
use vcd_text::Watch;
use vcd_text::doubles::{Narrow, Pieces};
use vcd_words::{Words, want_of};
use vcdkit::{Job, Want, run};

// A dump with two times and two changes, and its report.
pub const DUMP: &[u8] =
    b"$timescale 1ns $end\n$var wire 1 ! clk $end\n$enddefinitions $end\n#0\n0!\n#5\n1!\n";

pub const REPORT: &[u8] =
    b"scopes 0\nvariables 1\ncodes 1\ntimes 2\nsections 0\nchanges 2\nlast 5\n";

// A header with an event, two vectors and a real, and its list.
pub const NESTED: &[u8] = b"$var event 1 % go $end\n$scope module tb $end\n$var wire 1 ! clk $end\n\
    $scope module u $end\n$var reg 4 \" q [3:0] $end\n$upscope $end\n$var real 1 # r $end\n\
    $enddefinitions $end\n";

pub const NESTED_LIST: &[u8] = b"go event 1 %\ntb.clk wire 1 !\ntb.u.q reg 4 \"\ntb.r real 1 #\n";

// A header with a scope, and how it is written.
pub const TB: &[u8] = b"$timescale 1ns $end\n$scope module tb $end\n$var wire 1 ! clk $end\n\
    $var reg 4 \" q [3:0] $end\n$upscope $end\n$enddefinitions $end\n";

pub const TB_WRITTEN: &[u8] =
    b"$timescale\n\t1ns\n$end\n$scope module tb $end\n$var wire 1 ! clk $end\n\
        $var reg 4 \" q [3:0] $end\n$upscope $end\n$enddefinitions $end\n";

// A dump of all kinds of variables, without a time scale, and its header.
pub const MIXED: &[u8] =
    b"$var wire 1 ! a $end\n$var real 1 \" r $end\n$var event 1 # e $end\n$var wire 2 % u $end\n\
        $enddefinitions $end\n\
        #9\n0!\nr1.5 \"\n1#\n#10\n1!\n1#\n#20\nr2 \"\n#21\n0!\n";

pub const MIXED_HEAD: &[u8] =
    b"$var wire 1 ! a $end\n$var real 1 \" r $end\n$var event 1 # e $end\n$var wire 2 % u $end\n\
        $enddefinitions $end\n";

// A dump whose ticks are ten nanoseconds, and its header.
pub const TENS: &[u8] = b"$timescale 10ns $end\n$var wire 1 ! a $end\n$enddefinitions $end\n\
    #0\n0!\n#1\n1!\n#2\n0!\n#3\n1!\n";

pub const TENS_HEAD: &[u8] = b"$timescale 10ns $end\n$var wire 1 ! a $end\n$enddefinitions $end\n";

pub const READ_FAILED: &[u8] = b"vcdkit: (stdin): read failed\n";

// The token limit of all runs, the smallest that is allowed, so that the windows are small.
const LIMIT: usize = 64;

// What the reader of a run gives: a text, or a text and then only failures.
#[derive(Clone, Copy)]
pub(crate) enum Input<'a> {
    Whole(&'a [u8]),
    Broken(&'a [u8]),
}

// The words of a run, what its reader gives, and the output, the message and the status that it
// leaves.
pub(crate) type Case<'a> = (Words<'a, 'a>, Input<'a>, (&'a [u8], &'a [u8], u8));

// A reader that returns the text, as much in one read as is asked for. After it each read fails if
// the input is broken.
fn reader_of(input: Input<'_>) -> Pieces<'_> {
    let (text, broken) = match input {
        Input::Whole(text) => (text, false),
        Input::Broken(text) => (text, true),
    };
    Pieces {
        broken,
        ..Pieces::new(text, usize::MAX)
    }
}

// What good words ask for.
pub(crate) fn wanted(alloc: Global, words: Words<'_, '_>) -> Result<Want, AllocError>
    ensures { IfOk result (λ want. is_asked want ≡ true) }
{
    match want_of(alloc, words) {
        Ok(want) => Ok(want),
        Err(_) => Err(AllocError),
    }
}

// What a run ends with: both streams, and the status.
#[derive(Drop)]
struct Left {
    out: Watch<Vec<u8>>,
    err: Watch<Narrow>,
    status: u8,
}

impl Left {
    // The output, the message and the status.
    fn parts(&self) -> (&[u8], &[u8], u8) {
        (&self.out.device, self.err.device.held(), self.status)
    }
}

// What a run over one input ends with.
fn run_on(
    alloc: Global,
    words: Words<'_, '_>,
    input: Input<'_>,
    chunk: usize,
) -> Result<Left, AllocError>
    requires { (1 ≤ chunk) × (chunk ≤ 65536) }
{
    let job = Job {
        task: wanted(alloc, words)?,
        limit: LIMIT,
        chunk,
    };
    let names = [String::from_str(alloc, "(stdin)")?];
    let mut readers = [Watch::new(reader_of(input))];
    let mut out = Watch::new(Vec::new(alloc));
    let mut err = Watch::new(Narrow::new(80));
    let status = run(
        alloc,
        job,
        names.as_slice(),
        readers.as_mut_slice(),
        &mut out,
        &mut err,
    );
    Ok(Left { out, err, status })
}

// Each run ends with what it has to, with any chunk.
pub(crate) fn give<R: Abort + AllocGlobal>(rt: &R, cases: &[Case<'_>]) {
    for (words, input, wanted) in cases {
        for chunk in [1, 65_536] {
            let Ok(left) = run_on(rt.alloc(), *words, *input, chunk) else {
                assert!(rt; false, "out of memory");
                return;
            };
            assert_eq!(rt; left.parts(), *wanted, "of {words:?} by {chunk}");
        }
    }
}
