// Devices that give or take one, three or seven bytes in each call, and fail at only one call.
ghost use Rattle.std.specs.Prelude.{◌≡◌, ◌<◌, ◌≤◌};

use super::runs::{MIXED, MIXED_HEAD, NESTED, NESTED_LIST, READ_FAILED, TB, TB_WRITTEN, wanted};
use std::alloc::{AllocError, Global};
use std::io;
use std::io::{ErrorKind, Write};
use std::process::Abort;
use vcd_text::Watch;
use vcd_text::doubles::{MAX_HELD, Narrow, Pieces};
use vcd_words::Words;
use vcdkit::{Job, Want, run};

// No device is called more often in a run.
const MAX_CALLS: u64 = 1000;

// Takes at most this many bytes in each call, and fails at only one call, counted from 1; at none
// if that is 0.
#[derive(Drop)]
struct Sparing {
    taken: Narrow,
    most: usize,
    calls: u64,
    fails_at: u64,
}

impl Sparing {
    fn new(most: usize, fails_at: u64) -> Self {
        Sparing {
            taken: Narrow::new(MAX_HELD),
            most,
            calls: 0,
            fails_at,
        }
    }
}

impl Write for Sparing {
    fn write(&mut self, from: &[u8]) -> io::Result<usize> {
        self.calls = self.calls.saturating_add(1);
        if self.calls == self.fails_at {
            return Err(io::Error::from(ErrorKind::Other));
        }
        let n = self.most.min(from.len());
        self.taken.write_all(&from[..n])?;
        Ok(n)
    }

    fn flush(&mut self) -> io::Result<()> {
        Ok(())
    }
}

// The readers of a run: only the one that may fail, or of a merge with another one after or before
// it.
#[derive(Clone, Copy)]
enum Readers<'a> {
    Alone,
    WithSecond(&'a [u8]),
    WithFirst(&'a [u8]),
}

// A run that is to end: the parts of the dump that may fail, and what each lets be written once it
// was read; what the end lets be written; the message and the status.
struct Row<'a> {
    words: Words<'a, 'a>,
    readers: Readers<'a>,
    parts: &'a [(&'a [u8], &'a [u8])],
    closing: &'a [u8],
    message: &'a [u8],
    status: u8,
}

// How many bytes a call returns or takes, and how many a chunk has; and which call of each device
// fails, or 0 if none does.
#[derive(Clone, Copy)]
struct Plan {
    most: usize,
    chunk: usize,
    read: u64,
    out: u64,
    err: u64,
}

// What a run ends with: both streams, the status, how often the reader was called, and what it has
// still to give.
#[derive(Drop)]
struct Left {
    out: Sparing,
    err: Sparing,
    status: u8,
    reads: u64,
    ahead: usize,
}

// What fails once in each run: a read, a write of the output, a write of the message, or one of the
// message of a failed read.
#[derive(Clone, Copy, Debug)]
enum Failing {
    Read,
    Output,
    Message,
    ReadLine,
}

// The call of this number fails.
fn plan_of(failing: Failing, most: usize, chunk: usize, call: u64) -> Plan
    ensures { result.chunk ≡ chunk }
{
    let (read, out, err) = match failing {
        Failing::Read => (call, 0, 0),
        Failing::Output => (0, call, 0),
        Failing::Message => (0, 0, call),
        Failing::ReadLine => (1, 0, call),
    };
    Plan {
        most,
        chunk,
        read,
        out,
        err,
    }
}

// A reader that returns this many bytes in each call, and fails at only one call.
fn failing_at(bytes: &[u8], most: usize, call: u64) -> Pieces<'_> {
    Pieces {
        fails_at: call,
        ..Pieces::new(bytes, most)
    }
}

// What a run left, the reader that may fail among it.
fn left_of(out: Watch<Sparing>, err: Watch<Sparing>, status: u8, reader: &Pieces<'_>) -> Left {
    Left {
        out: out.device,
        err: err.device,
        status,
        reads: reader.calls,
        ahead: reader.bytes.len(),
    }
}

// Runs these words over one reader.
fn run_alone(
    alloc: Global,
    words: Words<'_, '_>,
    dump: &[u8],
    plan: Plan,
) -> Result<Left, AllocError>
    requires { (1 ≤ plan.chunk) × (plan.chunk ≤ 65536) }
{
    let want = wanted(alloc, words)?;
    let job = Job {
        task: want,
        limit: 64,
        chunk: plan.chunk,
    };
    let names = [String::from_str(alloc, "(stdin)")?];
    let mut readers = [Watch::new(failing_at(dump, plan.most, plan.read))];
    let mut out = Watch::new(Sparing::new(plan.most, plan.out));
    let mut err = Watch::new(Sparing::new(plan.most, plan.err));
    let status = run(
        alloc,
        job,
        names.as_slice(),
        readers.as_mut_slice(),
        &mut out,
        &mut err,
    );
    Ok(left_of(out, err, status, &readers[0].device))
}

// Merges two readers, each of which may fail at a call, and returns what was left, of both the
// reader at this index.
fn run_merge(
    alloc: Global,
    first: (&[u8], u64),
    second: (&[u8], u64),
    place: usize,
    plan: Plan,
) -> Result<Left, AllocError>
    requires chunk { (1 ≤ plan.chunk) × (plan.chunk ≤ 65536) }
    requires place { place < 2 }
{
    let names = [
        String::from_str(alloc, "a.vcd")?,
        String::from_str(alloc, "b.vcd")?,
    ];
    let mut readers = [
        Watch::new(failing_at(first.0, plan.most, first.1)),
        Watch::new(failing_at(second.0, plan.most, second.1)),
    ];
    let mut out = Watch::new(Sparing::new(plan.most, plan.out));
    let mut err = Watch::new(Sparing::new(plan.most, plan.err));
    let job = Job {
        task: Want::Merge,
        limit: 64,
        chunk: plan.chunk,
    };
    let status = run(
        alloc,
        job,
        names.as_slice(),
        readers.as_mut_slice(),
        &mut out,
        &mut err,
    );
    Ok(left_of(out, err, status, &readers[place].device))
}

// Runs a row over this dump, by a plan.
fn run_row(alloc: Global, row: &Row<'_>, dump: &[u8], plan: Plan) -> Result<Left, AllocError>
    requires { (1 ≤ plan.chunk) × (plan.chunk ≤ 65536) }
{
    match row.readers {
        Readers::Alone => run_alone(alloc, row.words, dump, plan),
        Readers::WithSecond(second) => run_merge(alloc, (dump, plan.read), (second, 0), 0, plan),
        Readers::WithFirst(first) => run_merge(alloc, (first, 0), (dump, plan.read), 1, plan),
    }
}

// The line of a failed read.
fn read_line(readers: Readers<'_>) -> &'static [u8] {
    match readers {
        Readers::Alone => READ_FAILED,
        Readers::WithSecond(_) => b"vcdkit: a.vcd: read failed\n",
        Readers::WithFirst(_) => b"vcdkit: b.vcd: read failed\n",
    }
}

// The whole dump of a row, and its whole output.
#[derive(Drop)]
struct Whole {
    dump: Narrow,
    output: Narrow,
}

// Writes the parts of a row.
fn write_parts(parts: &[(&[u8], &[u8])], dump: &mut Narrow, output: &mut Narrow) -> io::Result<()> {
    for (part, text) in parts {
        dump.write_all(part)?;
        output.write_all(text)?;
    }
    Ok(())
}

// Both of a row.
fn whole_of(row: &Row<'_>) -> io::Result<Whole> {
    let mut dump = Narrow::new(MAX_HELD);
    let mut output = Narrow::new(MAX_HELD);
    write_parts(row.parts, &mut dump, &mut output)?;
    output.write_all(row.closing)?;
    Ok(Whole { dump, output })
}

// How many bytes of the output are due once this many bytes of the dump were read.
fn due(parts: &[(&[u8], &[u8])], read: usize) -> usize {
    let mut end = 0usize;
    let mut length = 0usize;
    for (part, text) in parts {
        end = end.saturating_add(part.len());
        if end <= read {
            length = length.saturating_add(text.len());
        }
    }
    length
}

// Whether a run left this.
fn is_left(left: &Left, output: &[u8], message: &[u8], status: u8) -> bool {
    left.out.taken.held() == output && left.err.taken.held() == message && left.status == status
}

// How many calls there were of what fails.
fn calls_of(failing: Failing, left: &Left) -> u64 {
    match failing {
        Failing::Read => left.reads,
        Failing::Output => left.out.calls,
        Failing::Message | Failing::ReadLine => left.err.calls,
    }
}

// Whether a run without the failed call left the whole.
fn is_whole(failing: Failing, row: &Row<'_>, whole: &Whole, left: &Left) -> bool {
    match failing {
        Failing::ReadLine => is_left(left, b"", read_line(row.readers), 3),
        Failing::Read | Failing::Output | Failing::Message => {
            is_left(left, whole.output.held(), row.message, row.status)
        }
    }
}

// Whether a run with a failed read left what is due of the bytes that were read, with the read
// line.
fn is_due(row: &Row<'_>, whole: &Whole, left: &Left) -> bool {
    let read = whole.dump.held().len().saturating_sub(left.ahead);
    let length = due(row.parts, read);
    let written = left.out.taken.held();
    whole.output.held().starts_with(written)
        && written.len() == length
        && is_left(left, written, read_line(row.readers), 3)
}

// Whether a run with a failed call left what it should: after a failed write of the output a prefix
// of it, with the write line; after one of a message a prefix of that, with the same output and
// status.
fn is_right(failing: Failing, row: &Row<'_>, whole: &Whole, left: &Left) -> bool {
    let output = left.out.taken.held();
    let message = left.err.taken.held();
    match failing {
        Failing::Read => is_due(row, whole, left),
        Failing::Output => {
            whole.output.held().starts_with(output)
                && is_left(left, output, b"vcdkit: write failed\n", 3)
        }
        Failing::Message => {
            row.message.starts_with(message)
                && is_left(left, whole.output.held(), message, row.status)
        }
        Failing::ReadLine => {
            read_line(row.readers).starts_with(message) && is_left(left, b"", message, 3)
        }
    }
}

// Call 1, 2, 3, .. fails, until a run ends without a failure: returns the first one whose run left
// something else than expected, if any did.
fn wrong_call(
    alloc: Global,
    row: &Row<'_>,
    whole: &Whole,
    failing: Failing,
    most: usize,
    chunk: usize,
) -> Result<Option<u64>, AllocError>
    requires { (1 ≤ chunk) × (chunk ≤ 65536) }
{
    for call in 1..MAX_CALLS {
        let plan = plan_of(failing, most, chunk, call);
        let left = run_row(alloc, row, whole.dump.held(), plan)?;
        if calls_of(failing, &left) < call {
            let is = is_whole(failing, row, whole, &left);
            return Ok(if is { None } else { Some(call) });
        }
        if !is_right(failing, row, whole, &left) {
            return Ok(Some(call));
        }
    }
    Ok(Some(MAX_CALLS))
}

// Each call of what fails does so in turn.
fn fail_each<R: Abort + AllocGlobal>(rt: &R, row: &Row<'_>, whole: &Whole, failing: Failing) {
    for most in [1, 3, 7] {
        for chunk in 1..8 {
            let wrong = wrong_call(rt.alloc(), row, whole, failing, most, chunk);
            assert_eq!(rt; wrong, Ok(None), "{failing:?} by {most} in {chunk}");
        }
    }
}

// Each call of each device fails in turn.
fn fail_in_turn<R: Abort + AllocGlobal>(rt: &R, row: &Row<'_>) {
    let Ok(whole) = whole_of(row) else {
        assert!(rt; false, "a dump or an output is too long");
        return;
    };
    for failing in [
        Failing::Read,
        Failing::Output,
        Failing::Message,
        Failing::ReadLine,
    ] {
        fail_each(rt, row, &whole, failing);
    }
}

const CHECK_OF_A_FULL_DUMP: [(&[u8], &[u8]); 1] = [(
    b"$date\n\tTue Mar  5 10:00:00 2024\n$end\n$version\n\tIcarus Verilog\n$end\n\
        $timescale\n\t1ns\n$end\n$scope module tb $end\n$var wire 8 ! data [7:0] $end\n\
        $var reg 1 \" clk $end\n$upscope $end\n$enddefinitions $end\n\
        #0\n$dumpvars\n0\"\nbx !\n$end\n#5\n1\"\nb101 !\n#10\n",
    b"",
)];

const CHECK_TIME_GOES_BACK: [(&[u8], &[u8]); 1] = [(
    b"$timescale 1ns $end\n$scope module tb $end\n$var wire 1 ! clk $end\n\
        $var reg 4 \" q [3:0] $end\n$upscope $end\n$enddefinitions $end\n\
        #5\n#5\n1!\n#4\n",
    b"",
)];

const LIST_OF_NESTED_SCOPES_AND_KINDS: [(&[u8], &[u8]); 1] = [(NESTED, NESTED_LIST)];

const PICK_WRITES_SHORTEST_DIGITS: [(&[u8], &[u8]); 3] = [
    (TB, TB_WRITTEN),
    (b"#0\nb0010 \"\n", b"#0\nb10 \"\n"),
    (b"b1 !\n", b"1!\n"),
];

const PICK_BY_THE_SECOND_NAME_OF_A_CODE: [(&[u8], &[u8]); 5] = [
    (
        b"$scope module tb $end\n$var wire 1 ! a $end\n$scope module u $end\n\
            $var wire 1 ! b $end\n$upscope $end\n$upscope $end\n$enddefinitions $end\n",
        b"$scope module tb $end\n$scope module u $end\n$var wire 1 ! b $end\n$upscope $end\n\
            $upscope $end\n$enddefinitions $end\n",
    ),
    (b"#0\n0!\n", b"#0\n0!\n"),
    (b"#5\n1!\n", b"#5\n1!\n"),
    (b"#5\n1!\n", b"1!\n"),
    (b"#7\n", b""),
];

const PICK_OF_A_DUMP_THAT_ENDS_IN_A_VECTOR: [(&[u8], &[u8]); 3] = [
    (TB, TB_WRITTEN),
    (b"#0\n0!\n", b"#0\n0!\n"),
    (b"#5\nb10", b""),
];

const PICK_OF_A_NAME_THAT_SELECTS_NOTHING: [(&[u8], &[u8]); 2] = [
    (
        b"$scope module tb $end\n$var wire 1 ! a $end\n$scope module u $end\n\
            $var wire 1 ! b $end\n$upscope $end\n$upscope $end\n$enddefinitions $end\n",
        b"",
    ),
    (b"#0\n0!\n#5\n1!\n#5\n1!\n#7\n", b""),
];

const CUT_ENDS_AT_A_CHANGE_OF_TIME_TO: [(&[u8], &[u8]); 7] = [
    (MIXED_HEAD, MIXED_HEAD),
    (
        b"#9\n0!\nr1.5 \"\n1#\n#10\n",
        b"#10\n$dumpvars\n0!\nr1.5 \"\n$end\n",
    ),
    (b"1!\n", b"1!\n"),
    (b"1#\n", b"1#\n"),
    (b"#20\nr2 \"\n", b"#20\nr2 \"\n"),
    (b"#21\n", b""),
    (b"0!\n", b""),
];

const CUT_WRITES_THE_END_TIME: [(&[u8], &[u8]); 6] = [
    (MIXED_HEAD, MIXED_HEAD),
    (
        b"#9\n0!\nr1.5 \"\n1#\n#10\n",
        b"#10\n$dumpvars\n0!\nr1.5 \"\n$end\n",
    ),
    (b"1!\n", b"1!\n"),
    (b"1#\n", b"1#\n"),
    (b"#20\n", b"#15\n"),
    (b"r2 \"\n#21\n0!\n", b""),
];

const CUT_FAULTS_BEFORE_ITS_START_SECTION: [(&[u8], &[u8]); 2] = [
    (MIXED_HEAD, MIXED_HEAD),
    (b"#9\n0!\n?\n", b""),
];

const SAMPLE_EXTENDS_VALUES_TO_THE_LEFT: [(&[u8], &[u8]); 5] = [
    (
        b"$var wire 4 ! v $end\n$var wire 8 \" w $end\n$enddefinitions $end\n#1\n",
        b"0 v -\n0 w -\n",
    ),
    (b"b10 !\nb1 \"\n#2\n", b"1 v 0010\n1 w 00000001\n"),
    (b"bX10 !\n#3\n", b"2 v xx10\n2 w 00000001\n"),
    (b"bZx0 !\n#4\n", b"3 v zzx0\n3 w 00000001\n"),
    (b"b0x10 !\n", b""),
];

const SAMPLE_ENDS_BEFORE_A_LATER_FAULT: [(&[u8], &[u8]); 2] = [
    (
        b"$var wire 4 ! v $end\n$var wire 8 \" w $end\n$enddefinitions $end\n#1\nb1 !\n#2\n",
        b"1 v 0001\n1 w -\n",
    ),
    (b"?\n", b""),
];

const SAMPLE_WRITES_WHAT_STANDS_AT_A_FAULT: [(&[u8], &[u8]); 2] = [
    (
        b"$var wire 4 ! v $end\n$var wire 8 \" w $end\n$enddefinitions $end\n#1\nb1 !\n#2\n",
        b"1 v 0001\n1 w -\n",
    ),
    (b"?\n", b""),
];

const EDGES_WITH_SECTIONS_AND_X: [(&[u8], &[u8]); 1] = [(
    b"$timescale 1ns $end\n$scope module tb $end\n$var wire 1 ! clk $end\n\
        $var reg 4 \" q [3:0] $end\n$upscope $end\n$enddefinitions $end\n\
        #0\n$dumpvars\n0!\nb0 \"\n$end\n#1\nx!\n#2\n1!\n#3\n0!\n#4\n1!\n1!\nb1 \"\n\
        #5\n$dumpoff\nx!\nbx \"\n$end\n",
    b"",
)];

const EDGES_OF_REAL_AND_EVENT: [(&[u8], &[u8]); 1] = [(MIXED, b"")];

const EDGES_WRITES_NOTHING_AT_A_FAULT: [(&[u8], &[u8]); 1] = [(
    b"$timescale 1ns $end\n$scope module tb $end\n$var wire 1 ! clk $end\n\
        $var reg 4 \" q [3:0] $end\n$upscope $end\n$enddefinitions $end\n\
        #0\n0!\n?\n",
    b"",
)];

const OTHER_OF_MERGE_OF_ONE_FILE_TWICE_FIRST: &[u8] =
    b"$timescale 1ns $end\n$scope module tb $end\n$var wire 1 ! clk $end\n\
        $var reg 4 \" q [3:0] $end\n$upscope $end\n$enddefinitions $end\n\
        #0\n0!\n#5\n1!\n";

const MERGE_OF_ONE_FILE_TWICE_FIRST: [(&[u8], &[u8]); 4] = [
    (
        TB,
        b"$timescale\n\t1ns\n$end\n$scope module in1 $end\n$scope module tb $end\n\
            $var wire 1 ! clk $end\n$var reg 4 \" q [3:0] $end\n$upscope $end\n$upscope $end\n\
            $scope module in2 $end\n$scope module tb $end\n$var wire 1 # clk $end\n\
            $var reg 4 $ q [3:0] $end\n$upscope $end\n$upscope $end\n$enddefinitions $end\n",
    ),
    (b"#0\n0!\n", b"#0\n0!\n"),
    (b"#5\n", b"0#\n"),
    (b"1!\n", b"#5\n1!\n"),
];

const OTHER_OF_MERGE_OF_TWO_SCALES_UNTIL_A_TIME_IS_TOO_LARGE_FIRST: &[u8] =
    b"$timescale 100ps $end\n$var wire 1 ! b $end\n$enddefinitions $end\n#5\n1!\n#20\n0!\n";

const MERGE_OF_TWO_SCALES_UNTIL_A_TIME_IS_TOO_LARGE_FIRST: [(&[u8], &[u8]); 5] = [
    (
        b"$timescale 1ns $end\n$var wire 1 ! a $end\n$enddefinitions $end\n",
        b"$timescale\n\t100ps\n$end\n$scope module in1 $end\n$var wire 1 ! a $end\n$upscope $end\n\
            $scope module in2 $end\n$var wire 1 \" b $end\n$upscope $end\n$enddefinitions $end\n",
    ),
    (b"#1\n", b"#5\n1\"\n"),
    (b"1!\n", b"#10\n1!\n"),
    (b"#18446744073709551615\n", b""),
    (b"0!\n", b""),
];

const OTHER_OF_MERGE_OF_ONE_FILE_TWICE_SECOND: &[u8] =
    b"$timescale 1ns $end\n$scope module tb $end\n$var wire 1 ! clk $end\n\
        $var reg 4 \" q [3:0] $end\n$upscope $end\n$enddefinitions $end\n\
        #0\n0!\n#5\n1!\n";

const MERGE_OF_ONE_FILE_TWICE_SECOND: [(&[u8], &[u8]); 4] = [
    (
        TB,
        b"$timescale\n\t1ns\n$end\n$scope module in1 $end\n$scope module tb $end\n\
            $var wire 1 ! clk $end\n$var reg 4 \" q [3:0] $end\n$upscope $end\n$upscope $end\n\
            $scope module in2 $end\n$scope module tb $end\n$var wire 1 # clk $end\n\
            $var reg 4 $ q [3:0] $end\n$upscope $end\n$upscope $end\n$enddefinitions $end\n\
            #0\n0!\n",
    ),
    (b"#0\n0!\n", b"0#\n"),
    (b"#5\n", b"#5\n1!\n"),
    (b"1!\n", b"1#\n"),
];

const OTHER_OF_MERGE_OF_TWO_SCALES_UNTIL_A_TIME_IS_TOO_LARGE_SECOND: &[u8] =
    b"$timescale 1ns $end\n$var wire 1 ! a $end\n$enddefinitions $end\n\
        #1\n1!\n#18446744073709551615\n0!\n";

const MERGE_OF_TWO_SCALES_UNTIL_A_TIME_IS_TOO_LARGE_SECOND: [(&[u8], &[u8]); 4] = [
    (
        b"$timescale 100ps $end\n$var wire 1 ! b $end\n$enddefinitions $end\n",
        b"$timescale\n\t100ps\n$end\n$scope module in1 $end\n$var wire 1 ! a $end\n$upscope $end\n\
            $scope module in2 $end\n$var wire 1 \" b $end\n$upscope $end\n$enddefinitions $end\n",
    ),
    (b"#5\n1!\n", b"#5\n1\"\n"),
    (b"#20\n", b"#10\n1!\n"),
    (b"0!\n", b""),
];

static RUNS: [Row<'static>; 16] = [
    Row {
        words: Words::Check,
        readers: Readers::Alone,
        parts: &CHECK_OF_A_FULL_DUMP,
        closing: b"scopes 1\nvariables 2\ncodes 2\ntimes 3\nsections 1\nchanges 4\nlast 10\n",
        message: b"",
        status: 0,
    },
    Row {
        words: Words::Check,
        readers: Readers::Alone,
        parts: &CHECK_TIME_GOES_BACK,
        closing: b"",
        message: b"vcdkit: (stdin):10: time goes back\n",
        status: 1,
    },
    Row {
        words: Words::List,
        readers: Readers::Alone,
        parts: &LIST_OF_NESTED_SCOPES_AND_KINDS,
        closing: b"",
        message: b"",
        status: 0,
    },
    Row {
        words: Words::Pick(&["tb"]),
        readers: Readers::Alone,
        parts: &PICK_WRITES_SHORTEST_DIGITS,
        closing: b"",
        message: b"",
        status: 0,
    },
    Row {
        words: Words::Pick(&["tb.u.b"]),
        readers: Readers::Alone,
        parts: &PICK_BY_THE_SECOND_NAME_OF_A_CODE,
        closing: b"#7\n",
        message: b"",
        status: 0,
    },
    Row {
        words: Words::Pick(&["tb"]),
        readers: Readers::Alone,
        parts: &PICK_OF_A_DUMP_THAT_ENDS_IN_A_VECTOR,
        closing: b"",
        message: b"vcdkit: (stdin):10: unexpected end of input\n",
        status: 1,
    },
    Row {
        words: Words::Pick(&["tc"]),
        readers: Readers::Alone,
        parts: &PICK_OF_A_NAME_THAT_SELECTS_NOTHING,
        closing: b"",
        message: b"vcdkit: tc: selects nothing\n",
        status: 1,
    },
    Row {
        words: Words::Cut("10", "20"),
        readers: Readers::Alone,
        parts: &CUT_ENDS_AT_A_CHANGE_OF_TIME_TO,
        closing: b"",
        message: b"",
        status: 0,
    },
    Row {
        words: Words::Cut("10", "15"),
        readers: Readers::Alone,
        parts: &CUT_WRITES_THE_END_TIME,
        closing: b"",
        message: b"",
        status: 0,
    },
    Row {
        words: Words::Cut("30", "40"),
        readers: Readers::Alone,
        parts: &CUT_FAULTS_BEFORE_ITS_START_SECTION,
        closing: b"",
        message: b"vcdkit: (stdin):8: unknown command\n",
        status: 1,
    },
    Row {
        words: Words::Sample("0,1,2,3,4", None),
        readers: Readers::Alone,
        parts: &SAMPLE_EXTENDS_VALUES_TO_THE_LEFT,
        closing: b"4 v 0x10\n4 w 00000001\n",
        message: b"",
        status: 0,
    },
    Row {
        words: Words::Sample("1", None),
        readers: Readers::Alone,
        parts: &SAMPLE_ENDS_BEFORE_A_LATER_FAULT,
        closing: b"",
        message: b"",
        status: 0,
    },
    Row {
        words: Words::Sample("1,2", None),
        readers: Readers::Alone,
        parts: &SAMPLE_WRITES_WHAT_STANDS_AT_A_FAULT,
        closing: b"",
        message: b"vcdkit: (stdin):7: unknown command\n",
        status: 1,
    },
    Row {
        words: Words::Edges(None),
        readers: Readers::Alone,
        parts: &EDGES_WITH_SECTIONS_AND_X,
        closing: b"tb.clk 5 1 1\ntb.q 2 1 0\n",
        message: b"",
        status: 0,
    },
    Row {
        words: Words::Edges(None),
        readers: Readers::Alone,
        parts: &EDGES_OF_REAL_AND_EVENT,
        closing: b"a 2 1 1\nr 1 0 0\ne 2 0 0\nu 0 0 0\n",
        message: b"",
        status: 0,
    },
    Row {
        words: Words::Edges(None),
        readers: Readers::Alone,
        parts: &EDGES_WRITES_NOTHING_AT_A_FAULT,
        closing: b"",
        message: b"vcdkit: (stdin):9: unknown command\n",
        status: 1,
    },
];

#[test]
fn runs_with_failing_devices(rt: HostRuntime) {
    for row in &RUNS {
        fail_in_turn(&rt, row);
    }
}

static MERGES: [Row<'static>; 4] = [
    Row {
        words: Words::Merge(&[]),
        readers: Readers::WithSecond(OTHER_OF_MERGE_OF_ONE_FILE_TWICE_FIRST),
        parts: &MERGE_OF_ONE_FILE_TWICE_FIRST,
        closing: b"1#\n",
        message: b"",
        status: 0,
    },
    Row {
        words: Words::Merge(&[]),
        readers: Readers::WithSecond(OTHER_OF_MERGE_OF_TWO_SCALES_UNTIL_A_TIME_IS_TOO_LARGE_FIRST),
        parts: &MERGE_OF_TWO_SCALES_UNTIL_A_TIME_IS_TOO_LARGE_FIRST,
        closing: b"",
        message: b"vcdkit: a.vcd:6: time too large\n",
        status: 1,
    },
    Row {
        words: Words::Merge(&[]),
        readers: Readers::WithFirst(OTHER_OF_MERGE_OF_ONE_FILE_TWICE_SECOND),
        parts: &MERGE_OF_ONE_FILE_TWICE_SECOND,
        closing: b"",
        message: b"",
        status: 0,
    },
    Row {
        words: Words::Merge(&[]),
        readers: Readers::WithFirst(OTHER_OF_MERGE_OF_TWO_SCALES_UNTIL_A_TIME_IS_TOO_LARGE_SECOND),
        parts: &MERGE_OF_TWO_SCALES_UNTIL_A_TIME_IS_TOO_LARGE_SECOND,
        closing: b"",
        message: b"vcdkit: a.vcd:6: time too large\n",
        status: 1,
    },
];

#[test]
fn merges_with_an_input_that_fails(rt: HostRuntime) {
    for row in &MERGES {
        fail_in_turn(&rt, row);
    }
}
