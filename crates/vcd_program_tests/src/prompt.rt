// A program that is given one step at a time: before it reads on, it has written what is due.
ghost use Rattle.std.specs.Prelude.{ℕ, List, Option, Result};
ghost use Rattle.vcd_host.specs.declared.host.OpenFault.{OpenFault};

use super::command_lines::words_of;
use std::alloc::{AllocError, Global};
use std::cell::Cell;
use std::hash::{BuildHasherDefault, FoldHasher};
use std::io;
use std::io::{Read, Write};
use vcd_host::{Buffered, Host, OpenFault};
use vcd_program::{Vcdkit, run_program};
use vcd_text::Watch;

// The bytes of a step, and the text that is due with them.
type Step = (&'static [u8], &'static [u8]);

// What both devices note: how many bytes are due by the steps so far, how many were written, how
// many reads there were, and before how many of these the two counts differed.
#[derive(Drop)]
struct Log {
    due: Cell<usize>,
    written: Cell<usize>,
    reads: Cell<usize>,
    late: Cell<usize>,
}

impl Log {
    fn new() -> Log {
        Log {
            due: Cell::new(0),
            written: Cell::new(0),
            reads: Cell::new(0),
            late: Cell::new(0),
        }
    }
}

// Adds to a count.
fn add(count: &Cell<usize>, more: usize) {
    count.set(count.get().saturating_add(more));
}

// Gives a step a read.
#[derive(Drop)]
struct Steps<'a> {
    steps: &'a [Step],
    given: usize,
    log: &'a Log,
}

impl Read for Steps<'_> {
    fn read(&mut self, into: &mut [u8]) -> io::Result<usize> {
        let log = self.log;
        add(&log.reads, 1);
        if log.written.get() != log.due.get() {
            add(&log.late, 1);
        }
        let Some((bytes, text)) = self.steps.get(self.given) else {
            return Ok(0);
        };
        let n = bytes.len().min(into.len());
        into[..n].copy_from_slice(&bytes[..n]);
        add(&log.due, text.len());
        self.given = self.given.saturating_add(1);
        Ok(n)
    }
}

// Counts what it is given.
#[derive(Drop)]
struct Written<'a> {
    log: &'a Log,
}

impl Write for Written<'_> {
    fn write(&mut self, from: &[u8]) -> io::Result<usize> {
        add(&self.log.written, from.len());
        Ok(from.len())
    }

    fn flush(&mut self) -> io::Result<()> {
        Ok(())
    }
}

// Its standard input returns the steps.
#[derive(Drop)]
struct Live<'a> {
    steps: &'a [Step],
    log: &'a Log,
}

impl<'a> Host for Live<'a> {
    type Input = Watch<Steps<'a>>;

    ghost opens = { λ _ _ _ _. Unit {0} };

    fn open(&mut self, _name: Option<&str>) -> Result<Watch<Steps<'a>>, OpenFault> {
        Ok(Watch::new(Steps {
            steps: self.steps,
            given: 0,
            log: self.log,
        }))
    }
}

// Runs these words over these steps, and returns the status.
fn run_live(alloc: Global, words: &[&str], steps: &[Step], log: &Log) -> Result<u8, AllocError> {
    let words = words_of(alloc, words)?;
    let mut host = Live { steps, log };
    let mut out = Buffered::new(alloc, Written { log })?;
    let mut err = Watch::new(Vec::new(alloc));
    let hasher: BuildHasherDefault<FoldHasher> = BuildHasherDefault::new();
    Ok(run_program::<Vcdkit, _, _, _, _>(
        alloc,
        words.as_slice(),
        &mut host,
        &mut out,
        &mut err,
        &hasher,
    ))
}

// The status, how many reads there were, and before how many of them something else was written
// than what is due.
fn reads_of(
    alloc: Global,
    words: &[&str],
    steps: &[Step],
) -> Result<(u8, usize, usize), AllocError> {
    let log = Log::new();
    let status = run_live(alloc, words, steps, &log)?;
    Ok((status, log.reads.get(), log.late.get()))
}

const HEAD: &[u8] = b"$timescale 1ns $end\n$var wire 1 ! a $end\n$var wire 8 \" b $end\n\
    $enddefinitions $end\n";

const HEAD_WRITTEN: &[u8] = b"$timescale\n\t1ns\n$end\n$var wire 1 ! a $end\n\
    $var wire 8 \" b $end\n$enddefinitions $end\n";

// A step of many lines, which are written as they are.
const LINES: &[u8] =
    b"#11\n0!\n1!\n#12\n0!\n1!\n#13\n0!\n1!\n#14\n0!\n1!\n#15\n0!\n1!\n#16\n0!\n1!\n\
    #17\n0!\n1!\n#18\n0!\n1!\n#19\n0!\n1!\n#20\n0!\n1!\n#21\n0!\n1!\n#22\n0!\n1!\n";

const PICK: [Step; 10] = [
    (HEAD, HEAD_WRITTEN),
    (
        b"#0\n$dumpvars\n0!\nb0 \"\n$end\n",
        b"#0\n$dumpvars\n0!\nb0 \"\n$end\n",
    ),
    (b"#5\n", b""),
    (b"1!\n", b"#5\n1!\n"),
    (b"b00000101 \"\n", b"b101 \"\n"),
    (b"$comment none $end\n", b""),
    (b"#7\n1!\n0!\n", b"#7\n1!\n0!\n"),
    (b"#9\nb1", b""),
    (b"1 \"\n", b"#9\nb11 \"\n"),
    (LINES, LINES),
];

// Its last step ends the run.
const CUT: [Step; 6] = [
    (HEAD, HEAD_WRITTEN),
    (b"#0\n0!\nb0 \"\n", b""),
    (b"#5\n", b"#5\n$dumpvars\n0!\nb0 \"\n$end\n"),
    (b"1!\n#6\n", b"1!\n"),
    (b"b1 \"\n", b"#6\nb1 \"\n"),
    (b"#8\n", b"#7\n"),
];

// Its last step ends the run.
const SAMPLE: [Step; 5] = [
    (HEAD, b""),
    (b"#0\n0!\n", b""),
    (b"#5\n", b"0 a 0\n0 b -\n"),
    (b"1!\nb10 \"\n", b""),
    (b"#6\n", b"5 a 1\n5 b 00000010\n"),
];

const MERGED: &[u8] = b"$timescale\n\t1ns\n$end\n$scope module in1 $end\n$var wire 1 ! a $end\n\
    $var wire 8 \" b $end\n$upscope $end\n$enddefinitions $end\n";

const MERGE: [Step; 7] = [
    (HEAD, MERGED),
    (b"#0\n$dumpvars\n0!\nb0 \"\n$end\n", b"#0\n0!\nb0 \"\n"),
    (b"#5\n", b""),
    (b"1!\n", b"#5\n1!\n"),
    (b"#9\nb1", b""),
    (b"1 \"\n", b"#9\nb11 \"\n"),
    (b"#12\n", b""),
];

// Words, the steps, and how many reads there are.
static RUNS: [(&[&str], &[Step], usize); 4] = [
    (&["pick", "a", "b"], &PICK, 11),
    (&["cut", "--from", "5", "--to", "7"], &CUT, 6),
    (&["sample", "--at", "0,5"], &SAMPLE, 5),
    (&["merge", "-"], &MERGE, 8),
];

#[test]
fn what_is_due_is_written_before_the_next_read(rt: HostRuntime) {
    for (words, steps, reads) in &RUNS {
        let left = reads_of(rt.alloc(), words, steps);
        assert_eq!(rt; left, Ok((0, *reads, 0)), "of {words:?}");
    }
}
