// What command lines leave over files in memory: which inputs are opened, the bytes on both
// streams, and the status.
use std::alloc::{AllocError, Global};
use vcd_program::{Left, MemoryFile, Vcdkit, run_in_memory};

// Three dumps of a variable, each with its own name; two that stop; and one on standard input.
static FILES: [MemoryFile<'static>; 5] = [
    MemoryFile {
        name: b"a.vcd",
        bytes: b"$timescale 1ns $end $var wire 1 ! a $end $enddefinitions $end #1 1!\n",
    },
    MemoryFile {
        name: b"b.vcd",
        bytes: b"$timescale 1ns $end $var wire 1 ! b $end $enddefinitions $end #2 0!\n",
    },
    MemoryFile {
        name: b"c.vcd",
        bytes: b"$timescale 1ns $end $var wire 1 ! c $end $enddefinitions $end #3 1!\n",
    },
    MemoryFile {
        name: b"bad.vcd",
        bytes: b"$var wire 1 ! bad $end\n$enddefinitions $end\n#x\n",
    },
    MemoryFile {
        name: b"late.vcd",
        bytes: b"$timescale 1ns $end $var wire 1 ! c $end\n$enddefinitions $end\n#1 1! #3 0!\n#x\n",
    },
];

const INPUT: &[u8] = b"$var real 1 ! input $end $enddefinitions $end #4 r1 !\n";

// What is on a stream: this text, or some text.
#[derive(Clone, Copy)]
enum Said {
    Just(&'static [u8]),
    Some,
}

// Words, which inputs are opened for them (standard input has no name), what is on the output and
// on the error stream, and the status.
#[derive(Clone, Copy)]
struct Row {
    words: &'static [&'static str],
    opened: &'static [Option<&'static str>],
    out: Said,
    err: Said,
    status: u8,
}

const NOTHING: Said = Said::Just(b"");

static ROWS: [Row; 25] = [
    Row {
        words: &["list"],
        opened: &[None],
        out: Said::Just(b"input real 1 !\n"),
        err: NOTHING,
        status: 0,
    },
    Row {
        words: &["list", "-i", "b.vcd"],
        opened: &[Some("b.vcd")],
        out: Said::Just(b"b wire 1 !\n"),
        err: NOTHING,
        status: 0,
    },
    Row {
        words: &["list", "b.vcd"],
        opened: &[Some("b.vcd")],
        out: Said::Just(b"b wire 1 !\n"),
        err: NOTHING,
        status: 0,
    },
    Row {
        words: &["list", "-"],
        opened: &[None],
        out: Said::Just(b"input real 1 !\n"),
        err: NOTHING,
        status: 0,
    },
    Row {
        words: &["edges", "-i", "-"],
        opened: &[None],
        out: Said::Just(b"input 0 0 0\n"),
        err: NOTHING,
        status: 0,
    },
    Row {
        words: &["check", "./-"],
        opened: &[Some("./-")],
        out: NOTHING,
        err: Said::Just(b"vcdkit: ./-: cannot be opened\n"),
        status: 3,
    },
    Row {
        words: &["cut", "a.vcd"],
        opened: &[Some("a.vcd")],
        out: Said::Just(
            b"$timescale\n\t1ns\n$end\n$var wire 1 ! a $end\n$enddefinitions $end\n\
                #0\n$dumpvars\n$end\n#1\n1!\n",
        ),
        err: NOTHING,
        status: 0,
    },
    Row {
        words: &["cut", "--from", "2ns", "a.vcd"],
        opened: &[Some("a.vcd")],
        out: Said::Just(
            b"$timescale\n\t1ns\n$end\n$var wire 1 ! a $end\n$enddefinitions $end\n\
                #2\n$dumpvars\n1!\n$end\n",
        ),
        err: NOTHING,
        status: 0,
    },
    Row {
        words: &["merge", "-", "a.vcd"],
        opened: &[None, Some("a.vcd")],
        out: Said::Just(
            b"$timescale\n\t1ns\n$end\n$scope module in1 $end\n$var real 1 ! input $end\n\
                $upscope $end\n$scope module in2 $end\n$var wire 1 \" a $end\n$upscope $end\n\
                $enddefinitions $end\n\
                #1\n1\"\n#4000000000\nr1 !\n",
        ),
        err: NOTHING,
        status: 0,
    },
    // The stored run of the program.
    Row {
        words: &["merge", "b.vcd", "a.vcd", "late.vcd"],
        opened: &[Some("b.vcd"), Some("a.vcd"), Some("late.vcd")],
        out: Said::Just(
            b"$timescale\n\t1ns\n$end\n$scope module in1 $end\n$var wire 1 ! b $end\n\
                $upscope $end\n$scope module in2 $end\n$var wire 1 \" a $end\n$upscope $end\n\
                $scope module in3 $end\n$var wire 1 # c $end\n$upscope $end\n\
                $enddefinitions $end\n\
                #1\n1\"\n1#\n#2\n0!\n#3\n0#\n",
        ),
        err: Said::Just(b"vcdkit: late.vcd:4: bad time\n"),
        status: 1,
    },
    Row {
        words: &["check", "-i", "a.vcd", "b.vcd"],
        opened: &[],
        out: NOTHING,
        err: Said::Just(
            b"error: the argument '-i <FILE>' cannot be used multiple times\n\n\
                Usage: vcdkit check [OPTIONS] [FILE]\n\n\
                For more information, try '--help'.\n",
        ),
        status: 2,
    },
    Row {
        words: &["pick", "-a"],
        opened: &[],
        out: NOTHING,
        err: Said::Just(
            b"error: unexpected argument '-a' found\n\n  \
                tip: to pass '-a' as a value, use '-- -a'\n\n\
                Usage: vcdkit pick [OPTIONS] [-i FILE] NAME...\n\n\
                For more information, try '--help'.\n",
        ),
        status: 2,
    },
    Row {
        words: &["help", "check"],
        opened: &[],
        out: NOTHING,
        err: Said::Just(
            b"error: unrecognized subcommand 'help'\n\n\
                Usage: vcdkit COMMAND [ARGUMENT...]\n\n\
                For more information, try '--help'.\n",
        ),
        status: 2,
    },
    Row {
        words: &["merge", "a.vcd", "-", "-"],
        opened: &[],
        out: NOTHING,
        err: Said::Just(b"vcdkit: standard input twice\n"),
        status: 2,
    },
    Row {
        words: &["check", "-i", "bad.vcd"],
        opened: &[Some("bad.vcd")],
        out: NOTHING,
        err: Said::Just(b"vcdkit: bad.vcd:3: bad time\n"),
        status: 1,
    },
    Row {
        words: &["check", "-i", "none.vcd"],
        opened: &[Some("none.vcd")],
        out: NOTHING,
        err: Said::Just(b"vcdkit: none.vcd: cannot be opened\n"),
        status: 3,
    },
    Row {
        words: &["merge", "c.vcd", "a.vcd", "b.vcd"],
        opened: &[Some("c.vcd"), Some("a.vcd"), Some("b.vcd")],
        out: Said::Just(
            b"$timescale\n\t1ns\n$end\n$scope module in1 $end\n$var wire 1 ! c $end\n\
                $upscope $end\n$scope module in2 $end\n$var wire 1 \" a $end\n$upscope $end\n\
                $scope module in3 $end\n$var wire 1 # b $end\n$upscope $end\n\
                $enddefinitions $end\n\
                #1\n1\"\n#2\n0#\n#3\n1!\n",
        ),
        err: NOTHING,
        status: 0,
    },
    Row {
        words: &["merge", "a.vcd", "none.vcd", "b.vcd"],
        opened: &[Some("a.vcd"), Some("none.vcd")],
        out: NOTHING,
        err: Said::Just(b"vcdkit: none.vcd: cannot be opened\n"),
        status: 3,
    },
    Row {
        words: &["cut", "--from", "5", "--to", "4", "-i", "a.vcd"],
        opened: &[],
        out: NOTHING,
        err: Said::Just(b"vcdkit: --from is above --to\n"),
        status: 2,
    },
    Row {
        words: &["check", "--token-limit", "63"],
        opened: &[],
        out: NOTHING,
        err: Said::Just(b"vcdkit: bad token limit: 63\n"),
        status: 2,
    },
    Row {
        words: &["--help"],
        opened: &[],
        out: Said::Some,
        err: NOTHING,
        status: 0,
    },
    Row {
        words: &["check", "--help"],
        opened: &[],
        out: Said::Some,
        err: NOTHING,
        status: 0,
    },
    Row {
        words: &["--version"],
        opened: &[],
        out: Said::Just(b"vcdkit 0.1.0\n"),
        err: NOTHING,
        status: 0,
    },
    Row {
        words: &["chekc"],
        opened: &[],
        out: NOTHING,
        err: Said::Some,
        status: 2,
    },
    Row {
        words: &[],
        opened: &[],
        out: NOTHING,
        err: Said::Some,
        status: 2,
    },
];

fn is_said(stream: &[u8], said: Said) -> bool {
    match said {
        Said::Just(text) => stream == text,
        Said::Some => !stream.is_empty(),
    }
}

// Whether these inputs were opened and no others, in this order.
fn are_opened(left: &Left, names: &[Option<&str>]) -> bool {
    if left.opened.len() != names.len() {
        return false;
    }
    for (place, name) in names.iter().enumerate() {
        let is_same = match (left.opened.get(place), name) {
            (Some(Some(opened)), Some(name)) => opened.as_str() == *name,
            (Some(None), None) => true,
            _ => false,
        };
        if !is_same {
            return false;
        }
    }
    true
}

fn is_as(left: &Left, row: &Row) -> bool {
    are_opened(left, row.opened)
        && is_said(left.output.as_slice(), row.out)
        && is_said(left.message.as_slice(), row.err)
        && left.status == row.status
}

// The words of a command line, the program's name before them.
pub(crate) fn words_of(alloc: Global, words: &[&str]) -> Result<Vec<String>, AllocError> {
    let mut texts = Vec::new(alloc);
    texts.push(String::from_str(alloc, "vcdkit")?)?;
    for word in words {
        texts.push(String::from_str(alloc, word)?)?;
    }
    Ok(texts)
}

// The first row that is not as expected, from 0; the number of rows if all are.
fn first_wrong(alloc: Global) -> Result<usize, AllocError> {
    for (place, row) in ROWS.iter().enumerate() {
        let words = words_of(alloc, row.words)?;
        let left = run_in_memory::<Vcdkit>(alloc, words.as_slice(), &FILES, INPUT)?;
        if !is_as(&left, row) {
            return Ok(place);
        }
    }
    Ok(ROWS.len())
}

#[test]
fn command_lines_leave_what_they_ask_for(rt: HostRuntime) {
    assert_eq!(rt; first_wrong(rt.alloc()), Ok(ROWS.len()));
}
