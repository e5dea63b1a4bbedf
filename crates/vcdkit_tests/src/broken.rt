// A whole dump, and readers that fail after a text. (extras/tests/runs.console has whole dumps.)
use super::runs::{
    Case, DUMP, Input, MIXED, MIXED_HEAD, NESTED, NESTED_LIST, READ_FAILED, REPORT, TB, TB_WRITTEN,
    TENS, TENS_HEAD, give,
};
use vcd_words::Words;

// A dump that ends after a change, and what is written of it.
const CHANGED: &[u8] = b"$timescale 1ns $end\n$scope module tb $end\n$var wire 1 ! clk $end\n\
    $var reg 4 \" q [3:0] $end\n$upscope $end\n$enddefinitions $end\n\
    #0\n0!\n";

const CHANGED_WRITTEN: &[u8] =
    b"$timescale\n\t1ns\n$end\n$scope module tb $end\n$var wire 1 ! clk $end\n\
        $var reg 4 \" q [3:0] $end\n$upscope $end\n$enddefinitions $end\n\
        #0\n0!\n";

// A dump with a change before its first timestamp, and its cut from 0 to 5.
const UNMARKED: &[u8] =
    b"$var wire 1 ! a $end\n$var real 1 \" r $end\n$var event 1 # e $end\n$var wire 2 % u $end\n\
        $enddefinitions $end\n\
        1!\n#0\n0!\n#9\n";

const UNMARKED_CUT: &[u8] =
    b"$var wire 1 ! a $end\n$var real 1 \" r $end\n$var event 1 # e $end\n$var wire 2 % u $end\n\
        $enddefinitions $end\n\
        #0\n$dumpvars\n$end\n1!\n0!\n#5\n";

const ABOVE: &[u8] = b"vcdkit: --from is above --to\n";

const FALLING: &[u8] = b"vcdkit: times must rise\n";

const NO_SCALE: &[u8] = b"vcdkit: (stdin): no timescale\n";

const OUT_OF_RANGE: &[u8] = b"vcdkit: time out of range\n";

static RUNS: [Case<'static>; 26] = [
    (Words::Check, Input::Whole(DUMP), (REPORT, b"", 0)),
    // A read fails.
    (Words::Check, Input::Broken(DUMP), (b"", READ_FAILED, 3)),
    // Nothing is read after the header.
    (Words::List, Input::Broken(NESTED), (NESTED_LIST, b"", 0)),
    // A name that selects nothing counts before the body. What comes before a failed read is
    // written, and nothing of a change whose read fails.
    (
        Words::Pick(&["tb.zz"]),
        Input::Broken(TB),
        (b"", b"vcdkit: tb.zz: selects nothing\n", 1),
    ),
    (
        Words::Pick(&["tb"]),
        Input::Broken(CHANGED),
        (CHANGED_WRITTEN, READ_FAILED, 3),
    ),
    (
        Words::Pick(&["tb"]),
        Input::Broken(
            b"$timescale 1ns $end\n$scope module tb $end\n$var wire 1 ! clk $end\n\
            $var reg 4 \" q [3:0] $end\n$upscope $end\n$enddefinitions $end\n\
            #0\n0!",
        ),
        (TB_WRITTEN, READ_FAILED, 3),
    ),
    (
        Words::Cut("30", "40"),
        Input::Broken(MIXED),
        (MIXED_HEAD, READ_FAILED, 3),
    ),
    // Nothing is read after the timestamp past its end.
    (
        Words::Cut("0", "5"),
        Input::Broken(UNMARKED),
        (UNMARKED_CUT, b"", 0),
    ),
    // Times are refused once the header is read.
    (
        Words::Cut("11ns", "14ns"),
        Input::Broken(TENS_HEAD),
        (b"", ABOVE, 2),
    ),
    (
        Words::Cut("3", "29ns"),
        Input::Broken(TENS_HEAD),
        (b"", ABOVE, 2),
    ),
    (
        Words::Cut("10ns", "20ns"),
        Input::Broken(MIXED_HEAD),
        (b"", NO_SCALE, 1),
    ),
    (
        Words::Cut("20ns", "10"),
        Input::Broken(MIXED_HEAD),
        (b"", NO_SCALE, 1),
    ),
    (
        Words::Cut("20", "10s"),
        Input::Broken(MIXED_HEAD),
        (b"", NO_SCALE, 1),
    ),
    (
        Words::Cut("184467440738s", "0"),
        Input::Broken(TENS_HEAD),
        (b"", OUT_OF_RANGE, 2),
    ),
    (
        Words::Cut("0", "18446744073709551615s"),
        Input::Broken(TENS_HEAD),
        (b"", OUT_OF_RANGE, 2),
    ),
    (
        Words::Sample("9,30", None),
        Input::Broken(MIXED),
        (b"9 a 0\n9 r r1.5\n9 u -\n", READ_FAILED, 3),
    ),
    // Nothing is read after the timestamp past its last time.
    (
        Words::Sample("0,25ns", None),
        Input::Broken(TENS),
        (b"0 a 0\n2 a 0\n", b"", 0),
    ),
    // Times are refused once the header is read, before names.
    (
        Words::Sample("11ns,12ns", None),
        Input::Broken(TENS_HEAD),
        (b"", FALLING, 2),
    ),
    (
        Words::Sample("3,29ns", None),
        Input::Broken(TENS_HEAD),
        (b"", FALLING, 2),
    ),
    (
        Words::Sample("2,1ns,0", Some(&["zz"])),
        Input::Broken(TENS_HEAD),
        (b"", FALLING, 2),
    ),
    (
        Words::Sample("18446744073709551615s", None),
        Input::Broken(TENS_HEAD),
        (b"", OUT_OF_RANGE, 2),
    ),
    (
        Words::Sample("5,184467440738s,0", None),
        Input::Broken(TENS_HEAD),
        (b"", OUT_OF_RANGE, 2),
    ),
    (
        Words::Sample("10ns", None),
        Input::Broken(MIXED_HEAD),
        (b"", NO_SCALE, 1),
    ),
    (
        Words::Sample("20,10s", None),
        Input::Broken(MIXED_HEAD),
        (b"", NO_SCALE, 1),
    ),
    (
        Words::Sample("9ns,5", Some(&["zz"])),
        Input::Broken(MIXED_HEAD),
        (b"", NO_SCALE, 1),
    ),
    // Nothing is written if a read fails.
    (
        Words::Edges(None),
        Input::Broken(MIXED),
        (b"", READ_FAILED, 3),
    ),
];

#[test]
fn a_dump_has_its_report_or_its_fault(rt: HostRuntime) {
    give(&rt, &RUNS);
}
