// Merges of one input and of several, this many bytes at a time.
ghost use Rattle.std.specs.Prelude.{◌≡◌, ◌-◌, ◌^◌, ◌<◌, ◌≤◌, ℕ, All, IfOk, length};
ghost use Rattle.vcd_text.specs.Watch.{failed_calls};
ghost use Rattle.vcd_tools.specs.MergeParts.{AreParts, SameLengths, part_len};
ghost use Rattle.vcd_tools.specs.Seat.{IsSeated};

use super::steps::merge_as;
use std::alloc::{AllocError, Global};
use std::process::Abort;
use std::test::Fail;
use vcd_head::{Head, HeadFault, read_head};
use vcd_text::{Feed, Source, Watch};
use vcd_tools::{Done, Seat, Stop, Windows};

// An input whose header was read.
#[derive(Drop)]
struct Begun {
    head: Head,
    seat: Seat,
}

// Reads the header of an input over windows of its own, and parks its feed.
fn begin<S: Source>(
    alloc: Global,
    source: &mut S,
    chunk: &mut [u8],
    token: &mut [u8],
    value: &mut [u8],
) -> Result<Begun, HeadFault>
    requires failures { S.failures source.old ≡ 0 }
    requires chunk_some { 0 < length chunk.old }
    requires token_some { 0 < length token.old }
    requires same_limit { length value.old ≡ length token.old }
    ensures seated { IfOk result
        (λ begun. IsSeated (length chunk.old) (length token.old) begun.seat) }
{
    let mut feed = Feed::new(source, chunk, token, value);
    let head = read_head(alloc, &mut feed, 16_777_216)?;
    let seat = Seat::new(feed.parked());
    Ok(Begun { head, seat })
}

// Reads the header of one input over its parts of the windows, and parks its feed.
fn begin_at<S: Source>(
    alloc: Global,
    input: usize,
    inputs: usize,
    source: &mut S,
    windows: &mut Windows<'_>,
) -> Result<Begun, HeadFault>
    requires failures { S.failures source.old ≡ 0 }
    requires input { input < inputs }
    requires parts { AreParts
        inputs windows.old.chunks.now windows.old.tokens.now windows.old.values.now }
    ensures lengths { SameLengths windows.old windows.new }
    ensures seated { IfOk result (λ begun. IsSeated (part_len inputs windows.old.chunks.now)
        (part_len inputs windows.old.tokens.now) begun.seat) }
{
    let chunk = windows.chunks.len() / inputs;
    let limit = windows.tokens.len() / inputs;
    let chunk_at = input * chunk;
    let token_at = input * limit;
    begin(
        alloc,
        source,
        &mut windows.chunks[chunk_at..chunk_at + chunk],
        &mut windows.tokens[token_at..token_at + limit],
        &mut windows.values[token_at..token_at + limit],
    )
}

// Inputs whose headers were read.
#[derive(Drop)]
struct Inputs<'t> {
    heads: Vec<Head>,
    seats: Vec<Seat>,
    sources: Vec<Watch<&'t [u8]>>,
}

impl<'t> Inputs<'t> {
    ghost use Rattle.std.specs.Prelude.{◌++◌, ◌∷◌, []};

    fn push(&mut self, begun: Begun, source: Watch<&'t [u8]>) -> Result<(), AllocError>
        ensures { IfOk result
            (λ _. (self.new.heads.items ≡ self.old.heads.items ++ begun.head ∷ [])
            × (self.new.seats.items ≡ self.old.seats.items ++ begun.seat ∷ [])
            × (self.new.sources.items ≡ self.old.sources.items ++ source.entry ∷ [])) }
    {
        self.heads.push(begun.head)?;
        self.seats.push(begun.seat)?;
        self.sources.push(source)?;
        Ok(())
    }
}

// Reads the headers of these texts, each over its own parts of the windows.
fn begin_all<'t>(
    alloc: Global,
    texts: &[&'t [u8]],
    windows: &mut Windows<'_>,
) -> Result<Inputs<'t>, HeadFault>
    requires parts { AreParts (length texts.now)
        windows.old.chunks.now windows.old.tokens.now windows.old.values.now }
    ensures lengths { SameLengths windows.old windows.new }
    ensures many { IfOk result (λ inputs. (length inputs.heads.items ≡ length texts.now)
        × (length inputs.seats.items ≡ length texts.now)
        × (length inputs.sources.items ≡ length texts.now)) }
    ensures seated { IfOk result (λ inputs.
        All (IsSeated (part_len (length texts.now) windows.old.chunks.now)
        (part_len (length texts.now) windows.old.tokens.now)) inputs.seats.items) }
    ensures reads { IfOk result (λ inputs.
        All (λ s. failed_calls s < 2 ^ 64 - 1) inputs.sources.items) }
{
    let mut inputs = Inputs {
        heads: Vec::new(alloc),
        seats: Vec::new(alloc),
        sources: Vec::new(alloc),
    };
    for input in 0..texts.len() {
        let mut source = Watch::new(texts[input]);
        let begun = begin_at(alloc, input, texts.len(), &mut source, windows)?;
        if source.failures() != 0 {
            return Err(HeadFault::ReadFailed);
        }
        inputs.push(begun, source)?;
    }
    Ok(inputs)
}

// How a merge of these texts ends, this many bytes of each at a time, in one call or item by item,
// and what it writes.
fn merge_of(
    alloc: Global,
    texts: &[&[u8]],
    chunk: usize,
    by_steps: bool,
) -> Result<(Result<Done, Stop>, Vec<u8>), HeadFault>
    requires texts { (0 < length texts.now) × (length texts.now ≤ 64) }
    requires chunk { (0 < chunk) × (chunk ≤ 65536) }
{
    let mut chunks = vec![in alloc; 0u8; texts.len() * chunk]?;
    let mut tokens = vec![in alloc; 0u8; texts.len() * 64]?;
    let mut values = vec![in alloc; 0u8; texts.len() * 64]?;
    let mut windows = Windows {
        chunks: &mut chunks,
        tokens: &mut tokens,
        values: &mut values,
    };
    let Inputs {
        heads,
        mut seats,
        mut sources,
    } = begin_all(alloc, texts, &mut windows)?;
    let mut out = Watch::new(Vec::with_capacity(alloc, 8192)?);
    let answer = merge_as(
        by_steps,
        &heads,
        &mut sources,
        &mut windows,
        &mut seats,
        &mut out,
    );
    Ok((answer, out.device))
}

// A merge of these texts writes this and has this answer, however many bytes are read at a time, in
// one call and item by item.
fn gives<R: Abort + AllocGlobal>(
    rt: &R,
    texts: &[&[u8]],
    written: &[u8],
    answer: Result<Done, Stop>,
)
    requires texts { (0 < length texts.now) × (length texts.now ≤ 64) }
{
    for (chunk, by_steps) in [(1, false), (65_536, false), (7, true)] {
        let Ok((given, output)) = merge_of(rt.alloc(), texts, chunk, by_steps) else {
            assert!(rt; false, "out of memory");
            return;
        };
        assert_eq!(rt; output.as_slice(), written, "by {chunk}");
        assert_eq!(rt; given, answer, "by {chunk}");
    }
}

const CLOCK: &[u8] =
    b"$timescale 1ns $end\n$var wire 1 ! clk $end\n$enddefinitions $end\n#0\n0!\n#5\n1!\n";

const CLOCK_ALONE: &[u8] =
    b"$timescale\n\t1ns\n$end\n$scope module in1 $end\n$var wire 1 ! clk $end\n$upscope $end\n\
        $enddefinitions $end\n\
        #0\n0!\n#5\n1!\n";

// A dump with no item after its header.
const NO_ITEMS: &[u8] = b"$timescale 1ns $end\n$var wire 1 ! clk $end\n$enddefinitions $end\n";

const NO_ITEMS_ALONE: &[u8] =
    b"$timescale\n\t1ns\n$end\n$scope module in1 $end\n$var wire 1 ! clk $end\n$upscope $end\n\
        $enddefinitions $end\n";

// Two time scales. Both have changes at 2 ns, and the last timestamp of the second has none.
const COARSE: &[u8] =
    b"$timescale 1ns $end\n$var wire 1 ! clk $end\n$enddefinitions $end\n#0\n0!\n#2\n1!\n#4\n0!\n";

const FINE: &[u8] = b"$timescale 1ps $end\n$scope module bus $end\n$var wire 4 v data [3:0] $end\n\
    $var wire 1 ! ok $end\n$upscope $end\n$enddefinitions $end\n\
    #1500\nb0101 v\n#2000\n1!\nb0000 v\n#3999\n0!\n#5000\n";

const COARSE_AND_FINE: &[u8] =
    b"$timescale\n\t1ps\n$end\n$scope module in1 $end\n$var wire 1 ! clk $end\n$upscope $end\n\
        $scope module in2 $end\n$scope module bus $end\n$var wire 4 \" data [3:0] $end\n\
        $var wire 1 # ok $end\n$upscope $end\n$upscope $end\n$enddefinitions $end\n\
        #0\n0!\n#1500\nb101 \"\n#2000\n1!\n1#\nb0 \"\n#3999\n0#\n#4000\n0!\n#5000\n";

const FINE_AND_COARSE: &[u8] =
    b"$timescale\n\t1ps\n$end\n$scope module in1 $end\n$scope module bus $end\n\
        $var wire 4 ! data [3:0] $end\n$var wire 1 \" ok $end\n$upscope $end\n$upscope $end\n\
        $scope module in2 $end\n$var wire 1 # clk $end\n$upscope $end\n$enddefinitions $end\n\
        #0\n0#\n#1500\nb101 !\n#2000\n1\"\nb0 !\n1#\n#3999\n0\"\n#4000\n0#\n#5000\n";

// An event inside a section and outside, and a time that is marked twice.
const TOP: &[u8] = b"$timescale 10us $end\n$scope module top $end\n$var reg 2 a q [1:0] $end\n\
    $var event 1 b go $end\n$upscope $end\n$enddefinitions $end\n\
    #0\n$dumpvars\nbxx a\n1b\n$end\n#3\nb01 a\n1b\n#3\nb10 a\n";

const TOP_TWICE: &[u8] =
    b"$timescale\n\t10us\n$end\n$scope module in1 $end\n$scope module top $end\n\
        $var reg 2 ! q [1:0] $end\n$var event 1 \" go $end\n$upscope $end\n$upscope $end\n\
        $scope module in2 $end\n$scope module top $end\n$var reg 2 # q [1:0] $end\n\
        $var event 1 $ go $end\n$upscope $end\n$upscope $end\n$enddefinitions $end\n\
        #0\nbx !\nbx #\n#3\nb1 !\n1\"\nb10 !\nb1 #\n1$\nb10 #\n";

const ODD: &[u8] = b"$var wire 1 ! a $end\n$enddefinitions $end\n#1\n1!\n#5\n0!\n#9\n1!\n";

// An unknown command between the times 5 and 9.
const BAD_AT_SIX: &[u8] =
    b"$var wire 1 ! b $end\n$enddefinitions $end\n#2\n1!\n#5\n0!\n#6\n?\n1!\n#7\n1!\n";

const BEFORE_SIX: &[u8] =
    b"$timescale\n\t1s\n$end\n$scope module in1 $end\n$var wire 1 ! a $end\n$upscope $end\n\
        $scope module in2 $end\n$var wire 1 \" b $end\n$upscope $end\n$enddefinitions $end\n\
        #1\n1!\n#2\n1\"\n#5\n0!\n0\"\n";

// An unknown command at time 5, between two changes.
const BAD_AT_FIVE: &[u8] = b"$var wire 1 ! b $end\n$enddefinitions $end\n#2\n1!\n#5\n0!\n?\n1!\n";

const BEFORE_ODD: &[u8] =
    b"$timescale\n\t1s\n$end\n$scope module in1 $end\n$var wire 1 ! b $end\n$upscope $end\n\
        $scope module in2 $end\n$var wire 1 \" a $end\n$upscope $end\n$enddefinitions $end\n\
        #1\n1\"\n#2\n1!\n#5\n0!\n";

// 18,446 s are the greatest number of seconds that fits in femtoseconds.
const LONG: &[u8] =
    b"$timescale 1s $end\n$var wire 1 ! a $end\n$enddefinitions $end\n#18446\n1!\n#18447\n0!\n";

const FEMTOSECONDS: &[u8] = b"$timescale 1fs $end\n$var wire 1 ! b $end\n$enddefinitions $end\n\
    #7\n1!\n#18446000000000000000\n0!\n#18446000000000000001\n1!\n";

const BEFORE_TOO_LARGE: &[u8] =
    b"$timescale\n\t1fs\n$end\n$scope module in1 $end\n$var wire 1 ! b $end\n$upscope $end\n\
        $scope module in2 $end\n$var wire 1 \" a $end\n$upscope $end\n$enddefinitions $end\n\
        #7\n1!\n#18446000000000000000\n0!\n1\"\n";

// It has the finest time scale, and no item.
const EMPTY: &[u8] =
    b"$timescale 100ps $end\n$var real 1 r r $end\n$enddefinitions $end\n$comment none $end\n";

const SLOW: &[u8] =
    b"$timescale 1us $end\n$var wire 1 c c $end\n$enddefinitions $end\n#0\n0c\n#1\n1c\n";

const ABOUT_EMPTY: &[u8] =
    b"$timescale\n\t100ps\n$end\n$scope module in1 $end\n$var wire 1 ! clk $end\n$upscope $end\n\
        $scope module in2 $end\n$var real 1 \" r $end\n$upscope $end\n$scope module in3 $end\n\
        $var wire 1 # c $end\n$upscope $end\n$enddefinitions $end\n\
        #0\n0!\n0#\n#50\n1!\n#10000\n1#\n";

// Texts, what a merge of them writes, and its answer.
const MERGES: [(&[&[u8]], &[u8], Result<Done, Stop>); 10] = [
    (&[CLOCK], CLOCK_ALONE, Ok(Done::Whole)),
    (&[NO_ITEMS], NO_ITEMS_ALONE, Ok(Done::Whole)),
    (&[COARSE, FINE], COARSE_AND_FINE, Ok(Done::Whole)),
    (&[FINE, COARSE], FINE_AND_COARSE, Ok(Done::Whole)),
    (&[TOP, TOP], TOP_TWICE, Ok(Done::Whole)),
    (&[CLOCK, EMPTY, SLOW], ABOUT_EMPTY, Ok(Done::Whole)),
    (
        &[ODD, BAD_AT_SIX],
        BEFORE_SIX,
        Err(Stop::Dump {
            input: 1,
            line: 8,
            fault: 3,
        }),
    ),
    // What the inputs before the one with the fault have at its time is written, and no more.
    (
        &[BAD_AT_FIVE, ODD],
        BEFORE_ODD,
        Err(Stop::Dump {
            input: 0,
            line: 7,
            fault: 3,
        }),
    ),
    (
        &[ODD, BAD_AT_FIVE],
        BEFORE_SIX,
        Err(Stop::Dump {
            input: 1,
            line: 7,
            fault: 3,
        }),
    ),
    (
        &[FEMTOSECONDS, LONG],
        BEFORE_TOO_LARGE,
        Err(Stop::Dump {
            input: 1,
            line: 6,
            fault: 20,
        }),
    ),
];

#[test]
fn inputs_are_merged(rt: HostRuntime) {
    for (texts, written, answer) in &MERGES {
        assert!(rt; 0 < texts.len() && texts.len() <= 64);
        gives(&rt, texts, written, *answer);
    }
}

const SMALL: &[u8] =
    b"$timescale 1ns $end\n$var wire 1 ! a $end\n$enddefinitions $end\n#0\n0!\n#1\n1!\n";

// Where a merge of 64 of them begins, and where it ends.
const FIRST_OF_ALL: &[u8] =
    b"$timescale\n\t1ns\n$end\n$scope module in1 $end\n$var wire 1 ! a $end\n$upscope $end\n\
        $scope module in2 $end\n$var wire 1 \" a $end\n$upscope $end\n";

const LAST_OF_ALL: &[u8] = b"\n1\\\n1]\n1^\n1_\n1`\n";

// 42 bytes are of no input, 57 and the digits of its number of each header; each of two times has a
// line, and 64 changes.
#[test]
fn as_many_inputs_as_there_may_be(rt: HostRuntime) -> Result<(), Fail> {
    let (answer, output) = merge_of(rt.alloc(), &[SMALL; 64], 7, false)?;
    assert_eq!(rt; answer, Ok(Done::Whole));
    assert_eq!(rt; output.len(), 42 + 64 * 57 + 9 + 55 * 2 + 2 * (3 + 64 * 3));
    assert!(rt; output.starts_with(FIRST_OF_ALL));
    assert!(rt; output.ends_with(LAST_OF_ALL));
    Ok(())
}
