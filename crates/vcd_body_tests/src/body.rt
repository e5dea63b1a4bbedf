// Bodies that are read to their end, bodies that are refused, a source that fails, and changes that
// are written.
ghost use Rattle.std.specs.Prelude.{◌≡◌, ◌+◌, ◌<◌, ◌≤◌, IfOk, OnOk, true};
ghost use Rattle.vcd_text.specs.Feed.{source_of};
ghost use Rattle.vcd_text.specs.declared.ahead.Ahead.{Ahead};
ghost use Rattle.vcd_body.specs.Names.{HeadView, TakesItem};
ghost use Rattle.vcd_body.specs.declared.item.Regs.{Regs};

use std::alloc::{AllocError, Global};
use std::process::Abort;
use std::test::Fail;
use vcd_body::{
    Bits, Form, Id, Item, Regs, ScannedItem, Visit, change_text, left_out, next_item, pass_items,
    put_change, walk_ahead,
};
use vcd_head::{Head, HeadFault, HeadView, read_head};
use vcd_text::doubles::{Narrow, Pieces};
use vcd_text::{Feed, Sink, Source, Watch, WriteFailed};

// Variables of 1 and of 4 bits, in six lines.
const HEAD: &[u8] = b"$timescale 1ns $end\n$scope module tb $end\n$var wire 1 ! clk $end\n\
    $var reg 4 \" q [3:0] $end\n$upscope $end\n$enddefinitions $end\n";

// An item as it is shown.
fn shown(alloc: Global, item: Item, text: &[u8]) -> Result<String, AllocError> {
    match item {
        Item::Time(time) => format!(in alloc; "#{time} "),
        Item::Begin(section) => format!(in alloc; "{section:?} "),
        Item::End => format!(in alloc; "End "),
        Item::Change { code, form } => {
            let text = String::from_utf8_lossy(alloc, text)?;
            format!(in alloc; "{code}:{form:?}:{text} ")
        }
        Item::Finish => format!(in alloc; "Finish"),
    }
}

// The text of an item, if it is a change.
fn text_of<'f, S: Source>(feed: &'f Feed<'_, '_, '_, '_, S>, item: Item) -> &'f [u8] {
    match item {
        Item::Change { form, .. } => change_text(feed, form),
        _ => &[],
    }
}

// These texts, one after another.
fn joined(alloc: Global, texts: [&[u8]; 3]) -> Result<Vec<u8>, AllocError> {
    let mut text = Vec::new(alloc);
    for part in texts {
        text.extend_from_slice(part)?;
    }
    Ok(text)
}

// The header that a feed begins with. Its contract says only that no read failed.
fn head_of<S: Source>(alloc: Global, feed: &mut Feed<'_, '_, '_, '_, S>) -> Result<Head, HeadFault>
    requires { S.failures (source_of feed.old) ≡ 0 }
    ensures { OnOk result (S.failures (source_of feed.new) ≡ 0) }
{
    read_head(alloc, feed, 16_777_216)
}

// The next item as it is shown, or the fault's number and line, and whether more may follow.
fn next_shown<S: Source>(
    alloc: Global,
    feed: &mut Feed<'_, '_, '_, '_, S>,
    view: HeadView<'_>,
    regs: &mut Regs,
) -> Result<(String, bool), AllocError>
    requires { S.failures (source_of feed.old) ≡ 0 }
    ensures { IfOk result (λ shown. shown.1 ≡ true → S.failures (source_of feed.new) ≡ 0) }
{
    match next_item(feed, view, regs) {
        Ok(item) => {
            let text = shown(alloc, item, text_of(feed, item))?;
            Ok((text, item != Item::Finish))
        }
        Err(fault) => {
            let number = fault.number();
            let line = feed.line();
            Ok((format!(in alloc; "fault {number} at {line}")?, false))
        }
    }
}

// The items from here on, and then the end, or the fault's number and line.
fn items_from<S: Source>(
    alloc: Global,
    feed: &mut Feed<'_, '_, '_, '_, S>,
    view: HeadView<'_>,
) -> Result<String, AllocError>
    requires { S.failures (source_of feed.old) ≡ 0 }
{
    let mut items = String::new(alloc);
    let mut regs = Regs::new();
    'items: for _ in 0..u64::MAX {
        let next = next_shown(alloc, feed, view, &mut regs)?;
        items.push_str(&next.0)?;
        if !next.1 {
            return Ok(items);
        }
    }
    Ok(items)
}

// The items of the body after the header, and then the end, or the fault's number and line. A token
// has at most 72 bytes.
fn transcript(alloc: Global, header: &[u8], body: &[u8], fails: bool) -> Result<String, Fail> {
    let text = joined(alloc, [header, body, b""])?;
    let mut pieces = Pieces::new(&text, 5);
    pieces.broken = fails;
    let mut source = Watch::new(pieces);
    let mut chunk = [0u8; 7];
    let mut token = [0u8; 72];
    let mut value = [0u8; 72];
    let mut feed = Feed::new(&mut source, &mut chunk, &mut token, &mut value);
    let head = head_of(alloc, &mut feed)?;
    Ok(items_from(alloc, &mut feed, head.view())?)
}

// Bodies and their items, up to the end or the fault.
static BODIES: [(&[u8], &str); 25] = [
    (b"", "Finish"),
    (
        b"#0\n$dumpvars\nZ!\nBx \"\n$end\n#05\n1!\nb101 \"\n#5\n",
        "#0 Vars 0:Scalar:Z 1:Vector:x End #5 0:Scalar:1 1:Vector:101 #5 Finish",
    ),
    (
        b"$dumpoff $end $dumpon rnan ! $end $dumpall $comment #x x$end \
            $dumpvars $end R-1.5e3 \" $end",
        "Off End On 0:RealText:nan End All 1:RealText:-1.5e3 End Finish",
    ),
    (b"#18446744073709551615", "#18446744073709551615 Finish"),
    // A value or a time that is refused.
    (b"#5\n#5\n1!\n#4\n", "#5 #5 0:Scalar:1 fault 14 at 10"),
    (b"#5\n$dumpvars\n#4\n", "#5 Vars fault 19 at 9"),
    (b"#x\n", "fault 13 at 7"),
    (b"$dumpvars\n#x\n", "Vars fault 13 at 8"),
    (b"#18446744073709551616\n", "fault 13 at 7"),
    (b"b101 $end\n", "fault 16 at 7"),
    (b"b10110 ?\n", "fault 16 at 7"),
    (b"b10110 \"\n", "fault 17 at 7"),
    (b"1\n", "fault 15 at 7"),
    (b"b12 \"\n", "fault 15 at 7"),
    (b"r \"\n", "fault 15 at 7"),
    (
        b"r11111111111111111111111111111111111111111111111111111111111111111 \"\n",
        "fault 18 at 7",
    ),
    // A command or an end that is refused.
    (b"$end\n", "fault 4 at 7"),
    (b"$var", "fault 4 at 7"),
    (b"$dumpvars\n$dumpon\n", "Vars fault 4 at 8"),
    (b"?\n", "fault 3 at 7"),
    (b"$foo $end\n", "fault 3 at 7"),
    (b"#0\n0!\n#5\nb10", "#0 0:Scalar:0 #5 fault 2 at 10"),
    (b"$dumpvars\n", "Vars fault 2 at 8"),
    (b"$comment x$end", "fault 2 at 7"),
    (
        b"#0 1234567890123456789012345678901234567890123456789012345678901234567890123",
        "#0 fault 1 at 7",
    ),
];

// Each of these bodies has these items after this header. The read after it fails, or it ends.
fn give<R: Abort + AllocGlobal>(
    rt: &R,
    header: &[u8],
    bodies: &[(&[u8], &str)],
    fails: bool,
) -> Result<(), Fail> {
    for (body, items) in bodies {
        assert_eq!(rt;
            transcript(rt.alloc(), header, body, fails)?.as_str(),
            *items
        );
    }
    Ok(())
}

// An event whose value is wider than its size.
static WIDE_EVENT: [(&[u8], &str); 1] = [(b"b101 % 1%", "0:Vector:101 0:Scalar:1 Finish")];

static BROKEN: [(&[u8], &str); 1] = [(b"#5\n1!\n#4", "#5 0:Scalar:1 fault 31 at 9")];

#[test]
fn bodies_have_their_items(rt: HostRuntime) -> Result<(), Fail> {
    give(&rt, HEAD, &BODIES, false)?;
    give(
        &rt,
        b"$var event 1 % go $end $enddefinitions $end\n",
        &WIDE_EVENT,
        false,
    )?;
    give(&rt, HEAD, &BROKEN, true)
}

// What is taken ahead: the items; for each whether its bytes are its line (`=`), are its line
// except this many digits, or are not (`.`); and the number that is given for the digits of the
// last one.
#[derive(Drop)]
struct Noted {
    alloc: Global,
    items: String,
    marks: String,
    bits: Option<Bits>,
    noted: Result<(), AllocError>,
}

impl Noted {
    fn new(alloc: Global) -> Noted {
        Noted {
            alloc,
            items: String::new(alloc),
            marks: String::new(alloc),
            bits: None,
            noted: Ok(()),
        }
    }

    fn note(&mut self, item: ScannedItem<'_>, needless: Option<usize>) -> Result<(), AllocError> {
        self.items
            .push_str(&shown(self.alloc, item.item, item.text)?)?;
        self.bits = item.bits;
        match needless {
            Some(0) => self.marks.push_str("="),
            Some(n) => self.marks.push_str(&format!(in self.alloc; "{n}")?),
            None => self.marks.push_str("."),
        }
    }

    fn take(&mut self, item: ScannedItem<'_>)
        requires { (view : HeadView) × (r : Regs) × (a a' : Ahead) × TakesItem view a a' r item }
    {
        let needless = left_out(item);
        if self.noted.is_ok() {
            self.noted = self.note(item, needless);
        }
    }
}

impl Visit<()> for Noted {
    ghost use Rattle.std.specs.Prelude.{false};

    ghost stands = { λ _ _ _ _. Unit {0} };

    ghost takes = { λ _ _ _ _. Unit {0} };

    ghost stops_before = { λ _ _ _. false };

    ghost over = { λ _. false };

    fn ends_before(&self, _command: &(), _time: u64) -> bool {
        false
    }

    fn is_over(&self) -> bool {
        false
    }

    fn take_timestamp(
        &mut self,
        _command: &mut (),
        _view: HeadView<'_>,
        _regs: Regs,
        _time: u64,
        mark: ScannedItem<'_>,
    ) {
        self.take(mark);
    }

    fn take_change<W: Sink>(
        &mut self,
        _command: &mut (),
        _view: HeadView<'_>,
        _regs: Regs,
        change: ScannedItem<'_>,
        _out: &mut W,
    ) -> Result<(), WriteFailed> {
        self.take(change);
        Ok(())
    }

    fn take_section<W: Sink>(
        &mut self,
        _command: &mut (),
        _view: HeadView<'_>,
        _before: Regs,
        _after: Regs,
        section: ScannedItem<'_>,
        _out: &mut W,
    ) -> Result<(), WriteFailed> {
        self.take(section);
        Ok(())
    }
}

// What is noted of the items that are taken ahead, and then the next item.
fn taken_from<S: Source>(
    alloc: Global,
    feed: &mut Feed<'_, '_, '_, '_, S>,
    view: HeadView<'_>,
) -> Result<Noted, AllocError>
    requires { S.failures (source_of feed.old) ≡ 0 }
{
    let mut page = Watch::new(Narrow::new(0));
    let visit = Noted::new(alloc);
    let walked = walk_ahead(&mut (), visit, view, Regs::new(), feed.ahead(), &mut page);
    let passed = walked.ahead.passed();
    let mut regs = walked.regs;
    let mut noted = walked.visit;
    pass_items(feed, passed);
    let next = next_shown(alloc, feed, view, &mut regs)?;
    noted.items.push_str("then ")?;
    noted.items.push_str(&next.0)?;
    match noted.noted {
        Ok(()) => Ok(noted),
        Err(failed) => Err(failed),
    }
}

// What is noted of the items that are taken ahead of the body's first, and the next one, if a dump
// has these three parts. The whole input is in the chunk.
fn taken_ahead(alloc: Global, parts: [&[u8]; 3]) -> Result<Noted, Fail> {
    let text = joined(alloc, parts)?;
    let mut source = Watch::new(Pieces::new(&text, 512));
    let mut chunk = [0u8; 512];
    let mut token = [0u8; 72];
    let mut value = [0u8; 72];
    let mut feed = Feed::new(&mut source, &mut chunk, &mut token, &mut value);
    let head = head_of(alloc, &mut feed)?;
    Ok(taken_from(alloc, &mut feed, head.view())?)
}

// What comes after the items of a body that are taken ahead.
const COMMENT: &[u8] =
    b"$comment of more than sixty-three bytes, for the look ahead to end before it $end\n";

// Bodies, the items that are taken ahead, and the next one. A vector that is wider than its code is
// left to the reader that names the fault, and so are the begin of a section inside another one,
// the end of none, and a real number without digits. Comments are passed, except one that does not
// end in the chunk before its last 64 bytes.
static TAKEN: [(&[u8], &str); 8] = [
    (
        b"#0\n1!\nb101 \"\n#05 Z! bx \"\n#4\n",
        "#0 0:Scalar:1 1:Vector:101 #5 0:Scalar:Z 1:Vector:x then fault 14 at 11",
    ),
    (b"#0\nb10110 \"\n", "#0 then fault 17 at 8"),
    (
        b"$dumpvars\n1!\nb1 \"\n$end\n#5\n$dumpoff $end\n$dumpall\n0!\n$dumpon\n",
        "Vars 0:Scalar:1 1:Vector:1 End #5 Off End All 0:Scalar:0 then fault 4 at 15",
    ),
    (b"$dumpon $end\n$end\n", "On End then fault 4 at 8"),
    (
        b"#0\nr1.5 \"\n1!\nR-2E3 !\n\
            r1234567890123456789012345678901234567890123456789012345678901234 \"\nr \"\n",
        "#0 1:RealText:1.5 0:Scalar:1 0:RealText:-2E3 \
            1:RealText:1234567890123456789012345678901234567890123456789012345678901234 \
            then fault 15 at 12",
    ),
    (
        b"$comment $end\n#0\n$dumpvars\n1!\n$comment 0! $END #9 $end\nb1 \"\n$end $comment a $end\n\
            $comment b $end #5\n$comment $end 0!\n",
        "#0 Vars 0:Scalar:1 1:Vector:1 End #5 0:Scalar:0 then Finish",
    ),
    (b"$comment a $end\n$comment b $end\n", "then Finish"),
    (
        b"#0\r\n0!\r\n1!\r\n0!\r\n#5\r\n1!\r\nx!\r\n#7\r\n0!\r\n1!\n0!\r\n#8\n0!\n1!\n",
        "#0 0:Scalar:0 0:Scalar:1 0:Scalar:0 #5 0:Scalar:1 0:Scalar:x #7 0:Scalar:0 0:Scalar:1 \
            0:Scalar:0 #8 0:Scalar:0 0:Scalar:1 then Finish",
    ),
];

#[test]
fn items_are_taken_ahead(rt: HostRuntime) -> Result<(), Fail> {
    for (body, items) in &TAKEN {
        let taken = taken_ahead(rt.alloc(), [HEAD, body, COMMENT])?;
        assert_eq!(rt; taken.items.as_str(), *items);
    }
    Ok(())
}

// Codes of 1, 4 and 40 bits, and an event.
const CODES: &[u8] =
    b"$var wire 1 ! clk $end $var reg 4 \" q $end $var reg 40 & w $end $var event 1 % go $end \
        $enddefinitions $end\n";

// Changes, and which of them have their lines as bytes: single digits, vectors of a few digits,
// vectors with digits that are left out, vectors of more than 30 digits that are left out and that
// are not, and real numbers.
static STANDING: [(&[u8], &str); 6] = [
    (b"1!\nZ!\n 0!\nx! 1!\n1\"\n1%\n#5\n0!\n", "=.===...="),
    (
        b"b101 \"\nB101 \"\nb0101 \"\nb00 \"\nb0x \"\nbzz1 \"\nbzx0 \"\nb1X \"\nb10  \"\nb10\t\"\n\
            b1 !\nb0 \"\nb1 % b1 \"\n",
        "=.11=1=....=.=",
    ),
    (
        b"b0010 \"\nb0001 \"\nb0000 \"\nb000x \"\nbx0 \"\nbxxx1 \"\nbxxxx \"\nbXXx1 \"\nbXX1 \"\n\
            bxX1 \"\nb00  \"\nb1111 \"\nb0 \"\n",
        "2332=232...==",
    ),
    (
        b"b00000000000000000000000000001010 &\nb0000000000000000000000000000101X &\n\
            b0000000000000000000000000000000000000000 &\n\
            b0101010101010101010101010101010101010x &\n",
        "28.391",
    ),
    (
        b"b1010101010101010101010101010101x &\nb1010101010101010101010101010101X &\n\
            b1010101010101010101010101010101010x &\nb1010101010101010101010101010101010X &\n",
        "=.=.",
    ),
    (b"r1.5 \"\nR1.5 \"\nr1E3 !\nr1.5  !\nr1 %\n", "=.=.."),
];

#[test]
fn changes_that_stand_as_their_lines(rt: HostRuntime) -> Result<(), Fail> {
    for (body, marks) in &STANDING {
        let taken = taken_ahead(rt.alloc(), [CODES, body, &[b'\n'; 64]])?;
        assert_eq!(rt; taken.marks.as_str(), *marks);
    }
    Ok(())
}

// A change is written like this. If the code is no event, it has at least one digit.
fn writes(size: usize, event: bool, form: Form, text: &[u8], id: Id<'_>, line: &[u8]) -> bool {
    let mut page = Watch::new(Narrow::new(80));
    !text.is_empty()
        && put_change(size, event, form, text, id, &mut page).is_ok()
        && page.device.held() == line
}

// A size, a change of a code of it, and the line that is written.
static LINES: [(usize, Form, &[u8], &[u8]); 17] = [
    (1, Form::Vector, b"1", b"1!\n"),
    (1, Form::Scalar, b"Z", b"z!\n"),
    (4, Form::Scalar, b"1", b"b1 !\n"),
    (4, Form::Vector, b"0010", b"b10 !\n"),
    (4, Form::Vector, b"xX10", b"bx10 !\n"),
    (4, Form::Scalar, b"Z", b"bz !\n"),
    (4, Form::Vector, b"0000", b"b0 !\n"),
    (4, Form::Vector, b"1111", b"b1111 !\n"),
    (4, Form::Vector, b"XxXx", b"bx !\n"),
    (4, Form::Vector, b"00x1", b"b0x1 !\n"),
    (4, Form::Vector, b"0xxx", b"b0xxx !\n"),
    (4, Form::Vector, b"Zzx0", b"bzx0 !\n"),
    (4, Form::Vector, b"xz10", b"bxz10 !\n"),
    (2, Form::Vector, b"Xx10", b"bx10 !\n"),
    (2, Form::Vector, b"0X10", b"b0x10 !\n"),
    (1, Form::Vector, b"0010", b"0010!\n"),
    (
        70,
        Form::Vector,
        b"XZXZXZXZXZXZXZXZXZXZXZXZXZXZXZXZXZXZXZXZXZXZXZXZXZXZXZXZXZXZXZXZXZ",
        b"bxzxzxzxzxzxzxzxzxzxzxzxzxzxzxzxzxzxzxzxzxzxzxzxzxzxzxzxzxzxzxzxzxz !\n",
    ),
];

#[test]
fn changes_are_written(rt: HostRuntime) {
    for (size, form, text, line) in &LINES {
        assert!(rt; writes(*size, false, *form, text, Id::Own(b"!"), line));
    }
    for (event, form, text, id, line) in &OTHER_LINES {
        assert!(rt; writes(2, *event, *form, text, *id, line));
    }
}

// A number, and events, whose form and text do not count.
static OTHER_LINES: [(bool, Form, &[u8], Id<'static>, &[u8]); 3] = [
    (
        false,
        Form::RealText,
        b"-1.5E3",
        Id::Own(b"\""),
        b"r-1.5E3 \"\n",
    ),
    (true, Form::Vector, b"b101", Id::Own(b"#"), b"1#\n"),
    (true, Form::Scalar, b"x", Id::Number(2), b"1#\n"),
];

// Changes, and how many digits of which number are given: 1 to 32 binary ones, wherever they end.
static TOLD: [(&[u8], Option<(usize, usize)>); 10] = [
    (b"b0 & ", Some((1, 0))),
    (b"b1 & ", Some((1, 1))),
    (b" b01 & ", Some((2, 1))),
    (b"b10001 & ", Some((5, 17))),
    (b"b1000000000000001 & ", Some((16, 32_769))),
    (
        b"b1000000000000000000000000000001 & ",
        Some((31, 1_073_741_825)),
    ),
    (
        b"b10000000000000000000000000000001 & ",
        Some((32, 2_147_483_649)),
    ),
    (b"b100000000000000000000000000000001 & ", None),
    (b"b1x & ", None),
    (b"1! ", None),
];

#[test]
fn digits_told_as_a_number(rt: HostRuntime) -> Result<(), Fail> {
    for (body, told) in &TOLD {
        let bits = taken_ahead(rt.alloc(), [CODES, body, &[b'1'; 64]])?.bits;
        match *told {
            Some((len, number)) => {
                assert!(rt;
                    bits.is_some() && bits == Bits::new(len, number),
                    "of {body:?}"
                );
            }
            None => assert!(rt; bits.is_none(), "of {body:?}"),
        }
    }
    Ok(())
}
