// Reads that come in pieces, halts, devices that fail, and the texts of the faults.
ghost use Rattle.std.specs.Prelude.{◌≡◌, ◌<◌, ◌≤◌, ◌+◌, ◌-◌, ◌^◌, length, true};
ghost use Rattle.vcd_text.specs.Watch.{failed_calls};
ghost use Rattle.vcd_text.specs.Feed.{SameLoans, chunk_len_of, limit_of, source_of};

use itoa::Buffer;
use std::io;
use vcd_text::doubles::{Narrow, Pieces, parked_after};
use vcd_text::{
    Ahead, Feed, Few, Halt, Next, Sink, Source, Watch, WriteFailed, decimal_at, decimal_of, put,
    put_few, put_number, put_parts, text_of,
};

// How many bytes a record of answers may have.
const MAX_RECORD: usize = 1024;

// A record of answers, one after the other. An answer that has no room is left out.
#[derive(Drop)]
struct Report {
    bytes: [u8; MAX_RECORD],
    len: usize,
    ghost size: { length bytes ≡ 1024 },
    ghost room: { len ≤ 1024 },
}

impl Report {
    fn new() -> Report {
        Report {
            bytes: [0; MAX_RECORD],
            len: 0,
        }
    }

    fn push(&mut self, bytes: &[u8]) {
        let n = bytes.len().min(MAX_RECORD - self.len);
        self.bytes[self.len..self.len + n].copy_from_slice(&bytes[..n]);
        self.len += n;
    }

    fn push_number(&mut self, number: u64) {
        self.push(Buffer::new().format(number).as_bytes());
        self.push(b" ");
    }

    fn push_line(&mut self, line: u64) {
        self.push(b"@");
        self.push_number(line);
    }

    fn text(&self) -> &[u8] {
        &self.bytes[..self.len]
    }
}

// Returns a reader that returns at most `size` bytes in each call, and fails at the call number
// `fails_at`, counted from 1.
fn failing(bytes: &[u8], size: usize, fails_at: u64) -> Watch<Pieces<'_>>
    ensures { failed_calls result ≡ 0 }
{
    let mut pieces = Pieces::new(bytes, size);
    pieces.fails_at = fails_at;
    Watch::new(pieces)
}

// Records an answer that is no token, with its line.
fn report_end(answer: Result<Next, Halt>, line: u64, report: &mut Report) {
    match answer {
        Ok(_) => report.push(b"end"),
        Err(halt) => {
            report.push(b"halt ");
            report.push(Buffer::new().format(halt.number()).as_bytes());
        }
    }
    report.push_line(line);
}

// Records the next token, or the end or the number of the halt, with its line, and returns whether
// it was a token.
fn report_next(feed: &mut Feed<'_, '_, '_, '_, Watch<Pieces<'_>>>, report: &mut Report) -> bool
    requires { failed_calls (source_of feed.old) < 2 ^ 64 - 1 }
    ensures token { result ≡ true
        → failed_calls (source_of feed.new) ≡ failed_calls (source_of feed.old) }
    ensures one { failed_calls (source_of feed.new) ≤ failed_calls (source_of feed.old) + 1 }
    ensures lengths { (limit_of feed.new ≡ limit_of feed.old)
        × (chunk_len_of feed.new ≡ chunk_len_of feed.old) }
    ensures loans { SameLoans feed.old feed.new }
{
    let answer = feed.next();
    if answer != Ok(Next::Token) {
        report_end(answer, feed.line(), report);
        return false;
    }
    report.push(feed.token());
    report.push_line(feed.line());
    true
}

// Records each token that is left, and the end or the halt.
fn report_rest(feed: &mut Feed<'_, '_, '_, '_, Watch<Pieces<'_>>>, report: &mut Report)
    requires { failed_calls (source_of feed.old) < 2 ^ 64 - 1 }
{
    'answers: for _ in 0..u64::MAX {
        if !report_next(feed, report) {
            return;
        }
    }
}

// Records the tokens of a source.
fn report_all(source: &mut Watch<Pieces<'_>>, chunk_len: usize, limit: usize, report: &mut Report)
    requires source { failed_calls source.old ≡ 0 }
    requires chunk_len { (0 < chunk_len) × (chunk_len ≤ 1300) }
    requires limit { (0 < limit) × (limit ≤ 300) }
{
    let mut chunk = [0; 1300];
    let mut token = [0; 300];
    let mut value = [0; 300];
    let mut feed = Feed::new(
        source,
        &mut chunk[..chunk_len],
        &mut token[..limit],
        &mut value[..limit],
    );
    report_rest(&mut feed, report);
}

// Returns whether the tokens of a source give this record.
fn reports(mut source: Watch<Pieces<'_>>, chunk_len: usize, limit: usize, want: &[u8]) -> bool
    requires source { failed_calls source ≡ 0 }
    requires chunk_len { (0 < chunk_len) × (chunk_len ≤ 1300) }
    requires limit { (0 < limit) × (limit ≤ 300) }
{
    let mut report = Report::new();
    report_all(&mut source, chunk_len, limit, &mut report);
    report.text() == want
}

// Records the next token ahead, which is looked for slowly or fast, and how many bytes were passed
// before the one after it.
fn report_one_ahead(ahead: &mut Ahead<'_>, slowly: bool, report: &mut Report) {
    let found = if slowly {
        ahead.next_slowly()
    } else {
        ahead.next()
    };
    report.push(found.unwrap_or(b"-"));
    report.push(b" ");
    report.push_number(ahead.passed() as u64);
}

// Records the tokens ahead, and continues with the feed after them.
fn report_ahead(feed: &mut Feed<'_, '_, '_, '_, Watch<Pieces<'_>>>, report: &mut Report)
    ensures { source_of feed.new ≡ source_of feed.old }
{
    let mut ahead = feed.ahead();
    'tokens: for _ in 0..u64::MAX {
        let Some(token) = ahead.next() else {
            break;
        };
        report.push(token);
        report.push(b" ");
    }
    let passed = ahead.passed();
    feed.pass(passed);
}

// Texts, the token limit, and the record of all answers.
static TOKENS: [(&[u8], usize, &[u8]); 4] = [
    (b"", 4, b"end@1 "),
    (b"ab\n\r\ncd\x0b$end\t\n\n", 4, b"ab@1 cd@3 $end@3 end@5 "),
    (b" \n last", 4, b"last@2 end@2 "),
    (b"ab\nabc\n", 2, b"ab@1 halt 1@2 "),
];

// Reads of any length, and chunks that end at any offset of a token.
#[test]
fn tokens_are_whole_over_any_reads(rt: HostRuntime) {
    for (bytes, limit, want) in &TOKENS {
        assert!(rt; 0 < *limit && *limit <= 300);
        for chunk_len in 1..12 {
            for size in 1..8 {
                let source = Watch::new(Pieces::new(bytes, size));
                assert!(rt;
                    reports(source, chunk_len, *limit, want),
                    "of {chunk_len} by {size}"
                );
            }
        }
    }
}

// Returns whether three answers over a text give this record, if this many bytes count as looked at
// before it.
fn reports_after(counted: u64, bytes: &[u8], limit: usize, want: &[u8]) -> bool
    requires counted { counted < 2 ^ 63 }
    requires limit { (0 < limit) × (limit ≤ 8) }
{
    let mut source = Watch::new(Pieces::new(bytes, 8));
    let mut chunk = [0; 8];
    let mut token = [0; 8];
    let mut value = [0; 8];
    let mut feed = Feed::resume(
        &mut source,
        &mut chunk,
        &mut token[..limit],
        &mut value[..limit],
        parked_after(counted),
    );
    let mut report = Report::new();
    report_next(&mut feed, &mut report);
    report_next(&mut feed, &mut report);
    report_next(&mut feed, &mut report);
    report.text() == want
}

// Bytes that count as looked at, a text, the token limit, and the record of the answers. If byte
// number 2^63 is also one too many for a token, the input is too long.
static LAST_BYTES: [(u64, &[u8], usize, &[u8]); 4] = [
    (
        (1 << 63) - 3,
        b"ab cd",
        8,
        b"halt 21@1 halt 21@1 halt 21@1 ",
    ),
    ((1 << 63) - 4, b"ab cd", 8, b"ab@1 halt 21@1 halt 21@1 "),
    ((1 << 63) - 3, b"abc", 2, b"halt 21@1 halt 21@1 halt 21@1 "),
    ((1 << 63) - 4, b"abc", 2, b"halt 1@1 halt 1@1 halt 1@1 "),
];

#[test]
fn no_byte_is_looked_at_past_the_last_one(rt: HostRuntime) {
    for (counted, bytes, limit, want) in &LAST_BYTES {
        assert!(rt; *counted < 1 << 63 && 0 < *limit && *limit <= 8);
        assert!(rt;
            reports_after(*counted, bytes, *limit, want),
            "after {counted}"
        );
    }
}

#[test]
fn a_failed_read_halts_after_what_was_read(rt: HostRuntime) {
    for (fails_at, want) in [
        (1, b"halt 31@1 ".as_slice()),
        (3, b"halt 31@1 "),
        (4, b"ab@1 halt 31@2 "),
        (6, b"ab@1 halt 31@2 "),
        (7, b"ab@1 cd@2 end@2 "),
    ] {
        assert!(rt;
            reports(failing(b"ab\ncd", 1, fails_at), 3, 2, want),
            "at {fails_at}"
        );
    }
}

#[test]
fn a_feed_goes_on_where_it_was_parked(rt: HostRuntime) {
    let mut source = Watch::new(Pieces::new(b"ab\ncd e", 8));
    let mut chunk = [0; 8];
    let mut token = [0; 4];
    let mut value = [0; 4];
    let mut report = Report::new();
    let mut feed = Feed::new(&mut source, &mut chunk, &mut token, &mut value);
    report_next(&mut feed, &mut report);
    feed.keep();
    report_next(&mut feed, &mut report);
    let parked = feed.parked();
    let mut feed = Feed::resume(&mut source, &mut chunk, &mut token, &mut value, parked);
    report.push(feed.token());
    report.push(feed.value());
    report_rest(&mut feed, &mut report);
    assert_eq!(rt; report.text(), b"ab@1 cd@2 cdabe@2 end@2 ".as_slice());
}

// What a feed is asked for. Each answer is recorded.
#[derive(Clone, Copy)]
enum Step {
    // The next token, or the end or the halt.
    Next,
    // To keep the token as the value.
    Keep,
    // The token, and the value that was kept.
    Kept,
    // The tokens ahead, and to continue after them.
    Ahead,
    // This many tokens ahead, looked for slowly or fast, without moving the feed.
    Each(usize, bool),
}

// Records this many tokens ahead, which are looked for slowly or fast.
fn report_each(
    feed: &Feed<'_, '_, '_, '_, Watch<Pieces<'_>>>,
    many: usize,
    slowly: bool,
    report: &mut Report,
) {
    let mut ahead = feed.ahead();
    for _ in 0..many {
        report_one_ahead(&mut ahead, slowly, report);
    }
}

// Asks a feed for this, and records its answer.
fn take_step(feed: &mut Feed<'_, '_, '_, '_, Watch<Pieces<'_>>>, step: Step, report: &mut Report)
    requires { failed_calls (source_of feed.old) < 2 ^ 64 - 1 }
    ensures { failed_calls (source_of feed.new) ≤ failed_calls (source_of feed.old) + 1 }
{
    match step {
        Step::Next => {
            report_next(feed, report);
        }
        Step::Keep => feed.keep(),
        Step::Kept => {
            report.push(feed.token());
            report.push(feed.value());
            report.push(b" ");
        }
        Step::Ahead => report_ahead(feed, report),
        Step::Each(many, slowly) => report_each(feed, many, slowly, report),
    }
}

// Asks a feed that has not failed for all this, one after the other.
fn take_steps(
    feed: &mut Feed<'_, '_, '_, '_, Watch<Pieces<'_>>>,
    steps: &[Step],
    report: &mut Report,
)
    requires source { failed_calls (source_of feed.old) ≡ 0 }
    requires few { length steps.now ≤ 16 }
{
    'steps: for step in steps {
        take_step(feed, *step, report);
    }
}

// Returns whether the answers to these steps over a text that is read at once give this record.
fn steps_give(bytes: &[u8], chunk_len: usize, limit: usize, steps: &[Step], want: &[u8]) -> bool
    requires chunk_len { (0 < chunk_len) × (chunk_len ≤ 300) }
    requires limit { (0 < limit) × (limit ≤ 10) }
    requires few { length steps.now ≤ 16 }
{
    let mut source = Watch::new(Pieces::new(bytes, 300));
    let mut chunk = [0; 300];
    let mut token = [0; 10];
    let mut value = [0; 10];
    let mut feed = Feed::new(
        &mut source,
        &mut chunk[..chunk_len],
        &mut token[..limit],
        &mut value[..limit],
    );
    let mut report = Report::new();
    take_steps(&mut feed, steps, &mut report);
    report.text() == want
}

static AFTER_WHITE: [Step; 2] = [Step::Next, Step::Each(6, false)];

// Indented lines that end with a carriage return and a line feed, two spaces, and a run of white
// bytes longer than 64. If a token is too long, none is given, and the white bytes before it stay
// too.
#[test]
fn white_bytes_before_a_token_are_passed_with_it(rt: HostRuntime) {
    let mut bytes = [b' '; 300];
    bytes[..26].copy_from_slice(b"q\n \tab\r\ncd  ef\r\n\r\n    gh\r\n");
    bytes[126..129].copy_from_slice(b"ij\n");
    bytes[130..135].copy_from_slice(b"xxxxx");
    let want = b"q@1 ab 5 cd 9 ef 13 gh 23 ij 127 - 127 ";
    assert!(rt; steps_give(&bytes, 300, 4, &AFTER_WHITE, want));
}

static AHEAD_AND_NEXT: [Step; 9] = [
    Step::Ahead,
    Step::Next,
    Step::Keep,
    Step::Ahead,
    Step::Kept,
    Step::Ahead,
    Step::Next,
    Step::Ahead,
    Step::Next,
];

// No token is given if it is too long, or if fewer than 64 bytes are left.
#[test]
fn the_feed_goes_on_after_tokens_ahead(rt: HostRuntime) {
    let mut bytes = [b'x'; 160];
    bytes[..12].copy_from_slice(b"ab\ncd  ef\ng\n");
    bytes[20..70].copy_from_slice(&[b'\n'; 50]);
    let want = b"ab@1 cd ef g xxxxxxxx ab halt 1@54 halt 1@54 ";
    assert!(rt; steps_give(&bytes, 160, 10, &AHEAD_AND_NEXT, want));
}

static SLOWLY: [Step; 2] = [Step::Next, Step::Each(2, true)];

// Tokens near the end of the bytes too. The last one is not whole, since no white byte comes after
// it.
#[test]
fn whole_tokens_are_found_slowly(rt: HostRuntime) {
    assert!(rt; steps_give(b"a  bc\ndef", 9, 4, &SLOWLY, b"a@1 bc 4 - 4 "));
}

// A device of which only every other call works: a signal interrupts its reads, and its writes take
// nothing.
#[derive(Drop)]
struct Stutter {
    bytes: [u8; 8],
    calls: u64,
}

impl Stutter {
    fn new() -> Self {
        Stutter {
            bytes: [b'x'; 8],
            calls: 0,
        }
    }
}

impl io::Read for Stutter {
    fn read(&mut self, buf: &mut [u8]) -> io::Result<usize> {
        self.calls = self.calls.saturating_add(1);
        if self.calls % 2 == 0 {
            return Err(io::Error::from(io::ErrorKind::Interrupted));
        }
        let n = buf.len().min(8);
        buf[..n].copy_from_slice(&self.bytes[..n]);
        Ok(n)
    }
}

impl io::Write for Stutter {
    fn write(&mut self, buf: &[u8]) -> io::Result<usize> {
        self.calls = self.calls.saturating_add(1);
        if self.calls % 2 == 0 {
            return Ok(0);
        }
        let n = buf.len().min(8);
        self.bytes[..n].copy_from_slice(&buf[..n]);
        Ok(n)
    }

    fn flush(&mut self) -> io::Result<()> {
        Ok(())
    }
}

// Records what a read returns, and how many have failed.
fn report_read(source: &mut Watch<Stutter>, report: &mut Report)
    requires { failed_calls source.old < 2 ^ 64 - 1 }
    ensures { failed_calls source.new ≤ failed_calls source.old + 1 }
{
    let mut into = [b'-'; 3];
    let given = source.read(&mut into).unwrap_or(0);
    report.push_number(given as u64);
    report.push(&into);
    report.push_line(Source::failures(source));
}

#[test]
fn a_watch_counts_each_failed_read(rt: HostRuntime) {
    let mut source = Watch::new(Stutter::new());
    let mut report = Report::new();
    report_read(&mut source, &mut report);
    report_read(&mut source, &mut report);
    report_read(&mut source, &mut report);
    report_read(&mut source, &mut report);
    assert_eq!(rt;
        report.text(),
        b"3 xxx@0 0 ---@1 3 xxx@1 0 ---@2 ".as_slice()
    );
}

// Records how many of these bytes a write takes, and how many have failed.
fn report_write(sink: &mut Watch<Stutter>, bytes: &[u8], report: &mut Report)
    requires { failed_calls sink.old < 2 ^ 64 - 1 }
    ensures { failed_calls sink.new ≤ failed_calls sink.old + 1 }
{
    match sink.write(bytes) {
        Ok(taken) => report.push_number(taken as u64),
        Err(WriteFailed) => report.push(b"failed "),
    }
    report.push_line(Sink::failures(sink));
}

// A write of no bytes that takes none does not fail.
#[test]
fn a_watch_counts_a_write_that_takes_nothing(rt: HostRuntime) {
    let mut sink = Watch::new(Stutter::new());
    let mut report = Report::new();
    report_write(&mut sink, b"abc", &mut report);
    report_write(&mut sink, b"d", &mut report);
    report_write(&mut sink, b"ef", &mut report);
    report_write(&mut sink, b"", &mut report);
    report.push(&sink.device.bytes);
    assert_eq!(rt;
        report.text(),
        b"3 @0 failed @1 2 @1 0 @1 efcxxxxx".as_slice()
    );
}

// Writes a text with one of the functions of `output`.
fn put_by(by: usize, sink: &mut Watch<Narrow>) -> Result<(), WriteFailed>
    requires { failed_calls sink.old < 2 ^ 64 - 1 }
{
    let line = Few {
        bytes: *b"#1234\n#5",
        len: 5,
    };
    let end = Few {
        bytes: *b" !\n00000",
        len: 3,
    };
    match by {
        0 => put(sink, b"#1234"),
        1 => put_few(sink, line),
        2 => put_parts(sink, b'b', b"10 x", 2, end),
        3 => put_number(sink, 0),
        _ => put_number(sink, u64::MAX),
    }
}

// Whether that function writes this text into so much room: all of it, or its front and a failure.
fn is_written(by: usize, text: &[u8], room: usize) -> bool
    requires { room ≤ 1024 }
{
    let mut sink = Watch::new(Narrow::new(room));
    let failed = room < text.len();
    put_by(by, &mut sink).is_err() == failed
        && sink.device.held() == &text[..room.min(text.len())]
        && Sink::failures(&sink) == failed as u64
}

// Which function writes a text, and the text.
static WRITTEN: [(usize, &[u8]); 5] = [
    (0, b"#1234"),
    (1, b"#1234"),
    (2, b"b10 !\n"),
    (3, b"0"),
    (4, b"18446744073709551615"),
];

#[test]
fn a_text_is_written_as_far_as_there_is_room(rt: HostRuntime) {
    for (by, text) in &WRITTEN {
        for room in 0..24 {
            assert!(rt; is_written(*by, text, room), "by {by} into {room}");
        }
    }
}

// Digits, and the number that they spell, if they do.
static DIGITS: [(&[u8], Option<u64>); 17] = [
    (b"0", Some(0)),
    (b"007", Some(7)),
    (b"12345678", Some(12_345_678)),
    (b"123456789", Some(123_456_789)),
    (b"9876543210123456", Some(9_876_543_210_123_456)),
    (b"9999999999999999999", Some(9_999_999_999_999_999_999)),
    (b"00000000000000000007", Some(7)),
    (b"18446744073709551615", Some(u64::MAX)),
    (b"18446744073709551616", None),
    (b"20000000000000000000", None),
    (b"", None),
    (b"+1", None),
    (b"1 ", None),
    (b"1x", None),
    (b"/2345678", None),
    (b"1234567:", None),
    (b"123456781234567x", None),
];

// Other bytes with digits among them; then the offsets of digits, and the number that they spell.
const AMONG: &[u8] = b"#12345678 #9876543210123456 #12x4 #7\n";

static BETWEEN: [(usize, usize, Option<u64>); 8] = [
    (1, 9, Some(12_345_678)),
    (11, 27, Some(9_876_543_210_123_456)),
    (18, 27, Some(210_123_456)),
    (19, 27, Some(10_123_456)),
    (11, 28, None),
    (29, 33, None),
    (33, 33, None),
    (35, 36, Some(7)),
];

#[test]
fn digits_spell_numbers(rt: HostRuntime) {
    for (digits, number) in &DIGITS {
        assert!(rt; decimal_of(digits) == *number, "of {digits:?}");
    }
    for (from, to, number) in &BETWEEN {
        assert!(rt; *from <= *to && *to <= AMONG.len());
        assert!(rt; decimal_at(AMONG, *from, *to) == *number, "from {from}");
    }
}

// The faults and their texts; those between them, and those after the last one, have none.
static TEXTS: [(u8, &str); 24] = [
    (1, "token too long"),
    (2, "unexpected end of input"),
    (3, "unknown command"),
    (4, "command out of place"),
    (5, "bad timescale"),
    (6, "bad scope"),
    (7, "bad variable"),
    (8, "code declared with another size or kind"),
    (9, "upscope without scope"),
    (10, "scopes too deep"),
    (11, "too many declarations"),
    (12, "no timescale"),
    (13, "bad time"),
    (14, "time goes back"),
    (15, "bad value"),
    (16, "unknown code"),
    (17, "value too wide"),
    (18, "real text too long"),
    (19, "time inside a section"),
    (20, "time too large"),
    (21, "input too long"),
    (22, "time out of range"),
    (31, "read failed"),
    (32, "out of memory"),
];

// The text of a number in that table; an empty one for any other number.
fn text_wanted(number: u8) -> &'static str {
    for (fault, text) in &TEXTS {
        if *fault == number {
            return *text;
        }
    }
    ""
}

#[test]
fn faults_have_their_texts(rt: HostRuntime) {
    for fault in 0..=u8::MAX {
        assert!(rt; text_of(fault) == text_wanted(fault), "at {fault}");
    }
}
