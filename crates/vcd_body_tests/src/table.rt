// Tables with room of exactly `need`: what is held, how it is written, counters, and codes that are
// chosen.
ghost use Rattle.std.specs.Prelude.{◌≡◌, ◌<◌, ◌≤◌, length};
ghost use Rattle.vcd_head.specs.Model.Laws.{ShortIsShortest};

use std::alloc::{AllocError, Global};
use std::test::Fail;
use vcd_body::{Bits, Form, Share, Shown, Slot, Table, Value, laws, put_full, put_short};
use vcd_head::{Code, CodeSeed, HeadView, need};
use vcd_text::Watch;
use vcd_text::doubles::Narrow;

// The code `!` of this size.
fn code_of(size: usize) -> Code {
    Code {
        start: 0,
        len: 1,
        size,
        event: false,
    }
}

// A header that shows these codes, and nothing else.
fn view_of(codes: &[Code]) -> HeadView<'_>
    ensures { result.codes.now ≡ codes.now }
{
    HeadView {
        text: b"!",
        rows: &[],
        codes,
        index: &[],
        entries: &[],
        seed: CodeSeed { factor: 1, more: 0 },
        date: &[],
        version: &[],
        scale: None,
    }
}

// Returns a table in this room. It ensures nothing, since what is proved of a table is proved where
// the table is made.
fn table_in<'a>(
    view: HeadView<'_>,
    values: &'a mut [u8],
    slots: &'a mut [Slot],
    shares: &'a mut [Share],
) -> Table<'a>
    requires slots { length view.codes.now ≤ length slots.old }
    requires shares { length view.codes.now ≤ length shares.old }
{
    Table::new(view, values, slots, shares)
}

// Sets a code. It ensures nothing.
fn set(table: &mut Table<'_>, code: usize, form: Form, text: &[u8]) {
    table.set(code, form, text);
}

// Sets a code, and returns what is counted of that: a step, a rise and a fall.
fn follow(table: &mut Table<'_>, code: usize, size: usize, form: Form, text: &[u8]) -> [u64; 3] {
    let before = table.tally(code);
    table.follow(code, size, Value::of_text(form, text));
    let after = table.tally(code);
    [
        after[0].wrapping_sub(before[0]),
        after[1].wrapping_sub(before[1]),
        after[2].wrapping_sub(before[2]),
    ]
}

// Returns this many of a digit, and then these digits.
fn padded(alloc: Global, digit: u8, count: usize, rest: &[u8]) -> Result<Vec<u8>, AllocError> {
    let mut text = Vec::new(alloc);
    for _ in 0..count {
        text.push(digit)?;
    }
    text.extend_from_slice(rest)?;
    Ok(text)
}

// The digits `z x 0 1`, over and over: no digit of them can be left out.
fn mixed(alloc: Global, count: usize) -> Result<Vec<u8>, AllocError> {
    let mut text = Vec::new(alloc);
    for position in 0..count {
        text.push(match position % 4 {
            0 => b'z',
            1 => b'x',
            2 => b'0',
            _ => b'1',
        })?;
    }
    Ok(text)
}

// `b`, the digits, and the code as a line; at size 1 the digit and the code.
fn line_of(alloc: Global, size: usize, digits: &[u8]) -> Result<Vec<u8>, AllocError> {
    let mut line = Vec::new(alloc);
    if size == 1 {
        line.extend_from_slice(digits)?;
        line.extend_from_slice(b"!\n")?;
    } else {
        line.extend_from_slice(b"b")?;
        line.extend_from_slice(digits)?;
        line.extend_from_slice(b" !\n")?;
    }
    Ok(line)
}

// A code of this size that is set by this text is written like this, as a line and in full.
fn is_shown(
    alloc: Global,
    size: usize,
    form: Form,
    text: &[u8],
    line: &[u8],
    full: &[u8],
) -> Result<bool, AllocError> {
    let codes = [code_of(size)];
    let view = view_of(&codes);
    let mut values = vec![in alloc; 255u8; need(view).values]?;
    let mut slots = [Slot::new()];
    let mut shares = [Share::new()];
    let mut table = table_in(view, &mut values, &mut slots, &mut shares);
    set(&mut table, 0, form, text);
    Ok(is_short(&table, view, 0, line) && is_full(&table, view, 0, full))
}

// Digits that set a code of this size are written as these, the shortest, and in full.
fn are_shown(
    alloc: Global,
    size: usize,
    text: &[u8],
    shortest: &[u8],
    full: &[u8],
) -> Result<bool, AllocError> {
    let line = line_of(alloc, size, shortest)?;
    is_shown(alloc, size, Form::Vector, text, &line, full)
}

// Digits of a code of some size: only these, one for each index, `1` at the last index and `0`
// before it, and `z x 0 1` over and over.
#[derive(Clone, Copy)]
enum Digits {
    Alone(u8),
    Each(u8),
    LastOne,
    Mixed,
}

fn text_of(alloc: Global, size: usize, digits: Digits) -> Result<Vec<u8>, AllocError>
    requires { 0 < size }
{
    match digits {
        Digits::Alone(digit) => padded(alloc, digit, 1, b""),
        Digits::Each(digit) => padded(alloc, digit, size, b""),
        Digits::LastOne => padded(alloc, b'0', size - 1, b"1"),
        Digits::Mixed => mixed(alloc, size),
    }
}

// Digits that set a code, the shortest for them, and those in full.
static VALUES: [(&str, Digits, Digits, Digits); 9] = [
    (
        "1",
        Digits::Alone(b'1'),
        Digits::Alone(b'1'),
        Digits::LastOne,
    ),
    (
        "0",
        Digits::Alone(b'0'),
        Digits::Alone(b'0'),
        Digits::Each(b'0'),
    ),
    (
        "X",
        Digits::Alone(b'X'),
        Digits::Alone(b'x'),
        Digits::Each(b'x'),
    ),
    (
        "Z",
        Digits::Alone(b'Z'),
        Digits::Alone(b'z'),
        Digits::Each(b'z'),
    ),
    (
        "1s",
        Digits::Each(b'1'),
        Digits::Each(b'1'),
        Digits::Each(b'1'),
    ),
    (
        "0s",
        Digits::Each(b'0'),
        Digits::Alone(b'0'),
        Digits::Each(b'0'),
    ),
    (
        "xs",
        Digits::Each(b'x'),
        Digits::Alone(b'x'),
        Digits::Each(b'x'),
    ),
    (
        "0s and 1",
        Digits::LastOne,
        Digits::Alone(b'1'),
        Digits::LastOne,
    ),
    ("all digits", Digits::Mixed, Digits::Mixed, Digits::Mixed),
];

#[test]
fn digits_of_each_form_at_each_size(rt: HostRuntime) -> Result<(), Fail> {
    let alloc = rt.alloc();
    for size in [1, 2, 4, 5, 63, 64, 65, 1_000] {
        for (name, digits, shortest, full) in &VALUES {
            let text = text_of(alloc, size, *digits)?;
            let shortest = text_of(alloc, size, *shortest)?;
            let full = text_of(alloc, size, *full)?;
            assert!(rt;
                are_shown(alloc, size, &text, &shortest, &full)?,
                "{name} at {size}"
            );
        }
    }
    Ok(())
}

#[test]
fn real_number_at_each_size(rt: HostRuntime) -> Result<(), Fail> {
    let line = b"r-1.5E3 !\n".as_slice();
    let full = b"r-1.5E3".as_slice();
    for size in [1, 2, 4, 5, 63, 64, 65, 1_000] {
        assert!(rt;
            is_shown(rt.alloc(), size, Form::RealText, b"-1.5E3", line, full)?,
            "at {size}"
        );
    }
    Ok(())
}

// A size, digits that set a code of it, the shortest for them, and those in full.
static SHORT_DIGITS: [(usize, &[u8], &[u8], &[u8]); 10] = [
    (4, b"10", b"10", b"0010"),
    (4, b"x10", b"x10", b"xx10"),
    (4, b"zx0", b"zx0", b"zzx0"),
    (4, b"0x10", b"0x10", b"0x10"),
    (4, b"00x1", b"0x1", b"00x1"),
    (4, b"0xxx", b"0xxx", b"0xxx"),
    (4, b"ZzX0", b"zx0", b"zzx0"),
    (4, b"xz10", b"xz10", b"xz10"),
    (5, b"x10", b"x10", b"xxx10"),
    (2, b"01", b"1", b"01"),
];

#[test]
fn short_digits_are_extended(rt: HostRuntime) -> Result<(), Fail> {
    for (size, text, shortest, full) in &SHORT_DIGITS {
        assert!(rt; are_shown(rt.alloc(), *size, text, shortest, full)?);
    }
    Ok(())
}

#[test]
fn unset_codes_and_places_of_none(rt: HostRuntime) -> Result<(), Fail> {
    let alloc = rt.alloc();
    let codes = [code_of(4)];
    let view = view_of(&codes);
    let mut values = vec![in alloc; 255u8; need(view).values]?;
    let mut slots = [Slot::new(); 2];
    let mut shares = [Share::new(); 2];
    let mut table = table_in(view, &mut values, &mut slots, &mut shares);
    set(&mut table, 1, Form::Vector, b"10");
    table.bump(1, 0);
    table.choose(1);
    for code in 0..2 {
        assert!(rt; is_short(&table, view, code, b""), "at {code}");
        assert!(rt; is_full(&table, view, code, b"-"), "at {code}");
    }
    assert!(rt; is_nothing(&table, view));
    Ok(())
}

// The first code is unset, and the second index has no value, counter or choice.
fn is_nothing(table: &Table<'_>, view: HeadView<'_>) -> bool {
    table.get(0) == Shown::Unset
        && table.get(1) == Shown::Unset
        && table.digit(view, 0, 0).is_none()
        && table.real(0).is_empty()
        && table.tally(1) == [0, 0, 0]
        && !table.chosen(1)
}

// A text that sets a code of 6 bits, what is shown then, the digits by their indexes, and the text
// of a real number.
static PLACES: [(Form, &[u8], Shown, [Option<u8>; 7], &[u8]); 3] = [
    (
        Form::Vector,
        b"X0z10",
        Shown::Bits,
        [
            Some(b'x'),
            Some(b'x'),
            Some(b'0'),
            Some(b'z'),
            Some(b'1'),
            Some(b'0'),
            None,
        ],
        b"",
    ),
    (Form::RealText, b"2", Shown::Real, [None; 7], b"2"),
    (
        Form::Scalar,
        b"1",
        Shown::Bits,
        [
            Some(b'0'),
            Some(b'0'),
            Some(b'0'),
            Some(b'0'),
            Some(b'0'),
            Some(b'1'),
            None,
        ],
        b"",
    ),
];

#[test]
fn digits_by_their_places(rt: HostRuntime) -> Result<(), Fail> {
    let alloc = rt.alloc();
    let codes = [code_of(6)];
    let view = view_of(&codes);
    let mut values = vec![in alloc; 255u8; need(view).values]?;
    let mut slots = [Slot::new()];
    let mut shares = [Share::new()];
    let mut table = table_in(view, &mut values, &mut slots, &mut shares);
    for (form, text, kind, digits, real) in &PLACES {
        set(&mut table, 0, *form, text);
        assert_eq!(rt; table.get(0), *kind);
        for position in 0..7 {
            assert_eq!(rt;
                table.digit(view, 0, position),
                digits[position],
                "at {position}"
            );
        }
        assert_eq!(rt; table.real(0), *real);
    }
    Ok(())
}

// Whether a code of this size that is set by one text gets another value by a second one.
fn is_changed(
    alloc: Global,
    size: usize,
    first: (Form, &[u8]),
    second: (Form, &[u8]),
) -> Result<bool, AllocError> {
    let codes = [code_of(size)];
    let view = view_of(&codes);
    let mut values = vec![in alloc; 255u8; need(view).values]?;
    let mut slots = [Slot::new()];
    let mut shares = [Share::new()];
    let mut table = table_in(view, &mut values, &mut slots, &mut shares);
    set(&mut table, 0, first.0, first.1);
    Ok(follow(&mut table, 0, size, second.0, second.1)[0] == 1)
}

// A size, two texts that set a code of it, and whether they are two values.
static PAIRS: [(usize, (Form, &[u8]), (Form, &[u8]), bool); 9] = [
    (4, (Form::Vector, b"10"), (Form::Vector, b"010"), false),
    (4, (Form::Vector, b"x10"), (Form::Vector, b"XX10"), false),
    (4, (Form::Vector, b"10"), (Form::Vector, b"x10"), true),
    (4, (Form::Vector, b"x10"), (Form::Vector, b"0x10"), true),
    (4, (Form::Vector, b"110"), (Form::Vector, b"10"), true),
    (
        64,
        (Form::RealText, b"0.5"),
        (Form::RealText, b"0.5"),
        false,
    ),
    (
        64,
        (Form::RealText, b"0.5"),
        (Form::RealText, b"0.50"),
        true,
    ),
    (1, (Form::Scalar, b"1"), (Form::RealText, b"1"), true),
    (1, (Form::RealText, b"1"), (Form::Scalar, b"1"), true),
];

#[test]
fn texts_that_are_two_values(rt: HostRuntime) -> Result<(), Fail> {
    for (size, first, second, differs) in &PAIRS {
        assert_eq!(rt; is_changed(rt.alloc(), *size, *first, *second)?, *differs);
    }
    Ok(())
}

// What is counted of a step that differs or not, and goes up, down, or neither.
fn step_of(differs: bool, way: i8) -> [u64; 3] {
    [u64::from(differs), u64::from(way > 0), u64::from(way < 0)]
}

// Texts that set a code of 9 bits one after another, whether its value differs by each, and whether
// its last digit goes up (1) or down (-1).
static STEPS: [(Form, &[u8], bool, i8); 12] = [
    (Form::Scalar, b"Z", false, 0),
    (Form::Scalar, b"z", false, 0),
    (Form::Vector, b"01", true, 0),
    (Form::Scalar, b"1", false, 0),
    (Form::Scalar, b"0", true, -1),
    (Form::Scalar, b"1", true, 1),
    (Form::Vector, b"x00110010", true, -1),
    (Form::Vector, b"X00110010", false, 0),
    (Form::Vector, b"100110010", true, 0),
    (Form::Vector, b"110011", true, 1),
    (Form::RealText, b"1", true, 0),
    (Form::RealText, b"1", false, 0),
];

#[test]
fn steps_of_values(rt: HostRuntime) -> Result<(), Fail> {
    let alloc = rt.alloc();
    let codes = [code_of(9)];
    let view = view_of(&codes);
    let mut values = vec![in alloc; 255u8; need(view).values]?;
    let mut slots = [Slot::new()];
    let mut shares = [Share::new()];
    let mut table = table_in(view, &mut values, &mut slots, &mut shares);
    for (form, text, differs, way) in &STEPS {
        assert_eq!(rt;
            follow(&mut table, 0, 9, *form, text),
            step_of(*differs, *way)
        );
    }
    assert_eq!(rt; table.tally(0), [7, 2, 2]);
    Ok(())
}

#[test]
fn steps_of_numbers_that_are_counted(rt: HostRuntime) -> Result<(), Fail> {
    let alloc = rt.alloc();
    let codes = [code_of(9)];
    let view = view_of(&codes);
    let mut values = vec![in alloc; 255u8; need(view).values]?;
    let mut slots = [Slot::new()];
    let mut shares = [Share::new()];
    let mut table = table_in(view, &mut values, &mut slots, &mut shares);
    for (len, number) in [(1, 1), (4, 0b0001), (3, 0b110), (3, 0b111), (3, 0b101)] {
        if let Some(bits) = Bits::new(len, number) {
            table.follow(0, 9, Value::Bits(bits));
        }
    }
    assert_eq!(rt; table.tally(0), [3, 1, 1]);
    assert!(rt; is_full(&table, view, 0, b"000000101"));
    Ok(())
}

// The line of a code's value is this.
fn is_short(table: &Table<'_>, view: HeadView<'_>, code: usize, line: &[u8]) -> bool {
    let mut page = Watch::new(Narrow::new(1024));
    put_short(view, table, code, &mut page).is_ok() && page.device.held() == line
}

// The value of a code in full is this.
fn is_full(table: &Table<'_>, view: HeadView<'_>, code: usize, full: &[u8]) -> bool {
    let mut page = Watch::new(Narrow::new(1024));
    put_full(view, table, code, &mut page).is_ok() && page.device.held() == full
}

// The values of three codes in full are these.
fn are_full(table: &Table<'_>, view: HeadView<'_>, full: [&[u8]; 3]) -> bool {
    is_full(table, view, 0, full[0])
        && is_full(table, view, 1, full[1])
        && is_full(table, view, 2, full[2])
}

#[test]
fn shares_lie_apart(rt: HostRuntime) -> Result<(), Fail> {
    let alloc = rt.alloc();
    let codes = [code_of(256), code_of(257), code_of(1_000)];
    let view = view_of(&codes);
    assert_eq!(rt; need(view).values, 379);
    let mut values = vec![in alloc; 255u8; 379]?;
    let mut slots = [Slot::new(); 3];
    let mut shares = [Share::new(); 3];
    let mut table = table_in(view, &mut values, &mut slots, &mut shares);
    let first = mixed(alloc, 256)?;
    let second = padded(alloc, b'x', 256, b"1")?;
    let third = mixed(alloc, 1_000)?;
    set(&mut table, 2, Form::Vector, &third);
    set(&mut table, 0, Form::Vector, &first);
    set(&mut table, 1, Form::Vector, &second);
    assert!(rt; are_full(&table, view, [&first, &second, &third]));
    let real = padded(alloc, b'7', 64, b"")?;
    let text = padded(alloc, b'r', 1, &real)?;
    set(&mut table, 0, Form::RealText, &real);
    assert!(rt; are_full(&table, view, [&text, &second, &third]));
    Ok(())
}

// Texts that set a code of 8 bits without room, of which only the first one is taken.
static WITHOUT_ROOM: [(Form, &[u8]); 4] = [
    (Form::Vector, b"1"),
    (Form::Vector, b"01"),
    (Form::RealText, b"1"),
    (Form::Vector, b""),
];

#[test]
fn texts_without_room_are_passed_over(rt: HostRuntime) {
    let codes = [code_of(8)];
    let view = view_of(&codes);
    let mut slots = [Slot::new()];
    let mut shares = [Share::new()];
    let mut table = table_in(view, &mut [], &mut slots, &mut shares);
    for (form, text) in &WITHOUT_ROOM {
        set(&mut table, 0, *form, text);
    }
    assert!(rt; is_full(&table, view, 0, b"00000001"));
}

#[test]
fn counters_of_a_code(rt: HostRuntime) {
    let codes = [code_of(1); 2];
    let view = view_of(&codes);
    let mut slots = [Slot::new(); 2];
    let mut shares = [Share::new(); 2];
    let mut table = table_in(view, &mut [], &mut slots, &mut shares);
    for which in [0, 2, 2, 3] {
        table.bump(1, which);
    }
    for (rises, falls) in [(true, false), (false, true), (false, false)] {
        table.count(1, rises, falls);
    }
    set(&mut table, 1, Form::Scalar, b"1");
    assert_eq!(rt; table.tally(0), [0, 0, 0]);
    assert_eq!(rt; table.tally(1), [4, 1, 3]);
}

#[test]
fn one_of_three_codes_is_chosen(rt: HostRuntime) {
    let codes = [code_of(1); 3];
    let mut slots = [Slot::new(); 4];
    let mut shares = [Share::new(); 4];
    let mut table = table_in(view_of(&codes), &mut [], &mut slots, &mut shares);
    table.choose(1);
    set(&mut table, 1, Form::Scalar, b"x");
    assert!(rt; !table.chosen(0) && table.chosen(1) && !table.chosen(2));
    let again = table_in(view_of(&codes), &mut [], &mut slots, &mut shares);
    assert!(rt; !again.chosen(0) && !again.chosen(1) && !again.chosen(2));
    assert_eq!(rt; again.get(1), Shown::Unset);
}

// The law over the shortest digits, as a caller has it.
fn short_is_shortest()
    ensures { ShortIsShortest }
{
    laws::short_is_shortest();
}

#[test]
fn callers_have_the_law_over_digits() {
    short_is_shortest();
}
