// Headers that are read, and headers that are refused.
ghost use Rattle.std.specs.Prelude.{◌≤◌};
ghost use Rattle.vcd_head.specs.Model.Laws.{CodesDiffer};

use std::alloc::{AllocError, Global};
use std::test::Fail;
use vcd_head::{
    Code, Head, HeadFault, HeadView, Kind, Need, Probes, Row, Scale, find, find_counted, laws,
    need, put_head, put_path, read_head, select, selects,
};
use vcd_text::{Feed, Watch};

mod merged;
mod moments;

const NESTED: &[u8] =
    b"$date Tue  Mar 5 $end $foo a #0 $var $end\n$timescale 10 ns $end\n$scope module tb $end\n\
        $var wire 1 ~ clk $end\n$scope module u $end\n$var reg 4 ! q [3:0] $end\n\
        $var reg 4 ! alias $end\n$upscope $end\n$var event 1 !! go $end\n$enddefinitions $end\n\
        #0\n";

const TWO: &[u8] = b"$var wire 4 ! v $end\n$var wire 8 \" w $end\n$enddefinitions $end\n";

// The head, or the fault and the feed's line.
fn read(alloc: Global, text: &[u8], most: u64) -> Result<Head, (HeadFault, u64)>
    requires { most ≤ 16777216 }
{
    let mut source = Watch::new(text);
    let mut chunk = [0u8; 7];
    let mut token = [0u8; 64];
    let mut value = [0u8; 64];
    let mut feed = Feed::new(&mut source, &mut chunk, &mut token, &mut value);
    match read_head(alloc, &mut feed, most) {
        Ok(head) => Ok(head),
        Err(fault) => Err((fault, feed.line())),
    }
}

fn read_good(alloc: Global, text: &[u8]) -> Result<Head, HeadFault> {
    let mut source = Watch::new(text);
    let mut chunk = [0u8; 7];
    let mut token = [0u8; 64];
    let mut value = [0u8; 64];
    let mut feed = Feed::new(&mut source, &mut chunk, &mut token, &mut value);
    read_head(alloc, &mut feed, 16_777_216)
}

// Rows of the header with nested scopes, by their indexes. The bytes of a new code lie before the
// type of its first variable.
static NESTED_ROWS: [(usize, Row); 5] = [
    (
        1,
        Row {
            kind: Kind::Var,
            parent: 1,
            start: 9,
            word: 4,
            name: 3,
            all: 3,
            code: 0,
        },
    ),
    (
        3,
        Row {
            kind: Kind::Var,
            parent: 3,
            start: 24,
            word: 3,
            name: 1,
            all: 7,
            code: 1,
        },
    ),
    (
        4,
        Row {
            kind: Kind::Var,
            parent: 3,
            start: 34,
            word: 3,
            name: 5,
            all: 5,
            code: 1,
        },
    ),
    (
        5,
        Row {
            kind: Kind::Up,
            parent: 3,
            start: 0,
            word: 0,
            name: 0,
            all: 0,
            code: 0,
        },
    ),
    (
        6,
        Row {
            kind: Kind::Var,
            parent: 1,
            start: 44,
            word: 5,
            name: 2,
            all: 2,
            code: 2,
        },
    ),
];

const NESTED_LAST: Code = Code {
    start: 42,
    len: 2,
    size: 1,
    event: true,
};

// Whether that header has seven rows and three codes, and the last code and their order are as
// expected.
fn has_nested_codes(view: HeadView<'_>) -> bool {
    view.rows.len() == 7
        && view.codes.len() == 3
        && view.codes.last().copied() == Some(NESTED_LAST)
        && view.index == [1, 2, 0].as_slice()
}

#[test]
fn scopes_and_aliases(rt: HostRuntime) -> Result<(), Fail> {
    let head = read_good(rt.alloc(), NESTED)?;
    for (position, row) in &NESTED_ROWS {
        assert_eq!(rt;
            head.view().rows.get(*position).copied(),
            Some(*row),
            "at {position}"
        );
    }
    assert!(rt; has_nested_codes(head.view()));
    assert_eq!(rt; head.view().date, b"Tue Mar 5".as_slice());
    assert_eq!(rt; head.view().scale, Some(Scale { exponent: -8 }));
    Ok(())
}

#[test]
fn too_many(rt: HostRuntime) {
    assert!(rt; matches!(read(rt.alloc(), TWO, 1), Err((HeadFault::TooMany, 2))));
    assert!(rt; read(rt.alloc(), TWO, 2).is_ok());
}

// A header with a scope and two variables.
const SMALL: &[u8] = b"$timescale 1ns $end\n$scope module tb $end\n$var wire 1 ! clk $end\n\
    $var reg 4 \" q [3:0] $end\n$upscope $end\n$enddefinitions $end\n";

// Texts that are no headers, the number of their fault, and its line.
static FAULTS: [(&[u8], u8, u64); 16] = [
    (b"", 2, 1),
    (b"$foo $end\n", 2, 2),
    (b"$comment x$end\n$enddefinitions $end\n", 2, 3),
    (
        b"$comment xxxxxxxxxxxxxxxxxxxxxxxxxxxxxxxxxxxxxxxxxxxxxxxxxxxxxxxxxxxxxxxxx $end\n\
            $enddefinitions $end\n",
        1,
        1,
    ),
    (b"foo $end\n", 3, 1),
    (b"$ $end\n", 3, 1),
    (b"#0\n", 4, 1),
    (b"$timescale 2ns $end\n", 5, 1),
    (b"$timescale 1ns ps $end\n", 5, 1),
    (b"$scope module $end\n", 6, 1),
    (b"$var wire 0 ! a $end\n", 7, 1),
    (b"$var wire 1 ! $end\n", 7, 1),
    (b"$var wire 16777216 ! a $end\n", 7, 1),
    (b"$var wire 1 ! a $end\n$var wire 2 ! b $end\n", 8, 2),
    (b"$var event 1 ! a $end\n$var wire 1 ! b $end\n", 8, 2),
    (b"$upscope $end\n", 9, 1),
];

// The number of a text's fault, and its line.
fn fault_of(alloc: Global, text: &[u8]) -> Option<(u8, u64)> {
    match read(alloc, text, 16_777_216) {
        Ok(_) => None,
        Err((fault, line)) => Some((fault.number(), line)),
    }
}

#[test]
fn faults_and_lines(rt: HostRuntime) {
    for (text, number, line) in &FAULTS {
        let fault = fault_of(rt.alloc(), text);
        assert_eq!(rt; fault, Some((*number, *line)), "fault {number}");
    }
}

// Look-ups and room.

const FOUR: &[u8] =
    b"$var wire 1 ~ a $end $var wire 1 ! b $end $var wire 1 !! c $end $var wire 1 \" d $end \
        $enddefinitions $end\n";

const SIZES: &[u8] = b"$var wire 256 ! a $end $var wire 257 \" b $end $var wire 1000 # c $end \
    $enddefinitions $end\n";

// What both look-ups answer.
fn found(head: &Head, code: &[u8]) -> [Option<usize>; 2] {
    let view = head.view();
    [
        find(view, code),
        find_counted(view, code, &mut Probes::new()),
    ]
}

fn needed(head: &Head) -> Need {
    need(head.view())
}

// Codes, and the indexes at which both look-ups find them.
static FOUND: [(&[u8], Option<usize>); 8] = [
    (b"~", Some(0)),
    (b"!", Some(1)),
    (b"!!", Some(2)),
    (b"\"", Some(3)),
    (b"!\"", None),
    (b"!!!", None),
    (b"}", None),
    (b"", None),
];

#[test]
fn codes_are_found(rt: HostRuntime) -> Result<(), Fail> {
    let head = read_good(rt.alloc(), FOUR)?;
    assert_eq!(rt; head.view().index, [1, 2, 3, 0].as_slice());
    for (code, position) in &FOUND {
        assert_eq!(rt; found(&head, code), [*position; 2], "of {code:?}");
    }
    Ok(())
}

// The first six have numbers that leave 1 when divided by 16, and there are 16 entries; the others
// have 8 bytes or more.
const CROWDED: &[u8] =
    b"$var wire 1 ! a $end $var wire 1 1 b $end $var wire 1 A c $end $var wire 1 Q d $end \
        $var wire 1 a e $end $var wire 1 q f $end $var wire 1 register2 g $end \
        $var wire 1 register h $end $var wire 1 register1 i $end \
        $var wire 1 0123456789abcdef j $end $enddefinitions $end\n";

// Codes, and the indexes at which both look-ups find them among these.
static FOUND_CROWDED: [(&[u8], Option<usize>); 14] = [
    (b"!", Some(0)),
    (b"1", Some(1)),
    (b"A", Some(2)),
    (b"Q", Some(3)),
    (b"a", Some(4)),
    (b"q", Some(5)),
    (b"register", Some(7)),
    (b"register1", Some(8)),
    (b"register2", Some(6)),
    (b"0123456789abcdef", Some(9)),
    (b"registe", None),
    (b"register3", None),
    (b"0123456789abcdeg", None),
    (b"i", None),
];

#[test]
fn crowded_codes_are_found(rt: HostRuntime) -> Result<(), Fail> {
    let head = read_good(rt.alloc(), CROWDED)?;
    assert_eq!(rt;
        head.view().index,
        [0, 9, 1, 2, 3, 4, 5, 7, 8, 6].as_slice()
    );
    for (code, position) in &FOUND_CROWDED {
        assert_eq!(rt; found(&head, code), [*position; 2], "of {code:?}");
    }
    Ok(())
}

#[test]
fn room_of_codes(rt: HostRuntime) -> Result<(), Fail> {
    assert_eq!(rt; needed(&read_good(rt.alloc(), SIZES)?).values, 379);
    assert_eq!(rt;
        needed(&read_good(rt.alloc(), TWO)?),
        Need {
            values: 128,
            slots: 2,
            marks: 2
        }
    );
    Ok(())
}

// The paths of the variables, a line each.
#[test]
fn paths_of_nested_scopes(rt: HostRuntime) -> Result<(), Fail> {
    let head = read_good(rt.alloc(), NESTED)?;
    let view = head.view();
    let mut paths = Watch::new(Vec::new(rt.alloc()));
    for row in 0..view.rows.len() {
        if view.rows[row].kind == Kind::Var {
            put_path(view, row, &mut paths)?;
            paths.device.push(b'\n')?;
        }
    }
    assert_eq!(rt;
        paths.device.as_slice(),
        b"tb.clk\ntb.u.q\ntb.u.alias\ntb.go\n".as_slice()
    );
    Ok(())
}

// Headers that are written.

const SIMULATED: &[u8] =
    b"$date Tue  Mar 5 $end\n$version Sim 1.0 $end\n$timescale 10 ns $end\n$scope module tb $end\n\
        $var wire 1 ~ clk $end\n$scope module u $end\n$var reg 4 ! q [3:0] $end\n$upscope $end\n\
        $scope task t $end\n$var event 1 !! go $end\n$upscope $end\n$upscope $end\n\
        $enddefinitions $end\n";

const SIMULATED_PART: &[u8] =
    b"$date\n\tTue Mar 5\n$end\n$version\n\tSim 1.0\n$end\n$timescale\n\t10ns\n$end\n\
        $scope module tb $end\n$scope module u $end\n$var reg 4 ! q [3:0] $end\n$upscope $end\n\
        $upscope $end\n$enddefinitions $end\n";

#[test]
fn head_of_marked_declarations(rt: HostRuntime) -> Result<(), Fail> {
    let head = read_good(rt.alloc(), SIMULATED)?;
    let mut out = Watch::new(Vec::new(rt.alloc()));
    put_head(head.view(), &[1, 0, 1, 1, 0, 0, 0, 0, 0], &mut out)?;
    assert_eq!(rt; out.device.as_slice(), SIMULATED_PART);
    Ok(())
}

const OPEN: &[u8] =
    b"$scope module a $end\n$scope fork b $end\n$var wire 1 ! x $end\n$upscope $end\n\
        $scope begin c $end\n$scope module d $end\n$var real 64 r y $end\n$enddefinitions $end\n";

const OPEN_PART: &[u8] =
    b"$scope module a $end\n$var wire 1 ! x $end\n$scope begin c $end\n$var real 64 r y $end\n\
        $upscope $end\n$upscope $end\n$enddefinitions $end\n";

#[test]
fn head_with_scopes_left_open(rt: HostRuntime) -> Result<(), Fail> {
    let head = read_good(rt.alloc(), OPEN)?;
    let mut out = Watch::new(Vec::new(rt.alloc()));
    put_head(head.view(), &[1, 0, 1, 0, 1, 0, 1], &mut out)?;
    assert_eq!(rt; out.device.as_slice(), OPEN_PART);
    Ok(())
}

// Selection.

// The rows: tb, tb.a, tb.ab, the scope tb.a, tb.a.x (an alias of tb.a), and two that close a scope.
const BESIDE: &[u8] =
    b"$scope module tb $end $var wire 1 ! a $end $var wire 1 \" ab $end $scope module a $end \
        $var wire 1 ! x $end $upscope $end $upscope $end $enddefinitions $end\n";

// Whether the name selects tb.a, tb.ab and tb.a.x.
fn selected(head: &Head, name: &str) -> [bool; 3] {
    let view = head.view();
    [
        selects(view, 1, name),
        selects(view, 2, name),
        selects(view, 4, name),
    ]
}

// Names, and which of tb.a, tb.ab and tb.a.x they select.
static SELECTED: [(&str, [bool; 3]); 8] = [
    ("tb", [true; 3]),
    ("tb.a", [true, false, true]),
    ("tb.ab", [false, true, false]),
    ("tb.a.x", [false, false, true]),
    ("t", [false; 3]),
    ("tb.a.", [false; 3]),
    ("a", [false; 3]),
    ("", [false; 3]),
];

#[test]
fn names_select_whole_components(rt: HostRuntime) -> Result<(), Fail> {
    let head = read_good(rt.alloc(), BESIDE)?;
    for (name, positions) in &SELECTED {
        assert_eq!(rt; selected(&head, name), *positions, "by {name}");
    }
    Ok(())
}

fn names(alloc: Global, texts: &[&str]) -> Result<Vec<String>, AllocError> {
    let mut names = Vec::new(alloc);
    for text in texts {
        names.push(String::from_str(alloc, *text)?)?;
    }
    Ok(names)
}

// The marks of the seven rows, or the index of the refused name.
fn marked(
    alloc: Global,
    head: &Head,
    texts: &[&str],
) -> Result<Result<[u8; 7], usize>, AllocError> {
    let view = head.view();
    let names = names(alloc, texts)?;
    let mut marks = [9; 7];
    if view.rows.len() != marks.len() {
        return Ok(Err(view.rows.len()));
    }
    Ok(select(view, &names, &mut marks).map(|_| marks))
}

// Names, and the marks of the seven rows, or the index of the name that is refused.
static MARKED: [(&[&str], Result<[u8; 7], usize>); 6] = [
    (&[], Ok([1, 1, 1, 1, 1, 0, 0])),
    (&["tb.a"], Ok([1, 1, 0, 1, 1, 0, 0])),
    (&["tb.a.x"], Ok([1, 0, 0, 1, 1, 0, 0])),
    (&["tb.ab", "tb.ab"], Ok([1, 0, 1, 0, 0, 0, 0])),
    (&["tb", "tb.b", "x"], Err(1)),
    (&["a", "tb"], Err(0)),
];

#[test]
fn selected_variables_are_marked(rt: HostRuntime) -> Result<(), Fail> {
    let head = read_good(rt.alloc(), BESIDE)?;
    for (texts, marks) in &MARKED {
        assert_eq!(rt; marked(rt.alloc(), &head, texts)?, *marks, "by {texts:?}");
    }
    Ok(())
}

// The rows: a, a.b.c (the scope b in a), the end of both, a.b (one scope), its variables c and d.e,
// its end, a scope with no variable, and its end.
const POINTS: &[u8] =
    b"$scope module a $end $scope module b $end $var wire 1 ! c $end $upscope $end $upscope $end \
        $scope module a.b $end $var wire 1 ! c $end $var wire 1 ! d.e $end $upscope $end \
        $scope module f $end $upscope $end $enddefinitions $end\n";

// The marks of its eleven rows, or the index of the refused name.
fn marked_points(
    alloc: Global,
    head: &Head,
    texts: &[&str],
) -> Result<Result<[u8; 11], usize>, AllocError> {
    let view = head.view();
    let names = names(alloc, texts)?;
    let mut marks = [9; 11];
    if view.rows.len() != marks.len() {
        return Ok(Err(view.rows.len()));
    }
    Ok(select(view, &names, &mut marks).map(|_| marks))
}

// Names in any order and repeated, and the marks of the eleven rows, or the index of the name that
// is refused.
static MARKED_POINTS: [(&[&str], Result<[u8; 11], usize>); 7] = [
    (&["a"], Ok([1, 1, 1, 0, 0, 1, 1, 1, 0, 0, 0])),
    (&["a.b.c"], Ok([1, 1, 1, 0, 0, 1, 1, 0, 0, 0, 0])),
    (&["a.b.d"], Ok([0, 0, 0, 0, 0, 1, 0, 1, 0, 0, 0])),
    (
        &["a.b.d.e", "a.b.c", "a.b", "a.b.d", "a.b", "a"],
        Ok([1, 1, 1, 0, 0, 1, 1, 1, 0, 0, 0]),
    ),
    (&["a.b.d.e", "a", "f", "a.b.x"], Err(2)),
    (&["a.b.d.e", "a.b.", "a"], Err(1)),
    (&["a", "a.b.c", "a.b.c", "a.b.cc", "a.b.d.e.f"], Err(3)),
];

#[test]
fn names_with_points_are_found(rt: HostRuntime) -> Result<(), Fail> {
    let head = read_good(rt.alloc(), POINTS)?;
    for (texts, marks) in &MARKED_POINTS {
        assert_eq!(rt;
            marked_points(rt.alloc(), &head, texts)?,
            *marks,
            "by {texts:?}"
        );
    }
    Ok(())
}

// The law over codes, as a caller has it.
fn codes_differ()
    ensures { CodesDiffer }
{
    laws::codes_differ();
}

#[test]
fn callers_have_the_law_over_codes() {
    codes_differ();
}
