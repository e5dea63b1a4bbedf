// The changes of a code in worked dumps, into arrays of several lengths.
use std::alloc::{AllocError, Global};
use std::hash::{BuildHasherDefault, FoldHasher};
use vcd_changes::{ChangeRow, DONE, FAULT, FULL, NO_CODE, Place, Reading, changes};
use vcd_text::Offset;

const HEAD_A: &[u8] = b"$timescale 1ns $end\n$scope module tb $end\n$var wire 1 ! clk $end\n\
    $var reg 4 \" q [3:0] $end\n$upscope $end\n$enddefinitions $end\n";

const HEAD_B: &[u8] = b"$var wire 4 ! v $end\n$var wire 8 \" w $end\n$enddefinitions $end\n";

const HEAD_C: &[u8] = b"$var wire 1 ! a $end\n$var real 1 \" r $end\n$var event 1 # e $end\n\
    $var wire 2 % u $end\n$enddefinitions $end\n";

// Every digit is 0 or 1.
const ALL: u64 = u64::MAX;

// What is found of a code in a dump: a time, which digits are 1 and which are 0 or 1, of each
// change; the last status; and the fault and its line.
#[derive(Clone, Copy)]
struct Worked {
    head: &'static [u8],
    body: &'static [u8],
    code: &'static [u8],
    found: &'static [(u64, u64, u64)],
    status: u8,
    fault: u64,
    line: u64,
}

static WORKED: [Worked; 16] = [
    // Values are extended on the left: by 0 before 0 and 1, by x before x, by z before z.
    Worked {
        head: HEAD_B,
        body: b"#1\nb10 !\nb1 \"\n#2\nbX10 !\n#3\nbZx0 !\n#4\nb0x10 !\n",
        code: b"!",
        found: &[(1, 2, ALL), (2, 2, 3), (3, 0, 1), (4, 2, ALL - 4)],
        status: DONE,
        fault: 0,
        line: 0,
    },
    Worked {
        head: HEAD_B,
        body: b"#1\nb10 !\nb1 \"\n#2\nbX10 !\n#3\nbZx0 !\n#4\nb0x10 !\n",
        code: b"\"",
        found: &[(1, 1, ALL)],
        status: DONE,
        fault: 0,
        line: 0,
    },
    // In a section too, and if no value changes.
    Worked {
        head: HEAD_A,
        body: b"#0\n$dumpvars\n0!\nb0 \"\n$end\n#1\nx!\n#2\n1!\n#3\n0!\n#4\n1!\n1!\nb1 \"\n#5\n\
            $dumpoff\nx!\nbx \"\n$end\n",
        code: b"!",
        found: &[
            (0, 0, ALL),
            (1, 0, 0),
            (2, 1, ALL),
            (3, 0, ALL),
            (4, 1, ALL),
            (4, 1, ALL),
            (5, 0, 0),
        ],
        status: DONE,
        fault: 0,
        line: 0,
    },
    Worked {
        head: HEAD_A,
        body: b"#0\n$dumpvars\n0!\nb0 \"\n$end\n#1\nx!\n#2\n1!\n#3\n0!\n#4\n1!\n1!\nb1 \"\n#5\n\
            $dumpoff\nx!\nbx \"\n$end\n",
        code: b"\"",
        found: &[(0, 0, ALL), (4, 1, ALL), (5, 0, 0)],
        status: DONE,
        fault: 0,
        line: 0,
    },
    // A real number, whose digits are not known, and an event.
    Worked {
        head: HEAD_C,
        body: b"#9\n0!\nr1.5 \"\n1#\n#10\n1!\n1#\n#20\nr2 \"\n#21\n0!\n",
        code: b"\"",
        found: &[(9, 0, 0), (20, 0, 0)],
        status: DONE,
        fault: 0,
        line: 0,
    },
    Worked {
        head: HEAD_C,
        body: b"#9\n0!\nr1.5 \"\n1#\n#10\n1!\n1#\n#20\nr2 \"\n#21\n0!\n",
        code: b"#",
        found: &[(9, 1, ALL), (10, 1, ALL)],
        status: DONE,
        fault: 0,
        line: 0,
    },
    // Before the first timestamp it is time 0.
    Worked {
        head: HEAD_C,
        body: b"1!\n#0\n0!\n#9\n",
        code: b"!",
        found: &[(0, 1, ALL), (0, 0, ALL)],
        status: DONE,
        fault: 0,
        line: 0,
    },
    Worked {
        head: HEAD_C,
        body: b"1!\n#0\n0!\n#9\n",
        code: b"%",
        found: &[],
        status: DONE,
        fault: 0,
        line: 0,
    },
    // Faults of the body, after the changes before them.
    Worked {
        head: HEAD_A,
        body: b"#0\n0!\n#5\nb10",
        code: b"!",
        found: &[(0, 0, ALL)],
        status: FAULT,
        fault: 2,
        line: 10,
    },
    Worked {
        head: HEAD_A,
        body: b"#5\n#5\n1!\n#4\n",
        code: b"!",
        found: &[(5, 1, ALL)],
        status: FAULT,
        fault: 14,
        line: 10,
    },
    Worked {
        head: HEAD_A,
        body: b"#5\n$dumpvars\n#4\n",
        code: b"!",
        found: &[],
        status: FAULT,
        fault: 19,
        line: 9,
    },
    Worked {
        head: HEAD_B,
        body: b"#1\nb1 !\n#2\n?\n",
        code: b"!",
        found: &[(1, 1, ALL)],
        status: FAULT,
        fault: 3,
        line: 7,
    },
    // No such code, whatever the body is.
    Worked {
        head: HEAD_B,
        body: b"#1\nb1 !\n#2\n?\n",
        code: b"v",
        found: &[],
        status: NO_CODE,
        fault: 0,
        line: 0,
    },
    // Faults of the header.
    Worked {
        head: b"",
        body: b"",
        code: b"!",
        found: &[],
        status: FAULT,
        fault: 2,
        line: 1,
    },
    Worked {
        head: b"$var wire 1 ! a $end\n$var wire 2 ! b $end\n",
        body: b"",
        code: b"!",
        found: &[],
        status: FAULT,
        fault: 8,
        line: 2,
    },
    Worked {
        head: b"$timescale 2ns $end\n",
        body: b"",
        code: b"!",
        found: &[],
        status: FAULT,
        fault: 5,
        line: 1,
    },
];

// A reading that has not begun.
fn unread() -> Reading {
    Reading {
        place: Place {
            limit: 0,
            offset: Offset {
                bytes: 0,
                line_feeds: 0,
                line: 0,
                answer: 0,
            },
            time: 0,
            marked: 0,
            section: 0,
        },
        count: 0,
        fault: 0,
        line: 0,
    }
}

// All that calls with an array of this length find, and the last status with what the reading says.
fn found_in(
    alloc: Global,
    dump: &[u8],
    code: &[u8],
    most: usize,
) -> Result<(Vec<(u64, u64, u64)>, u8, Reading), AllocError> {
    let hasher: BuildHasherDefault<FoldHasher> = BuildHasherDefault::new();
    let mut found = Vec::new(alloc);
    let mut reading = unread();
    let mut rows = [ChangeRow {
        time: 0,
        value: 0,
        known: 0,
    }; 64];
    let most = most.min(64);
    let mut status = FULL;
    for _ in 0..1_000_000 {
        status = changes(alloc, dump, code, &hasher, &mut reading, &mut rows[..most]);
        for row in rows[..most].iter().take(reading.count as usize) {
            found.push((row.time, row.value, row.known))?;
        }
        if status != FULL {
            break;
        }
    }
    Ok((found, status, reading))
}

// Whether this is found, with an array of this length.
fn is_found(alloc: Global, worked: Worked, most: usize) -> Result<bool, AllocError> {
    let mut dump = Vec::new(alloc);
    dump.extend_from_slice(worked.head)?;
    dump.extend_from_slice(worked.body)?;
    let (found, status, reading) = found_in(alloc, &dump, worked.code, most)?;
    Ok(
        found.as_slice() == worked.found
            && status == worked.status
            && reading.fault == worked.fault
            && reading.line == worked.line,
    )
}

// Whether all worked dumps are found, with an array of this length.
fn are_found(alloc: Global, most: usize) -> Result<bool, AllocError> {
    for worked in WORKED.iter() {
        if !is_found(alloc, *worked, most)? {
            return Ok(false);
        }
    }
    Ok(true)
}

#[test]
fn changes_of_worked_dumps(rt: HostRuntime) {
    assert_eq!(rt; are_found(rt.alloc(), 1), Ok(true));
    assert_eq!(rt; are_found(rt.alloc(), 2), Ok(true));
    assert_eq!(rt; are_found(rt.alloc(), 64), Ok(true));
}

// A dump of these times, from 0 on: with each a digit changes, a vector, which has the time as its
// value, and another digit.
fn long_dump(alloc: Global, times: u64) -> Result<Vec<u8>, AllocError> {
    let mut dump = Vec::new(alloc);
    dump.extend_from_slice(
        b"$var wire 1 ! a $end\n$var reg 64 \" q $end\n$var wire 1 % u $end\n\
            $enddefinitions $end\n",
    )?;
    for time in 0..times {
        let digit = if time % 2 == 0 { "0" } else { "1" };
        let text = format!(in alloc; "#{time}\n{digit}!\nb{time:b} \"\n1%\n")?;
        dump.extend_from_slice(text.as_bytes())?;
    }
    Ok(dump)
}

// Whether the vector and the digit of each time are found in a long dump.
fn are_found_far(alloc: Global, times: u64, most: usize) -> Result<bool, AllocError> {
    let dump = long_dump(alloc, times)?;
    let (vectors, ended, _) = found_in(alloc, &dump, b"\"", most)?;
    let (digits, done, _) = found_in(alloc, &dump, b"!", most)?;
    let mut same = ended == DONE && done == DONE && vectors.len() as u64 == times;
    same = same && digits.len() as u64 == times;
    for (time, row) in vectors.iter().enumerate() {
        same = same && *row == (time as u64, time as u64, ALL);
    }
    for (time, row) in digits.iter().enumerate() {
        same = same && *row == (time as u64, time as u64 % 2, ALL);
    }
    Ok(same)
}

#[test]
fn changes_of_a_long_dump(rt: HostRuntime) {
    assert_eq!(rt; are_found_far(rt.alloc(), 100, 64), Ok(true));
    assert_eq!(rt; are_found_far(rt.alloc(), 20, 7), Ok(true));
}

// A dump in which a vector has this many digits, all of them 1: after a change of a digit, and
// before others of both.
fn wide_dump(alloc: Global, digits: usize) -> Result<Vec<u8>, AllocError> {
    let mut dump = Vec::new(alloc);
    dump.extend_from_slice(
        b"$var wire 1 ! a $end\n$var reg 2000000 \" q $end\n$enddefinitions $end\n#1\n1!\n#2\nb",
    )?;
    let all = vec![in alloc; b'1'; digits]?;
    dump.extend_from_slice(&all)?;
    dump.extend_from_slice(b" \"\n#3\n0!\n#4\nb10 \"\n")?;
    Ok(dump)
}

// Whether both variables of such a dump have these changes, with this status and fault.
fn are_found_wide(
    alloc: Global,
    digits: usize,
    most: usize,
    bits: &[(u64, u64, u64)],
    vectors: &[(u64, u64, u64)],
    ends: (u8, u64, u64),
) -> Result<bool, AllocError> {
    let dump = wide_dump(alloc, digits)?;
    let (found_bits, status, reading) = found_in(alloc, &dump, b"!", most)?;
    let (found_vectors, other, again) = found_in(alloc, &dump, b"\"", most)?;
    Ok(
        found_bits.as_slice() == bits
            && found_vectors.as_slice() == vectors
            && (status, reading.fault, reading.line) == ends
            && (other, again.fault, again.line) == ends,
    )
}

// Tokens of one byte less and more than the lower limit, and than the limit, which is 1,048,576.
#[test]
fn changes_of_a_wide_vector(rt: HostRuntime) {
    let bits = [(1, 1, ALL), (3, 0, ALL)];
    let vectors = [(2, ALL, ALL), (4, 2, ALL)];
    for digits in [65_535, 65_536, 1_048_575] {
        for most in [1, 64] {
            let found = are_found_wide(rt.alloc(), digits, most, &bits, &vectors, (DONE, 0, 0));
            assert_eq!(rt; found, Ok(true));
        }
    }
    for most in [1, 64] {
        let found = are_found_wide(rt.alloc(), 1_048_576, most, &bits[..1], &[], (FAULT, 1, 7));
        assert_eq!(rt; found, Ok(true));
    }
}
