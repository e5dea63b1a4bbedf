// Words that are times, and words that are none.
use std::alloc::Global;
use vcd_words::{UseFault, Want, Words, want_of};

// The numbers and the units of times, or the fault of their words.
type Times<'a> = Result<(&'a [u64], &'a [Option<i8>]), UseFault<'a>>;

// Words, and the times that they ask for.
static TIMES: [(Words<'static, 'static>, Times<'static>); 47] = [
    (
        Words::Cut("15ns", "15ns"),
        Ok((&[15, 15], &[Some(-9), Some(-9)])),
    ),
    (Words::Cut("20", "20"), Ok((&[20, 20], &[None, None]))),
    (
        Words::Cut("007ms", "007ms"),
        Ok((&[7, 7], &[Some(-3), Some(-3)])),
    ),
    (Words::Cut("1s", "1s"), Ok((&[1, 1], &[Some(0), Some(0)]))),
    (
        Words::Cut("3us", "3us"),
        Ok((&[3, 3], &[Some(-6), Some(-6)])),
    ),
    (
        Words::Cut("4ps", "4ps"),
        Ok((&[4, 4], &[Some(-12), Some(-12)])),
    ),
    (
        Words::Cut("18446744073709551615fs", "18446744073709551615fs"),
        Ok((
            &[18_446_744_073_709_551_615, 18_446_744_073_709_551_615],
            &[Some(-15), Some(-15)],
        )),
    ),
    (
        Words::Cut("18446744073709551615", "18446744073709551615"),
        Ok((
            &[18_446_744_073_709_551_615, 18_446_744_073_709_551_615],
            &[None, None],
        )),
    ),
    (
        Words::Cut("00000000000000000001", "00000000000000000001"),
        Ok((&[1, 1], &[None, None])),
    ),
    (Words::Cut("", ""), Err(UseFault::BadTime(""))),
    (Words::Cut("ns", "ns"), Err(UseFault::BadTime("ns"))),
    (Words::Cut("15NS", "15NS"), Err(UseFault::BadTime("15NS"))),
    (Words::Cut("15Ns", "15Ns"), Err(UseFault::BadTime("15Ns"))),
    (Words::Cut("1 ns", "1 ns"), Err(UseFault::BadTime("1 ns"))),
    (Words::Cut("1ns ", "1ns "), Err(UseFault::BadTime("1ns "))),
    (
        Words::Cut("1.5ns", "1.5ns"),
        Err(UseFault::BadTime("1.5ns")),
    ),
    (Words::Cut("-1", "-1"), Err(UseFault::BadTime("-1"))),
    (Words::Cut("+1", "+1"), Err(UseFault::BadTime("+1"))),
    (Words::Cut("0x1", "0x1"), Err(UseFault::BadTime("0x1"))),
    (Words::Cut("1nss", "1nss"), Err(UseFault::BadTime("1nss"))),
    (Words::Cut("1n", "1n"), Err(UseFault::BadTime("1n"))),
    (Words::Cut("１", "１"), Err(UseFault::BadTime("１"))),
    (
        Words::Cut("18446744073709551616", "18446744073709551616"),
        Err(UseFault::BadTime("18446744073709551616")),
    ),
    (
        Words::Cut("18446744073709551616s", "18446744073709551616s"),
        Err(UseFault::BadTime("18446744073709551616s")),
    ),
    (
        Words::Cut("000000000000000000001", "000000000000000000001"),
        Err(UseFault::BadTime("000000000000000000001")),
    ),
    // A cut ends no earlier than it begins.
    (Words::Cut("4", "5"), Ok((&[4, 5], &[None, None]))),
    (Words::Cut("5", "5"), Ok((&[5, 5], &[None, None]))),
    (Words::Cut("9ns", "4"), Ok((&[9, 4], &[Some(-9), None]))),
    (Words::Cut("9", "4ns"), Ok((&[9, 4], &[None, Some(-9)]))),
    (Words::Cut("5", "4"), Err(UseFault::FromAboveTo)),
    (Words::Cut("x", "y"), Err(UseFault::BadTime("x"))),
    (Words::Cut("5", "4NS"), Err(UseFault::BadTime("4NS"))),
    // The times of a sample are between commas, and increase.
    (Words::Sample("7", None), Ok((&[7], &[None]))),
    (
        Words::Sample("0,1,20", None),
        Ok((&[0, 1, 20], &[None, None, None])),
    ),
    (
        Words::Sample("5ns,15ns", None),
        Ok((&[5, 15], &[Some(-9), Some(-9)])),
    ),
    (
        Words::Sample("3,2ns,1", None),
        Ok((&[3, 2, 1], &[None, Some(-9), None])),
    ),
    (Words::Sample("5,5", None), Err(UseFault::NotRising)),
    (Words::Sample("2,1", None), Err(UseFault::NotRising)),
    (Words::Sample("1,2,3,3", None), Err(UseFault::NotRising)),
    (Words::Sample("1,3,2,4", None), Err(UseFault::NotRising)),
    (Words::Sample("", None), Err(UseFault::BadTime(""))),
    (Words::Sample("5,", None), Err(UseFault::BadTime(""))),
    (Words::Sample(",5", None), Err(UseFault::BadTime(""))),
    (Words::Sample("1,,2", None), Err(UseFault::BadTime(""))),
    (Words::Sample("15NS", None), Err(UseFault::BadTime("15NS"))),
    (Words::Sample("1, 2", None), Err(UseFault::BadTime(" 2"))),
    (Words::Sample("2,1,x,y", None), Err(UseFault::BadTime("x"))),
];

// Whether words ask for these times.
fn have_times(alloc: Global, words: Words<'_, '_>, times: Times<'_>) -> bool {
    match want_of(alloc, words) {
        Ok(Want::Cut(from, to)) => {
            let numbers = [from.number, to.number];
            let units = [from.unit, to.unit];
            times == Ok((numbers.as_slice(), units.as_slice()))
        }
        Ok(Want::Sample(numbers, units, _)) => {
            times == Ok((numbers.as_slice(), units.as_slice()))
        }
        Ok(_) => false,
        Err(fault) => times == Err(fault),
    }
}

#[test]
fn a_time_is_a_number_and_perhaps_a_unit(rt: HostRuntime) {
    for (words, times) in &TIMES {
        assert!(rt; have_times(rt.alloc(), *words, *times), "of {words:?}");
    }
}
