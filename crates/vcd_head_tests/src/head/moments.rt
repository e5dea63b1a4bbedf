// Times with a unit, in ticks.
use vcd_head::{CodeSeed, HeadView, Moment, Scale, TickFault, ticks};

const TEN_NANOSECONDS: Option<i8> = Some(-8);

// This many of the units with this power of ten, in ticks of a scale with that one.
fn in_ticks(scale: Option<i8>, number: u64, unit: Option<i8>, up: bool) -> Result<u64, TickFault> {
    let view = HeadView {
        text: &[],
        rows: &[],
        codes: &[],
        index: &[],
        entries: &[],
        seed: CodeSeed { factor: 1, more: 0 },
        date: &[],
        version: &[],
        scale: scale.map(|exponent| Scale { exponent }),
    };
    ticks(view, Moment { number, unit }, up)
}

// Both roundings, down first.
fn both(scale: i8, number: u64, unit: i8) -> [Result<u64, TickFault>; 2] {
    [
        in_ticks(Some(scale), number, Some(unit), false),
        in_ticks(Some(scale), number, Some(unit), true),
    ]
}

// The power of ten of a scale, this many of the units with another one, and both roundings, down
// first.
type Rounded = (i8, u64, i8, Result<u64, TickFault>, Result<u64, TickFault>);

const OUT: Result<u64, TickFault> = Err(TickFault::OutOfRange);

static ROUNDED: [Rounded; 22] = [
    // Parts of a tick.
    (-8, 0, -9, Ok(0), Ok(0)),
    (-8, 5, -9, Ok(0), Ok(1)),
    (-8, 10, -9, Ok(1), Ok(1)),
    (-8, 11, -9, Ok(1), Ok(2)),
    (-8, 14, -9, Ok(1), Ok(2)),
    (-8, 15, -9, Ok(1), Ok(2)),
    (-8, 25, -9, Ok(2), Ok(3)),
    (-8, 29, -9, Ok(2), Ok(3)),
    // Coarse scales.
    (0, 1_500, -3, Ok(1), Ok(2)),
    (1, 1_500, -3, Ok(0), Ok(1)),
    (
        2,
        18_446_744_073_709_551_615,
        0,
        Ok(184_467_440_737_095_516),
        Ok(184_467_440_737_095_517),
    ),
    (2, 18_446_744_073_709_551_615, -15, Ok(184), Ok(185)),
    // The last times that are in range, and the first ones that are not.
    (-8, 18_446_744_073_709_551_615, 0, OUT, OUT),
    (
        -15,
        18_446,
        0,
        Ok(18_446_000_000_000_000_000),
        Ok(18_446_000_000_000_000_000),
    ),
    (-15, 18_447, 0, OUT, OUT),
    (
        -10,
        1_844_674_407_370_955_161,
        -9,
        Ok(18_446_744_073_709_551_610),
        Ok(18_446_744_073_709_551_610),
    ),
    (-10, 1_844_674_407_370_955_162, -9, OUT, OUT),
    (
        -9,
        18_446_744_073_709_551_615,
        -9,
        Ok(18_446_744_073_709_551_615),
        Ok(18_446_744_073_709_551_615),
    ),
    // Powers beyond the units.
    (127, 18_446_744_073_709_551_615, -15, Ok(0), Ok(1)),
    (127, 0, -15, Ok(0), Ok(0)),
    (-15, 0, 127, Ok(0), Ok(0)),
    (-15, 1, 127, OUT, OUT),
];

#[test]
fn times_are_rounded(rt: HostRuntime) {
    for (scale, number, unit, down, up) in &ROUNDED {
        let rounded = both(*scale, *number, *unit);
        assert_eq!(rt; rounded, [*down, *up], "{number} in {scale}");
    }
}

// One of a unit, in ticks of 1 fs, 10 fs and 100 fs, rounded up.
fn in_small_ticks(unit: i8) -> [Result<u64, TickFault>; 3] {
    [
        in_ticks(Some(-15), 1, Some(unit), true),
        in_ticks(Some(-14), 1, Some(unit), true),
        in_ticks(Some(-13), 1, Some(unit), true),
    ]
}

// The power of ten of a unit, and one of it in ticks of 1 fs, 10 fs and 100 fs.
static UNITS: [(i8, [u64; 3]); 6] = [
    (
        0,
        [
            1_000_000_000_000_000,
            100_000_000_000_000,
            10_000_000_000_000,
        ],
    ),
    (-3, [1_000_000_000_000, 100_000_000_000, 10_000_000_000]),
    (-6, [1_000_000_000, 100_000_000, 10_000_000]),
    (-9, [1_000_000, 100_000, 10_000]),
    (-12, [1_000, 100, 10]),
    (-15, [1, 1, 1]),
];

#[test]
fn each_unit_has_ticks(rt: HostRuntime) {
    for (unit, ticks) in &UNITS {
        let [one, ten, hundred] = *ticks;
        let wanted = [Ok(one), Ok(ten), Ok(hundred)];
        assert_eq!(rt; in_small_ticks(*unit), wanted, "at {unit}");
    }
}

// A scale, this many of a unit, whether they are rounded up, and their ticks.
static WITHOUT: [(Option<i8>, u64, Option<i8>, bool, Result<u64, TickFault>); 4] = [
    (None, 10, Some(-9), true, Err(TickFault::NoTimescale)),
    (None, 10, None, true, Ok(10)),
    (TEN_NANOSECONDS, 10, None, true, Ok(10)),
    (
        TEN_NANOSECONDS,
        18_446_744_073_709_551_615,
        None,
        false,
        Ok(18_446_744_073_709_551_615),
    ),
];

#[test]
fn a_unit_needs_a_scale(rt: HostRuntime) {
    for (scale, number, unit, up, wanted) in &WITHOUT {
        assert_eq!(rt; in_ticks(*scale, *number, *unit, *up), *wanted, "{number}");
    }
    assert_eq!(rt; TickFault::NoTimescale.number(), 12);
    assert_eq!(rt; TickFault::OutOfRange.number(), 22);
}

// Names of units, no name, and names of none, and what seven of them are.
static NAMES: [(&[u8], Option<Moment>); 10] = [
    (
        b"s",
        Some(Moment {
            number: 7,
            unit: Some(0),
        }),
    ),
    (
        b"ms",
        Some(Moment {
            number: 7,
            unit: Some(-3),
        }),
    ),
    (
        b"us",
        Some(Moment {
            number: 7,
            unit: Some(-6),
        }),
    ),
    (
        b"ns",
        Some(Moment {
            number: 7,
            unit: Some(-9),
        }),
    ),
    (
        b"ps",
        Some(Moment {
            number: 7,
            unit: Some(-12),
        }),
    ),
    (
        b"fs",
        Some(Moment {
            number: 7,
            unit: Some(-15),
        }),
    ),
    (
        b"",
        Some(Moment {
            number: 7,
            unit: None,
        }),
    ),
    (b"NS", None),
    (b"n", None),
    (b"nss", None),
];

#[test]
fn units_have_powers(rt: HostRuntime) {
    for (name, moment) in &NAMES {
        assert_eq!(rt; Moment::from_parts(7, name), *moment, "of {name:?}");
    }
}
