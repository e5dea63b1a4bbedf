// What a merge writes in its header.
use super::{SMALL, read_good};
use std::alloc::Global;
use std::test::Fail;
use vcd_head::{least_exponent, put_code, put_merged_head};
use vcd_text::{Watch, WriteFailed};

// Whether this is the code of a number.
fn is_code(alloc: Global, number: u64, code: &[u8]) -> Result<bool, WriteFailed> {
    let mut out = Watch::new(Vec::new(alloc));
    put_code(number, &mut out)?;
    Ok(out.device.as_slice() == code)
}

static CODES: [(u64, &[u8]); 9] = [
    (0, b"!"),
    (1, b"\""),
    (93, b"~"),
    (94, b"!\""),
    (95, b"\"\""),
    (187, b"~\""),
    (188, b"!#"),
    (8_835, b"~~"),
    (8_836, b"!!\""),
];

#[test]
fn codes_of_numbers(rt: HostRuntime) -> Result<(), Fail> {
    for (number, code) in &CODES {
        assert!(rt; is_code(rt.alloc(), *number, code)?, "of {number}");
    }
    Ok(())
}

const SMALL_TWICE: &[u8] =
    b"$timescale\n\t1ns\n$end\n$scope module in1 $end\n$scope module tb $end\n\
        $var wire 1 ! clk $end\n$var reg 4 \" q [3:0] $end\n$upscope $end\n$upscope $end\n\
        $scope module in2 $end\n$scope module tb $end\n$var wire 1 # clk $end\n\
        $var reg 4 $ q [3:0] $end\n$upscope $end\n$upscope $end\n$enddefinitions $end\n";

#[test]
fn the_same_head_twice(rt: HostRuntime) -> Result<(), Fail> {
    let alloc = rt.alloc();
    let heads = [read_good(alloc, SMALL)?, read_good(alloc, SMALL)?];
    let mut out = Watch::new(Vec::new(alloc));
    put_merged_head(&heads, &mut out)?;
    assert_eq!(rt; out.device.as_slice(), SMALL_TWICE);
    Ok(())
}

const FIRST: &[u8] = b"$timescale 1ns $end $var wire 1 ! a $end $enddefinitions $end\n";

// Its second scope has no variable, and its first is left open.
const SECOND: &[u8] =
    b"$date x $end $timescale 100 ps $end $scope module t $end $var wire 1 ! b $end \
        $scope task u $end $upscope $end $var wire 1 ! c $end $enddefinitions $end\n";

const UNSCALED: &[u8] = b"$var wire 1 ! a $end $enddefinitions $end\n";

const BOTH: &[u8] =
    b"$timescale\n\t100ps\n$end\n$scope module in1 $end\n$var wire 1 ! a $end\n$upscope $end\n\
        $scope module in2 $end\n$scope module t $end\n$var wire 1 \" b $end\n\
        $var wire 1 \" c $end\n$upscope $end\n$upscope $end\n$enddefinitions $end\n";

#[test]
fn two_scales(rt: HostRuntime) -> Result<(), Fail> {
    let alloc = rt.alloc();
    let heads = [read_good(alloc, FIRST)?, read_good(alloc, SECOND)?];
    let mut out = Watch::new(Vec::new(alloc));
    put_merged_head(&heads, &mut out)?;
    assert_eq!(rt; out.device.as_slice(), BOTH);
    Ok(())
}

#[test]
fn least_exponents(rt: HostRuntime) -> Result<(), Fail> {
    let alloc = rt.alloc();
    let heads = [
        read_good(alloc, UNSCALED)?,
        read_good(alloc, SECOND)?,
        read_good(alloc, FIRST)?,
    ];
    assert_eq!(rt; least_exponent(&heads), -10);
    assert_eq!(rt; least_exponent(&heads[..1]), 0);
    assert_eq!(rt; least_exponent(&[]), 0);
    Ok(())
}
