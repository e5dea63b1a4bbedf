// The inputs that are cut off, whole.

// A dump with all parts of a header, and a section.
pub(crate) const FULL: &[u8] =
    b"$date\n\tTue Mar  5 10:00:00 2024\n$end\n$version\n\tIcarus Verilog\n$end\n\
    $timescale\n\t1ns\n$end\n$scope module tb $end\n$var wire 8 ! data [7:0] $end\n\
    $var reg 1 \" clk $end\n$upscope $end\n$enddefinitions $end\n\
    #0\n$dumpvars\n0\"\nbx !\n$end\n#5\n1\"\nb101 !\n#10\n";

// Digits that are extended by 0, x and z.
pub(crate) const EXTENDED: &[u8] =
    b"$var wire 4 ! v $end\n$var wire 8 \" w $end\n$enddefinitions $end\n\
    #1\nb10 !\nb1 \"\n#2\nbX10 !\n#3\nbZx0 !\n#4\nb0x10 !\n";

// Digits that are written shorter.
pub(crate) const LONG_DIGITS: &[u8] =
    b"$timescale 1ns $end\n$scope module tb $end\n$var wire 1 ! clk $end\n\
    $var reg 4 \" q [3:0] $end\n$upscope $end\n$enddefinitions $end\n\
    #0\nb0010 \"\nb1 !\n";

// A header with an event, two vectors and a real.
pub(crate) const NESTED: &[u8] =
    b"$var event 1 % go $end\n$scope module tb $end\n$var wire 1 ! clk $end\n\
    $scope module u $end\n$var reg 4 \" q [3:0] $end\n$upscope $end\n$var real 1 # r $end\n\
    $enddefinitions $end\n";

// Two names of one code, and a time that comes twice.
pub(crate) const ALIASES: &[u8] =
    b"$scope module tb $end\n$var wire 1 ! a $end\n$scope module u $end\n$var wire 1 ! b $end\n\
    $upscope $end\n$upscope $end\n$enddefinitions $end\n\
    #0\n0!\n#5\n1!\n#5\n1!\n#7\n";

// All kinds of variables, without a time scale.
pub(crate) const MIXED: &[u8] =
    b"$var wire 1 ! a $end\n$var real 1 \" r $end\n$var event 1 # e $end\n$var wire 2 % u $end\n\
    $enddefinitions $end\n\
    #9\n0!\nr1.5 \"\n1#\n#10\n1!\n1#\n#20\nr2 \"\n#21\n0!\n";

// Two sections, rises and falls.
pub(crate) const SECTIONS: &[u8] =
    b"$timescale 1ns $end\n$scope module tb $end\n$var wire 1 ! clk $end\n\
    $var reg 4 \" q [3:0] $end\n$upscope $end\n$enddefinitions $end\n\
    #0\n$dumpvars\n0!\nb0 \"\n$end\n#1\nx!\n#2\n1!\n#3\n0!\n#4\n1!\n1!\nb1 \"\n\
    #5\n$dumpoff\nx!\nbx \"\n$end\n";

// A fault after a timestamp.
pub(crate) const FAULTY: &[u8] =
    b"$var wire 4 ! v $end\n$var wire 8 \" w $end\n$enddefinitions $end\n#1\nb1 !\n#2\n?\n";

// A trigger of an event inside a section.
pub(crate) const MARKED: &[u8] =
    b"$var wire 1 ! a $end\n$var real 1 \" r $end\n$var event 1 # e $end\n$var wire 2 % u $end\n\
    $enddefinitions $end\n\
    #0\n$dumpvars\n1#\n0!\n$end\n";

// A dump that is merged with itself.
pub(crate) const TWIN: &[u8] =
    b"$timescale 1ns $end\n$scope module tb $end\n$var wire 1 ! clk $end\n\
    $var reg 4 \" q [3:0] $end\n$upscope $end\n$enddefinitions $end\n\
    #0\n0!\n#5\n1!\n";

// A time that is too large if ticks are of 100 ps.
pub(crate) const LATE: &[u8] = b"$timescale 1ns $end\n$var wire 1 ! a $end\n$enddefinitions $end\n\
    #1\n1!\n#18446744073709551615\n0!\n";

// A dump whose ticks are of 100 ps.
pub(crate) const FINE: &[u8] =
    b"$timescale 100ps $end\n$var wire 1 ! b $end\n$enddefinitions $end\n#5\n1!\n#20\n0!\n";
