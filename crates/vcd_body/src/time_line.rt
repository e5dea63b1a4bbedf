//! The line of a time.
ghost use Rattle.std.specs.Prelude.{◌-◌, ◌^◌, ◌<◌};
ghost use Rattle.vcd_body.specs.Names.{Puts, time_due, time_line};

use itoa::write_digits;
use vcd_text::{LINE_FEED, Sink, WriteFailed, put_parts};

/// Writes the line of a timestamp with this time: `#`, the digits and a line feed. If a write
/// fails, a prefix was written.
// One write. With one each for the `#`, the digits and the line feed, `merge` of most dumps takes 1
// to 3 % more.
#[cold]
#[inline(never)]
pub fn put_time<W: Sink>(time: u64, out: &mut W) -> Result<(), WriteFailed>
    requires { (W.device out.old).failures < 2 ^ 64 - 1 }
    ensures { Puts (W.device out.old) (W.device out.new) (time_line time) result }
{
    let mut digits = [0; 84];
    let start = write_digits(time, &mut digits, 20);
    put_parts(out, b'#', &digits[start..], 20 - start, LINE_FEED)
}

/// Writes the line of a timestamp with this time, unless `written`, the time of the last line of
/// this kind, is the same. If a write fails, a prefix was written.
#[inline(always)]
pub fn put_time_unless<W: Sink>(
    written: Option<u64>,
    time: u64,
    out: &mut W,
) -> Result<(), WriteFailed>
    requires { (W.device out.old).failures < 2 ^ 64 - 1 }
    ensures { Puts (W.device out.old) (W.device out.new) (time_due written time) result }
{
    if written == Some(time) {
        return Ok(());
    }
    put_time(time, out)
}
