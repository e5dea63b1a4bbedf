//! The codes that a merge assigns.
ghost use Rattle.std.specs.Prelude.{◌≡◌, length, take, ◌-◌, ◌^◌, ◌<◌, ◌≤◌};
ghost use Rattle.vcd_view.specs.Names.{Puts, digits_of, new_code};

use vcd_text::{Sink, WriteFailed, put};

/// The code of a number: its digits in base 94, from `!` to `~`, least significant first.
#[derive(Clone, Copy)]
pub struct NewCode {
    bytes: [u8; 10],
    len: usize,
}

impl NewCode {
    /// Returns the identifier code with this number, as a written header numbers its codes: in base
    /// 94 from `!` on, the lowest digit first.
    pub fn of(number: u64) -> NewCode
        ensures { digits_of result ≡ new_code number }
    {
        let mut bytes = [0u8; 10];
        let mut rest = number;
        let mut len = 0;
        while len < 9 && rest >= 94 {
            bytes[len] = (rest % 94) as u8 + 33;
            rest /= 94;
            len += 1;
        }
        bytes[len] = (rest % 94) as u8 + 33;
        NewCode {
            bytes,
            len: len + 1,
        }
    }

    /// Returns the bytes of the code, 1 to 10 characters.
    pub fn text(&self) -> &[u8]
        ensures { result.now ≡ digits_of self.now }
    {
        self.bytes.get(..self.len).unwrap_or(&[])
    }
}

/// Writes the identifier code with this number: in base 94 from `!` on, the lowest digit first. If
/// a write fails, a prefix was written.
pub fn put_code<W: Sink>(number: u64, w: &mut W) -> Result<(), WriteFailed>
    requires failures { (W.device w.old).failures < 2 ^ 64 - 1 }
    ensures { Puts (W.device w.old) (W.device w.new) (new_code number) result }
{
    put(w, NewCode::of(number).text())
}
