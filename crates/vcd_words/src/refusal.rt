// Why times are refused.
ghost use Rattle.std.specs.Prelude.{◌≡◌};
ghost use Rattle.vcd_words.specs.Names.{tick_refusal};

use vcd_head::TickFault;

/// Why times are refused, once the header is read.
#[derive(Clone, Copy, PartialEq, Eq, Debug)]
pub enum Refusal {
    /// A time has a unit, and the header declares no time scale.
    NoTimescale,
    /// A time is 2^64 ticks or more.
    OutOfRange,
    /// The start of a cut is above its end, in ticks.
    FromAboveTo,
    /// The times of a sample do not increase, in ticks.
    NotRising,
}

impl From<TickFault> for Refusal {
    ghost from_gives = { λ fault refusal. refusal ≡ tick_refusal fault };

    /// Returns the refusal for this fault, which has the same name.
    fn from(fault: TickFault) -> Refusal {
        match fault {
            TickFault::NoTimescale => Refusal::NoTimescale,
            TickFault::OutOfRange => Refusal::OutOfRange,
        }
    }
}
