// What is wrong with a body.

/// Why a body is refused.
#[derive(Clone, Copy, PartialEq, Eq, Debug)]
pub enum BodyFault {
    /// A token has more bytes than its window (fault 1).
    TokenTooLong = 1,
    /// The input ends inside a section, or inside a phrase (fault 2).
    EndOfInput = 2,
    /// A phrase begins with none of the body's tokens (fault 3).
    UnknownCommand = 3,
    /// A keyword that belongs in the header, a section inside a section, or an `$end` outside of
    /// one (fault 4).
    OutOfPlace = 4,
    /// No decimal number below 2^64 after `#` (fault 13).
    BadTime = 13,
    /// A timestamp below one that was read (fault 14).
    TimeBack = 14,
    /// Digits are missing or other bytes than `0 1 x X z Z`; or no code follows a digit, or no text
    /// follows `r` (fault 15).
    BadValue = 15,
    /// No variable has this code (fault 16).
    UnknownCode = 16,
    /// A value has more digits than its code's size, and the code is no event (fault 17).
    TooWide = 17,
    /// The text of a real number has more than 64 bytes (fault 18).
    RealTooLong = 18,
    /// A timestamp inside a section (fault 19).
    TimeInSection = 19,
    /// Byte number 2^63, counted from 1, would be looked at (fault 21).
    InputTooLong = 21,
    /// The source failed (fault 31).
    ReadFailed = 31,
}

impl BodyFault {
    ghost use Rattle.std.specs.Prelude.{◌≡◌};
    ghost use Rattle.vcd_body.specs.Names.{fault_number};

    /// Returns the number of this fault, by which `text_of` of `vcd_text` returns its message.
    pub fn number(self) -> u8
        ensures { result ≡ fault_number self }
    {
        self as u8
    }
}
