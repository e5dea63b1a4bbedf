// What is wrong with a header.
ghost use Rattle.std.specs.Prelude.{◌≡◌};
ghost use Rattle.vcd_head.specs.Names.{OutOfMemory, fault_number};

use std::alloc::{AllocError, AllocFailed};

/// Why a header is refused.
#[derive(Clone, Copy, PartialEq, Eq, Debug)]
pub enum HeadFault {
    /// A token has more bytes than its window (fault 1).
    TokenTooLong = 1,
    /// The input ends before `$enddefinitions $end` (fault 2).
    EndOfInput = 2,
    /// A phrase begins with no command (fault 3).
    UnknownCommand = 3,
    /// A keyword that belongs in the body, or no `$end` after `$enddefinitions` (fault 4).
    OutOfPlace = 4,
    /// No time scale of number and unit after `$timescale` (fault 5).
    BadTimescale = 5,
    /// No type, name and `$end` after `$scope`, or no `$end` after `$upscope` (fault 6).
    BadScope = 6,
    /// No type, size, code and reference after `$var` (fault 7).
    BadVariable = 7,
    /// A code is declared with two sizes, or both for an event and for another variable (fault 8).
    CodeDiffers = 8,
    /// An `$upscope` while no scope is open (fault 9).
    NoScope = 9,
    /// A `$scope` while 1,000 scopes are open (fault 10).
    TooDeep = 10,
    /// More declarations than are allowed (fault 11).
    TooMany = 11,
    /// Byte number 2^63, counted from 1, would be looked at (fault 21).
    InputTooLong = 21,
    /// The source failed (fault 31).
    ReadFailed = 31,
    /// Memory ran out (fault 32).
    OutOfMemory = 32,
}

impl HeadFault {
    /// Returns the number of this fault, by which `text_of` of `vcd_text` returns its message.
    pub fn number(self) -> u8
        ensures { result ≡ fault_number self }
    {
        self as u8
    }
}

impl From<AllocError> for HeadFault {
    ghost from_gives = { λ _ e. e ≡ OutOfMemory };

    /// Returns `OutOfMemory`.
    fn from(_e: AllocError) -> HeadFault {
        HeadFault::OutOfMemory
    }
}

impl<T: Drop> From<AllocFailed<T>> for HeadFault {
    ghost from_gives = { λ _ e. e ≡ OutOfMemory };

    /// Returns `OutOfMemory`.
    fn from(_e: AllocFailed<T>) -> HeadFault {
        HeadFault::OutOfMemory
    }
}
