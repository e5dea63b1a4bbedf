//! How a run ends.
ghost use Rattle.std.specs.Prelude.{◌≡◌};
ghost use Rattle.vcd_body.specs.Names.{Write, stop_of_body};

use crate::fault::BodyFault;
use vcd_text::WriteFailed;

/// How a run ended well: at the end of the dump, or before it.
#[derive(Clone, Copy, PartialEq, Eq, Debug)]
pub enum Done {
    /// The run read all that it had to.
    Whole,
    /// A timestamp ended the run; what follows it is not checked.
    Early,
}

/// Whether a run continues.
#[derive(Clone, Copy, PartialEq, Eq, Debug)]
pub enum More {
    /// The run continues: there is more to read.
    Again,
    /// The run has ended.
    Ended(Done),
}

/// Why a run stopped before its end.
#[derive(Clone, Copy, PartialEq, Eq, Debug)]
pub enum Stop {
    /// The input at this index among all, counted from 0, has a fault: its number and its line.
    Dump { input: usize, line: u64, fault: u8 },
    /// A read of the input at this index failed.
    Read { input: usize },
    /// A write failed. A prefix of the output was written.
    Write,
    /// A name selects nothing: the first such name of the task, at this index.
    Unmatched { name: usize },
}

impl Stop {
    /// Returns how a run ends at this fault of a body: `Stop::Read` if a read failed, otherwise
    /// `Stop::Dump`. `input` is the index of the input, and `line` the line of the fault in it,
    /// counted from 1.
    pub fn of_body(fault: BodyFault, input: usize, line: u64) -> Stop
        ensures { result ≡ stop_of_body fault input line }
    {
        match fault {
            BodyFault::ReadFailed => Stop::Read { input },
            _ => Stop::Dump {
                input,
                line,
                fault: fault.number(),
            },
        }
    }
}

impl From<WriteFailed> for Stop {
    ghost from_gives = { λ _ e. e ≡ Write };

    /// Returns `Stop::Write`.
    fn from(_failed: WriteFailed) -> Stop {
        Stop::Write
    }
}
