// Why a run fails.
ghost use Rattle.std.specs.Prelude.{◌≡◌};
ghost use Rattle.vcd_job.specs.Names.{head_failure, OutOfMemory, stop_failure};

use std::alloc::AllocError;
use vcd_body::Stop;
use vcd_head::HeadFault;

/// Why a job is not run, or not to its end.
#[derive(Clone, Copy, PartialEq, Eq)]
pub enum Failure {
    /// A fault of an input or of a device, or a name that selects nothing.
    Stopped(Stop),
    /// Memory ran out.
    OutOfMemory,
}

impl Failure {
    /// Returns how a run fails at this fault of a header. `input` is the index of its input among
    /// all, and `line` the line that its feed is at; only a fault of the dump keeps it.
    pub fn of_head(fault: HeadFault, input: usize, line: u64) -> Failure
        ensures { result ≡ head_failure fault input line }
    {
        match fault {
            HeadFault::ReadFailed => Failure::Stopped(Stop::Read { input }),
            HeadFault::OutOfMemory => Failure::OutOfMemory,
            fault => Failure::Stopped(Stop::Dump {
                input,
                line,
                fault: fault.number(),
            }),
        }
    }

    /// Returns how a run fails if its task stopped like this. `input` is the index of the task's
    /// only input among all, which a fault or a failed read gets. A failed write and a name that
    /// selects nothing stay as they are.
    pub fn of_stop(stop: Stop, input: usize) -> Failure
        ensures { result ≡ stop_failure stop input }
    {
        Failure::Stopped(match stop {
            Stop::Dump { line, fault, .. } => Stop::Dump { input, line, fault },
            Stop::Read { .. } => Stop::Read { input },
            Stop::Write | Stop::Unmatched { .. } => stop,
        })
    }
}

impl From<AllocError> for Failure {
    ghost from_gives = { λ _ failure. failure ≡ OutOfMemory };

    /// Returns `OutOfMemory`.
    fn from(_error: AllocError) -> Failure {
        Failure::OutOfMemory
    }
}
