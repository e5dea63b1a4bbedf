//! What a job answers that did not fail.
ghost use Rattle.std.specs.Prelude.{◌≡◌};
ghost use Rattle.vcd_job.specs.Names.{answer_end};

use crate::failure::Failure;
use vcd_body::{Done, Stop};

/// What a job answers if no call of its devices failed and its input has no fault.
#[derive(Drop)]
pub enum Answer<R> {
    /// It was done, and the program exits with this status.
    Status(u8),
    /// It was refused over this input.
    Refused(R),
}

/// Returns what a job answers whose task over its input returned `end`: the status 0, or why the
/// task stopped.
pub fn answered<R: Drop>(end: Result<Done, Stop>) -> Result<Answer<R>, Failure>
    ensures { result ≡ answer_end end }
{
    match end {
        Ok(_) => Ok(Answer::Status(0)),
        Err(stop) => Err(Failure::of_stop(stop, 0)),
    }
}
