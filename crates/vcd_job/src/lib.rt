//! A job over one input, whatever it is: from its reader to its output, its message and its status.
//!
//! `run_one` runs a job that implements `OneInput`. The contract says what is left on reader and
//! sinks: output, message and status are those of the outcome of its `Work` (`HasRun`). If a write
//! failed, the output is a prefix of that, and no read ran ahead of it; if memory ran out, there is
//! no output.
//!
//! # The modules
//!
//! - `one_input`, `answer`: what a job is, and what it answers
//! - `one_run`: a job over its reader: windows, header, then the job over the body
//! - `inputs`: the memory of windows; the header of an input, and those of several in order
//! - `failure`: why a run fails
//! - `message`: the lines on the error stream, and the statuses
//! - `again`: devices whose interrupted calls are made again
//!
//! In `specs/`: `Work`, what a job is; `Ends`, what a run leaves; `Calls` and `OneRun`, what a call
//! promises of a run; `OneProgram`, what a program over one input says of itself; `Inputs`, how far
//! inputs were read; `Failure`; `Message`.
#![tactic(auto)]

mod again;
mod answer;
mod failure;
mod inputs;
mod message;
mod one_input;
mod one_run;

pub use again::Again;
pub use answer::{Answer, answered};
pub use failure::Failure;
pub use inputs::{Inputs, Lengths, WindowMemory, read_heads, windows_for};
pub use message::{name_at, open_fault, report, say, say_both, use_fault, write_fault};
pub use one_input::OneInput;
pub use one_run::run_one;
