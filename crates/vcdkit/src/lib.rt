//! A job from its inputs to its outcome: the commands of `vcdkit`, over any readers and sinks.
//!
//! `run` does a job, and its contract says what is left on readers and sinks: output, message and
//! status are those of the definitions' outcome (`HasRun`). If a write failed, the output is a
//! prefix of that, and no read ran ahead of it; if memory ran out, there is no output. The words
//! that are accepted (`command_of`) and the `Job` that they ask for (`job_of`) are in `vcd_words`;
//! callers find them here too. If words ask for no job, `use_fault` says so. The words of a
//! process, its files and its devices belong to `vcdkit_main`, the program.
//!
//! # The modules
//!
//! - `tasks`: what is wanted, as a task over the items of a body, its times in ticks, and the
//!   memory of its room
//! - `commands`: a command over one input, as a job of `vcd_job`: `list` over the view, or
//!   `run_task` in room that is taken for it
//! - `whole_run`: a job over readers: `run_one` of `vcd_job`, or `merge`
//!
//! In `specs/`: `Calls`, what a call promises of a run; `Run`, what that ends with; `Work`, what a
//! command over one input is; `Tasks`; of the words `Job`, `Words`, `Ticks` and `Refusal`; and the
//! definitions that these cite, as `Model`.
//!
//! # Limits
//!
//! One input for each job, and 1 to 64 for a merge. `run` takes memory for the windows, for the
//! headers and for the room of the task, all of it before the first byte of output. An error of the
//! error stream is ignored. `run` does not flush.
#![tactic(auto)]

mod commands;
mod tasks;
mod whole_run;

pub use commands::PROGRAM;
pub use vcd_job::{Again, open_fault, use_fault, write_fault};
pub use vcd_words::{
    Job, MAX_FILES, UseFault, Want, command_of, files_of, input_of, job_of, parse_status,
};
pub use whole_run::{run, run_with_hasher, run_within};
