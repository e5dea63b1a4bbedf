//! Any program over any host: from its words to its output, its message and its status.
//!
//! A `Program` says how its words are parsed, which job they ask for and what outcome they have.
//! `Vcdkit` is the program `vcdkit`; a `OneInputProgram`, whose job is a `OneInput` of `vcd_job`,
//! is a program too. `run_program` parses the words, opens the inputs that they name, in order,
//! runs the job over them, flushes the output and returns the status. A `Host` opens inputs, and an
//! `Output` takes the output; both are in `vcd_host`. The contract says which inputs were opened,
//! in which order and under which names. It also says what was left: the outcome that the program
//! has for the words and the inputs, or the line and the status of what went wrong before (`Runs`).
//! Over a host in memory the outcome is that of the words and the bytes of the files
//! (`run_in_memory`, `run_into_memory`, `specs/Memory`).
//!
//! # The modules
//!
//! - `program`: what a program is
//! - `vcdkit_program`: `vcdkit` as a program
//! - `one_input_program`: a program over one input, by its job
//! - `command_line`: from the words to the exit status
//! - `memory`: a host in memory
//! - `process`: any process, and how its inputs are opened
//! - `process_run`: a program as a process runs it
//! - `machine`: the process that a program runs in
//!
//! In `specs/`: `Leaves`, what a job leaves; `Runs`, what a program ends with; `Memory`, what it
//! leaves over a host in memory; `Process`, what is opened in a process; `ProcessRun`, what a
//! program leaves over a process; `Vcdkit` and `OneInput`, what `vcdkit` and a program over one
//! input say of themselves.
#![tactic(auto)]

mod command_line;
mod machine;
mod memory;
mod one_input_program;
mod process;
mod process_run;
mod program;
mod vcdkit_program;

pub use command_line::run_program;
pub use machine::{run_on_machine, run_words_on_machine};
pub use memory::{Filled, Left, Memory, MemoryFile, run_in_memory, run_into_memory};
pub use one_input_program::OneInputProgram;
pub use process::{Process, Stream};
pub use process_run::run_process;
pub use program::Program;
pub use vcdkit_program::Vcdkit;
