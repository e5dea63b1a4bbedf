//! The program `vcdkit-strobe`, from its words to its status, over any host.
//!
//! `VcdkitStrobe` is a `OneInputProgram` of `vcd_program`: its outcome is the `strobe` of the
//! definitions.
//!
//! # The modules
//!
//! - `job`: the strobe of a body, as a job
//! - `room`: the memory that it works in
//! - `program`: the program; `memory`: the program over files in memory
//! - `laws`: what the job is, and the definitions
//!
//! In `specs/`: `Work`, what the job is; `Bound`, how much it is lent; `Calls`, what the calls of
//! the job promise; `Program`, the outcome of the words; `Whole`, what the program says of itself.
#![tactic(auto)]

mod job;
pub mod laws;
mod memory;
mod program;
mod room;

pub use job::Refusal;
pub use memory::strobe_in_memory;
pub use program::VcdkitStrobe;
