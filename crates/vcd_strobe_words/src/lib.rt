//! The words of `vcdkit-strobe` to the strobe that they ask for.
//!
//! `command_of` says which words are accepted, and `job_of` which strobe their matches ask for, or
//! why they ask for none. The crate opens no file and writes nothing.
//!
//! # The modules
//!
//! - `command`: the words that the command line accepts
//! - `clocks`: the clocks that words name; `limit`: the token limit
//! - `strobing`: `Strobing`; `job`: `job_of`
//!
//! In `specs/`: `Words`, what the command line accepts; `Asked`, what it asks for.
#![tactic(auto)]

mod clocks;
mod command;
mod job;
mod limit;
mod strobing;

pub use command::command_of;
pub use job::job_of;
pub use strobing::Strobing;
