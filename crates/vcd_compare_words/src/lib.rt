//! The words of `vcdkit-compare` to what is compared.
//!
//! `command_of` says which words are accepted, and `job_of` which comparison their matches ask for,
//! or why they ask for none. The crate opens no file and writes nothing.
//!
//! # The modules
//!
//! - `command`: the words that the command line accepts
//! - `names`: the names of what is compared, and of what is not
//! - `job`: `Comparing`; `job_of`
//!
//! In `specs/`: `Words`, what the command line accepts; `Asked`, what it asks for.
#![tactic(auto)]

mod command;
mod job;
mod names;

pub use command::command_of;
pub use job::{Comparing, job_of};
