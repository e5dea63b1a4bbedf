//! The words of the command line to a job.
//!
//! `command_of` says which words are accepted, and `job_of` which `Job` their matches ask for, or
//! why they ask for none. Both agree with the definitions (`specs/Words` of `vcd_model`). Times
//! with units are ticks only once a header is read: `write_ticks` converts those of a sample in
//! place. The crate opens no file and writes nothing.
//!
//! # The modules
//!
//! - `command`: the words that the command line accepts, and the status if it does not
//! - `help`: what `--help` prints for each command
//! - `words`: what the words ask for, borrowed from their matches
//! - `matches`: what the matches of a program without commands have, for other programs
//! - `job`: `Job`, `Want` with its names, `UseFault`; `job_of`
//! - `moment_word`: the times that words are, and the fault of those that are none; a cut and a
//!   sample at such times
//! - `sample_ticks`: ticks instead of the numbers of a sample's times
//! - `refusal`: why times are refused, once the header is read
//!
//! In `specs/`: `Words`, what the command line accepts and asks for; `Matches`; `Times` and
//! `Ticks`, its times; `Job`; `Refusal`.
#![tactic(auto)]

mod command;
mod help;
mod job;
mod matches;
mod moment_word;
mod refusal;
mod sample_ticks;
mod words;

pub use command::{command_of, parse_status};
pub use job::{Job, UseFault, Want, job_of};
pub use matches::{file_of, is_set, word_of, words_of};
pub use moment_word::number_of;
pub use refusal::Refusal;
pub use words::{MAX_FILES, Words, copied_some, files_of, input_of, is_standard_input, want_of};
