//! Computes what `vcdkit` has to leave for a command over whole inputs: output, message and status.
//!
//! It is plain and slow, over whole lists: it reads an input as a list of tokens, and looks back in
//! lists for open scopes, declared codes, values and times. It shares nothing with the product, not
//! even the texts of faults, so that tests can compare the two.
//!
//! # The modules
//!
//! - `token`, `reader`: the tokens of an input with their lines, and reading them in order
//! - `fault`: the faults and their texts; `stop`: why a reading ends
//! - `word`, `number`, `scale`, `moment`: keywords, decimal numbers, time scales, times on the
//!   command line
//! - `header`, `header_reader`: what a header declares, and how it is read; `variables`: paths,
//!   names and what these select
//! - `item`, `body_reader`: timestamps, sections and changes, and how they are read; `value`:
//!   values and the last one at a time
//! - `text`, `header_text`, `item_text`: texts that are written: a header, and kept items after the
//!   lines of their times
//! - `report`, `pick`, `cut`, `sample`, `edges`, `merge`: one command each, `check` and `list` in
//!   `report`
//! - `command`, `outcome`: what is asked for, and the whole run; `refusal`: messages and statuses
//!
//! # Limits
//!
//! Inputs are in memory, so none is as long as 2^63 bytes. Of the arguments only the times are
//! looked at.
#![tactic(auto)]

mod body_reader;
mod command;
mod cut;
mod edges;
mod fault;
mod header;
mod header_reader;
mod header_text;
mod item;
mod item_text;
mod merge;
mod moment;
mod number;
mod outcome;
mod pick;
mod reader;
mod refusal;
mod report;
mod sample;
mod scale;
mod stop;
mod text;
mod token;
mod value;
mod variables;
mod word;

pub use command::{Command, Input, Left};
pub use outcome::evaluate;
