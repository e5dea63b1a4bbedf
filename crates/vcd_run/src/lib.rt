//! The loop over the items of a body, for any task.
//!
//! A `Task` says what is done with an item, with the items that lie completely in the chunk, and at
//! the end of a body. `run_to_end` reads the items and hands each of them to the task.
//!
//! # The modules
//!
//! - `task`: `Task`, `AheadEnd`
//! - `run`: `run_to_end`, and `step`, one item of it
//! - `sort`: `sort_front`, for tasks that keep a list of what is due
#![tactic(auto)]

mod run;
mod sort;
mod task;

pub use run::{run_to_end, step};
pub use sort::sort_front;
pub use task::{AheadEnd, Task};
