//! What is done with a dump whose header was read.
//!
//! `list` writes a line for each variable of a view. Each other command over one dump is a `Task`.
//! `run_task` runs it over the items of the body, in a `Room` of the lengths that `Task::need`
//! returns; `check`, `pick`, `cut`, `sample` and `edges` are one call of it each. An `Engine` is
//! the same run in parts, for callers that have more to do between items: `Engine::start` begins
//! its task, and each `step` takes one item. None of them takes memory.
//!
//! # The relations
//!
//! `Follows task .. result` says what a run ends with: an input, whole, or what its source gave
//! until a read failed; that no more of it was read than settles the task; that no read ran ahead
//! of the output (`KeepsUp`); and that output and result belong to the definitions' outcome for it.
//! Between steps an engine `Runs`: the feed has given these items, and the engine `Holds` what is
//! due after them.
//!
//! A step (`StepGives`) takes one more item, and the output grows by exactly what is due with it.
//! Or the step ends the run: at the end of the body, where it writes what is due there; at an item
//! that ends the run early; or at a fault, where it writes nothing. If a write fails, a prefix was
//! written. What a command keeps is one case of `Keeps`.
//!
//! # The modules
//!
//! - `task`: `Task`, `Room`, `Task::need`
//! - `engine`: `run_task`, which begins a task and has `run_to_end` of `vcd_run` run it, and
//!   `Engine`. It names no command
//! - `task_state`, and under it `check`, `pick`, `cut`, `sample`, `edges`: what each task keeps
//!   between items, and what it does at the start, with an item and at the end; `walk`:
//!   `AheadTask`, what a task does with items that lie completely in the chunk, and the loop over
//!   these
//! - `commands`: `check`, `pick`, `cut`, `sample`, `edges`
//! - `item_text`: kept items as lines, each after the line of its time
//! - `pending`: pending text: output that the chunk already has, and that is written piece by piece
//! - `selection`: the variables that names select, as marks of rows and flags of codes
//! - `report`, `rows`, `tally`: the seven lines of `check`; `list`; the counters of `edges`, and
//!   its rows
//! - `sample_lines`: the lines of a sample; `leads`: the flags that lead from one row with a line
//!   to the next
//!
//! In `specs/` callers read `TaskRun` (`MayRun`, `RunsTask`, `Follows`), `Engine`, `Step`
//! (`MayStep`, `Steps`, `StepsOver`) and `Room` (`BeginsAs`). `Plan` says by which plan of
//! `vcd_run` a task goes on. How a run ends, `Done`, `More` and `Stop`, is in `vcd_body`. `Names`
//! collects what the contracts cite under one path.
//!
//! # Limits
//!
//! One dump for each task. A call requires that fewer than 2^64 - 1 calls of its devices have
//! failed so far, and `run_task` requires a feed of which no failed read was returned
//! (`HasNotFailed`).
//!
//! Not promised: how many bytes of the output were written if a write failed, and what the room has
//! in it after a run.
#![tactic(auto)]

mod commands;
mod engine;
mod item_text;
mod leads;
mod pending;
mod report;
mod rows;
mod sample_lines;
mod selection;
mod tally;
mod task;
mod task_state;

pub use commands::{check, cut, edges, pick, sample};
pub use engine::{Engine, run_task, step};
pub use rows::list;
pub use task::{Room, Task};
