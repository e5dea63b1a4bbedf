//! What is done with dumps whose headers were read: the functions for callers, and the laws about
//! what is written.
//!
//! `check`, `list`, `pick`, `cut`, `sample`, `edges` and `merge` are one command each. An `Engine`
//! and a `Merge` are the same runs in parts: `step` and `merge_step` take one item each. `Done`,
//! `More` and `Stop` say how they end. None of them takes memory.
//!
//! All code is in crates below this one, so that no crate of the program waits for it: the commands
//! over one dump are in `vcd_engine`, the merge in `vcd_merge`, and how a run ends in `vcd_body`.
//! Each function of `laws`, of `vcd_laws`, has a law over the definitions as its contract.
//!
//! In `specs/` callers read `TaskRun` (`Follows`), `Engine`, `Step` and `Room` of the commands over
//! one dump; `MergeRun`, `MergeStart`, `MergeStep`, `MergeParts`, `MergeRoom`, `MergeOrder` and
//! `Seat` of a merge; `Answer` of both; the definitions that these cite, as `Model`, and the laws,
//! as `Laws`.
#![tactic(auto)]

pub use vcd_body::{Done, More, Stop};
pub use vcd_engine::{Engine, Room, Task, check, cut, edges, list, pick, run_task, sample, step};
pub use vcd_laws::laws;
pub use vcd_merge::{Merge, Seat, Windows, merge, merge_step};
