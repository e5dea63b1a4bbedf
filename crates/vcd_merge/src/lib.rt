//! Several inputs, whose headers were read, written as one dump.
//!
//! `merge` writes the header of all inputs, and then their changes in the order of their times,
//! each under its new code. A `Merge` is the same run in parts: `Merge::start` writes the header,
//! `merge_step` takes one item, and `Merge::finish` takes all that are left. A `Seat` is what is
//! kept of an input between two of its items; the `Windows` of all inputs are lent as three slices,
//! in equal parts. None of them takes memory.
//!
//! The input with the least time, and of equal times the first, has its turn: its feed is resumed,
//! its items are taken while its time is before that of all others, and the feed is parked again.
//!
//! # The relations
//!
//! `Follows limit chunk lanes names .. result` (`MergeRun`) says what a merge ends with: each
//! input, whole, or what its source gave until a read failed; that no more of it was read than
//! settles the merge, even if all others are known; and that output and result belong to the
//! definitions' outcome for all of them. Between steps a merge `Holds` the items that its inputs
//! have given (`MergeStep`).
//!
//! A step `Gives` one more item, the next of the merged list, and the output grows by exactly what
//! is due with it. Or an input has finished, and nothing is written; or all have, and what is due
//! at the end is written. A fault is that of the input whose turn it is, and nothing is written
//! there. If a write fails, a prefix was written.
//!
//! # The modules
//!
//! - `whole_merge`: `merge`
//! - `merge_state`, `windows`: `Merge`; `Windows`
//! - `beginning`: what a merge sets in each seat when it starts
//! - `merge_steps`: the start of a merge, a step over all inputs, and the loop over its steps
//! - `merging`: the turn of one input, over its own source and its parts of the windows
//! - `order`: whose turn it is, and in which order the others wait
//! - `seat`: `Seat`
//!
//! In `specs/` callers read `MergeRun` (`Follows`), `MergeStart`, `MergeStep`, `MergeParts`,
//! `MergeRoom`, `MergeOrder` and `Seat`. `Names` collects what the contracts of this crate cite
//! under one path. How a run ends, `Done`, `More` and `Stop`, is in `vcd_body`.
//!
//! # Limits
//!
//! At most 64 inputs. A call requires that fewer than 2^64 - 1 calls of its devices have failed so
//! far, and windows within the bound of the definitions (`MergeIsWithinBound`). A time that is 2^64
//! or more once it is scaled is a fault.
//!
//! Not promised: how many bytes of the output were written if a write failed.
#![tactic(auto)]

mod beginning;
mod merge_state;
mod merge_steps;
mod merging;
mod order;
mod seat;
mod whole_merge;
mod windows;

pub use merge_state::Merge;
pub use merge_steps::merge_step;
pub use seat::Seat;
pub use whole_merge::merge;
pub use windows::Windows;
