//! The changes of one variable of a dump in memory, as rows of numbers.
//!
//! `changes` fills rows with the changes of an identifier code, each with its time and its last 64
//! digits, from where an earlier call stopped. The rows of all calls, one after the other, are
//! those of the code's changes in all items of the body (`rows_of` of `specs/Rows`).
//!
//! # The modules
//!
//! - `dump`: from a dump to rows and a status
//! - `rows`: the loop over the items of the body
//! - `walk`: the items that lie completely in the chunk
//! - `row`: `ChangeRow`, a change as numbers
//! - `reading`: where the next call continues, as numbers
//! - `digits`: the digits of a value as numbers
//!
//! In `specs/`: `Digits`; `Rows`; `Walk`; `Reading`, which has what a call finds.
#![tactic(auto)]

mod digits;
mod dump;
mod reading;
mod row;
mod rows;
mod walk;

pub use dump::{BAD_PLACE, DONE, FAULT, FULL, NO_CODE, NO_MEMORY, changes};
pub use reading::{Place, Reading};
pub use row::ChangeRow;
