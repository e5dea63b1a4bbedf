//! The values of a dump just before each edge of its clocks, as a dump.
//!
//! A `Strobe` keeps four places for the value of each code: of its current value, of that before
//! the time of its last change, of that at the last edge, and a spare one for the next. At an edge
//! it writes the lines of the codes whose values just before it are others than at the last edge.
//!
//! # The modules
//!
//! - `role`: `Role`, which place has which value of a code
//! - `touched`: the list of codes that may have a line at the next edge
//! - `edge_lines`: the lines of an edge
//! - `clocks`: `Clock`, and whether a change is a turn of one
//! - `named`: `ClockName`, `NoClock`; the clocks of names
//! - `paths`: whether a variable has a path, and is a real number
//! - `whole`: `Strobe`, and what it does with a change
//! - `longest`: the length of the longest code
//! - `places`: a header that has each code four times
//! - `start`: `Room`, `set_roles`, and a `Strobe` before the first item
//! - `ahead`: the visit of the items that lie completely in the chunk
//! - `task`: `Strobe` as a `Task`
//! - `run`: a whole strobe over a body, with its head
#![tactic(auto)]

mod ahead;
mod clocks;
mod edge_lines;
mod longest;
mod named;
mod paths;
mod places;
mod role;
mod run;
mod start;
mod task;
mod touched;
mod whole;

pub use clocks::Clock;
pub use longest::longest_code;
pub use named::{ClockName, NoClock, find_clocks};
pub use places::places_of;
pub use role::{Role, Wanted};
pub use run::strobe;
pub use start::{Room, set_roles};
pub use whole::Strobe;
