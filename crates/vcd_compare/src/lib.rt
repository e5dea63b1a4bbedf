//! Two parts of a dump compared, such as the two inputs in what `merge` wrote.
//!
//! `pairs_of` finds the variables that are compared, and `compare` writes the lines about them and
//! about their values while it reads the body. It takes no memory: what it keeps is in a `Room`
//! that is lent.
//!
//! # The modules
//!
//! - `asked`: `Asked`, `Extent`
//! - `paths`, `slices`, `variables`: the paths of a header by number, with and without ranges, and
//!   its variables by these
//! - `selected`: what each of some names selects; `unselected`: which of them select nothing;
//!   `outermost`: which of them no other one covers
//! - `counterparts`, `kinds`: what a variable is compared with, and whether it is of the same kind
//! - `pairs`: `Pairs`, `pairs_of`
//! - `current`, `values`: the current states of all codes, and whether two of them match
//! - `touched`: which two codes may have a line due; `rows`: the pairs that have one
//! - `comparing`: what an item changes; the visit of the walk over the items ahead
//! - `lines`: how the lines are written
//! - `whole`: `compare`, `Room`, `Answer`
//! - `laws`: what `compare` leaves, and the definitions' outcome
#![tactic(auto)]

mod asked;
mod comparing;
mod counterparts;
mod current;
mod kinds;
pub mod laws;
mod lines;
mod outermost;
mod pairs;
mod paths;
mod rows;
mod selected;
mod slices;
mod touched;
mod unselected;
mod values;
mod variables;
mod whole;

pub use asked::{Asked, Extent};
pub use pairs::{NamePair, Pairs, pairs_of};
pub use unselected::PairsFault;
pub use whole::{Answer, Room, compare};
