//! What the program is run in: where its inputs come from, and where its output goes.
//!
//! `inputs_of` returns which inputs the matches of a command line name, and `open_inputs` opens
//! them on a `Host`, in order, up to the first that cannot be opened. `Buffered` is an `Output`
//! over any device of `std::io::Write`, `LentOutput` one over bytes that were lent.
//!
//! # The modules
//!
//! - `host`: `Host` and `Output`
//! - `asked`: which inputs the words ask for
//! - `opened`: inputs that are opened one by one
//! - `prefetched`: a reader whose first bytes are read before they are asked for
//! - `buffer`: bytes that wait, in memory that is taken once
//! - `buffered`: an output whose bytes wait in a buffer
//! - `lent_output`: an output that is bytes that were lent
//! - `gone`: what found no room there, which only contracts read
//!
//! In `specs/`: `Asked`; `Opens`, which inputs were opened; `Prefetched`; `Buffer`, `Buffered`,
//! `LentOutput`, what an output has taken; `Fills`, what is at the front of bytes that were lent.
#![tactic(auto)]

mod asked;
mod buffer;
mod buffered;
mod gone;
mod host;
mod lent_output;
mod opened;
mod prefetched;

pub use asked::inputs_of;
pub use buffered::Buffered;
pub use host::{Host, OpenFault, Output};
pub use lent_output::LentOutput;
pub use opened::{OpenInputs, OpenStop, called, max_bytes_of_all, open_inputs};
pub use prefetched::Prefetched;
