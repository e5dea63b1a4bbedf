//! The tests of `vcd_run`: two small tasks, with their proofs, and runs of them.
#![tactic(auto)]

mod ticking;
mod until;

pub use ticking::Ticking;
pub use until::Until;

#[cfg(test)]
mod run;
