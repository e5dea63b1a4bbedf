//! The tests of `vcdkit`, which use only public functions: what jobs leave, and that
//! `vcd_evaluator` says the same (`evaluator`). They are a crate of their own so that the libraries
//! are proved once: a crate with tests in it is proved again with them.
#![tactic(auto)]

#[cfg(test)]
mod again;
#[cfg(test)]
mod broken;
#[cfg(test)]
mod devices;
#[cfg(test)]
mod evaluator;
#[cfg(test)]
mod messages;
#[cfg(test)]
mod runs;
