//! The tests of `vcd_text`, which use only public functions. They are a crate of their own so that
//! the library is proved once: a crate with tests in it is proved again with them.
#![tactic(auto)]

#[cfg(test)]
mod text;
