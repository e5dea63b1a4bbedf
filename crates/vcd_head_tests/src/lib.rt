//! The tests of `vcd_head`, `vcd_view` and `vcd_words`, which use only public functions. They are a
//! crate of their own so that the libraries are proved once: a crate with tests in it is proved
//! again with them.
#![tactic(auto)]

#[cfg(test)]
mod head;
#[cfg(test)]
mod times;
#[cfg(test)]
mod words;
