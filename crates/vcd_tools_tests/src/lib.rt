//! The tests of the commands over one dump, of a merge in one call and item by item, and of
//! `vcd_changes`, by the paths that callers use. They are a crate of their own so that the
//! libraries are proved once: a crate with tests in it is proved again with them.
#![tactic(auto)]

#[cfg(test)]
mod changes;
#[cfg(test)]
mod merge;
#[cfg(test)]
mod over;
#[cfg(test)]
mod steps;
#[cfg(test)]
mod tools;
