//! The tests of `vcd_program`: command lines over a host in memory, files of the machine that
//! cannot be read, the buffer of an output, and a process in memory. `relied_on` has callers whose
//! contracts need each clause of the three programs', and `echo` another program.
#![tactic(auto)]

#[cfg(test)]
mod blocks;
#[cfg(test)]
mod command_lines;
mod echo;
#[cfg(test)]
mod echoes;
#[cfg(test)]
mod flush;
#[cfg(test)]
mod machine;
#[cfg(test)]
mod process;
#[cfg(test)]
mod prompt;
mod relied_on;

pub use echo::{Echo, Line};
pub use relied_on::{
    compare_relied_on, run_compare_relied_on, run_relied_on, run_strobe_relied_on, strobe_relied_on,
};
