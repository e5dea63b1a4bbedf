//! `vcdkit-compare`: compares two parts of a value change dump (IEEE Std 1364-2005, clause 18).
//!
//! It is the program `VcdkitCompare` of `vcdkit_compare`, over the arguments, the files and the
//! streams of the process.
#![tactic(auto)]

use std::process::ExitCode;
use vcd_program::run_on_machine;
use vcdkit_compare::VcdkitCompare;

fn main(rt: HostRuntime) -> ExitCode {
    ExitCode::from(run_on_machine::<VcdkitCompare>(&rt))
}
