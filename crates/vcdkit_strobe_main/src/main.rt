//! `vcdkit-strobe`: values of a value change dump (IEEE Std 1364-2005, clause 18) just before the
//! edges of its clocks.
//!
//! It is the program `VcdkitStrobe` of `vcdkit_strobe`, over the arguments, the files and the
//! streams of the process.
#![tactic(auto)]

use std::process::ExitCode;
use vcd_program::run_on_machine;
use vcdkit_strobe::VcdkitStrobe;

fn main(rt: HostRuntime) -> ExitCode {
    ExitCode::from(run_on_machine::<VcdkitStrobe>(&rt))
}
