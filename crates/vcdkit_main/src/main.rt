//! `vcdkit`: tools over four-state value change dumps (IEEE Std 1364-2005, clause 18).
//!
//! It is the program `Vcdkit` of `vcd_program`, over the arguments, the files and the streams of
//! the process.
#![tactic(auto)]

use std::process::ExitCode;
use vcd_program::{Vcdkit, run_on_machine};

fn main(rt: HostRuntime) -> ExitCode {
    ExitCode::from(run_on_machine::<Vcdkit>(&rt))
}
