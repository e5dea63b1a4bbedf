//! The strobe that words ask for.
ghost use Rattle.std.specs.Prelude.{◌≤◌};

use vcd_strobe::ClockName;

/// The strobe that is asked for.
#[derive(Drop)]
pub struct Strobing {
    /// The clocks: 1 to 64.
    pub clocks: Vec<ClockName>,
    /// The names of the variables that are written; without any, all are.
    pub names: Vec<String>,
    /// How long a token may be, in bytes.
    pub limit: usize,
    pub ghost limit_in_range: { (64 ≤ limit) × (limit ≤ 16777216) },
}
