//! What a merge keeps of each input between two of its items.
ghost use Rattle.std.specs.Prelude.{◌≡◌, None, false};

use vcd_body::Regs;
use vcd_text::Parked;

/// An input of a merge between two of its items: its parked feed, its registers, and what the merge
/// adds to these.
#[derive(Clone, Copy, PartialEq, Eq, Debug)]
pub struct Seat {
    /// Its parked feed.
    pub(crate) parked: Parked,
    /// The registers after its items so far.
    pub(crate) regs: Regs,
    /// The factor of its times.
    pub(crate) factor: u64,
    /// The time of its last timestamp, scaled; 0 before the first.
    pub(crate) time: u64,
    /// The number of its first code among the codes of all inputs.
    pub(crate) first: u64,
    /// Whether all its items were taken.
    pub(crate) finished: bool,
}

impl Seat {
    /// Returns the seat of an input whose feed was parked right after its header. `Merge::start`
    /// sets what the merge adds.
    pub fn new(parked: Parked) -> Seat
        ensures parked { result.parked ≡ parked }
        ensures open { result.finished ≡ false }
        ensures regs { result.regs ≡ record { time = 0; marked = false; section = None } }
    {
        Seat {
            parked,
            regs: Regs::new(),
            factor: 1,
            time: 0,
            first: 0,
            finished: false,
        }
    }
}
