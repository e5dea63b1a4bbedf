//! A task: what is done with the items of a body; and the slices that it works in.
ghost use Rattle.std.specs.Prelude.{◌≡◌};
ghost use Rattle.vcd_engine.specs.Names.{AnyRoom, FitsEachInput, HasRoomFor, KeepsBound, marks_for, slots_for, values_for};

use vcd_body::{Share, Slot};
use vcd_view::{HeadView, Need, need};

/// What is done with the items of a body.
#[derive(Clone, Copy)]
pub enum Task<'n> {
    /// Counts the items, and reports at the end.
    Check,
    /// Writes the items of the variables that these names select, after their header.
    Pick(&'n [String]),
    /// Writes the values just before a time, and the items from then up to another time, both times
    /// included. Times are in ticks.
    Cut {
        from: u64,
        to: u64,
    },
    /// Writes the values of the variables that these names select (all if there is none) at these
    /// times, in ticks.
    Sample {
        times: &'n [u64],
        names: &'n [String],
    },
    /// Counts how often the values of the variables that these names select change, rise and fall,
    /// and writes it at the end.
    Edges(&'n [String]),
}

/// The slices that a task works in besides the windows of its feed. They have at least the lengths
/// that `Task::need` returns. No other memory is taken.
#[derive(Drop)]
pub struct Room<'r> {
    /// Bytes for the values of codes; `pick` has a flag of one byte for each code there.
    pub values: &'r mut [u8],
    /// A slot for each code.
    pub slots: &'r mut [Slot],
    /// A share for each code, as many as slots.
    pub shares: &'r mut [Share],
    /// A selection flag for each declaration.
    pub marks: &'r mut [u8],
}

impl<'n> Task<'n> {
    /// Returns how long the slices of a `Room` have to be for this task over the dump with this
    /// header.
    pub fn need(&self, view: HeadView<'_>) -> Need
        ensures lengths { (result.values ≡ values_for self.now view.entry)
            × (result.slots ≡ slots_for self.now view.entry)
            × (result.marks ≡ marks_for self.now view.entry) }
        ensures room { AnyRoom result (HasRoomFor self.now view.entry) }
        ensures fits { FitsEachInput view.entry result }
        ensures bound { KeepsBound view.entry result }
    {
        match self {
            Task::Check => Need {
                values: 0,
                slots: 0,
                marks: 0,
            },
            Task::Pick(_) => Need {
                values: view.codes.len(),
                slots: 0,
                marks: view.rows.len(),
            },
            Task::Cut { .. } | Task::Sample { .. } | Task::Edges(_) => need(view),
        }
    }
}
