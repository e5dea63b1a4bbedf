//! A merge between two of its steps.
ghost use Rattle.std.specs.Prelude.{◌≤◌, length};

use crate::order::TurnOrder;
use crate::seat::Seat;
use std::mem::size_of;
use vcd_head::Head;
use vcd_text::{Bytes, Feed};

/// A merge between two of its steps: the heads and seats of its inputs, and what was written.
#[derive(Drop)]
pub struct Merge<'h, 's> {
    pub(crate) heads: &'h [Head],
    pub(crate) seats: &'s mut [Seat],
    /// The time whose line was written last.
    pub(crate) written: Option<u64>,
    pub(crate) going: bool,
    pub(crate) ghost few: { length seats.now ≤ 64 },
}

// The memory bound reserves 512 bytes for each input, for what is kept of it between two calls. A
// merge of one input keeps its seat, the merge and its order, and in its turn the feed; for each
// further input it keeps only one more seat.
const _: () = prove!(
    size_of::<Seat>()
        + size_of::<Merge<'static, 'static>>()
        + size_of::<TurnOrder>()
        + size_of::<Feed<'static, 'static, 'static, 'static, Bytes<'static>>>()
        <= 512
);
