//! The memory that a comparison works in.
ghost use Rattle.std.specs.Prelude.{IfOk};
ghost use Rattle.vcdkit_compare.specs.Names.{IsMemoryFor};

use std::alloc::{AllocError, Global};
use vcd_body::{Share, Slot};
use vcd_compare::Pairs;
use vcd_view::Need;

/// The memory of the room of a comparison.
#[derive(Drop)]
pub(crate) struct RoomMemory {
    pub values: Vec<u8>,
    pub slots: Vec<Slot>,
    pub shares: Vec<Share>,
    pub triggers: Vec<Option<u64>>,
    pub flags: Vec<u8>,
    pub classes: Vec<usize>,
    pub last: Vec<usize>,
    pub earlier: Vec<usize>,
    pub due: Vec<usize>,
    pub skips: Vec<usize>,
}

/// Returns new memory for the room of a comparison of these pairs, of a header with this need.
/// Fails if there is none.
pub(crate) fn room_for(alloc: Global, need: Need, pairs: &Pairs) -> Result<RoomMemory, AllocError>
    ensures { IfOk result (IsMemoryFor need pairs.now) }
{
    Ok(RoomMemory {
        values: vec![in alloc; 0u8; need.values]?,
        slots: vec![in alloc; Slot::new(); need.slots]?,
        shares: vec![in alloc; Share::new(); need.slots]?,
        triggers: vec![in alloc; None; need.slots]?,
        flags: vec![in alloc; 0u8; pairs.class_count()]?,
        classes: vec![in alloc; 0usize; pairs.class_count()]?,
        last: vec![in alloc; 0usize; pairs.class_count()]?,
        earlier: vec![in alloc; 0usize; pairs.count()]?,
        due: vec![in alloc; 0usize; pairs.count()]?,
        skips: vec![in alloc; 0usize; pairs.end_count()]?,
    })
}
