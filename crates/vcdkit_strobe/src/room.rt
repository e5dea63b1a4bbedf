//! The memory that a strobe works in.
ghost use Rattle.std.specs.Prelude.{◌≡◌, ◌*◌, IfOk, vec_len};
ghost use Rattle.vcdkit_strobe.specs.Names.{IsHeadMemory, IsRoomMemory};

use std::alloc::{AllocError, Global};
use vcd_body::{Share, Slot};
use vcd_strobe::{Clock, Role, longest_code};
use vcd_view::{Code, HeadView, Need};

/// How many places each code has in the table of a strobe.
const PLACES: usize = 4;

/// The memory for what the header, the clocks and the names of a strobe select.
#[derive(Drop)]
pub(crate) struct HeadMemory {
    pub marks: Vec<u8>,
    pub flags: Vec<u8>,
    pub clocks: Vec<Clock>,
    pub id: Vec<u8>,
}

/// The memory of the room of a strobe.
#[derive(Drop)]
pub(crate) struct RoomMemory {
    pub values: Vec<u8>,
    pub slots: Vec<Slot>,
    pub shares: Vec<Share>,
    pub roles: Vec<Role>,
    pub listed: Vec<usize>,
}

/// Returns new memory for what a header and this many clocks select, and the code of the time of an
/// edge. Fails if there is none.
pub(crate) fn head_memory(
    alloc: Global,
    view: HeadView<'_>,
    clocks: usize,
) -> Result<HeadMemory, AllocError>
    ensures { IfOk result (IsHeadMemory view.entry clocks) }
{
    let clock = Clock {
        code: 0,
        index: 0,
        falls: false,
    };
    Ok(HeadMemory {
        marks: vec![in alloc; 0u8; view.rows.len()]?,
        flags: vec![in alloc; 0u8; view.codes.len()]?,
        clocks: vec![in alloc; clock; clocks]?,
        id: vec![in alloc; b'!'; longest_code(view).saturating_add(1)]?,
    })
}

/// Returns new memory for the places of this many codes. Fails if there is none.
pub(crate) fn codes_memory(alloc: Global, codes: usize) -> Result<Vec<Code>, AllocError>
    ensures { IfOk result (λ memory. vec_len memory ≡ 4 * codes) }
{
    let code = Code {
        start: 0,
        size: 1,
        len: 0,
        event: false,
    };
    let Some(count) = codes.checked_mul(PLACES) else {
        return Err(AllocError);
    };
    vec![in alloc; code; count]
}

/// Returns new memory for the room of a strobe of this many codes, with all places of a header with
/// this need. Fails if there is none.
pub(crate) fn room_memory(alloc: Global, need: Need, codes: usize) -> Result<RoomMemory, AllocError>
    ensures { IfOk result (IsRoomMemory need codes) }
{
    Ok(RoomMemory {
        values: vec![in alloc; 0u8; need.values]?,
        slots: vec![in alloc; Slot::new(); need.slots]?,
        shares: vec![in alloc; Share::new(); need.slots]?,
        roles: vec![in alloc; Role::new(false); codes]?,
        listed: vec![in alloc; 0usize; codes]?,
    })
}
