//! What is wanted, as a task over the items of a body, and the memory that it works in.
ghost use Rattle.std.specs.Prelude.{◌≡◌, IfOk, IfSome, true, vec_len};
ghost use Rattle.vcdkit.specs.Names.{AnyRoom, asked, cut_request, HasTicks, Header, is_asked, IsEnough, IsValid, IsViewOf, KeepsBound, model_want, ModelWant, request_of, request_of_task, task_request};

use std::alloc::{AllocError, Global};
use vcd_body::{Share, Slot};
use vcd_engine::Task;
use vcd_head::{Moment, ticks};
use vcd_view::{HeadView, Need};
use vcd_words::{Refusal, Want};

/// Returns the task of a cut between these times, in ticks of this header's time scale: the first
/// rounded up, the last down. Fails with the reason if a time has a unit while the header has no
/// time scale, if it is 2^64 ticks or more, or if the first is above the last in ticks.
fn cut_task<'w>(from: Moment, to: Moment, view: HeadView<'_>) -> Result<Task<'w>, Refusal>
    requires { is_asked (Want.Cut from to) ≡ true }
    ensures request { (h : Header) → IsViewOf view.entry h
        → request_of h.scale (ModelWant.Cut (asked from) (asked to)) ≡ cut_request result }
    ensures valid { IfOk result (λ task. IsValid (request_of_task task)) }
{
    let from = ticks(view, from, true)?;
    let to = ticks(view, to, false)?;
    if to < from {
        return Err(Refusal::FromAboveTo);
    }
    Ok(Task::Cut { from, to })
}

/// Returns the task for what is wanted, with the times of a cut in ticks of this header's time
/// scale. `None` for a list, which reads no body, and for a merge, which reads several. Fails with
/// the reason if a time of a cut has no number of ticks, or if the first is above the last.
///
/// `Want::write_ticks` must have converted the times of a sample before.
pub(crate) fn task_of<'w>(want: &'w Want, view: HeadView<'_>) -> Result<Option<Task<'w>>, Refusal>
    requires asked { is_asked want.now ≡ true }
    requires ticks { HasTicks want.now }
    ensures request { (h : Header) → IsViewOf view.entry h
        → request_of h.scale (model_want want.now) ≡ task_request want.now result }
    ensures valid { IfOk result (λ task. IfSome task (λ some. IsValid (request_of_task some))) }
{
    match want {
        Want::Check => Ok(Some(Task::Check)),
        Want::List => Ok(None),
        Want::Merge => Ok(None),
        Want::Pick(names) => Ok(Some(Task::Pick(names.as_slice()))),
        Want::Cut(from, to) => Ok(Some(cut_task(*from, *to, view)?)),
        Want::Sample(numbers, _, names) => Ok(Some(Task::Sample {
            times: numbers.as_slice(),
            names: names.as_slice(),
        })),
        Want::Edges(names) => Ok(Some(Task::Edges(names.as_slice()))),
    }
}

/// Returns how long the slices of a `Room` have to be for this task over the dump with this header:
/// 0 if `task` is `None`.
pub(crate) fn need_of(task: Option<Task<'_>>, view: HeadView<'_>) -> Need
    ensures room { AnyRoom result (IsEnough task.entry view.entry) }
    ensures bound { KeepsBound view.entry result }
{
    match task {
        Some(task) => task.need(view),
        None => Need {
            values: 0,
            slots: 0,
            marks: 0,
        },
    }
}

/// The memory of the room of a task.
#[derive(Drop)]
pub(crate) struct RoomMemory {
    pub values: Vec<u8>,
    pub slots: Vec<Slot>,
    pub shares: Vec<Share>,
    pub marks: Vec<u8>,
}

/// Returns new memory for the slices of a `Room` with these lengths, and as many shares as slots.
/// Fails if there is none.
pub(crate) fn room_for(alloc: Global, need: Need) -> Result<RoomMemory, AllocError>
    ensures { IfOk result (λ memory. (vec_len memory.values ≡ need.values)
        × (vec_len memory.slots ≡ need.slots)
        × (vec_len memory.shares ≡ need.slots)
        × (vec_len memory.marks ≡ need.marks)) }
{
    Ok(RoomMemory {
        values: vec![in alloc; 0u8; need.values]?,
        slots: vec![in alloc; Slot::new(); need.slots]?,
        shares: vec![in alloc; Share::new(); need.slots]?,
        marks: vec![in alloc; 0u8; need.marks]?,
    })
}
