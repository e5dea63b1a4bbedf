//! A header that has each code four times, side by side.
ghost use Rattle.std.specs.Prelude.{◌≡◌, ℕ, ◌*◌, ◌/◌, ◌<◌, length, slice_get};
ghost use Rattle.vcd_model.specs.Header.{Header};
ghost use Rattle.vcd_body.specs.Contents.{codes_shown};
ghost use Rattle.vcd_view.specs.Views.{IsViewOf};
ghost use Rattle.vcd_strobe.specs.Lines.{ArePlaces};

use vcd_view::{Code, HeadView};

/// Sets each element of `room` to the code at a quarter of its index.
fn copy_codes(codes: &[Code], room: &mut [Code])
    requires { length room.old ≡ 4 * length codes.now }
    ensures each { (i : ℕ) → i < length room.old
        → slice_get room.new i ≡ slice_get codes.now (i / 4) }
    ensures len { length room.new ≡ length room.old }
{
    for index in 0..room.len() {
        room[index] = codes[index / 4];
    }
}

/// Returns a header that has each code of `view` four times, side by side, and nothing else.
/// `room` is four times as long as the codes.
pub fn places_of<'a>(view: HeadView<'a>, room: &'a mut [Code]) -> HeadView<'a>
    requires { length room.old ≡ 4 * length view.codes.now }
    ensures { (h : Header) → IsViewOf view.entry h → ArePlaces (codes_shown result) h.codes }
{
    copy_codes(view.codes, room);
    HeadView {
        text: view.text,
        rows: &[],
        codes: room,
        index: &[],
        entries: &[],
        seed: view.seed,
        date: &[],
        version: &[],
        scale: None,
    }
}
