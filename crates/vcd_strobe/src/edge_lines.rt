//! The lines of an edge.
ghost use Rattle.std.specs.Prelude.{◌≡◌, ◌-◌, ◌^◌, ◌<◌, List, Some, flat_map, slice_get};
ghost use Rattle.vcd_body.specs.Contents.{IsLaidOut, codes_shown};
ghost use Rattle.vcd_model.specs.Declarations.{IdCode};
ghost use Rattle.vcd_model.specs.Strobe.{binary};
ghost use Rattle.vcd_text.specs.Device.{Counts, Puts, Takes};
ghost use Rattle.vcd_strobe.specs.Kept.{IsWithin, role_line};
ghost use Rattle.vcd_strobe.specs.Lines.{ArePlaces, HaveRoles, event_line, in_places, line_at, moment_lines, place_of};

use crate::role::Role;
use vcd_body::{Form, Id, Table, put_change, put_short, put_time};
use vcd_text::{Sink, WriteFailed};
use vcd_view::{Code, HeadView};

/// Returns the index in the table of a place of the code at index `code`.
#[inline(always)]
pub(crate) fn place_of(code: usize, place: usize) -> usize
    ensures { code < 2 ^ 60 → place < 4 → result ≡ place_of code place }
{
    code.wrapping_mul(4).wrapping_add(place)
}

/// Writes the line of an event that is declared so.
fn put_event<W: Sink>(places: HeadView<'_>, declared: Code, out: &mut W) -> Result<(), WriteFailed>
    requires { (W.device out.old).failures < 2 ^ 64 - 1 }
    ensures { Puts (W.device out.old) (W.device out.new) (event_line places.entry declared) result }
{
    let id = places.text_at(declared.start, declared.len as usize);
    put_change(declared.size, true, Form::Scalar, b"1", Id::Own(id), out)
}

/// Writes the line of the code at index `code`, which has this role, at an edge of this time.
pub(crate) fn put_line<W: Sink>(
    places: HeadView<'_>,
    table: &Table<'_>,
    code: usize,
    role: Role,
    time: u64,
    out: &mut W,
) -> Result<(), WriteFailed>
    requires failures { (W.device out.old).failures < 2 ^ 64 - 1 }
    ensures takes { (codes : List IdCode) (c : IdCode) → ArePlaces (codes_shown places.entry) codes
        → slice_get codes code ≡ Some c → IsWithin role → IsLaidOut table.now
        → Takes (W.device out.old) (W.device out.new)
        (role_line (in_places table.now c.size code) c role time) result }
    ensures counts { Counts (W.device out.old) (W.device out.new) result }
{
    let settled = place_of(code, role.settled(time));
    let Some(declared) = places.code_at(settled) else {
        return Ok(());
    };
    if declared.event {
        if !role.is_due(time) {
            return Ok(());
        }
        return put_event(places, declared, out);
    }
    if table.same_value(place_of(code, role.written), settled, declared.size) {
        return Ok(());
    }
    put_short(places, table, settled, out)
}

/// Returns the role of the code at an index; `None` if there is no such code.
#[inline(always)]
pub(crate) fn role_of(roles: &[Role], code: usize) -> Option<Role>
    ensures { result ≡ slice_get roles.now code }
{
    roles.get(code).copied()
}

/// Writes the lines of these codes, in order, at an edge of this time.
pub(crate) fn put_lines<W: Sink>(
    places: HeadView<'_>,
    table: &Table<'_>,
    roles: &[Role],
    listed: &[usize],
    time: u64,
    out: &mut W,
) -> Result<(), WriteFailed>
    requires failures { (W.device out.old).failures < 2 ^ 64 - 1 }
    ensures takes { (codes : List IdCode) → ArePlaces (codes_shown places.entry) codes
        → HaveRoles roles.now codes → IsLaidOut table.now
        → Takes (W.device out.old) (W.device out.new)
        (flat_map (line_at codes table.now roles.now time) listed.now) result }
    ensures counts { Counts (W.device out.old) (W.device out.new) result }
{
    for code in listed {
        put_listed(places, table, roles, *code, time, out)?;
    }
    Ok(())
}

/// Writes the line of the code at index `code`, which has one of these roles, at an edge of this
/// time; nothing if there is no such code.
fn put_listed<W: Sink>(
    places: HeadView<'_>,
    table: &Table<'_>,
    roles: &[Role],
    code: usize,
    time: u64,
    out: &mut W,
) -> Result<(), WriteFailed>
    requires failures { (W.device out.old).failures < 2 ^ 64 - 1 }
    ensures takes { (codes : List IdCode) → ArePlaces (codes_shown places.entry) codes
        → HaveRoles roles.now codes → IsLaidOut table.now
        → Takes (W.device out.old) (W.device out.new)
        (line_at codes table.now roles.now time code) result }
    ensures counts { Counts (W.device out.old) (W.device out.new) result }
{
    let Some(role) = role_of(roles, code) else {
        return Ok(());
    };
    put_line(places, table, code, role, time, out)
}

/// Puts the 64 binary digits of a number into `digits`.
fn put_binary(number: u64, digits: &mut [u8; 64])
    ensures { digits.new ≡ binary 64 number }
{
    for index in 0..64 {
        digits[index] = b'0' + ((number >> (63 - index)) % 2) as u8;
    }
}

/// Writes the number and the time of an edge; `id` is the code of the time.
pub(crate) fn put_moment<W: Sink>(
    number: u64,
    time: u64,
    id: &[u8],
    out: &mut W,
) -> Result<(), WriteFailed>
    requires { (W.device out.old).failures < 2 ^ 64 - 1 }
    ensures { Puts (W.device out.old) (W.device out.new) (moment_lines id.now number time) result }
{
    put_time(number, out)?;
    let mut digits = [b'0'; 64];
    put_binary(time, &mut digits);
    put_change(64, false, Form::Vector, &digits, Id::Own(id), out)
}
