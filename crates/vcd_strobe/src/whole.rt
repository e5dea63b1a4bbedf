//! What a strobe keeps, and what it does with a change.
ghost use Rattle.std.specs.Prelude.{◌≡◌, ◌-◌, ◌^◌, ◌<◌, ◌≤◌, IfOk, Some, length, slice_get, true};
ghost use Rattle.vcd_text.specs.Device.{Counts};
ghost use Rattle.vcd_body.specs.Contents.{held_at, shown_as};
ghost use Rattle.vcd_strobe.specs.Lines.{place_of};
ghost use Rattle.vcd_strobe.specs.Listed.{Enlists};
ghost use Rattle.vcd_strobe.specs.Roles.{changed, is_followed, triggered};
ghost use Rattle.vcd_strobe.specs.Strobes.{IsPast, PutsEdge, PutsListed, PutsTurn, SameEdges, SameStrobe, SetsPlace, TakesChange, TakesValue, Triggers, is_start};

use crate::clocks::{Clock, is_turn};
use crate::edge_lines::{place_of, put_lines, put_moment, role_of};
use crate::role::{Role, is_at};
use crate::touched::{change_at, keep_listed, list, settle_roles, trigger_at};
use vcd_body::{Form, Regs, Section, Shown, Table};
use vcd_run::sort_front;
use vcd_text::{Sink, WriteFailed};
use vcd_view::HeadView;

/// What a strobe keeps between two items of a body.
#[derive(Drop)]
pub struct Strobe<'r> {
    /// A header that has each code four times, side by side.
    pub places: HeadView<'r>,
    /// The values of its codes.
    pub table: Table<'r>,
    /// The roles of the codes.
    pub roles: &'r mut [Role],
    /// Room for the indexes of the codes.
    pub listed: &'r mut [usize],
    /// How many codes are listed.
    pub count: usize,
    /// The clocks.
    pub clocks: &'r [Clock],
    /// The code of the time of an edge.
    pub id: &'r [u8],
    /// How many edges there were.
    pub edges: u64,
    /// The time of the last edge.
    pub last: Option<u64>,
}

/// Returns whether a change is from the start: the code has no value yet, and the section is a
/// `$dumpvars`.
#[inline(always)]
fn is_start(shown: Shown, section: Option<Section>) -> bool
    ensures { result ≡ is_start shown section }
{
    match (shown, section) {
        (Shown::Unset, Some(Section::Vars)) => true,
        _ => false,
    }
}

/// Has the event at index `code` go on after a trigger at this time, and lists it. Returns how many
/// codes are listed then.
#[inline(always)]
fn trigger_role(
    roles: &mut [Role],
    listed: &mut [usize],
    count: usize,
    code: usize,
    time: u64,
) -> usize
    ensures enlists { (r : Role) → slice_get roles.old code ≡ Some r
        → Enlists (triggered r time) code roles.old roles.new listed.old listed.new count result }
    ensures within { count ≤ length listed.old → result ≤ length listed.new }
{
    let new = trigger_at(roles, code, time);
    list(listed, count, code, new)
}

/// Has the code at index `code` go on after a change, whose value is in this place, and lists it.
/// Returns how many codes are listed then.
#[inline(always)]
fn change_role(
    roles: &mut [Role],
    listed: &mut [usize],
    count: usize,
    table: &Table<'_>,
    regs: Regs,
    code: usize,
    place: usize,
) -> usize
    ensures enlists { (r : Role) → slice_get roles.old code ≡ Some r → code < 2 ^ 60 → r.now < 4
        → Enlists (changed r regs.time place
        (is_start (shown_as (held_at table.now (place_of code r.now))) regs.section))
        code roles.old roles.new listed.old listed.new count result }
    ensures within { count ≤ length listed.old → result ≤ length listed.new }
{
    let Some(role) = role_of(roles, code) else {
        return count;
    };
    let shown = table.get(place_of(code, role.now));
    let start = is_start(shown, regs.section);
    let new = change_at(roles, code, regs.time, place, start);
    list(listed, count, code, new)
}

/// Writes the lines of the first `count` of the listed codes, in order, at an edge of this time,
/// and has their roles go on after it. Returns how many are still listed. Fails if a write does.
fn put_listed_lines<W: Sink>(
    places: HeadView<'_>,
    table: &Table<'_>,
    roles: &mut [Role],
    listed: &mut [usize],
    count: usize,
    time: u64,
    out: &mut W,
) -> Result<usize, WriteFailed>
    requires failures { (W.device out.old).failures < 2 ^ 64 - 1 }
    requires count { count ≤ length listed.old }
    ensures puts { PutsListed places.entry table.now roles.old roles.new listed.old listed.new
        count time (W.device out.old) (W.device out.new) result }
    ensures counts { Counts (W.device out.old) (W.device out.new) result }
{
    sort_front(listed, count);
    put_lines(places, table, roles, &listed[..count], time, out)?;
    settle_roles(roles, &listed[..count], time);
    Ok(keep_listed(roles, listed, count))
}

impl Strobe<'_> {
    /// Writes the lines of an edge at this time. Fails if a write does.
    #[inline(never)]
    fn put_edge<W: Sink>(&mut self, time: u64, out: &mut W) -> Result<(), WriteFailed>
        requires failures { (W.device out.old).failures < 2 ^ 64 - 1 }
        requires count { self.old.count ≤ length self.old.listed.now }
        ensures puts { PutsEdge self.old self.new time
            (W.device out.old) (W.device out.new) result }
        ensures counts { Counts (W.device out.old) (W.device out.new) result }
        ensures past { IfOk result (λ _. IsPast self.old self.new time) }
        ensures table { self.new.table ≡ self.old.table }
        ensures same { SameStrobe self.old self.new }
        ensures count { IfOk result (λ _. self.new.count ≤ length self.new.listed.now) }
    {
        let number = self.edges.saturating_add(1);
        put_moment(number, time, self.id, out)?;
        let (places, count) = (self.places, self.count);
        self.count = put_listed_lines(
            places,
            &self.table,
            self.roles,
            self.listed,
            count,
            time,
            out,
        )?;
        self.edges = number;
        self.last = Some(time);
        Ok(())
    }

    /// Notes that the event at index `code` was triggered at this time, outside sections.
    pub(crate) fn trigger(&mut self, code: usize, time: u64)
        ensures triggers { Triggers self.old self.new code time }
        ensures edges { SameEdges self.old self.new }
        ensures same { SameStrobe self.old self.new }
        ensures table { self.new.table ≡ self.old.table }
        ensures count { self.old.count ≤ length self.old.listed.now
            → self.new.count ≤ length self.new.listed.now }
    {
        let count = self.count;
        self.count = trigger_role(self.roles, self.listed, count, code, time);
    }

    /// Notes a change of the code at index `code`, which is no event: the place has its new value.
    /// `regs` are the registers.
    #[inline(always)]
    fn turn(&mut self, regs: Regs, code: usize, place: usize)
        requires { place < 4 }
        ensures takes { TakesValue self.old self.new regs code place }
        ensures edges { SameEdges self.old self.new }
        ensures same { SameStrobe self.old self.new }
        ensures table { self.new.table ≡ self.old.table }
        ensures count { self.old.count ≤ length self.old.listed.now
            → self.new.count ≤ length self.new.listed.now }
    {
        let count = self.count;
        self.count = change_role(
            self.roles,
            self.listed,
            count,
            &self.table,
            regs,
            code,
            place,
        );
    }

    /// Sets the value of the code at index `code` in a place that is not needed.
    #[inline(always)]
    fn put_value(&mut self, code: usize, place: usize, form: Form, text: &[u8])
        requires { place < 4 }
        ensures sets { SetsPlace self.old self.new code place form text.now }
        ensures rest { self.new ≡ record self.old { table = self.new.table } }
    {
        self.table.set(place_of(code, place), form, text);
    }

    /// Writes the lines of an edge at this time, that of the last item, if the code at index `code`
    /// turns a clock as its value goes from that in one place to that in another, unless there was
    /// an edge at this time. Fails if a write does.
    #[inline(always)]
    fn put_turn<W: Sink>(
        &mut self,
        time: u64,
        code: usize,
        from: usize,
        to: usize,
        out: &mut W,
    ) -> Result<(), WriteFailed>
        requires failures { (W.device out.old).failures < 2 ^ 64 - 1 }
        requires count { self.old.count ≤ length self.old.listed.now }
        ensures puts { PutsTurn self.old self.new time code from to
            (W.device out.old) (W.device out.new) result }
        ensures counts { Counts (W.device out.old) (W.device out.new) result }
        ensures table { self.new.table ≡ self.old.table }
        ensures same { SameStrobe self.old self.new }
        ensures count { IfOk result (λ _. self.new.count ≤ length self.new.listed.now) }
    {
        if is_at(self.last, time) {
            return Ok(());
        }
        if !is_turn(self.clocks, self.places, &self.table, code, from, to) {
            return Ok(());
        }
        self.put_edge(time, out)
    }

    /// Returns the role of the code at index `code`; `None` if there is no such code.
    #[inline(always)]
    pub(crate) fn role(&self, code: usize) -> Option<Role>
        ensures { result ≡ slice_get self.now.roles.now code }
    {
        role_of(self.roles, code)
    }

    /// Handles a change of the code at index `code`, which is no event and whose values are kept.
    /// `regs` are the registers. Fails if a write does.
    #[inline(never)]
    pub(crate) fn take_value<W: Sink>(
        &mut self,
        regs: Regs,
        code: usize,
        form: Form,
        text: &[u8],
        out: &mut W,
    ) -> Result<(), WriteFailed>
        requires failures { (W.device out.old).failures < 2 ^ 64 - 1 }
        requires count { self.old.count ≤ length self.old.listed.now }
        ensures takes { (r : Role) → slice_get self.old.roles.now code ≡ Some r
            → is_followed r.wanted ≡ true → TakesChange self.old self.new regs code form text.now
            (W.device out.old) (W.device out.new) result }
        ensures counts { Counts (W.device out.old) (W.device out.new) result }
        ensures same { SameStrobe self.old self.new }
        ensures count { IfOk result (λ _. self.new.count ≤ length self.new.listed.now) }
    {
        let Some(role) = self.role(code) else {
            return Ok(());
        };
        let (from, to) = (role.now, role.spare());
        self.put_value(code, to, form, text);
        self.put_turn(regs.time, code, from, to, out)?;
        self.turn(regs, code, to);
        Ok(())
    }
}
