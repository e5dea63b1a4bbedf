//! A strobe before the first item.
ghost use Rattle.std.specs.Prelude.{◌≡◌, ℕ, ◌≤◌, List, [], Some, length, set, slice_get};
ghost use Rattle.vcd_model.specs.Header.{Header};
ghost use Rattle.vcd_model.specs.Strobe.{Clock as ModelClock};
ghost use Rattle.vcd_head.specs.Marks.{AreFlags};
ghost use Rattle.vcd_strobe.specs.Listed.{FollowsEach};
ghost use Rattle.vcd_strobe.specs.Roles.{followed};
ghost use Rattle.vcd_strobe.specs.Strobes.{AreFresh, HasStrobed, Suffices, strobe_plan};

use crate::clocks::Clock;
use crate::role::Role;
use crate::whole::Strobe;
use vcd_body::{Share, Slot, Table};
use vcd_head::is_marked;
use vcd_view::HeadView;

/// The slices that a strobe works in.
#[derive(Drop)]
pub struct Room<'r> {
    /// Bytes for the values in the places of codes.
    pub values: &'r mut [u8],
    /// A slot for each place.
    pub slots: &'r mut [Slot],
    /// A share for each place.
    pub shares: &'r mut [Share],
    /// A role for each code, as `set_roles` sets them.
    pub roles: &'r mut [Role],
    /// A number for each code, whatever it is.
    pub listed: &'r mut [usize],
}

/// Sets the roles of all codes to those before the first item: a code has lines if its flag is 1.
pub fn set_roles(flags: &[u8], roles: &mut [Role])
    ensures fresh { (h : Header) (names : List (List ℕ)) → AreFlags h names flags.now
        → length roles.old ≡ length h.codes → AreFresh h names roles.new }
    ensures len { length roles.new ≡ length roles.old }
{
    for code in 0..roles.len() {
        roles[code] = Role::new(is_marked(flags, code));
    }
}

/// Has the values of the code at this index kept, if there is one.
fn follow(roles: &mut [Role], code: usize)
    ensures there { (r : Role) → slice_get roles.old code ≡ Some r
        → roles.new ≡ set roles.old code (followed r) }
    ensures past { length roles.old ≤ code → roles.new ≡ roles.old }
    ensures len { length roles.new ≡ length roles.old }
{
    if code < roles.len() {
        roles[code] = roles[code].followed();
    }
}

/// Has the values of the clocks' codes kept.
fn follow_clocks(roles: &mut [Role], clocks: &[Clock])
    ensures follows { FollowsEach clocks.now roles.old roles.new }
    ensures len { length roles.new ≡ length roles.old }
{
    for clock in clocks {
        follow(roles, clock.code);
    }
}

impl<'r> Strobe<'r> {
    /// Returns a strobe before the first item. `places` is a header that has each code four times,
    /// side by side; `room` has the lengths that its comments say, and `id` is the code of the time
    /// of an edge.
    pub fn new(
        places: HeadView<'r>,
        room: Room<'r>,
        clocks: &'r [Clock],
        id: &'r [u8],
    ) -> Strobe<'r>
        requires slots { length places.codes.now ≤ length room.slots.now }
        requires shares { length places.codes.now ≤ length room.shares.now }
        ensures stands { (h : Header) (names : List (List ℕ)) (ks : List ModelClock)
            → Suffices places.entry (length room.entry.values.now) (length room.entry.listed.now)
            room.entry.roles.now clocks.now id.now h names ks
            → HasStrobed result (strobe_plan ks h names) h [] }
        ensures ready { result.count ≤ length result.listed.now }
    {
        let roles = room.roles;
        follow_clocks(roles, clocks);
        Strobe {
            places,
            table: Table::new(places, room.values, room.slots, room.shares),
            roles,
            listed: room.listed,
            count: 0,
            clocks,
            id,
            edges: 0,
            last: None,
        }
    }
}
