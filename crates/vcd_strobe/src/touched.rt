//! The list of codes that may have a line at the next edge.
ghost use Rattle.std.specs.Prelude.{◌≡◌, ℕ, ◌<◌, ◌≤◌, ◌++◌, ◌∷◌, [], Some, false, cond, length, set, slice_get, take};
ghost use Rattle.vcd_run.specs.Listed.{times};
ghost use Rattle.vcd_strobe.specs.Listed.{SettlesEach, listed_at};
ghost use Rattle.vcd_strobe.specs.Roles.{changed, enlisted, is_idle, settle, triggered};

use crate::role::{Role, Wanted};

/// Has the role of the code at index `code` go on after a trigger at this time, and notes that it
/// is listed, if it has lines. Returns whether it was not listed before.
#[inline(always)]
pub(crate) fn trigger_at(roles: &mut [Role], code: usize, time: u64) -> bool
    ensures role { (r : Role) → slice_get roles.old code ≡ Some r
        → roles.new ≡ set roles.old code (enlisted (triggered r time)) }
    ensures idle { (r : Role) → slice_get roles.old code ≡ Some r → result ≡ is_idle r.wanted }
{
    if code >= roles.len() {
        return false;
    }
    let role = &mut roles[code];
    role.trigger(time);
    role.enlist()
}

/// Has the role of the code at index `code` go on after a change, whose value is in this place, and
/// notes that it is listed, if it has lines. Returns whether it was not listed before.
#[inline(always)]
pub(crate) fn change_at(
    roles: &mut [Role],
    code: usize,
    time: u64,
    place: usize,
    from_start: bool,
) -> bool
    ensures role { (r : Role) → slice_get roles.old code ≡ Some r
        → roles.new ≡ set roles.old code (enlisted (changed r time place from_start)) }
    ensures idle { (r : Role) → slice_get roles.old code ≡ Some r → result ≡ is_idle r.wanted }
{
    if code >= roles.len() {
        return false;
    }
    let role = &mut roles[code];
    role.change(time, place, from_start);
    role.enlist()
}

/// Lists the code at index `code` after the first `count` of these, if it is new. Returns how many
/// are listed then.
#[inline(always)]
pub(crate) fn list(codes: &mut [usize], count: usize, code: usize, new: bool) -> usize
    ensures within { count ≤ length codes.old → result ≤ length codes.new }
    ensures len { length codes.new ≡ length codes.old }
    ensures codes { count < length codes.old → take result codes.new
        ≡ take count codes.old ++ cond new (code ∷ []) [] }
    ensures same { new ≡ false → take result codes.new ≡ take count codes.old }
{
    if !new || count >= codes.len() {
        return count;
    }
    codes[count] = code;
    count + 1
}

/// Has the role of the code at index `code` go on after an edge at this time, if there is one.
#[inline(always)]
fn settle_role(roles: &mut [Role], code: usize, time: u64)
    ensures there { (r : Role) → slice_get roles.old code ≡ Some r
        → roles.new ≡ set roles.old code (settle r time) }
    ensures past { length roles.old ≤ code → roles.new ≡ roles.old }
    ensures len { length roles.new ≡ length roles.old }
{
    if code < roles.len() {
        roles[code] = roles[code].settle(time);
    }
}

/// Has the roles of these codes go on after an edge at this time.
pub(crate) fn settle_roles(roles: &mut [Role], codes: &[usize], time: u64)
    ensures settles { SettlesEach codes.now time roles.old roles.new }
    ensures len { length roles.new ≡ length roles.old }
{
    for code in codes {
        settle_role(roles, *code, time);
    }
}

/// Returns whether the code at an index is listed by its role.
#[inline(always)]
fn is_listed_at(roles: &[Role], code: usize) -> bool
    ensures { result ≡ listed_at roles.now code }
{
    match roles.get(code) {
        Some(role) => role.wanted == Wanted::Listed,
        None => false,
    }
}

/// Keeps those of the first `count` of these codes that are listed by their roles, and returns how
/// many these are.
pub(crate) fn keep_listed(roles: &[Role], codes: &mut [usize], count: usize) -> usize
    requires { count ≤ length codes.old }
    ensures within { result ≤ length codes.new }
    ensures len { length codes.new ≡ length codes.old }
    ensures kept { (i : ℕ) → times i (take result codes.new)
        ≡ cond (listed_at roles.now i) (times i (take count codes.old)) 0 }
{
    let mut kept = 0;
    for index in 0..count {
        let code = codes[index];
        if is_listed_at(roles, code) {
            codes[kept] = code;
            kept += 1;
        }
    }
    kept
}
