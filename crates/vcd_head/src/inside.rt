// The names that continue inside the open scopes, so that a row is compared only by its own name.
ghost use Rattle.std.specs.Prelude.{[], ◌≡◌, ◌<◌, ◌≤◌, suc, Bool, List, length, map, string_bytes, take, IfSome};
ghost use Rattle.vcd_head.specs.Names.{AnyOpen, AnyRow, AnyVariable, AreSame, ComparesAt, EntersScope, FlagsSelected, GivesAround, Header, IsOpen, IsOrder, IsRun, KeepsOpen, Matches, SelectsAt, StaysOpen, front, is_selected, names_of, row_path, scopes_text, selects_path};

use crate::enclosing::Enclosing;
use crate::names::{GROUP_NAMES, Group, NameRun};
use crate::selection::selects;
use vcd_view::{HeadView, Kind};

// One level for each scope that may be open, and one for what is outside of all scopes.
pub(crate) const LEVELS: usize = 1001;

// The names that continue inside a scope.
#[derive(Clone, Copy)]
pub(crate) struct Inside {
    // 1 plus the row of the scope, 0 outside of all.
    pub(crate) scope: usize,
    pub(crate) run: NameRun,
}

impl Inside {
    /// Returns the names that can select something outside of all scopes: all names of the group.
    pub(crate) fn outermost(group: &Group<'_>) -> Self
        ensures scope { result.scope ≡ 0 }
        ensures run { (flags : List Bool) → IsOrder (names_of group.now) group.now.order.now
            → AreSame (names_of group.now) flags → IsRun group.now flags [] result.run }
    {
        Inside {
            scope: 0,
            run: group.all(),
        }
    }
}

// The scopes that are open, the innermost last. A scope is entered at the first variable in it, so
// that a name that selects all of a scope selects something. What is kept of a scope is right
// whatever order rows are taken in, and it is looked at only if the scope is around the row. So a
// name that selects a whole scope costs nothing at its other rows.
#[derive(Drop)]
pub(crate) struct Open<'o> {
    inside: &'o mut [Inside; LEVELS],
    // How many are open.
    depth: usize,
    // How many of them, the outermost, were entered.
    entered: usize,
}

impl<'o> Open<'o> {
    /// Returns the open scopes before the first row of a header: none, so that all names of `group`
    /// can select something. `inside` is the memory for them, and its elements need not be set
    /// before.
    pub(crate) fn new(group: &Group<'_>, inside: &'o mut [Inside; LEVELS]) -> Self
        ensures { (h : Header) (flags : List Bool) → IsOrder (names_of group.now) group.now.order.now
            → AreSame (names_of group.now) flags → IsOpen h group.now flags result }
    {
        inside[0] = Inside::outermost(group);
        Open {
            inside,
            depth: 0,
            entered: 0,
        }
    }

    /// Moves on to row `row`, the next one of the header, and returns whether it is a variable that
    /// some name of the group selects, or any variable if there are no names. Sets the flags in
    /// `matched` of the names that select it, by their indexes in the group, and leaves the other
    /// flags as they are. If there is no such row, it returns false, and nothing changes.
    #[inline(always)]
    pub(crate) fn take_row(
        &mut self,
        view: HeadView<'_>,
        row: usize,
        group: &Group<'_>,
        matched: &mut [bool; GROUP_NAMES],
    ) -> bool
        ensures open { KeepsOpen view.entry group.now matched.old matched.new self.old self.new }
        ensures selected { AnyOpen view.entry row group.now matched.old self.old
            (λ h d. result ≡ is_selected (names_of group.now) (take row h.declarations) d) }
        ensures matched { AnyOpen view.entry row group.now matched.old self.old (λ h d.
            FlagsSelected group.now (take row h.declarations) d matched.old matched.new) }
    {
        let Some(declared) = view.row_at(row) else {
            return false;
        };
        match declared.kind {
            Kind::Scope => {
                self.depth = self.depth.saturating_add(1);
                false
            }
            Kind::Up => {
                self.depth = self.depth.saturating_sub(1);
                self.entered = self.entered.min(self.depth);
                false
            }
            Kind::Var => self.enter_and_compare(view, row, group, matched)
                || group.names.is_empty(),
        }
    }

    /// Returns whether some name of the group selects the variable at index `row`, and sets the
    /// flags in `matched` of those that do. Before that it enters the scopes around the variable
    /// that were not entered yet.
    #[inline(always)]
    fn enter_and_compare(
        &mut self,
        view: HeadView<'_>,
        row: usize,
        group: &Group<'_>,
        matched: &mut [bool; GROUP_NAMES],
    ) -> bool
        ensures { SelectsAt view.entry row group.now matched.old matched.new
            self.old self.new result }
    {
        if self.entered < self.depth {
            self.enter_around(view, row, group, matched);
        }
        self.compare_names(view, row, group, matched)
    }

    /// Enters the scopes around the variable at index `row` that were not entered yet, from the
    /// outermost inwards: keeps in `self`, for each, the names of `group` that can select something
    /// inside it. Sets the flags in `matched` of the names that select all of a scope that it
    /// enters, and leaves the others as they are. `row` is the argument of `take_row`.
    fn enter_around(
        &mut self,
        view: HeadView<'_>,
        row: usize,
        group: &Group<'_>,
        matched: &mut [bool; GROUP_NAMES],
    )
        ensures { AnyRow view.entry row (λ h. EntersScope h group.now
            (scopes_text (take row h.declarations)) matched.old matched.new self.old self.new) }
    {
        let mut scopes = Enclosing::innermost(row, self.depth.saturating_sub(self.entered));
        while let Some(scope) = scopes.next(view) {
            self.enter(view, scope, group, matched);
        }
    }

    /// Enters the scope at index `row`, if it lies directly in the scope that was entered last:
    /// keeps in `self` the names of `group` that can select something inside it, and sets the flags
    /// in `matched` of the names that select all of it. Otherwise nothing changes.
    fn enter(
        &mut self,
        view: HeadView<'_>,
        row: usize,
        group: &Group<'_>,
        matched: &mut [bool; GROUP_NAMES],
    )
        ensures { AnyRow view.entry row (λ h. EntersScope h group.now
            (front h.declarations (suc row)) matched.old matched.new self.old self.new) }
    {
        let Some(around) = self.around(view, row) else {
            return;
        };
        let run = group.follow_scope(around.run, view.name_of(row), matched);
        self.keep_inner(Inside {
            scope: row + 1,
            run,
        });
    }

    /// Keeps `inner`, the names that can select something in one more scope, which is now the
    /// innermost one entered. If 1,000 are entered, nothing changes, and `compare_names` looks at
    /// each name by itself.
    fn keep_inner(&mut self, inner: Inside)
        ensures { StaysOpen inner self.old self.new }
    {
        let next = self.entered.saturating_add(1);
        if next < LEVELS {
            self.inside[next] = inner;
            self.entered = next;
        }
    }

    /// Returns whether some name of the group selects the variable at index `row`, and sets the
    /// flags in `matched` of those that do. The scopes around the variable have been entered
    /// before.
    #[inline(always)]
    fn compare_names(
        &self,
        view: HeadView<'_>,
        row: usize,
        group: &Group<'_>,
        matched: &mut [bool; GROUP_NAMES],
    ) -> bool
        ensures { ComparesAt view.entry row group.now matched.old matched.new self.now result }
    {
        match self.around(view, row) {
            Some(around) => group.note_selecting(around.run, view.name_of(row), matched),
            None => compare_each(view, row, group.names, matched),
        }
    }

    /// Returns the names that can select something in the scope around the variable or scope at
    /// index `row`, or outside of all scopes if it is in none. `None` if that scope is not the one
    /// that was entered last, or if there is no such row.
    #[inline(always)]
    fn around(&self, view: HeadView<'_>, row: usize) -> Option<Inside>
        ensures row { IfSome result (λ _. row < length view.entry.rows.now) }
        ensures run { GivesAround view.entry row self.now result }
    {
        let declared = view.row_at(row)?;
        let inside = self.inside.get(self.entered)?;
        if inside.scope != declared.parent as usize {
            return None;
        }
        Some(*inside)
    }
}

/// Returns whether one of these names, at most 16,384, selects the variable at index `row`, by a
/// look at each name, and sets the flags in `matched` of those that do.
fn compare_each(
    view: HeadView<'_>,
    row: usize,
    names: &[String],
    matched: &mut [bool; GROUP_NAMES],
) -> bool
    requires { length names.now ≤ 16384 }
    ensures { AnyVariable view.entry row (λ h v. Matches (selects_path (row_path h row v))
        (map string_bytes names.now) matched.old matched.new result) }
{
    let mut some = false;
    for position in 0..names.len() {
        if selects(view, row, names[position].as_str()) {
            matched[position] = true;
            some = true;
        }
    }
    some
}
