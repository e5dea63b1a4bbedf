// The scopes around a declaration, from the outermost inwards.
ghost use Rattle.std.specs.Prelude.{ℕ, ◌<◌, ◌≤◌, List, take, length, reverse, IfSome};
ghost use Rattle.vcd_head.specs.Names.{AnyRow, GivesNext, Header, IsViewOf, LeavesScopes, Walks, scopes_around};

use vcd_view::HeadView;

// How many rows are kept at a time.
const SCOPES_HELD: usize = 128;

/// An iterator over the scopes around a declaration, from the outermost inwards.
///
/// A row has only the index of the scope directly around it. So `next` walks outwards, keeps the
/// last rows on its way, and returns these one by one. It walks once if at most 128 scopes enclose
/// the declaration, and at most eight times in any header. It takes 1 KB of stack, whatever the
/// depth, and no memory.
#[derive(Drop)]
pub(crate) struct Enclosing {
    row: usize,
    // The rows at the end of the last walk. Each is at its number, counted outwards from 0, modulo
    // the length.
    rows: [usize; SCOPES_HELD],
    // How many scopes are left to return, at most.
    left: usize,
    // How many of the scopes that are left, the outermost ones, are in `rows`.
    held: usize,
}

impl Enclosing {
    /// Returns an iterator over all scopes around the declaration with index `row`, outermost
    /// first.
    #[inline(always)]
    pub(crate) fn new(row: usize) -> Self
        ensures { (h : Header) → row < length h.declarations
            → LeavesScopes h row (reverse (scopes_around h row)) result }
    {
        Self::innermost(row, row)
    }

    /// Returns an iterator over the innermost `most` scopes around the declaration with index
    /// `row`, or over all if there are fewer; the outermost of these comes first.
    #[inline(always)]
    pub(crate) fn innermost(row: usize, most: usize) -> Self
        ensures { (h : Header) → row < length h.declarations
            → LeavesScopes h row (reverse (take most (scopes_around h row))) result }
    {
        Enclosing {
            row,
            rows: [0; SCOPES_HELD],
            left: most,
            held: 0,
        }
    }

    /// Returns the index of the row of the next scope: of the outermost in the first call, and of
    /// one further inwards in each later call. `None` after the innermost, and from then on. `view`
    /// has to be of the declaration's header in every call.
    #[inline(always)]
    pub(crate) fn next(&mut self, view: HeadView<'_>) -> Option<usize>
        ensures gives { (h : Header) (row : ℕ) (rest : List ℕ) → IsViewOf view.entry h
            → LeavesScopes h row rest self.old → GivesNext h row rest self.new result }
        ensures fewer { IfSome result (λ _. self.new.left < self.old.left) }
    {
        if self.held == 0 {
            self.left = walk(view, self.row, self.left, &mut self.rows);
            self.held = self.left.min(SCOPES_HELD);
        }
        self.left = self.left.checked_sub(1)?;
        self.held = self.held.saturating_sub(1);
        Some(self.rows[self.left % SCOPES_HELD])
    }
}

/// Writes the indexes of the rows of the scopes around the declaration with index `row` to `rows`,
/// and returns how many there are, at most `most`. It goes from the innermost outwards: the k-th,
/// counted from 0, goes to element k modulo 128, so that the last 128 are kept.
fn walk(view: HeadView<'_>, row: usize, most: usize, rows: &mut [usize; SCOPES_HELD]) -> usize
    ensures walks { AnyRow view.entry row (λ h. Walks h row most rows.new result) }
    ensures within { result ≤ most }
{
    let mut scope = row;
    for passed in 0..most {
        let Some(outer) = view.scope_of(scope) else {
            return passed;
        };
        rows[passed % SCOPES_HELD] = outer;
        scope = outer;
    }
    most
}
