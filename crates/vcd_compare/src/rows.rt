//! The rows of each class, and those of the pairs that have a line due.
ghost use Rattle.std.specs.Prelude.{◌≡◌, ◌≢◌, ◌<◌, ◌≤◌, ◌==◌, ◌&&◌, ◌||◌, ℕ, Bool, List, Some, false, get_or, length, set, slice_get};
ghost use Rattle.vcd_compare.specs.Touched.{IsListed, settled_as};
ghost use Rattle.vcd_compare.specs.Rows.{AreDue, AreLinkedRows, classes_of, is_flagged, is_of};

use crate::pairs::PairRow;
use crate::touched::{Touched, take_mark};
use crate::variables::number_at;

/// Where the rows of each class are.
#[derive(Drop)]
pub(crate) struct Links<'r> {
    /// For each class, 1 plus the index of its last row; 0 if it has none.
    pub last: &'r [usize],
    /// For each row, 1 plus the index of the last row before it that has its class, or 0.
    pub earlier: &'r [usize],
}

/// Sets the number at this index, if there is one.
pub(crate) fn put_at(numbers: &mut [usize], index: usize, number: usize)
    ensures { numbers.new ≡ set numbers.old index number }
{
    if index < numbers.len() {
        numbers[index] = number;
    }
}

impl<'r> Links<'r> {
    /// Returns the links of these rows, in the memory that is lent: `last` has a 0 for each class,
    /// and `earlier` has a number for each row.
    pub(crate) fn new(
        rows: &[PairRow],
        last: &'r mut [usize],
        earlier: &'r mut [usize],
    ) -> Links<'r>
        requires none { (class : ℕ) → get_or last.old class 0 ≡ 0 }
        requires room { length rows.now ≤ length earlier.old }
        ensures linked { AreLinkedRows (classes_of rows.now) (length (classes_of rows.now))
            result.last.now result.earlier.now }
        ensures last { length result.last.now ≡ length last.old }
    {
        link_rows(rows, last, earlier);
        Links { last, earlier }
    }
}

/// Links the rows of each class: `last` has a 0 for each class, and `earlier` has a number for each
/// row.
fn link_rows(rows: &[PairRow], last: &mut [usize], earlier: &mut [usize])
    requires none { (class : ℕ) → get_or last.old class 0 ≡ 0 }
    requires room { length rows.now ≤ length earlier.old }
    ensures linked { AreLinkedRows (classes_of rows.now) (length rows.now) last.new earlier.new }
    ensures len { length last.new ≡ length last.old }
{
    for index in 0..rows.len() {
        let class = rows[index].class;
        put_at(earlier, index, number_at(last, class));
        put_at(last, class, index + 1);
    }
}

/// Puts the rows of this class into `due`, after the first `count` of them, and returns how many
/// there are then. `last` and `earlier` are the links of the rows.
fn put_class(
    last: &[usize],
    earlier: &[usize],
    class: usize,
    due: &mut [usize],
    count: usize,
) -> usize
    ensures due { (classes : List ℕ) (passes : ℕ → Bool)
        → AreLinkedRows classes (length classes) last.now earlier.now
        → class < length last.now → length classes ≤ length due.old
        → ((i : ℕ) → length classes ≤ i → passes i ≡ false)
        → ((i : ℕ) → slice_get classes i ≡ Some class → passes i ≡ false)
        → AreDue due.old count passes
        → AreDue due.new result (λ i. passes i || is_of classes class i) }
    ensures len { length due.new ≡ length due.old }
{
    let mut count = count;
    let mut left = number_at(last, class);
    'rows: while let Some(row) = left.checked_sub(1) {
        put_at(due, count, row);
        count = count.saturating_add(1);
        left = number_at(earlier, row).min(row);
    }
    count
}

/// Puts the rows of the classes whose mark is 1 into `due`, and sets these marks to `after`.
/// Returns how many rows there are.
// It looks at all classes only if more were listed than there is room for. So the time grows with
// the changes and the lines: a look at all of them at each time that has lines is quadratic.
pub(crate) fn take_due(
    touched: &mut Touched<'_>,
    after: u8,
    links: &Links<'_>,
    due: &mut [usize],
) -> usize
    requires after { after ≢ 1 }
    requires listed { IsListed touched.old }
    ensures many { length touched.new.marks.now ≡ length touched.old.marks.now }
    ensures settled { (k : ℕ) → get_or touched.new.marks.now k 0
        ≡ settled_as after (get_or touched.old.marks.now k 0) }
    ensures listed { IsListed touched.new }
    ensures due { (classes : List ℕ)
        → AreLinkedRows classes (length classes) links.now.last.now links.now.earlier.now
        → length touched.old.marks.now ≤ length links.now.last.now
        → length classes ≤ length due.old
        → AreDue due.new result (is_flagged touched.old.marks.now classes) }
    ensures len { length due.new ≡ length due.old }
{
    let mut count = 0;
    for index in 0..touched.candidates() {
        let class = touched.candidate(index);
        if take_mark(touched.marks, class, after) {
            count = put_class(links.last, links.earlier, class, due, count);
        }
    }
    touched.listed = 0;
    count
}
