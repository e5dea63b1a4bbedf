//! The classes that were touched since the last time that was settled.
ghost use Rattle.std.specs.Prelude.{◌≡◌, ◌==◌, ◌≢◌, ℕ, get_or, length};
ghost use Rattle.vcd_compare.specs.Touched.{IsListed, candidate, candidates, settled_as, taken, touched};

use crate::variables::number_at;

/// A mark for each class, and which classes are touched.
#[derive(Drop)]
pub(crate) struct Touched<'r> {
    /// For each class 1 if one of its codes had a change since the last time that was settled, 2 if
    /// the class has had its only line, otherwise 0.
    pub marks: &'r mut [u8],
    /// The classes with the mark 1: the first of them, if there is no room for all.
    pub classes: &'r mut [usize],
    /// How many these are, with those that there is no room for.
    pub listed: usize,
}

impl Touched<'_> {
    /// Marks a class with 1, and lists it, if its mark is 0.
    #[inline(always)]
    pub(crate) fn add(&mut self, class: usize)
        requires { IsListed self.old }
        ensures marks { self.new.marks.now ≡ touched class self.old.marks.now }
        ensures listed { IsListed self.new }
    {
        if class >= self.marks.len() || self.marks[class] != 0 {
            return;
        }
        self.marks[class] = 1;
        if self.listed < self.classes.len() {
            self.classes[self.listed] = class;
        }
        self.listed = self.listed.saturating_add(1);
    }

    /// Returns how many candidates there are for the classes with the mark 1: those that are
    /// listed, or all if there was no room for some.
    #[inline(always)]
    pub(crate) fn candidates(&self) -> usize
        ensures { result ≡ candidates self.now }
    {
        if self.listed <= self.classes.len() {
            self.listed
        } else {
            self.marks.len()
        }
    }

    /// Returns the candidate at an index.
    #[inline(always)]
    pub(crate) fn candidate(&self, index: usize) -> usize
        ensures { result ≡ candidate self.now index }
    {
        if self.listed <= self.classes.len() {
            number_at(self.classes, index)
        } else {
            index
        }
    }

    /// Returns whether the mark of a class is 1.
    #[inline(always)]
    pub(crate) fn is_touched(&self, class: usize) -> bool
        ensures { result ≡ (get_or self.now.marks.now class 0 == 1) }
    {
        class < self.marks.len() && self.marks[class] == 1
    }

    /// Sets each mark that is 1 to 0.
    #[inline(always)]
    pub(crate) fn clear(&mut self)
        requires { IsListed self.old }
        ensures many { length self.new.marks.now ≡ length self.old.marks.now }
        ensures cleared { (k : ℕ) → get_or self.new.marks.now k 0
            ≡ settled_as 0 (get_or self.old.marks.now k 0) }
        ensures listed { IsListed self.new }
    {
        for index in 0..self.candidates() {
            let class = self.candidate(index);
            take_mark(self.marks, class, 0);
        }
        self.listed = 0;
    }
}

/// Returns whether the class has had its only line.
#[inline(always)]
pub(crate) fn is_done(marks: &[u8], class: usize) -> bool
    ensures { result ≡ (get_or marks.now class 0 == 2) }
{
    class < marks.len() && marks[class] == 2
}

/// Sets the mark of a class, if it is 1, to `after`, and returns whether it was 1.
#[inline(always)]
pub(crate) fn take_mark(marks: &mut [u8], class: usize, after: u8) -> bool
    ensures is { result ≡ (get_or marks.old class 0 == 1) }
    ensures marks { marks.new ≡ taken class after marks.old }
{
    if class >= marks.len() || marks[class] != 1 {
        return false;
    }
    marks[class] = after;
    true
}
