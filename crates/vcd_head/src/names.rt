// Names in the order of their bytes. Names that begin with the same front of a path are neighbours,
// so two indexes of the order follow them, one byte of the path after the other.
ghost use Rattle.std.specs.Prelude.{◌≡◌, ◌==◌, ◌&&◌, ◌+◌, ◌-◌, ◌<◌, ◌≤◌, [], ◌∷◌, ◌++◌, ◌^◌, ℕ, List, Bool, length, take, drop, map, get_or, bytes_eq, string_bytes};
ghost use Rattle.vcd_head.specs.NameOrder.{AreSame, AreShared, IsOrder, IsSplit, Matches, Rises, next_bytes, next_in, order_in, selects_path};

use std::cmp::Ordering;

// How many names are followed together.
pub(crate) const GROUP_NAMES: usize = 16_384;

// Names, and their indexes in the order of their bytes. As they are sorted, the time does not grow
// with the product of names and rows.
#[derive(Drop)]
pub(crate) struct Group<'n> {
    pub(crate) names: &'n [String],
    order: &'n [u16; GROUP_NAMES],
    pub(crate) ghost within: { (i : ℕ) → get_or order.now i 0 < 16384 },
    pub(crate) ghost few: { length names.now ≤ 16384 },
}

// The names that begin with the front of a path.
#[derive(Clone, Copy)]
pub(crate) struct NameRun {
    // The index of the first of them in the order, and the one after that of the last.
    first: usize,
    end: usize,
    // How many bytes the front has, if there is such a name.
    front_len: usize,
    // Whether some name selects all paths that continue after the front.
    whole: bool,
}

impl<'n> Group<'n> {
    ghost use Rattle.vcd_head.specs.Names.{AreRising, FlagsSome, GoesOnWith, IsRun, IsRunOn, Narrows, RunsOn, names_of};

    /// Returns a group of these names, at most 16,384. `order` has their indexes in the order of
    /// their bytes, as `put_name_order` writes them.
    pub(crate) fn new(names: &'n [String], order: &'n [u16; GROUP_NAMES]) -> Self
        requires few { length names.now ≤ 16384 }
        requires order { IsOrder (map string_bytes names.now) order.now }
        ensures names { result.names.now ≡ names.now }
        ensures order { result.order.now ≡ order.now }
    {
        Group { names, order }
    }

    /// Returns the run of all names of the group, before any byte of a path was followed.
    pub(crate) fn all(&self) -> NameRun
        ensures { (flags : List Bool) → IsOrder (names_of self.now) self.now.order.now
            → AreSame (names_of self.now) flags → IsRun self.now flags [] result }
    {
        NameRun {
            first: 0,
            end: self.names.len(),
            front_len: 0,
            whole: false,
        }
    }

    /// Returns the index in `names` of the name that is at place `at` in the order of bytes, or 0
    /// if there is no such place.
    #[inline(always)]
    fn index_at(&self, at: usize) -> usize
        ensures position { result ≡ get_or self.now.order.now at 0 }
        ensures within { result < 16384 }
    {
        let order = self.order;
        usize::from(order.get(at).copied().unwrap_or(0))
    }

    /// Returns 1 plus the byte after the first `front_len` bytes of a name, or 0 if the name has no
    /// more bytes than these. `at` is the place of the name in the order of bytes.
    #[inline(always)]
    fn next_at(&self, at: usize, front_len: usize) -> usize
        ensures next { result ≡ next_in (names_of self.now) self.now.order.now front_len at }
        ensures within { 0 < result → front_len < 2 ^ 63 }
    {
        let name = name_at(self.names, self.index_at(at));
        name.get(front_len).map_or(0, |byte| usize::from(*byte) + 1)
    }

    /// Returns the first place from `first` to `end` (exclusive), in the order of the names' bytes,
    /// at which `next_at` with `front_len` is at least `least`; `end` if there is none. `next_at`
    /// must not decrease between these places.
    #[inline(always)]
    fn first_from(&self, first: usize, end: usize, front_len: usize, least: usize) -> usize
        ensures range { first ≤ end → (first ≤ result) × (result ≤ end) }
        ensures split { first ≤ end → AreRising self.now front_len first end
            → IsSplit (names_of self.now) self.now.order.now front_len first end least result }
    {
        let mut low = first;
        let mut high = end;
        while low < high {
            let middle = low + (high - low) / 2;
            if self.next_at(middle, front_len) < least {
                low = middle + 1;
            } else {
                high = middle;
            }
        }
        low
    }

    /// Sets the flags in `matched` of the names of `run` that end after the bytes of the path that
    /// were followed so far, and returns whether there are some.
    #[inline(always)]
    fn note(&self, run: NameRun, matched: &mut [bool; GROUP_NAMES]) -> bool
        ensures { FlagsSome self.now matched.old matched.new run
            (λ front name. bytes_eq name front) result }
    {
        if run.first >= run.end || self.next_at(run.first, run.front_len) != 0 {
            return false;
        }
        if matched[self.index_at(run.first)] {
            return true;
        }
        for at in run.first..run.end {
            if self.next_at(at, run.front_len) != 0 {
                return true;
            }
            matched[self.index_at(at)] = true;
        }
        true
    }

    /// Returns the names of `run` that continue with `byte`, the next one of a path: an empty run
    /// if none does. `whole` says whether some name has already selected all paths that begin like
    /// this one.
    #[inline(always)]
    fn with_byte(&self, run: NameRun, byte: u8, whole: bool) -> NameRun
        ensures narrows { run.first ≤ run.end → AreRising self.now run.front_len run.first run.end
            → Narrows (names_of self.now) self.now.order.now byte run result }
        ensures whole { result.whole ≡ whole }
    {
        let next = usize::from(byte) + 1;
        let first = self.first_from(run.first, run.end, run.front_len, next);
        if first >= run.end || self.next_at(first, run.front_len) != next {
            return NameRun {
                first,
                end: first,
                whole,
                ..run
            };
        }
        let end = self.first_from(first, run.end, run.front_len, next + 1);
        NameRun {
            first,
            end,
            front_len: run.front_len + 1,
            whole,
        }
    }

    /// Returns the names of `run`, which begin like a path, that continue with `byte`, the next one
    /// of this path. If it is a dot, sets the flags in `matched` of the names that end just before
    /// it, and so select every such path.
    #[inline(always)]
    fn follow_byte(&self, run: NameRun, byte: u8, matched: &mut [bool; GROUP_NAMES]) -> NameRun
        ensures { RunsOn self.now matched.old matched.new run (λ front. front ++ byte ∷ []) result }
    {
        let ends = byte == b'.' && self.note(run, matched);
        self.with_byte(run, byte, run.whole | ends)
    }

    /// Returns how many of the first bytes of `bytes` all names of `run` continue with.
    #[inline(always)]
    fn shared_by_run(&self, run: NameRun, bytes: &[u8]) -> usize
        ensures within { result ≤ length bytes.now }
        ensures fits { run.front_len + result < 2 ^ 64 }
        ensures first { GoesOnWith self.now run.front_len run.first bytes.now result }
        ensures last { GoesOnWith self.now run.front_len (run.end - 1) bytes.now result }
    {
        let first = name_at(self.names, self.index_at(run.first));
        let last = name_at(self.names, self.index_at(run.end.saturating_sub(1)));
        shared(
            bytes_after(first, run.front_len),
            bytes_after(last, run.front_len),
            bytes,
        )
    }

    /// Follows one or more of `bytes`, the next ones of a path: all that every name of `run`
    /// continues with, and one more if there is one. Neither `run` nor `bytes` is empty. Returns
    /// the names that continue with all of these, and how many bytes were followed. Sets the flags
    /// in `matched` of the names that end just before a dot in them, and so select every such path.
    // It follows many bytes in one call, because names and paths mostly share long beginnings.
    #[inline(always)]
    fn hop(&self, run: NameRun, bytes: &[u8], matched: &mut [bool; GROUP_NAMES]) -> (NameRun, usize)
        ensures some { 0 < length bytes.now → 0 < result.1 }
        ensures within { result.1 ≤ length bytes.now }
        ensures run { (front : List ℕ) → run.first < run.end → IsRun self.now matched.old front run
            → IsRunOn self.now matched.old matched.new (front ++ take result.1 bytes.now) result.0 }
    {
        let shared = self.shared_by_run(run, bytes);
        let along = NameRun {
            front_len: run.front_len + shared,
            ..run
        };
        match bytes.get(shared) {
            Some(byte) => (self.follow_byte(along, *byte, matched), shared + 1),
            None => (along, shared),
        }
    }

    /// Returns the names of `run`, which begin like a path, that continue with `bytes`, the next
    /// ones of this path. Sets the flags in `matched` of the names that end just before a dot in
    /// them, and so select every such path.
    pub(crate) fn follow_bytes(
        &self,
        run: NameRun,
        bytes: &[u8],
        matched: &mut [bool; GROUP_NAMES],
    ) -> NameRun
        ensures { RunsOn self.now matched.old matched.new run (λ front. front ++ bytes.now) result }
    {
        let mut run = run;
        let mut done = 0;
        while done < bytes.len() {
            if run.first >= run.end {
                return run;
            }
            let (next, count) = self.hop(run, &bytes[done..], matched);
            run = next;
            done += count;
        }
        run
    }

    /// Returns the names of `run` that can select something inside the scope named `component`, and
    /// sets the flags in `matched` of those that select all that is in it; the other flags stay as
    /// they are. `run` has the names that can select something in the scope around it.
    pub(crate) fn follow_scope(
        &self,
        run: NameRun,
        component: &[u8],
        matched: &mut [bool; GROUP_NAMES],
    ) -> NameRun
        ensures { RunsOn self.now matched.old matched.new run
            (λ front. front ++ (component.now ++ 46 ∷ [])) result }
    {
        let named = self.follow_bytes(run, component, matched);
        self.follow_byte(named, b'.', matched)
    }

    /// Returns whether some name selects a variable whose own name is `own`, and sets the flags in
    /// `matched` of those that do. `run` has the names that can select something inside the scopes
    /// around the variable.
    pub(crate) fn note_selecting(
        &self,
        run: NameRun,
        own: &[u8],
        matched: &mut [bool; GROUP_NAMES],
    ) -> bool
        ensures { FlagsSome self.now matched.old matched.new run
            (λ front. selects_path (front ++ own.now)) result }
    {
        let named = self.follow_bytes(run, own, matched);
        let ends = self.note(named, matched);
        named.whole | ends
    }
}

/// Writes the indexes of the names, at most 16,384, in the order of the names' bytes, to the first
/// elements of `order`. The elements must be 0 before, and the other ones stay so.
pub(crate) fn put_name_order(order: &mut [u16; GROUP_NAMES], names: &[String])
    requires few { length names.now ≤ 16384 }
    requires zeros { (i : ℕ) → get_or order.old i 0 ≡ 0 }
    ensures { IsOrder (map string_bytes names.now) order.new }
{
    let positions = &mut order[..names.len()];
    put_indexes(positions);
    positions.sort_unstable_by(|a, b| order_by(names, *a, *b));
}

/// Writes to each element, of which there are at most 16,384, its own index: 0, 1, 2, ..
fn put_indexes(positions: &mut [u16])
    requires { length positions.old ≤ 16384 }
    ensures len { length positions.new ≡ length positions.old }
    ensures each { (i : ℕ) → i < length positions.old → get_or positions.new i 0 ≡ i }
{
    for position in 0..positions.len() {
        positions[position] = position as u16;
    }
}

/// Returns how the name at index `a` compares with the one at `b` in the order of their bytes.
#[inline(always)]
fn order_by(names: &[String], a: u16, b: u16) -> Ordering
    ensures { result ≡ order_in (map string_bytes names.now) a b }
{
    name_at(names, usize::from(a)).cmp(name_at(names, usize::from(b)))
}

/// Returns the bytes of the name at index `position`; no bytes if there is no such index.
#[inline(always)]
fn name_at(names: &[String], position: usize) -> &[u8]
    ensures { result.now ≡ get_or (map string_bytes names.now) position [] }
{
    match names.get(position) {
        Some(name) => name.as_bytes(),
        None => &[],
    }
}

/// Returns the bytes after the first `front_len`; no bytes if there are fewer.
#[inline(always)]
fn bytes_after(bytes: &[u8], front_len: usize) -> &[u8]
    ensures { result.now ≡ drop front_len bytes.now }
{
    bytes.get(front_len..).unwrap_or(&[])
}

/// Returns the length of the longest common prefix of the three texts.
#[inline(always)]
fn shared(first: &[u8], last: &[u8], bytes: &[u8]) -> usize
    ensures within { result ≤ length bytes.now }
    ensures first { AreShared first.now bytes.now result }
    ensures last { AreShared last.now bytes.now result }
{
    let most = bytes.len().min(first.len()).min(last.len());
    for position in 0..most {
        if first[position] != bytes[position] || last[position] != bytes[position] {
            return position;
        }
    }
    most
}
