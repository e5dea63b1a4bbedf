//! The order in which the inputs of a merge have their turns.
ghost use Rattle.std.specs.Prelude.{◌≡◌, ◌≢◌, ℕ, ◌+◌, ◌<◌, ◌≤◌, ◌⊎◌, true, false, get_or, slice_get, length, Some};
ghost use Rattle.vcd_merge.specs.MergeOrder.{IsNext};
ghost use Rattle.vcd_merge.specs.Order.{AllWait, ComesBefore, IsFirstBefore, IsOrder, MayJoin, time_of};

use crate::seat::Seat;

/// The turn of an input: its items are taken while its time is before `before`.
#[derive(Clone, Copy)]
pub(crate) struct Turn {
    pub(crate) input: usize,
    /// While its time is below this one, the input comes before all others.
    pub(crate) before: u64,
}

/// Returns whether `input` comes before `other` in a merge: if its time in `seats` is less, or the
/// times are equal and its index is smaller.
#[inline(always)]
fn comes_before(seats: &[Seat], input: usize, other: usize) -> bool
    requires input { input < length seats.now }
    requires other { other < length seats.now }
    ensures yes { result ≡ true
        → ComesBefore (time_of seats.now input) input (time_of seats.now other) other }
    ensures no { result ≡ false → input ≢ other
        → ComesBefore (time_of seats.now other) other (time_of seats.now input) input }
{
    let time = seats[input].time;
    let other_time = seats[other].time;
    time < other_time || (time == other_time && input < other)
}

/// Returns the time below which `input` comes before `other` in a merge: the time of `other` in
/// `seats`, or one more if the index of `input` is less.
#[inline(always)]
fn end_before(seats: &[Seat], input: usize, other: usize) -> u64
    requires { other < length seats.now }
    ensures { (t : ℕ) → t < result → (t < time_of seats.now other)
        ⊎ ((t ≡ time_of seats.now other) × (input < other)) }
{
    let time = seats[other].time;
    if input < other {
        time.saturating_add(1)
    } else {
        time
    }
}

/// The inputs that wait for their turn, the next one last. They are sorted by time, and at equal
/// times by index, so that a turn needs no look at all seats.
#[derive(Clone, Copy)]
pub(crate) struct TurnOrder {
    inputs: [u8; 64],
    len: usize,
    /// Each turn ends at this time at the latest.
    until: u64,
    ghost within: { len ≤ 64 },
}

impl TurnOrder {
    ghost use Rattle.std.specs.Prelude.{◌≤◌};

    /// Returns the index in `inputs` at which to insert `input`, so that they stay in order, by the
    /// times in `seats`. The inputs from there on come before it in the merge, and those below do
    /// not.
    #[inline(always)]
    fn index_for(&self, input: usize, seats: &[Seat]) -> usize
        requires input { input < length seats.now }
        requires order { MayJoin seats.now input self.now.inputs self.now.len }
        ensures within { result ≤ self.now.len }
        ensures before { (p : ℕ) → result ≤ p → p < self.now.len
            → ComesBefore (time_of seats.now (get_or self.now.inputs p 0))
            (get_or self.now.inputs p 0) (time_of seats.now input) input }
        ensures after { (p : ℕ) → p < result → ComesBefore (time_of seats.now input) input
            (time_of seats.now (get_or self.now.inputs p 0)) (get_or self.now.inputs p 0) }
    {
        let mut low = 0;
        let mut high = self.len;
        while low < high {
            let middle = low + (high - low) / 2;
            if comes_before(seats, self.inputs[middle] as usize, input) {
                high = middle;
            } else {
                low = middle + 1;
            }
        }
        low
    }

    /// Inserts an input at its place in the order, by the times in `seats`. Fewer than 64 inputs
    /// wait before. It must not be there already or have finished.
    #[inline(always)]
    fn insert(&mut self, input: usize, seats: &[Seat])
        requires input { input < length seats.now }
        requires unfinished { (s : Seat) × (slice_get seats.now input ≡ Some s)
            × (s.finished ≡ false) }
        requires few { length seats.now ≤ 64 }
        requires room { self.old.len < 64 }
        requires order { MayJoin seats.now input self.old.inputs self.old.len }
        ensures back { (n : ℕ) → IsOrder seats.now n input self.old.inputs self.old.len → input < n
            → IsOrder seats.now n n self.new.inputs self.new.len }
        ensures last { IsOrder seats.now input input self.old.inputs self.old.len
            → IsOrder seats.now (input + 1) (input + 1) self.new.inputs self.new.len }
        ensures one { self.new.len ≡ self.old.len + 1 }
        ensures until { self.new.until ≡ self.old.until }
    {
        let index = self.index_for(input, seats);
        self.inputs.copy_within(index..self.len, index + 1);
        self.inputs[index] = input as u8;
        self.len += 1;
    }

    /// Inserts an input at its place in the order, by the times in `seats`, unless it has finished.
    /// Fewer than 64 inputs wait before. It must not be there already.
    #[inline(always)]
    pub(crate) fn join(&mut self, input: usize, seats: &[Seat])
        requires input { input < length seats.now }
        requires few { length seats.now ≤ 64 }
        requires room { self.old.len < 64 }
        requires order { MayJoin seats.now input self.old.inputs self.old.len }
        ensures back { (n : ℕ) → IsOrder seats.now n input self.old.inputs self.old.len → input < n
            → IsOrder seats.now n n self.new.inputs self.new.len }
        ensures last { IsOrder seats.now input input self.old.inputs self.old.len
            → IsOrder seats.now (input + 1) (input + 1) self.new.inputs self.new.len }
        ensures few { self.new.len ≤ self.old.len + 1 }
        ensures until { self.new.until ≡ self.old.until }
    {
        if !seats[input].finished {
            self.insert(input, seats);
        }
    }

    /// Returns the order of all inputs that have not finished, by the times in their seats, at most
    /// 64. Each turn ends at the time `until` at the latest.
    pub(crate) fn of(seats: &[Seat], until: u64) -> TurnOrder
        requires { length seats.now ≤ 64 }
        ensures order { AllWait seats.now result.inputs result.len }
        ensures until { result.until ≡ until }
    {
        let mut order = TurnOrder {
            inputs: [0; 64],
            len: 0,
            until,
        };
        for input in 0..seats.len() {
            order.join(input, seats);
        }
        order
    }

    /// Returns whether no input waits for its turn.
    #[inline(always)]
    pub(crate) fn is_empty(&self) -> bool
        ensures none { result ≡ true → self.now.len ≡ 0 }
        ensures some { result ≡ false → 0 < self.now.len }
    {
        self.len == 0
    }

    /// Returns the time below which `input` comes before each of the first `count` inputs of the
    /// order, whose times are in `seats`. `input` is not in the order, which has at least `count`
    /// inputs. Of two inputs with the same time, the one with the smaller index comes first.
    /// Returns `u64::MAX` if `count` is 0.
    #[inline(always)]
    fn end_of(&self, input: usize, count: usize, seats: &[Seat]) -> u64
        requires count { count ≤ self.now.len }
        requires order { IsOrder seats.now (length seats.now) input self.now.inputs count }
        ensures { IsFirstBefore seats.now input result }
    {
        if count == 0 {
            return u64::MAX;
        }
        end_before(seats, input, self.inputs[count - 1] as usize)
    }

    /// Removes the input with the least time, at equal times the one with the least index, from the
    /// order, in which some input waits, and returns its turn.
    ///
    /// After the turn, pass its input to `join` before the next call. Until then, no time of
    /// another seat may change.
    #[inline(always)]
    pub(crate) fn take_next(&mut self, seats: &[Seat]) -> Turn
        requires order { AllWait seats.now self.old.inputs self.old.len }
        requires some { 0 < self.old.len }
        ensures next { IsNext seats.now result.input }
        ensures before { IsFirstBefore seats.now result.input result.before }
        ensures others { IsOrder
            seats.now (length seats.now) result.input self.new.inputs self.new.len }
        ensures until { result.before ≤ self.old.until }
        ensures room { self.new.len < 64 }
    {
        self.len -= 1;
        let input = self.inputs[self.len] as usize;
        let before = self.end_of(input, self.len, seats).min(self.until);
        Turn { input, before }
    }
}
