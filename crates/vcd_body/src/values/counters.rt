// The three counters of a code, of 64 bits each. They are in two parts: the slot counts up to 256
// steps of each kind in a byte, and the share has what came before these. So most steps add one to
// one byte of the slot.
ghost use Rattle.std.specs.Prelude.{◌≡◌, ◌<◌, ℕ, List, ◌==◌, true, false};
ghost use Rattle.vcd_body.specs.Names.{counts_after, counts_if, counts_of, counts_plus, counts_plus_if, counts_with};

/// Returns the three counters of a code: of all value changes that were counted, of rises and of
/// falls. Each is the sum of what the slot has counted (`steps`) and the share (`counts`), at most
/// 2^64 - 1.
#[inline(always)]
pub(crate) fn counts_of(steps: [u8; 3], counts: [u64; 3]) -> [u64; 3]
    ensures { result ≡ counts_of steps counts }
{
    let falls = u64::from(steps[0]);
    let rises = u64::from(steps[2]);
    [
        counts[0].saturating_add(falls + u64::from(steps[1]) + rises),
        counts[1].saturating_add(rises),
        counts[2].saturating_add(falls),
    ]
}

/// How many steps a counter of a slot has counted when it begins again at 0.
// The byte is increased in place, and the sum says whether it was full. A test before would take as
// long. Without `flipped`, `edges` of scalars takes 6 % more.
pub(crate) const CARRY: u64 = 256;

/// Adds `more` to element `which`, 0 to 2, of the counters of a share. A counter stops at 2^64 - 1.
/// Any other `which` changes nothing.
#[inline(always)]
pub(crate) fn count_more(counts: &mut [u64; 3], which: usize, more: u64)
    ensures { (steps : List ℕ)
        → counts_of steps counts.new ≡ counts_plus more (counts_of steps counts.old) which }
{
    if which < counts.len() {
        counts[which] = counts[which].saturating_add(more);
    }
}

/// Adds `more` to element `which`, 0 to 2, of the counters of a share, if `test` is true. A counter
/// stops at 2^64 - 1. Otherwise, and for any other `which`, nothing changes.
#[inline(always)]
fn count_more_if(counts: &mut [u64; 3], which: usize, more: u64, test: bool)
    ensures { (steps : List ℕ)
        → counts_of steps counts.new ≡ counts_plus_if test more (counts_of steps counts.old) which }
{
    if test {
        count_more(counts, which, more);
    }
}

/// Adds `more` to the first counter of a share, to the second if `rises` is true, and to the third
/// if `falls` is true. A counter stops at 2^64 - 1.
pub(crate) fn count_steps(counts: &mut [u64; 3], more: u64, rises: bool, falls: bool)
    ensures { (steps : List ℕ) → counts_of steps counts.new
        ≡ counts_after more rises falls (counts_of steps counts.old) }
{
    count_more(counts, 0, more);
    count_more_if(counts, 1, more, rises);
    count_more_if(counts, 2, more, falls);
}

/// Adds 1 to one of the three counters of a slot, and returns true. `way`, which must be below 3,
/// chooses the counter: 0 that of falls, 2 that of rises, 1 that of other changes of the value.
/// Returns false if the counter was at 255: then it is 0 now, and the caller has to add 256 to the
/// counters of the share (`count_steps`).
// The step adds to one byte, without a branch. With counters of changes, rises and falls in the
// slot, `edges` of scalars takes 22 % more.
#[inline(always)]
pub(crate) fn count_step(steps: &mut [u8; 3], way: usize) -> bool
    requires { way < 3 }
    ensures more { result ≡ true → (counts : List ℕ) → counts_of steps.new counts
        ≡ counts_if (way == 0) (counts_if (way == 2) (counts_with (counts_of steps.old counts) 0) 1) 2 }
    ensures left { result ≡ false → (counts : List ℕ)
        → counts_after 256 (way == 2) (way == 0) (counts_of steps.new counts)
        ≡ counts_if (way == 0) (counts_if (way == 2) (counts_with (counts_of steps.old counts) 0) 1) 2 }
{
    let count = steps[way].wrapping_add(1);
    steps[way] = count;
    count != 0
}
