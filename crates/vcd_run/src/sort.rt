//! Numbers at the front of a slice, sorted.
ghost use Rattle.std.specs.Prelude.{◌≡◌, ◌≤◌, IsPermutation, drop, length, take};
ghost use Rattle.std.specs.List.Sorted.{IsNonDecreasing};

/// Sorts the first `count` of these numbers, of which there have to be as many. The others stay.
pub fn sort_front(numbers: &mut [usize], count: usize)
    requires { count ≤ length numbers.old }
    ensures moved { IsPermutation (take count numbers.old) (take count numbers.new) }
    ensures sorted { IsNonDecreasing (take count numbers.new) }
    ensures stays { drop count numbers.new ≡ drop count numbers.old }
    ensures len { length numbers.new ≡ length numbers.old }
{
    numbers[..count].sort_unstable();
}
