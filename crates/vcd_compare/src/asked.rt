//! What is asked for.

/// Which lines of values are written.
#[derive(Clone, Copy, PartialEq, Eq, Debug)]
pub enum Extent {
    /// Those of the first time that has one. They end the comparison.
    First,
    /// Those of the first time of each pair.
    EachPair,
    /// Those of each time at which a pair differs and one of its two has a change.
    Always,
}

/// What is asked for, besides the names.
#[derive(Clone, Copy, PartialEq, Eq, Debug)]
pub struct Asked {
    /// The first time at which values are compared, in ticks.
    pub from: u64,
    /// The last time at which values are compared, in ticks.
    pub to: u64,
    /// Whether an x of the first variable matches every digit. Then the variable also matches if it
    /// has no value yet.
    pub x_of_one: bool,
    /// Whether an x of the second variable matches every digit. Then the variable also matches if
    /// it has no value yet.
    pub x_of_other: bool,
    /// Which lines are written.
    pub extent: Extent,
}
