//! The law about the job.

ghost use Rattle.vcdkit_compare.specs.Work.{WorkIsComparison};

/// The outcome of the job is the comparison of the definitions.
pub fn work_is_comparison()
    ensures { WorkIsComparison }
{}
