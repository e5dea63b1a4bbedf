//! The law about the job.

ghost use Rattle.vcdkit_strobe.specs.Work.{WorkIsStrobe};

/// The outcome of the job is the strobe of the definitions.
pub fn work_is_strobe()
    ensures { WorkIsStrobe }
{}
