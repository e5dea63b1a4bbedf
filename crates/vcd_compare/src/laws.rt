//! The laws about what a comparison leaves.

ghost use Rattle.vcd_compare.specs.Outcomes.{AnswersGiveOutcomes, BodiesGiveOutcomes};

/// What a comparison over a body leaves belongs to the outcome of its input by the definitions,
/// whether it ended early or not, at a fault, at a failed read or at a failed write.
pub fn bodies_give_outcomes()
    ensures { BodiesGiveOutcomes }
{}

/// The outcome of a comparison that did not fail has the lines, and then how many pairs were
/// compared. Its status is 1 if there is a line or no pair, otherwise 0.
pub fn answers_give_outcomes()
    ensures { AnswersGiveOutcomes }
{}
