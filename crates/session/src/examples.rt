//! The worked examples. The function here does nothing: its contract is a law.
ghost use Rattle.session.specs.Examples.{AllWorkedExamples};

/// The worked examples of prices, of settled divisions, of the guarantees' premises and of event lines, all together.
pub fn all_worked_examples_hold()
    ensures { AllWorkedExamples }
{}
