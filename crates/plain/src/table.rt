//! Worked examples, from the chart texts on.
ghost use Rattle.plain.specs.WorkedExamples.{WorkedExamples};

/// The examples hold, by the definitions alone: there is no body that an edit could turn.
pub fn worked_examples_hold()
    ensures { WorkedExamples }
{}
