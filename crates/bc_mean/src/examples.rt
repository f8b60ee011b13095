// Worked examples of the meaning.

ghost use Rattle.bc_mean.specs.EvaluationExamples.{EvaluationExamples};
ghost use Rattle.bc_mean.specs.Examples.{Examples};

/// The definitions give what the examples say.
pub fn examples_hold()
    ensures { Examples }
{}

/// Expressions and statements come to what the examples say.
pub fn evaluation_examples_hold()
    ensures { EvaluationExamples }
{}
