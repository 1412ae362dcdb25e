//! Worked examples, by computation.

ghost use Rattle.serve_loop.specs.Examples.{PullExamples, PushExamples, LimitExamples};

/// What was pulled before the last pull, and which replies were flushed.
#[tactic(auto, using(crate::proofs::Worked::pulls, crate::proofs::Worked::pushes))]
pub fn traces_example()
    ensures pulls { PullExamples }
    ensures pushes { PushExamples }
{}

/// The numbers of the limits.
pub fn limits_example()
    ensures { LimitExamples }
{}
