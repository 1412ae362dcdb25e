//! Worked examples: what command lines mean, or why they are refused, by computation.

ghost use Rattle.strata_words.specs.LineExamples.{TakenLines, RefusedLines, MisnumberedLines};
ghost use Rattle.strata_words.specs.LineExamples.{MissealedLines};

/// Arguments that are a command of the program, and what they mean.
#[tactic(auto, using(crate::proofs::WorkedLines::taken_lines))]
pub fn taken_line_examples()
    ensures { TakenLines }
{}

/// Arguments that are no command, and why.
#[tactic(auto, using(crate::proofs::WorkedLines::refused_lines))]
pub fn refused_line_examples()
    ensures { RefusedLines }
{}

/// Arguments that would be a command without a malformed number.
#[tactic(auto, using(crate::proofs::WorkedLines::misnumbered_lines))]
pub fn misnumbered_line_examples()
    ensures { MisnumberedLines }
{}

/// Arguments that would be a command without a malformed digest.
#[tactic(auto, using(crate::proofs::WorkedLines::missealed_lines))]
pub fn missealed_line_examples()
    ensures { MissealedLines }
{}
