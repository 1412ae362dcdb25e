//! Laws of command lines.

ghost use Rattle.strata_words.specs.LineLaws.{LinesAgree, LinesAreFaultless, VersionIsFaultless};

/// Arguments have at most one line: two lines of the same arguments are equal.
#[tactic(auto, using(crate::proofs::Agreed::lines_agree))]
pub fn lines_agree()
    ensures { LinesAgree }
{}

/// Arguments with a line meet no fault but lack of memory, and do not ask for the version.
#[tactic(auto, using(crate::proofs::Agreed::lines_are_faultless))]
pub fn lines_are_faultless()
    ensures { LinesAreFaultless }
{}

/// Arguments that ask only for the version meet no fault but lack of memory.
#[tactic(auto, using(crate::proofs::Agreed::version_is_faultless))]
pub fn version_is_faultless()
    ensures { VersionIsFaultless }
{}
