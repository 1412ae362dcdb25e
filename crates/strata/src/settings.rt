//! The settings of a line for serving: the session in which a stream begins, the nodes whose
//! lookups are counted, and the plan.

ghost use Rattle.std.specs.Prelude.{◌≡◌};
ghost use Rattle.strata_words.specs.CommandLine.{IsInLimits};
ghost use Rattle.strata.specs.Ending.{counted_of, first_of};

use serve_core::{Counted, Plan, Session};
use strata_words::Line;

/// The session in which the line's streams begin.
pub fn first_of(line: &Line<'_>) -> Session
    ensures { result ≡ first_of line.now }
{
    if line.lasting || line.device {
        Session::LastingFresh
    } else {
        Session::Fresh
    }
}

/// The nodes whose lookups are counted: all, if a file is named for their balances. Otherwise
/// nothing would use the counts, which take time and memory.
pub fn counted_of(line: &Line<'_>) -> Counted
    ensures { result ≡ counted_of line.now }
{
    if line.balances.is_some() {
        Counted::AllNodes
    } else {
        Counted::NoNodes
    }
}

/// The plan of the line.
pub fn plan_of(line: &Line<'_>) -> Plan
    requires { IsInLimits line.now }
    ensures workers { result.workers ≡ line.now.workers }
    ensures batch { result.batch ≡ line.now.batch }
{
    Plan::new(line.workers, line.batch).unwrap()
}
