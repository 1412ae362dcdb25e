//! What the tests of serving share.
//!
//! - `reader` and `writer`: two devices that return and take what a test sets, and their `calls`.
//! - `runs`: runs of streams over tables and images, and their results.
#![tactic(auto)]

pub mod calls;
pub mod reader;
pub mod runs;
pub mod writer;
