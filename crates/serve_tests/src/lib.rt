//! The tests of `serve_core` over devices of their own, and of its failures, since no command shows
//! these calls.
//!
//! One stream, however it is cut, answered and taken, also as a lasting one, and how often each
//! device is called (`streams`); the lowest image's check waits until the next one's has begun, and
//! each image, tree and batch passes its gate once (`gates`); the longest round takes no more
//! memory than a short one (`room`); streams whose rounds are worth workers (`workers`); several
//! readers of one device (`readers`); data that are read from a file which returns few bytes at a
//! time, or fails (`reading`); what some bytes begin with (`frames`).
//!
//! A reader or a writer that fails at each byte, and each flush that fails (`failing`); each
//! request for memory of a call refused in turn, and no device called after it (`memory`), and the
//! same for runs by workers (`refused_workers`); images that are refused, without a call of a
//! device, and the strict profile (`layers`); each writer of `fuse_wire` with its request for
//! memory refused (`writers`). All of them use `serve_test_kit`.
#![tactic(auto)]

#[cfg(test)]
mod tests;
