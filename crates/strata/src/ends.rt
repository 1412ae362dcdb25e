//! What a run of the program leaves: its exit status, and the ends that it ran between.

use devices::{Spout, Tap};
use serve_device::{MessageTap, ReplySpout, Seat};
use std::alloc::Allocator;

/// The ends that the program ran between, by its line, as the run left them: over the reader `I`
/// and the writer `O`.
#[derive(Drop)]
pub enum Ends<I, O, A: Allocator> {
    /// None: the arguments have a fault, or a fault occurred before they were made.
    Unused,
    /// Streams that are not a device.
    Streams(Tap<I>, Spout<O>),
    /// An open `/dev/fuse`, served by one reader.
    Device(MessageTap<I, A>, ReplySpout<O>),
    /// An open `/dev/fuse`, served by the readers of these seats.
    Readers(Vec<Seat<I, O, A>, A>),
}

/// What a run of the program leaves.
#[derive(Drop)]
pub struct Ran<I, O, A: Allocator> {
    /// The exit status.
    pub status: u8,
    pub ends: Ends<I, O, A>,
}
