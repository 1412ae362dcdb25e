//! How far a stream is served.

ghost use Rattle.std.specs.Prelude.{◌≡◌, ◌<◌, ◌⊎◌, [], length, true, false, IsTrue};
ghost use Rattle.reply_model.specs.Sessions.{is_fresh};
ghost use Rattle.serve_loop.specs.Buffers.{held_in, IsWithinBytes};

use crate::done::Done;
use crate::progress::Progress;
use reply_model::Session;
use std::alloc::Allocator;

/// How far a stream is served.
#[derive(Clone, Copy)]
pub enum Until {
    /// To its end.
    End,
    /// Until its session has begun and no part of a message is left; or to its end before that.
    Begun,
}

/// A stream whose session has begun, between two messages.
#[derive(Drop)]
pub struct Begun<A: Allocator> {
    /// The session after its messages.
    pub session: Session,
    /// Their result.
    pub done: Done<A>,
}

/// How far a stream was served.
#[derive(Drop)]
pub enum Opening<A: Allocator> {
    /// Its session has begun, and more may follow.
    Begun(Begun<A>),
    /// It ended.
    Ended(Done<A>),
}

// Whether serving the stream ends here, since its session has begun, and no part of a message is
// left.
pub(crate) fn is_reached<A: Allocator>(until: Until, progress: &Progress<A>) -> bool
    requires { IsWithinBytes progress.now.buffer }
    ensures asked { IsTrue result → until ≡ Until.Begun }
    ensures rest { IsTrue result → held_in progress.now.buffer ≡ [] }
    ensures ready { IsTrue result → is_fresh progress.now.session ≡ false }
    ensures waits { result ≡ false → until ≡ Until.Begun →
        (0 < length (held_in progress.now.buffer)) ⊎ (is_fresh progress.now.session ≡ true) }
{
    match until {
        Until::End => false,
        Until::Begun => progress.buffer.rest().is_empty() && !is_fresh(progress.session),
    }
}

// Whether no INIT was accepted, or DESTROY followed.
fn is_fresh(session: Session) -> bool
    ensures { result ≡ is_fresh session }
{
    match session {
        Session::Fresh | Session::LastingFresh => true,
        Session::Ready { .. } | Session::LastingReady { .. } => false,
    }
}

// The stream, whose session has begun.
pub(crate) fn as_begun<A: Allocator>(progress: Progress<A>) -> Begun<A>
    ensures session { result.session ≡ progress.session }
    ensures messages { result.done.messages ≡ progress.messages }
    ensures written { result.done.written ≡ progress.written }
    ensures balances { result.done.balances.items ≡ progress.balances.items }
{
    let session = progress.session;
    let done = progress.done();
    Begun { session, done }
}
