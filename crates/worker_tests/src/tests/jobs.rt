//! Requests, each with the session before it.

use fuse_answer::after;
use fuse_wire::{Framed, Request, frame};
use reply_model::Session;
use std::alloc::{AllocError, Global};

/// A request, and the session before it.
pub type Job<'a> = (Session, Request<'a>);

/// The jobs of a stream, up to the first incomplete message.
pub fn jobs_of<'a>(alloc: Global, stream: &'a [u8]) -> Result<Vec<Job<'a>>, AllocError> {
    let mut jobs = Vec::new(alloc);
    let mut session = Session::Fresh;
    let mut rest = stream;
    for _ in 0..64 {
        if let Framed::Whole(len) = frame(rest) {
            let request = Request::read(&rest[..len]);
            jobs.push((session, request))?;
            session = after(session, &request);
            rest = &rest[len..];
        }
    }
    Ok(jobs)
}
