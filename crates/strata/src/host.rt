//! What the program runs on.

/// The files, sockets and threads of a run (`rt`), and where its memory is from.
#[derive(Drop)]
pub struct Host<'r, R, A> {
    pub rt: &'r R,
    pub alloc: A,
}
