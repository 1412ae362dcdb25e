//! Sessions, and what a client and the server agree on at their beginning.

/// Whether a stream has agreed on its protocol version, and on what else. A stream begins `Fresh`;
/// a lasting stream begins `LastingFresh`, and its client learns that the tree never changes, and
/// asks for each thing once.
#[derive(Clone, Copy, PartialEq, Eq)]
pub enum Session {
    /// No INIT has been accepted, or DESTROY followed.
    Fresh,
    /// An INIT was accepted.
    Ready {
        /// Whether the client sent `FUSE_EXPORT_SUPPORT`; then LOOKUP also finds `.` and `..`.
        export: bool,
        /// Whether it sent `FUSE_POSIX_ACL`; then it gets access control lists, which it enforces.
        acls: bool,
    },
    /// Like `Fresh`, for a lasting stream.
    LastingFresh,
    /// Like `Ready`, for a lasting stream.
    LastingReady {
        /// Whether the client sent `FUSE_EXPORT_SUPPORT`; then LOOKUP also finds `.` and `..`.
        export: bool,
        /// Whether it sent `FUSE_POSIX_ACL`; then it gets access control lists, which it enforces.
        acls: bool,
        /// Whether it sent `FUSE_NO_OPEN_SUPPORT`; then it need not send OPEN.
        no_open: bool,
        /// Whether it sent `FUSE_NO_OPENDIR_SUPPORT`; then it need not send OPENDIR.
        no_opendir: bool,
    },
}

/// What a client and the server have agreed on in a session.
#[derive(Clone, Copy, PartialEq, Eq)]
pub struct Agreement {
    /// Whether the stream is lasting: its client learns that the tree never changes.
    pub lasting: bool,
    /// Whether LOOKUP also finds `.` and `..`.
    pub export: bool,
    /// Whether the client enforces access control lists, if the tree has any.
    pub acls: bool,
    /// Whether the client need not send OPEN.
    pub no_open: bool,
    /// Whether it need not send OPENDIR.
    pub no_opendir: bool,
}
