//! How a session begins and ends.

ghost use Rattle.std.specs.Prelude.{◌≡◌};
ghost use Rattle.fuse_wire.specs.Reads.{op_said};
ghost use Rattle.reply_model.specs.Sessions.{session_after, is_spoken, agreement_of};

use fuse_wire::flags::{has_acl, has_export, has_no_open, has_no_opendir};
use fuse_wire::{Op, Request};
use reply_model::{Agreement, Session};

/// The session after a request: an INIT of a supported version begins it, and DESTROY ends it
/// (linux/fuse.h, `FUSE_INIT` and `FUSE_DESTROY`).
pub fn after(session: Session, request: &Request<'_>) -> Session
    ensures { result ≡ session_after session (op_said request.now.op) }
{
    match request.op {
        Op::Init {
            major,
            minor,
            flags,
            ..
        } if is_spoken(major, minor) => match session {
            Session::Fresh => Session::Ready {
                export: has_export(flags),
                acls: has_acl(flags),
            },
            Session::LastingFresh => Session::LastingReady {
                export: has_export(flags),
                acls: has_acl(flags),
                no_open: has_no_open(flags),
                no_opendir: has_no_opendir(flags),
            },
            session => session,
        },
        Op::Destroy => match session {
            Session::Ready { .. } => Session::Fresh,
            Session::LastingReady { .. } => Session::LastingFresh,
            session => session,
        },
        _ => session,
    }
}

/// Whether this version begins a session.
pub(crate) fn is_spoken(major: u32, minor: u32) -> bool
    ensures { result ≡ is_spoken major minor }
{
    major == 7 && 12 <= minor
}

/// The terms of a session.
pub(crate) fn agreement_of(session: Session) -> Agreement
    ensures { result ≡ agreement_of session }
{
    let usual = Agreement {
        lasting: false,
        export: false,
        acls: false,
        no_open: false,
        no_opendir: false,
    };
    match session {
        Session::Fresh => usual,
        Session::Ready { export, acls } => Agreement {
            export,
            acls,
            ..usual
        },
        Session::LastingFresh => Agreement {
            lasting: true,
            ..usual
        },
        Session::LastingReady {
            export,
            acls,
            no_open,
            no_opendir,
        } => Agreement {
            lasting: true,
            export,
            acls,
            no_open,
            no_opendir,
        },
    }
}
