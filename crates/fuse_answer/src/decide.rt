//! The answer to a request, or the error that refuses it: the first that applies, in the order of
//! the protocol's layers.

ghost use Rattle.std.specs.Prelude.{◌≡◌, true, false};
ghost use Rattle.fuse_wire.specs.Reads.{asked_of, op_said};
ghost use Rattle.reply_model.specs.Refusals.{asks_xattrs, is_unserved};
ghost use Rattle.fuse_answer.specs.Answers.{Decides, DecidesIn};

use crate::listing::list;
use crate::lookup::look_up;
use crate::node::{get_attr, open_directory, open_file, read, read_link};
use crate::outcome::Answer;
use crate::sessions::{agreement_of, is_spoken};
use crate::xattrs::{get_xattr, list_xattrs};
use fuse_wire::forget::Forget;
use fuse_wire::{Errno, InitOut, Op, Request, opcode};
use node_reader::{Guess, Table};
use reply_model::{Agreement, Session};
use std::alloc::Allocator;

/// The decision about a request.
#[inline(always)]
pub(crate) fn decide<'a, A: Allocator>(
    table: &'a Table<A>,
    session: Session,
    request: &Request<'a>,
    guess: Guess,
) -> Result<Answer<'a, A>, Errno>
    ensures { Decides table.now session (asked_of request.now) result }
{
    let agreed = agreement_of(session);
    match session {
        Session::Fresh | Session::LastingFresh => begin(table, agreed, request),
        Session::Ready { .. } | Session::LastingReady { .. } => go_on(
            table, agreed, request, guess,
        ),
    }
}

// A fresh session answers only INIT.
#[inline(always)]
fn begin<'a, A: Allocator>(
    table: &'a Table<A>,
    agreed: Agreement,
    request: &Request<'a>,
) -> Result<Answer<'a, A>, Errno>
    ensures { DecidesIn table.now true agreed (asked_of request.now) result }
{
    match request.op {
        Op::Init {
            major,
            minor,
            max_readahead,
            flags,
        } => {
            if 7 < major {
                Ok(Answer::Terms(InitOut::Version))
            } else if is_spoken(major, minor) {
                Ok(Answer::Terms(InitOut::Terms {
                    lasting: agreed.lasting,
                    acls: table.has_acls(),
                    minor,
                    max_readahead,
                    flags,
                }))
            } else {
                Err(Errno::EPROTO)
            }
        }
        Op::Malformed {
            opcode: opcode::INIT,
        } => Err(Errno::EINVAL),
        _ => Err(Errno::EIO),
    }
}

// A session that has begun answers everything except INIT, and extended attributes only if some
// node has one.
#[inline(always)]
fn go_on<'a, A: Allocator>(
    table: &'a Table<A>,
    agreed: Agreement,
    request: &Request<'a>,
    guess: Guess,
) -> Result<Answer<'a, A>, Errno>
    ensures { DecidesIn table.now false agreed (asked_of request.now) result }
{
    if asks_xattrs(&request.op) && !table.has_xattrs() {
        return Err(Errno::ENOSYS);
    }
    answer_served(table, agreed, request, guess)
}

// Whether a request is about extended attributes, even if it is malformed.
#[inline(always)]
fn asks_xattrs(op: &Op<'_>) -> bool
    ensures { result ≡ asks_xattrs (op_said op.now) }
{
    matches!(
        op,
        Op::Getxattr { .. }
            | Op::Listxattr { .. }
            | Op::Malformed {
                opcode: opcode::GETXATTR | opcode::LISTXATTR,
            }
    )
}

// The same for a served request.
#[inline(always)]
fn answer_served<'a, A: Allocator>(
    table: &'a Table<A>,
    agreed: Agreement,
    request: &Request<'a>,
    guess: Guess,
) -> Result<Answer<'a, A>, Errno>
    requires { is_unserved table.now (op_said request.now.op) ≡ false }
    ensures { DecidesIn table.now false agreed (asked_of request.now) result }
{
    let node = request.node;
    match request.op {
        Op::Init { .. }
        | Op::Malformed {
            opcode: opcode::INIT,
        } => Err(Errno::EIO),
        Op::Modify => Err(Errno::EROFS),
        Op::Other => Err(Errno::ENOSYS),
        Op::Malformed { .. } => Err(Errno::EINVAL),
        Op::Lookup { name } => look_up(table, agreed, node, name, guess),
        Op::Getattr => get_attr(table, node),
        Op::Readlink => read_link(table, node),
        Op::Open { flags } => open_file(table, agreed, node, flags),
        Op::Read { offset, size } => read(table, node, offset, size),
        Op::Opendir => open_directory(table, agreed, node),
        Op::Readdir { offset, size } => list(table, node, offset, size, false),
        Op::Readdirplus { offset, size } => list(table, node, offset, size, true),
        Op::Getxattr { size, name } => get_xattr(table, agreed, node, size, name),
        Op::Listxattr { size } => list_xattrs(table, agreed, node, size),
        Op::Statfs => Ok(Answer::Totals {
            blocks: table.blocks_all(),
            nodes: table.len(),
        }),
        Op::Forget { nlookup } => Ok(Answer::Forgotten(Forget { node, nlookup })),
        Op::BatchForget { items } => Ok(Answer::AllForgotten(items)),
        Op::Flush if agreed.lasting => Err(Errno::ENOSYS),
        Op::Release
        | Op::Fsync
        | Op::Flush
        | Op::Releasedir
        | Op::Fsyncdir
        | Op::Interrupt
        | Op::Destroy => Ok(Answer::Done),
    }
}
