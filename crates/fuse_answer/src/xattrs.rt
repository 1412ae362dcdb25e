//! Requests for extended attributes.

ghost use Rattle.std.specs.Prelude.{◌≡◌, ◌≤◌, length, IfSome};
ghost use Rattle.std.specs.Option.{option_map};
ghost use Rattle.romfs_format.specs.declared.limits.TheConstants.{MAX_XATTR_SIZE};
ghost use Rattle.romfs_format.specs.Extended.{value_of};
ghost use Rattle.fuse_wire.specs.Requests.{getxattr, listxattr};
ghost use Rattle.node_reader.specs.Readers.{xattrs_at};
ghost use Rattle.reply_model.specs.Services.{serves_acls};
ghost use Rattle.fuse_answer.specs.Answers.{DecidesAt, by_size};
ghost use Rattle.fuse_answer.specs.Names.{AreAllowed, list_of};

use crate::outcome::{Answer, Names};
use fuse_wire::Errno;
use node_reader::{Table, is_acl_name};
use reply_model::Agreement;
use std::alloc::Allocator;

/// The answer to GETXATTR: the value, or its length if the size is 0. Only clients that enforce
/// access control lists get them.
pub(crate) fn get_xattr<'a, A: Allocator>(
    table: &'a Table<A>,
    agreed: Agreement,
    number: u64,
    size: u32,
    name: &[u8],
) -> Result<Answer<'a, A>, Errno>
    ensures { DecidesAt table.now agreed number (getxattr size name.now) result }
{
    if table.node(number).is_none() {
        return Err(Errno::ESTALE);
    }
    if is_acl_name(name) && !serves_acls(table, agreed) {
        return Err(Errno::EOPNOTSUPP);
    }
    let Some(value) = value_of(table, number, name) else {
        return Err(Errno::ENODATA);
    };
    by_size(size, value.len() as u32, Answer::Value(value))
}

/// The answer to LISTXATTR: the names, or their length if the size is 0.
pub(crate) fn list_xattrs<'a, A: Allocator>(
    table: &'a Table<A>,
    agreed: Agreement,
    number: u64,
    size: u32,
) -> Result<Answer<'a, A>, Errno>
    ensures { DecidesAt table.now agreed number (listxattr size) result }
{
    if table.node(number).is_none() {
        return Err(Errno::ESTALE);
    }
    let names = names_of(table, agreed, number);
    let len = names.len();
    by_size(size, len, Answer::Names(names))
}

// The length of an answer if the size is 0; otherwise the answer, unless it is longer than the
// size.
fn by_size<'a, A: Allocator>(
    size: u32,
    len: u32,
    answer: Answer<'a, A>,
) -> Result<Answer<'a, A>, Errno>
    ensures { result ≡ by_size size len answer.entry }
{
    if size == 0 {
        Ok(Answer::Size(len))
    } else if size < len {
        Err(Errno::ERANGE)
    } else {
        Ok(answer)
    }
}

// The value of a node's attribute with this name.
fn value_of<'a, A: Allocator>(table: &'a Table<A>, number: u64, name: &[u8]) -> Option<&'a [u8]>
    ensures value { option_map (λ value. value.now) result
        ≡ value_of name.now (xattrs_at table.now number) }
    ensures short { IfSome result (λ value. length value.now ≤ MAX_XATTR_SIZE) }
{
    table.xattrs(number)?.value(name)
}

// The names of a node's attributes.
fn names_of<'a, A: Allocator>(table: &'a Table<A>, agreed: Agreement, number: u64) -> Names<'a>
    ensures allowed { AreAllowed result }
    ensures list { list_of result ≡ xattrs_at table.now number }
    ensures acls { result.acls ≡ serves_acls table.now agreed }
{
    Names {
        list: table.xattrs(number),
        acls: serves_acls(table, agreed),
    }
}

// Whether access control lists are served: the client enforces them, and some node has one.
#[inline(always)]
fn serves_acls<A: Allocator>(table: &Table<A>, agreed: Agreement) -> bool
    ensures { result ≡ serves_acls table.now agreed }
{
    agreed.acls && table.has_acls()
}
