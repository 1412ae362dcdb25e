//! Requests about one node.

ghost use Rattle.std.specs.Prelude.{◌≡◌, ◌-◌, min};
ghost use Rattle.fuse_wire.specs.Requests.{getattr, readlink, open_file, opendir, read};
ghost use Rattle.reply_model.specs.Services.{opendir_flags};
ghost use Rattle.fuse_answer.specs.Answers.{DecidesAt, TellsKind};

use crate::outcome::{Answer, FilePart};
use fuse_wire::Errno;
use fuse_wire::flags::{FOPEN_CACHE_DIR, FOPEN_KEEP_CACHE};
use fuse_wire::limits::MAX_DATA_SIZE;
use node_reader::Table;
use reply_model::Agreement;
use romfs_format::Kind;
use std::alloc::Allocator;

/// The answer to GETATTR.
#[inline(always)]
pub(crate) fn get_attr<'a, A: Allocator>(
    table: &'a Table<A>,
    number: u64,
) -> Result<Answer<'a, A>, Errno>
    ensures { (agreed : Agreement) → DecidesAt table.now agreed number getattr result }
{
    match table.attr(number) {
        Some(attr) => Ok(Answer::Attributes(attr)),
        None => Err(Errno::ESTALE),
    }
}

/// The answer to READLINK.
#[inline(always)]
pub(crate) fn read_link<'a, A: Allocator>(
    table: &'a Table<A>,
    number: u64,
) -> Result<Answer<'a, A>, Errno>
    ensures { (agreed : Agreement) → DecidesAt table.now agreed number readlink result }
{
    let Some(node) = table.node(number) else {
        return Err(Errno::ESTALE);
    };
    match node.kind {
        Kind::SymLink => Ok(Answer::Target(node)),
        _ => Err(Errno::EINVAL),
    }
}

/// The answer to OPEN. The access mode is the lowest two bits of the flags. A client that need not
/// send OPEN gets `ENOSYS`, if no other error comes first.
#[inline(always)]
pub(crate) fn open_file<'a, A: Allocator>(
    table: &'a Table<A>,
    agreed: Agreement,
    number: u64,
    flags: u32,
) -> Result<Answer<'a, A>, Errno>
    ensures { DecidesAt table.now agreed number (open_file flags) result }
{
    match kind_of(table, number)? {
        Kind::Regular if flags % 4 != 0 => Err(Errno::EROFS),
        Kind::Regular if agreed.no_open => Err(Errno::ENOSYS),
        Kind::Regular => Ok(Answer::Opened(FOPEN_KEEP_CACHE)),
        Kind::Directory => Err(Errno::EISDIR),
        _ => Err(Errno::EINVAL),
    }
}

/// The answer to OPENDIR. A client that need not send OPENDIR gets `ENOSYS`, if no other error
/// comes first.
#[inline(always)]
pub(crate) fn open_directory<'a, A: Allocator>(
    table: &'a Table<A>,
    agreed: Agreement,
    number: u64,
) -> Result<Answer<'a, A>, Errno>
    ensures { DecidesAt table.now agreed number opendir result }
{
    match kind_of(table, number)? {
        Kind::Directory if agreed.no_opendir => Err(Errno::ENOSYS),
        Kind::Directory => Ok(Answer::Opened(opendir_flags(agreed.lasting))),
        _ => Err(Errno::ENOTDIR),
    }
}

/// The answer to READ: the bytes from the offset on, at most as many as the size, up to the end of
/// the file.
#[inline(always)]
pub(crate) fn read<'a, A: Allocator>(
    table: &'a Table<A>,
    number: u64,
    offset: u64,
    size: u32,
) -> Result<Answer<'a, A>, Errno>
    ensures { (agreed : Agreement) → DecidesAt table.now agreed number (read offset size) result }
{
    let Some(node) = table.node(number) else {
        return Err(Errno::ESTALE);
    };
    match node.kind {
        Kind::Regular if size <= MAX_DATA_SIZE => Ok(Answer::Data(FilePart {
            node,
            offset,
            len: part_len(node.part.len, offset, size),
        })),
        Kind::Directory => Err(Errno::EISDIR),
        _ => Err(Errno::EINVAL),
    }
}

// The kind of a node.
#[inline(always)]
pub(crate) fn kind_of<A: Allocator>(table: &Table<A>, number: u64) -> Result<Kind, Errno>
    ensures { TellsKind table.now number result }
{
    match table.node(number) {
        Some(node) => Ok(node.kind),
        None => Err(Errno::ESTALE),
    }
}

// The flags of an opened directory.
#[inline(always)]
fn opendir_flags(lasting: bool) -> u32
    ensures { result ≡ opendir_flags lasting }
{
    if lasting {
        FOPEN_KEEP_CACHE | FOPEN_CACHE_DIR
    } else {
        0
    }
}

// How many bytes a file has from the offset on, at most as many as the size.
#[inline(always)]
fn part_len(file_len: u32, offset: u64, size: u32) -> u32
    ensures { result ≡ min size (file_len - offset) }
{
    let file_len = u64::from(file_len);
    if offset >= file_len {
        return 0;
    }
    let rest = (file_len - offset) as u32;
    size.min(rest)
}
