//! The answer to a request, before it is written.

use crate::listing::Listing;
use fuse_wire::forget::{Forget, Forgets};
use fuse_wire::{Attr, InitOut};
use node_reader::{FileXattrs, Node};
use std::alloc::Allocator;

/// Some of a file's data.
#[derive(Clone, Copy)]
pub(crate) struct FilePart<'a> {
    /// The file.
    pub node: &'a Node,
    /// Their offset in its data.
    pub offset: u64,
    /// Their count.
    pub len: u32,
}

/// The names of a file's extended attributes.
#[derive(Drop)]
pub(crate) struct Names<'a> {
    /// The attributes, if it has any.
    pub list: Option<FileXattrs<'a>>,
    /// Whether the client also gets the names of access control lists.
    pub acls: bool,
}

/// The answer to a request that is not refused.
#[derive(Drop)]
pub(crate) enum Answer<'a, A: Allocator> {
    /// A reply without data.
    Done,
    /// The terms of a session.
    Terms(InitOut),
    /// The entry of a node that was found.
    Entry(Attr),
    /// No entry has the name.
    NoEntry,
    /// A node's attributes.
    Attributes(Attr),
    /// A file or directory is opened, with these flags.
    Opened(u32),
    /// The target of a symbolic link.
    Target(&'a Node),
    /// Bytes of a file.
    Data(FilePart<'a>),
    /// The length of an extended attribute, or of the list of their names.
    Size(u32),
    /// The value of an extended attribute.
    Value(&'a [u8]),
    /// The names of a file's extended attributes.
    Names(Names<'a>),
    /// The blocks and the nodes of the entire tree.
    Totals { blocks: u64, nodes: u64 },
    /// Rows of a directory.
    Rows(Listing<'a, A>),
    /// Lookups of one node are forgotten, which has no reply.
    Forgotten(Forget),
    /// Lookups of several nodes are forgotten, which has no reply.
    AllForgotten(Forgets<'a>),
}
