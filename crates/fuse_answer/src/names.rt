//! The reply with the names of a file's extended attributes.

ghost use Rattle.std.specs.Prelude.{◌≡◌, ◌≤◌, ◌+◌, ◌++◌, ◌∷◌, [], length, MatchOption};
ghost use Rattle.romfs_format.specs.declared.limits.TheConstants.{MAX_XATTR_LIST_SIZE};
ghost use Rattle.fuse_wire.specs.Appends.{Appends};
ghost use Rattle.fuse_wire.specs.Replies.{reply_with};
ghost use Rattle.fuse_answer.specs.Names.{AreAllowed, list_of, names_said, said_at};

use crate::outcome::Names;
use fuse_wire::limits::OUT_HEADER_SIZE;
use fuse_wire::{Replies, put_data_head};
use node_reader::is_acl_name;
use std::alloc::{AllocError, Allocator};

impl<'a> Names<'a> {
    /// Their length in bytes, each name with its zero byte.
    pub(crate) fn len(&self) -> u32
        requires { AreAllowed self.now }
        ensures value { result ≡ length (names_said self.now) }
        ensures short { result ≤ MAX_XATTR_LIST_SIZE }
    {
        let mut len = 0;
        for position in 0..self.count() {
            len += self.len_at(position);
        }
        len
    }

    // How many attributes there are.
    fn count(&self) -> u32
        ensures { result ≡ length (list_of self.now) }
    {
        match &self.list {
            Some(list) => list.len(),
            None => 0,
        }
    }

    // The length in bytes of the name at a position, with its zero byte.
    fn len_at(&self, position: u32) -> u32
        requires { AreAllowed self.now }
        ensures { result ≡ length (said_at self.now position) }
    {
        match self.told(position) {
            Some(name) => name.len() as u32 + 1,
            None => 0,
        }
    }

    // The name at a position, if the client gets it.
    fn told(&self, position: u32) -> Option<&'a [u8]>
        ensures { MatchOption result (said_at self.now position ≡ [])
            (λ name. said_at self.now position ≡ name.now ++ 0 ∷ []) }
    {
        let name = self.list.as_ref()?.name(position)?;
        if is_acl_name(name) && !self.acls {
            return None;
        }
        Some(name)
    }
}

/// Appends the reply with names, each with its zero byte, in one growth: once there is room for it,
/// nothing fails.
pub(crate) fn put_names<O: Allocator>(
    out: &mut Replies<O>,
    unique: u64,
    names: &Names<'_>,
) -> Result<(), AllocError>
    requires { AreAllowed names.now }
    ensures { Appends result out.old out.new (reply_with unique (names_said names.now)) }
{
    let size = names.len() as usize;
    out.make_room(OUT_HEADER_SIZE + size)?;
    put_data_head(out, unique, size)?;
    put_all(out, names);
    Ok(())
}

// Appends the names; there is room for them.
fn put_all<O: Allocator>(out: &mut Replies<O>, names: &Names<'_>)
    requires { length out.old.items + length (names_said names.now) ≤ out.old.room }
    ensures items { out.new.items ≡ out.old.items ++ names_said names.now }
    ensures room { out.old.room ≤ out.new.room }
{
    for position in 0..names.count() {
        put_told(out, names, position);
    }
}

// Appends the name at a position, if the client gets it.
fn put_told<O: Allocator>(out: &mut Replies<O>, names: &Names<'_>, position: u32)
    requires { length out.old.items + length (said_at names.now position) ≤ out.old.room }
    ensures items { out.new.items ≡ out.old.items ++ said_at names.now position }
    ensures room { out.old.room ≤ out.new.room }
{
    if let Some(name) = names.told(position) {
        put_name(out, name);
    }
}

// Appends a name and its zero byte.
fn put_name<O: Allocator>(out: &mut Replies<O>, name: &[u8])
    requires { length out.old.items + (length name.now + 1) ≤ out.old.room }
    ensures items { out.new.items ≡ out.old.items ++ (name.now ++ 0 ∷ []) }
    ensures room { out.old.room ≤ out.new.room }
{
    let _ = out.append(name);
    let _ = out.append(&[0]);
}
