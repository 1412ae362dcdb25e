//! The places of the headers of an image to be built, and the headers that they name.

ghost use Rattle.std.specs.Prelude.{◌≡◌, ◌+◌, ◌≤◌, ◌^◌, length, IfOk, IfErr};
ghost use Rattle.romfs_format.specs.Fields.{data_at, padded};

use super::{BuildFault, Item, What};
use romfs_format::limits::HEAD_SIZE;
use romfs_format::read::padded;
use std::alloc::Allocator;

/// Whether items are in walk order, each below a directory, with names that end, and whether hard
/// links lead to items.
pub(super) fn is_listing<A: Allocator>(volume: &[u8], items: &[Item<A>]) -> bool {
    is_walk(items)
        && !volume.contains(&0)
        && items.iter().all(|item| !item.name.contains(&0) && leads_to(item, items.len()))
}

pub(super) fn is_directory<A: Allocator>(item: &Item<A>) -> bool {
    matches!(&item.what, What::Directory)
}

/// The data that follows an item's header.
pub(super) fn data_of<A: Allocator>(item: &Item<A>) -> &[u8] {
    match &item.what {
        What::Regular(bytes) | What::SymLink(bytes) => bytes,
        _ => &[],
    }
}

/// The place of the first item from index `from` on with this depth, unless a less deep one comes
/// before it; 0 if none has it.
pub(super) fn place_at<A: Allocator>(
    layout: &Layout<A>,
    items: &[Item<A>],
    from: usize,
    depth: u16,
) -> u32 {
    for index in from..items.len() {
        if items[index].depth <= depth {
            let is_there = items[index].depth == depth;
            return if is_there { layout.place_of(index) } else { 0 };
        }
    }
    0
}

/// Whether each depth is that of a member of a directory that is still open.
fn is_walk<A: Allocator>(items: &[Item<A>]) -> bool {
    let mut most: u32 = 1;
    for item in items {
        let depth = u32::from(item.depth);
        if depth == 0 || most < depth {
            return false;
        }
        most = if is_directory(item) { depth + 1 } else { depth };
    }
    true
}

/// The places of a header, of its directory and, for a directory, of its dots.
#[derive(Clone, Copy)]
pub(super) struct Placement {
    pub at: u32,
    /// The header of its directory.
    pub above: u32,
    /// A directory's `.`.
    pub dot: u32,
    /// A directory's `..`.
    pub dot_dot: u32,
}

/// The places of the headers of an image.
#[derive(Drop)]
pub(super) struct Layout<A: Allocator> {
    /// The root, which is its own `.`.
    pub root: Placement,
    /// The items, in their order.
    pub placements: Vec<Placement, A>,
    /// The end of the image.
    pub full: u32,
}

impl<A: Allocator + Copy> Layout<A> {
    /// Lays out items in walk order.
    pub fn of(alloc: A, volume: &[u8], items: &[Item<A>]) -> Result<Layout<A>, BuildFault> {
        let at = after(0, volume, &[])?;
        let dot_dot = after(at, b".", &[])?;
        let mut layout = Layout {
            root: Placement {
                at,
                above: at,
                dot: at,
                dot_dot,
            },
            placements: Vec::new(alloc),
            full: after(dot_dot, b"..", &[])?,
        };
        layout.place(alloc, items)?;
        Ok(layout)
    }

    /// Places each item. `path` holds the headers from the root to the item before.
    fn place(&mut self, alloc: A, items: &[Item<A>]) -> Result<(), BuildFault> {
        let mut path = Vec::new(alloc);
        path.push(self.root.at)?;
        for item in items {
            path.truncate(usize::from(item.depth));
            let above = path.last().copied().unwrap_or(0);
            path.push(self.full)?;
            self.add(item, above)?;
        }
        Ok(())
    }

    /// Places an item at the end, in the directory `above`.
    fn add(&mut self, item: &Item<A>, above: u32) -> Result<(), BuildFault> {
        let at = self.full;
        let end = after(at, &item.name, data_of(item))?;
        let (dot_dot, full) = if is_directory(item) {
            let dot_dot = after(end, b".", &[])?;
            (dot_dot, after(dot_dot, b"..", &[])?)
        } else {
            (0, end)
        };
        self.placements.push(Placement {
            at,
            above,
            dot: end,
            dot_dot,
        })?;
        self.full = full;
        Ok(())
    }
}

impl<A: Allocator> Layout<A> {
    /// The place of an item.
    pub fn place_of(&self, index: usize) -> u32 {
        match self.placements.get(index) {
            Some(placement) => placement.at,
            None => 0,
        }
    }
}

/// Whether an item, if it is a hard link, leads to one of `count` items.
fn leads_to<A: Allocator>(item: &Item<A>, count: usize) -> bool {
    match &item.what {
        What::Hard(index) => *index < count,
        _ => true,
    }
}

/// The place of the header after the one at `at` with this name and data. A volume header is as
/// long as a header with its name.
fn after(at: u32, name: &[u8], body: &[u8]) -> Result<u32, BuildFault>
    ensures ok { IfOk result (λ next. next ≡ data_at at name.now + padded (length body.now)) }
    ensures err { IfErr result (λ fault. (fault ≡ BuildFault.Size)
        × (2 ^ 32 ≤ data_at at name.now + padded (length body.now))) }
{
    let most = u32::MAX as usize;
    if name.len() > most || body.len() > most {
        return Err(BuildFault::Size);
    }
    let end = at as usize + HEAD_SIZE + padded(name.len() + 1) + padded(body.len());
    if end > most {
        return Err(BuildFault::Size);
    }
    Ok(end as u32)
}
