//! One layer, read as a tree.
//!
//! A directory's members are sorted by name once. Members that are not markers become branches of
//! entries. Markers become marks for the names that they remove, laid on those of the directories
//! below. An opaque marker makes the directory's own mark opaque. A directory without markers in it
//! or below has no mark, except the root.
//!
//! It takes n log n steps in the members of the layer and the hard links that they lead to: where
//! hard links end is remembered while the tree is made.

ghost use Rattle.std.specs.Prelude.{◌≡◌, ◌≢◌, [], ◌∷◌, ◌++◌, ◌↔◌, length, All, IfOk, OnOk, IsTrue, MatchOption, is_some};
ghost use Rattle.romfs_format.specs.Heads.{head_of, name_of};
ghost use Rattle.romfs_reader.specs.Images.{IsImage};
ghost use Rattle.romfs_reader.specs.Readers.{IsGiven};
ghost use Rattle.layer_paths.specs.Trees.{IsTreeOf, entry_of};
ghost use Rattle.layer_paths.specs.Rows.{NamesRise, named};
ghost use Rattle.layer_tree.specs.Members.{members_in, IsRead};
ghost use Rattle.layer_tree.specs.Reading.{IsReadable, IsAtDepth, AddsMade, AreMadeOf, IsBlank, AreBuilt, AreWhiteouts, AreMembersAt, IsFolder, rest_of_opaque};

use crate::ahead::NamesAhead;
use crate::members::{KeyedMember, sorted_members, whiteout_of};
use layer_paths::{Branch, Child, Entry, Mark, Name, Place, Tree, child, is_marker, merge};
use romfs_format::limits::MAX_NAMES;
use romfs_held::NamedHead;
use romfs_reader::{Ends, Head, Image, ImageView, Kind};
use std::alloc::{AllocError, Allocator};

/// The name of an opaque marker after `.wh.`.
const WHOLE: &[u8; 8] = b".wh..opq";

/// The mark of a path that is cut.
pub(crate) const CUT: Mark = Mark {
    cut: true,
    opaque: false,
};

/// The mark of a path that is not cut, though one below it may be.
pub(crate) const UNCUT: Mark = Mark {
    cut: false,
    opaque: false,
};

/// What is made of one layer.
pub trait OfLayer: Sized {
    /// The allocator.
    type Memory;

    /// The layer's image.
    type Image;

    /// What is made of this layer, which has this number among the layers.
    fn of(alloc: Self::Memory, image: &Self::Image, layer: u16) -> Result<Self, AllocError>;
}

impl<A: Allocator + Copy> OfLayer for Tree<A> {
    type Memory = A;

    type Image = Image<A>;

    /// The tree of one layer, as [`tree_of`] makes it from a borrowed image.
    fn of(alloc: A, image: &Image<A>, layer: u16) -> Result<Tree<A>, AllocError>
        ensures { IfOk result (λ tree. IsTreeOf layer (image.now.bytes ∷ []) tree) }
    {
        tree_of(alloc, &image.view(), layer)
    }
}

/// The tree of one layer, which has this number among the layers.
///
/// A marker becomes a mark, and neither it nor anything below it is an entry; a marker whose name
/// ends after `.wh.` marks the empty name. A hard link has the kind and the place of the header
/// where it ends. `AllocError` only if memory is refused.
pub fn tree_of<A: Allocator + Copy>(
    alloc: A,
    image: &ImageView<'_>,
    layer: u16,
) -> Result<Tree<A>, AllocError>
    ensures { IfOk result (λ tree. IsTreeOf layer (image.now ∷ []) tree) }
{
    let read = Layer {
        alloc,
        image,
        number: layer,
    };
    let mut ends = image.ends(alloc);
    let (entries, marks) = directory(&read, &mut ends, &[], &image.root(), MAX_NAMES)?;
    Ok(Tree { entries, marks })
}

/// A branch with nothing below.
pub(crate) fn leaf<T: Copy + Drop, A: Allocator>(alloc: A, name: Name<A>, value: T) -> Branch<T, A>
    ensures { result ≡ record { name = name; value = value; below = [] } }
{
    Branch::new(name, value, Vec::new(alloc))
}

/// A layer that is being read, and the allocator for its tree.
#[derive(Drop)]
struct Layer<'a, A: Allocator> {
    alloc: A,
    image: &'a ImageView<'a>,
    /// Its number among the layers.
    number: u16,
}

/// The branches of a directory's members.
#[derive(Drop)]
struct Branches<A: Allocator> {
    entries: Vec<Child<A>, A>,
    marks: Vec<Branch<Mark, A>, A>,
}

/// A directory and its mark.
fn directory<A: Allocator + Copy>(
    layer: &Layer<'_, A>,
    ends: &mut Ends<'_, A>,
    name: &[u8],
    head: &Head,
    left: u16,
) -> Result<(Child<A>, Branch<Mark, A>), AllocError>
    requires read { IsReadable layer.now.image.now ends.old head.now }
    requires directory { head.now.kind ≡ Kind.Directory }
    requires depth { IsAtDepth layer.now.image.now head.now.offset left }
    ensures made { IfOk result
        (AreMadeOf layer.now.image.now layer.now.number head.now.offset name.now) }
    ensures ends { ends.new ≡ layer.now.image.now }
{
    let members = sorted_members(layer.alloc, layer.image, head)?;
    let below = branches_below(layer, ends, &members, left)?;
    folder(layer, name, head, &members, below)
}

/// A header at which the image had one before, and its name of a known length. It is a function of
/// its own, so the stack of the recursive one stays small.
#[inline(never)]
fn given_named<'a>(image: &ImageView<'a>, offset: u32, name_len: u32) -> NamedHead<'a>
    requires head { IsGiven image.now (head_of image.now offset) }
    requires name { name_len ≡ length (name_of image.now offset) }
    ensures value { result.head ≡ head_of image.now offset }
    ensures given { IsGiven image.now result.head }
    ensures name { result.name.now ≡ name_of image.now offset }
{
    image.given_named(offset, name_len)
}

/// The branches of members that are not markers, in the same order.
#[cycle(reading)]
fn branches_below<A: Allocator + Copy>(
    layer: &Layer<'_, A>,
    ends: &mut Ends<'_, A>,
    members: &[KeyedMember],
    left: u16,
) -> Result<Branches<A>, AllocError>
    requires sound { IsImage layer.now.image.now }
    requires ends { ends.old ≡ layer.now.image.now }
    requires members { AreMembersAt layer.now.image.now left
        (members_in layer.now.image.now members.now) }
    requires read { All (IsRead layer.now.image.now) members.now }
    ensures built { IfOk result (λ made. AreBuilt layer.now.image.now layer.now.number
        (members_in layer.now.image.now members.now) made.entries.items made.marks.items) }
    ensures ends { ends.new ≡ layer.now.image.now }
{
    let mut made = Branches {
        entries: Vec::with_capacity(layer.alloc, members.len())?,
        marks: Vec::new(layer.alloc),
    };
    let mut ahead = NamesAhead::new();
    for member in members {
        ahead.pass(layer.image, members);
        let it = given_named(layer.image, member.offset, member.name_len);
        if is_marker(it.name) {
            continue;
        }
        add_branches(layer, ends, it.name, &it.head, left - 1, &mut made)?;
    }
    Ok(made)
}

/// Adds the file of a header with everything below it, under a name, and what is cut there, if
/// anything. A path to the header has `left` names less than [`MAX_NAMES`].
///
/// `AllocError` only if memory is refused; `to` is unspecified then.
#[cycle(reading)]
fn add_branches<A: Allocator + Copy>(
    layer: &Layer<'_, A>,
    ends: &mut Ends<'_, A>,
    name: &[u8],
    head: &Head,
    left: u16,
    to: &mut Branches<A>,
) -> Result<(), AllocError>
    requires read { IsReadable layer.now.image.now ends.old head.now }
    requires depth { IsAtDepth layer.now.image.now head.now.offset left }
    ensures made { OnOk result (AddsMade layer.now.image.now layer.now.number
        head.now.offset name.now to.old to.new) }
    ensures ends { ends.new ≡ layer.now.image.now }
{
    match head.kind {
        Kind::Directory => {
            let members = sorted_members(layer.alloc, layer.image, head)?;
            let below = branches_below(layer, ends, &members, left)?;
            add_folder(layer, name, head, &members, below, to)
        }
        _ => add_file(layer, ends, name, head, to),
    }
}

/// Adds an entry that is not a directory; it needs no mark.
///
/// `AllocError` only if memory is refused; `to` is unspecified then.
#[inline(never)]
fn add_file<A: Allocator + Copy>(
    layer: &Layer<'_, A>,
    ends: &mut Ends<'_, A>,
    name: &[u8],
    head: &Head,
    to: &mut Branches<A>,
) -> Result<(), AllocError>
    requires read { IsReadable layer.now.image.now ends.old head.now }
    requires other { head.now.kind ≢ Kind.Directory }
    ensures made { OnOk result (AddsMade layer.now.image.now layer.now.number
        head.now.offset name.now to.old to.new) }
    ensures ends { ends.new ≡ layer.now.image.now }
{
    let end = ends.target(head)?;
    let entry = entry_at(layer.number, &end);
    let own_name = Name::of(layer.alloc, name)?;
    to.entries.push(leaf(layer.alloc, own_name, entry))?;
    Ok(())
}

/// A directory and its mark, from the branches of its members.
fn folder<A: Allocator + Copy>(
    layer: &Layer<'_, A>,
    name: &[u8],
    head: &Head,
    members: &[KeyedMember],
    below: Branches<A>,
) -> Result<(Child<A>, Branch<Mark, A>), AllocError>
    requires { IsFolder layer.now.image.now layer.now.number head.now members.now
        below.entries.items below.marks.items }
    ensures { IfOk result
        (AreMadeOf layer.now.image.now layer.now.number head.now.offset name.now) }
{
    let entry = entry_at(layer.number, head);
    let entry_name = Name::of(layer.alloc, name)?;
    let mark_name = Name::of(layer.alloc, name)?;
    let whiteouts = markers_of(layer, members, &below)?;
    let opaque = has_opaque(&whiteouts);
    let marks = merge(layer.alloc, below.marks, whiteouts)?;
    let entries = Branch::new(entry_name, entry, below.entries);
    let marks = Branch::new(mark_name, Mark { cut: false, opaque }, marks);
    Ok((entries, marks))
}

/// The same, added to others; a directory needs no mark if no member is a marker or has a mark.
///
/// `AllocError` only if memory is refused; `to` is unspecified then.
#[inline(never)]
fn add_folder<A: Allocator + Copy>(
    layer: &Layer<'_, A>,
    name: &[u8],
    head: &Head,
    members: &[KeyedMember],
    below: Branches<A>,
    to: &mut Branches<A>,
) -> Result<(), AllocError>
    requires { IsFolder layer.now.image.now layer.now.number head.now members.now
        below.entries.items below.marks.items }
    ensures { OnOk result (AddsMade layer.now.image.now layer.now.number
        head.now.offset name.now to.old to.new) }
{
    if is_plain(members, &below) {
        let own_entry = entry_at(layer.number, head);
        let own_name = Name::of(layer.alloc, name)?;
        to.entries
            .push(Branch::new(own_name, own_entry, below.entries))?;
        return Ok(());
    }
    let (entry, mark) = folder(layer, name, head, members, below)?;
    to.entries.push(entry)?;
    if let Some(mark) = needed(mark) {
        add_mark(&mut to.marks, mark)?;
    }
    Ok(())
}

/// Whether all members of a directory have branches of entries, and none has a mark.
fn is_plain<A: Allocator>(members: &[KeyedMember], below: &Branches<A>) -> bool
    ensures { IsTrue result → (length below.now.entries.items ≡ length members.now)
        × (below.now.marks.items ≡ []) }
{
    below.entries.len() == members.len() && below.marks.is_empty()
}

/// The mark if it or one below it cuts anything, otherwise none.
fn needed<A: Allocator>(mark: Branch<Mark, A>) -> Option<Branch<Mark, A>>
    ensures { MatchOption result (IsBlank mark) (λ same. (same ≡ mark) × ¬ IsBlank mark) }
{
    if is_blank(&mark) { None } else { Some(mark) }
}

/// Whether neither the mark nor one below it cuts anything.
fn is_blank<A: Allocator>(mark: &Branch<Mark, A>) -> bool
    ensures { IsTrue result ↔ IsBlank mark.now }
{
    !mark.value().cut && !mark.value().opaque && mark.children().is_empty()
}

/// Adds a mark to a list, which at first gets room for one: most have no more.
///
/// `AllocError` only if memory is refused; `to` is unspecified then.
fn add_mark<A: Allocator>(
    to: &mut Vec<Branch<Mark, A>, A>,
    mark: Branch<Mark, A>,
) -> Result<(), AllocError>
    ensures { OnOk result (to.new.items ≡ to.old.items ++ mark ∷ []) }
{
    if to.is_empty() {
        to.reserve_exact(1)?;
    }
    to.push(mark)?;
    Ok(())
}

/// The entry of a header whose hard links end at `end`.
fn entry_at(layer: u16, end: &Head) -> Entry
    ensures { result ≡ entry_of layer end.now }
{
    let place = Place {
        layer,
        header: end.offset,
    };
    Entry {
        kind: end.kind,
        exec: end.exec,
        place,
        spec: end.spec,
        size: end.size,
        name_len: end.name_len,
    }
}

/// The marks of a directory's markers. If each member has a branch, none is a marker, and no name
/// is read again.
fn markers_of<A: Allocator + Copy>(
    layer: &Layer<'_, A>,
    members: &[KeyedMember],
    below: &Branches<A>,
) -> Result<Vec<Branch<Mark, A>, A>, AllocError>
    requires read { All (IsRead layer.now.image.now) members.now }
    requires built { AreBuilt layer.now.image.now layer.now.number
        (members_in layer.now.image.now members.now)
        below.now.entries.items below.now.marks.items }
    ensures { IfOk result
        (λ marks. AreWhiteouts (members_in layer.now.image.now members.now) marks.items) }
{
    if below.entries.len() == members.len() {
        return Ok(Vec::new(layer.alloc));
    }
    whiteouts_of(layer.alloc, layer.image, members)
}

/// The marks of markers, in the same order.
fn whiteouts_of<A: Allocator + Copy>(
    alloc: A,
    image: &ImageView<'_>,
    members: &[KeyedMember],
) -> Result<Vec<Branch<Mark, A>, A>, AllocError>
    requires { All (IsRead image.now) members.now }
    ensures { IfOk result
        (λ marks. AreWhiteouts (members_in image.now members.now) marks.items) }
{
    let mut marks = Vec::new(alloc);
    for member in members {
        let Some(name) = whiteout_of(image.given_name(member.offset, member.name_len)) else {
            continue;
        };
        let name = Name::of(alloc, name)?;
        add_mark(&mut marks, leaf(alloc, name, CUT))?;
    }
    Ok(marks)
}

/// Whether one of the markers is opaque.
fn has_opaque<A: Allocator>(whiteouts: &[Branch<Mark, A>]) -> bool
    requires { NamesRise whiteouts.now }
    ensures { result ≡ is_some (named rest_of_opaque whiteouts.now) }
{
    child(whiteouts, WHOLE).is_some()
}
