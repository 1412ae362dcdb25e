//! The members of a directory in the order of their names.
//!
//! Names are scattered over an image, so a sort that reads two of them for each comparison is slow.
//! Instead, a key, the place of its header and the length of its name are kept for each member, 16
//! bytes, and sorted by key; names are read again only if keys are equal. A key is eight bytes of a
//! name as a number, the first ones after the common front of the directory's names: names such as
//! `file-000017` and `file-000018` are equal up to there.

ghost use Rattle.std.specs.Prelude.{◌≡◌, ◌≤◌, [], ◌++◌, length, map, IfOk, IsFalse, All, MatchOption};
ghost use Rattle.std.specs.List.Sorted.{IsPermutation};
ghost use Rattle.romfs_format.specs.Heads.{name_of, head_of};
ghost use Rattle.romfs_reader.specs.Images.{IsImage};
ghost use Rattle.romfs_reader.specs.Readers.{IsGiven};
ghost use Rattle.stack_model.specs.Stack.{marker, IsMarker};
ghost use Rattle.layer_names.specs.Keys.{key, AreBytes};
ghost use Rattle.layer_paths.specs.Rows.{name_cmp};
ghost use Rattle.layer_tree.specs.Members.{members_in, IsRead, HasFront, ShareFront, IsKeyed, AreKeyedBehind, AreToldApart, keyed_past, key_and_name, IsByName};
ghost use Rattle.layer_tree.specs.Reading.{AreSorted};

use layer_paths::is_marker;
use romfs_reader::{Head, ImageView, Kind, Members};
use std::alloc::{AllocError, Allocator};
use std::cmp::Ordering;

/// How many members a directory gets room for at once: most have no more.
const FEW: usize = 16;

/// A member of a directory, by the place of its header.
#[derive(Clone, Copy)]
pub(crate) struct KeyedMember {
    /// Eight bytes of the name as a number, after the front that all names of the directory share.
    pub key: u64,
    pub offset: u32,
    /// How many bytes its name has.
    pub name_len: u32,
}

/// The members of a directory in the order of their names. Each header is read once, then the
/// members are sorted; names that begin alike are read once more, for keys after their front.
#[inline(never)]
pub(crate) fn sorted_members<A: Allocator + Copy>(
    alloc: A,
    image: &ImageView<'_>,
    directory: &Head,
) -> Result<Vec<KeyedMember, A>, AllocError>
    requires sound { IsImage image.now }
    requires given { IsGiven image.now directory.now }
    requires directory { directory.now.kind ≡ Kind.Directory }
    ensures { IfOk result
        (λ members. AreSorted image.now directory.now.offset members.items) }
{
    let (mut members, shared) = keyed_members(alloc, image, image.members(directory))?;
    tell_apart(image, &mut members, shared);
    sort_by_name(image, &mut members);
    Ok(members)
}

/// The part of a marker's name after `.wh.`; none if the name is not a marker's.
pub(crate) fn whiteout_of(name: &[u8]) -> Option<&[u8]>
    ensures { MatchOption result (¬ IsMarker name.now) (λ rest. name.now ≡ marker ++ rest.now) }
{
    if is_marker(name) {
        Some(&name[4..])
    } else {
        None
    }
}

/// Members, each with the key of its full name, and how many bytes at the front all their names
/// share.
fn keyed_members<A: Allocator + Copy>(
    alloc: A,
    image: &ImageView<'_>,
    members: Members<'_>,
) -> Result<(Vec<KeyedMember, A>, usize), AllocError>
    requires { All (λ head. IsGiven image.now head) members }
    ensures heads { IfOk result
        (λ it. map (λ m. head_of image.now m.offset) it.0.items ≡ members.entry) }
    ensures read { IfOk result (λ it. All (IsRead image.now) it.0.items) }
    ensures keyed { IfOk result (λ it. All (IsKeyed image.now []) it.0.items) }
    ensures shared { IfOk result (λ it. ShareFront image.now it.1 it.0.items) }
{
    let mut keyed = Vec::with_capacity(alloc, FEW)?;
    let mut front: &[u8] = &[];
    for head in members {
        let name = image.name(&head);
        front = front_with(front, keyed.is_empty(), name);
        keyed.push(KeyedMember {
            key: key_of(name),
            offset: head.offset,
            name_len: head.name_len,
        })?;
    }
    Ok((keyed, front.len()))
}

/// The key of a name: its first eight bytes as a number.
fn key_of(name: &[u8]) -> u64
    ensures value { result ≡ key 8 name.now }
    ensures bytes { AreBytes name.now }
{
    layer_names::key_of(name)
}

/// The common front of names that all begin with `front`, and of this name; the name itself if
/// there is no name before it.
#[tactic(auto, using(crate::proofs::Keyed::begins_itself))]
fn front_with<'a>(front: &'a [u8], is_first: bool, name: &'a [u8]) -> &'a [u8]
    ensures name { HasFront result.now name.now }
    ensures front { IsFalse is_first → HasFront result.now front.now }
{
    if is_first { name } else { shared(front, name) }
}

/// The common front of two names.
fn shared<'a>(x: &'a [u8], y: &[u8]) -> &'a [u8]
    ensures first { HasFront result.now x.now }
    ensures second { HasFront result.now y.now }
{
    &x[..layer_names::shared(x, y)]
}

/// Gives members with a common front keys that distinguish them.
fn tell_apart(image: &ImageView<'_>, members: &mut [KeyedMember], shared: usize)
    requires read { All (IsRead image.now) members.old }
    requires keyed { All (IsKeyed image.now []) members.old }
    requires shared { ShareFront image.now shared members.old }
    ensures { AreToldApart image.now members.old members.new }
{
    if shared > 0 {
        set_keys(image, members, shared);
    }
}

/// Gives each member the key of its name after the first `shared` bytes.
fn set_keys(image: &ImageView<'_>, members: &mut [KeyedMember], shared: usize)
    requires read { All (IsRead image.now) members.old }
    requires long { All (λ m. shared ≤ length (name_of image.now m.offset)) members.old }
    ensures { members.new ≡ map (keyed_past image.now shared) members.old }
{
    for member in members.iter_mut() {
        let name = image.given_name(member.offset, member.name_len);
        member.key = key_of(&name[shared..]);
    }
}

/// Sorts members by name, byte by byte.
fn sort_by_name<A: Allocator>(image: &ImageView<'_>, members: &mut Vec<KeyedMember, A>)
    requires { AreKeyedBehind image.now members.old.items }
    ensures same { IsPermutation members.old.items members.new.items }
    ensures sorted { IsByName (members_in image.now members.new.items) }
{
    members.sort_unstable_by(|x, y| order(image, x, y));
}

/// The order of members by key, and by name if keys are equal.
fn order(image: &ImageView<'_>, x: &KeyedMember, y: &KeyedMember) -> Ordering
    ensures { result ≡ name_cmp (key_and_name image.now x.now) (key_and_name image.now y.now) }
{
    match x.key.cmp(&y.key) {
        Ordering::Equal => image.name_at(x.offset).cmp(image.name_at(y.offset)),
        other => other,
    }
}
