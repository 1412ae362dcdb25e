//! The members of a directory, along its chain.

ghost use Rattle.std.specs.Prelude.{◌≡◌, ◌<◌, ◌^◌, length};
ghost use Rattle.std.specs.Iterator.{YieldsFirst, item_count};
ghost use Rattle.romfs_format.specs.Fields.{root as root_of, IsInside};
ghost use Rattle.romfs_format.specs.Heads.{head_of};
ghost use Rattle.romfs_reader.specs.Readers.{passes_over};
ghost use Rattle.romfs_reader.specs.Walks.{IsWalk, IsNextMember, members_from};

use crate::parts::name_in;
use romfs_format::head::Head;
use romfs_format::read::is_dot_name;
use romfs_held::Held;
use romfs_held::read::head_at;
use std::marker::Model;

/// How many bytes `..` has.
const DOTS: u32 = 2;

/// The members of a directory, in the order of its chain. A clause sees the list of those that are
/// left, so a loop knows which it has passed.
///
/// A step reads the headers up to the next member, and takes no memory.
#[derive(Drop)]
pub struct Members<'a> {
    image: Held<'a>,
    root: u32,
    directory: u32,
    at: u32,
}

impl<'a> Model for Members<'a> {
    ghost use Rattle.std.specs.Prelude.{List};
    ghost use Rattle.romfs_format.specs.declared.head.Head.{Head};

    ghost Value = { List Head };

    ghost use Rattle.romfs_reader.specs.Walks.{IsWalk, members_from};

    ghost view = { λ m. members_from m.image m.directory m.at };

    ghost invariant = { λ m. IsWalk m.image m.root m.at };
}

impl<'a> Members<'a> {
    /// The members of a directory whose chain goes on at `at`.
    pub(crate) fn new(image: &Held<'a>, root: u32, directory: u32, at: u32) -> Members<'a>
        requires { IsWalk image.now root at }
        ensures { result ≡ members_from image.now directory at }
    {
        Members {
            image: image.again(),
            root,
            directory,
            at,
        }
    }
}

impl<'a> Iterator for Members<'a> {
    type Item = Head;

    ghost next_gives = { YieldsFirst (λ left. left) };

    ghost remaining = { item_count (λ left. left) };

    fn next(&mut self) -> Option<Head> {
        match member_from(&self.image, self.root, self.directory, self.at) {
            None => {
                self.at = 0;
                None
            }
            Some(head) => {
                self.at = head.next;
                Some(head)
            }
        }
    }
}

/// Whether a header is passed over in the chain of a directory. Most names are longer than `..`,
/// and need not be found for that.
#[tactic(auto, using(crate::proofs::Named::dotted, crate::proofs::Named::no_dots))]
fn is_passed_over(image: &Held<'_>, root: u32, directory: u32, head: &Head) -> bool
    requires root { root ≡ root_of image.now }
    requires small { length image.now < 2 ^ 32 }
    requires head { head.now ≡ head_of image.now head.now.offset }
    requires inside { IsInside image.now head.now.offset }
    ensures { result ≡ passes_over image.now directory head.now.offset }
{
    if directory == root && head.offset == root {
        return true;
    }
    if head.name_len > DOTS {
        return false;
    }
    is_dot_name(name_in(image, head))
}

/// The first member from a place of a chain on.
fn member_from(image: &Held<'_>, root: u32, directory: u32, mut at: u32) -> Option<Head>
    requires { IsWalk image.now root at }
    ensures { IsNextMember image.now root directory at result }
{
    while at != 0 {
        let head = head_at(image, at);
        if !is_passed_over(image, root, directory, &head) {
            return Some(head);
        }
        at = head.next;
    }
    None
}
