//! The lookups that a `FUSE_BATCH_FORGET` forgets.

ghost use Rattle.std.specs.Prelude.{◌≡◌, ◌+◌, ◌*◌, ◌/◌, ◌%◌, ◌≤◌, length, take, min};
ghost use Rattle.fuse_wire.specs.declared.limits.TheConstants.{HEADER_SIZE, MAX_MESSAGE_SIZE, MAX_FORGETS};

use byteorder::{ByteOrder, LittleEndian};

/// The size of a `struct fuse_batch_forget_in`, before its items.
pub(crate) const BATCH_FORGET_IN_SIZE: usize = 8;

/// The size of a `struct fuse_forget_one`.
const FORGET_ONE_SIZE: usize = 16;

/// The offset of `nlookup` in a `struct fuse_forget_one`.
const NLOOKUP: usize = 8;

/// A node, and how many lookups of it are forgotten (linux/fuse.h, `struct fuse_forget_one`).
#[derive(Clone, Copy)]
pub struct Forget {
    /// The node's number.
    pub node: u64,
    /// How many lookups.
    pub nlookup: u64,
}

impl Forget {
    ghost use Rattle.fuse_wire.specs.Requests.{forget_one};

    // The item in these bytes.
    fn read(bytes: &[u8]) -> Self
        requires { 16 ≤ length bytes.now }
        ensures { result ≡ forget_one bytes.now }
    {
        Forget {
            node: LittleEndian::read_u64(bytes),
            nlookup: LittleEndian::read_u64(&bytes[NLOOKUP..]),
        }
    }
}

/// The items of a message, in order: only complete ones, borrowed from it, and at most
/// [`MAX_FORGETS`](crate::limits::MAX_FORGETS).
#[derive(Clone, Copy)]
pub struct Forgets<'a> {
    bytes: &'a [u8],
    ghost whole: { length bytes.now % 16 ≡ 0 },
    ghost few: { length bytes.now ≤ 16 * MAX_FORGETS },
}

impl<'a> Forgets<'a> {
    ghost use Rattle.fuse_wire.specs.Requests.{forgets_of};
    ghost use Rattle.fuse_wire.specs.Reads.{items_of, SplitsFirst};

    // The complete items in the body of a message, at most as many as its count says.
    #[tactic(auto, unfolding(crate::specs::Requests::forgets_of))]
    pub fn read(body: &'a [u8]) -> Self
        requires long { 8 ≤ length body.now }
        requires short { HEADER_SIZE + length body.now ≤ MAX_MESSAGE_SIZE }
        ensures { items_of result ≡ forgets_of body.now }
    {
        let count = LittleEndian::read_u32(body) as usize;
        let bytes = front(&body[BATCH_FORGET_IN_SIZE..], count);
        Forgets { bytes }
    }

    /// How many items are left.
    #[tactic(auto, using(crate::proofs::Items::counted))]
    pub fn len(&self) -> usize
        ensures len { result ≡ length (items_of self.now) }
        ensures few { result ≤ MAX_FORGETS }
    {
        self.bytes.len() / FORGET_ONE_SIZE
    }

    /// The first item and those after it; `None` if there is none.
    #[tactic(auto, using(crate::proofs::Items::first_item))]
    pub fn split_first(self) -> Option<(Forget, Self)>
        ensures { SplitsFirst self.entry result }
    {
        if self.bytes.is_empty() {
            return None;
        }
        let (first, rest) = self.bytes.split_at(FORGET_ONE_SIZE);
        Some((Forget::read(first), Forgets { bytes: rest }))
    }
}

// The first items: this many, or as many as are complete.
fn front(items: &[u8], count: usize) -> &[u8]
    ensures front { result.now ≡ take (16 * min count (length items.now / 16)) items.now }
    ensures whole { length result.now % 16 ≡ 0 }
    ensures short { length result.now ≤ length items.now }
{
    let whole = count.min(items.len() / FORGET_ONE_SIZE);
    &items[..FORGET_ONE_SIZE * whole]
}
