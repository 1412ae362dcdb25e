//! The text of a path, as a listing prints it.

ghost use Rattle.std.specs.Prelude.{◌≡◌, ◌<◌, ◌≤◌, ◌+◌, ◌++◌, ◌∷◌, [], length, take, IfOk, vec_capacity};
ghost use Rattle.node_list.specs.Lines.{hex_digit, escaped, name_text, is_unescaped, printed};
ghost use Rattle.node_list.specs.declared.path_text.TheConstants.{LONGEST};

use romfs_format::limits::{MAX_NAMES, NAME_FIELD_SIZE};
use std::alloc::{AllocError, Allocator};
use std::marker::Model;

/// The most bytes that the printed names of a path take: each follows a slash, and each of its
/// bytes may be escaped.
pub(crate) const LONGEST: usize = MAX_NAMES as usize * (1 + 3 * (NAME_FIELD_SIZE - 1));

/// The printed names of a listing's current path, each after a slash. It has room for the longest
/// path, so it takes no memory after it is made.
#[derive(Drop)]
pub(crate) struct PathText<A: Allocator> {
    text: Vec<u8, A>,
}

impl<A: Allocator> Model for PathText<A> {
    ghost use Rattle.std.specs.Prelude.{List, ℕ, ◌≤◌, vec_capacity};
    ghost use Rattle.node_list.specs.declared.path_text.TheConstants.{LONGEST};

    ghost Value = { List ℕ };

    ghost view = { λ path. path.text.items };

    ghost invariant = { λ path. LONGEST ≤ vec_capacity path.text };
}

impl<A: Allocator> PathText<A> {
    /// The text of the root, which has no names.
    pub(crate) fn new(alloc: A) -> Result<PathText<A>, AllocError>
        ensures { IfOk result (λ path. path ≡ []) }
    {
        Ok(PathText {
            text: Vec::with_capacity(alloc, LONGEST)?,
        })
    }

    /// How many bytes the names take.
    pub(crate) fn len(&self) -> usize
        ensures { result ≡ length self.now }
    {
        self.text.len()
    }

    /// The path as it is printed.
    pub(crate) fn printed(&self) -> &[u8]
        ensures { result.now ≡ printed self.now }
    {
        if self.text.is_empty() {
            b"/"
        } else {
            self.text.as_slice()
        }
    }

    /// Descends to a name. The bytes before the first that is escaped are copied.
    pub(crate) fn go_down(&mut self, name: &[u8])
        requires { length self.old + length (name_text name.now) < LONGEST }
        ensures { self.new ≡ self.old ++ 47 ∷ name_text name.now }
    {
        self.append(b"/");
        let (run, others) = name.split_at(count_unescaped(name));
        self.append(run);
        for byte in others {
            self.append_escaped(*byte);
        }
    }

    /// Ascends to where the names took this many bytes.
    pub(crate) fn go_up(&mut self, len: usize)
        ensures { self.new ≡ take len self.old }
    {
        self.text.truncate(len);
    }

    // Appends bytes.
    fn append(&mut self, bytes: &[u8])
        requires { length self.old + length bytes.now ≤ LONGEST }
        ensures { self.new ≡ self.old ++ bytes.now }
    {
        let Ok(()) = self.text.extend_from_slice(bytes) else {
            unreachable!()
        };
    }

    // Appends a byte of a name.
    fn append_escaped(&mut self, byte: u8)
        requires { length self.old + length (escaped byte) ≤ LONGEST }
        ensures { self.new ≡ self.old ++ escaped byte }
    {
        if is_unescaped(byte) {
            self.append(&[byte]);
        } else {
            self.append(&[b'\\', hex_digit(byte / 16), hex_digit(byte % 16)]);
        }
    }
}

fn hex_digit(n: u8) -> u8
    requires { n < 16 }
    ensures { result ≡ hex_digit n }
{
    if n < 10 { 48 + n } else { 87 + n }
}

// Whether a byte of a name is printed as itself.
fn is_unescaped(byte: u8) -> bool
    ensures { result ≡ is_unescaped byte }
{
    0x21 <= byte && byte <= 0x7e && byte != b'\\'
}

// How many bytes at the front of a name are printed as themselves.
fn count_unescaped(name: &[u8]) -> usize
    ensures bound { result ≤ length name.now }
    ensures same { name_text (take result name.now) ≡ take result name.now }
{
    for (at, byte) in name.iter().enumerate() {
        if !is_unescaped(*byte) {
            return at;
        }
    }
    name.len()
}
