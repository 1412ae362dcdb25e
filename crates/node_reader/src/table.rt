//! The table of a stack.

ghost use Rattle.std.specs.Prelude.{◌≡◌, ◌<◌, ◌+◌, ◌^◌, [], length, true, slice_get, Some, None, MatchOption, IfOk, IfSome};
ghost use Rattle.std.specs.List.{AllByRecursion};
ghost use Rattle.romfs_reader.specs.Images.{IsImage, all_whole, bytes_of};
ghost use Rattle.stack_model.specs.Listing.{IsListing};
ghost use Rattle.stack_model.specs.Numbers.{nodes};
ghost use Rattle.romfs_format.specs.Extended.{is_list};
ghost use Rattle.stack_model.specs.Attributes.{blocks_all, has_acls, has_xattrs};
ghost use Rattle.node_reader.specs.Stacked.{Listed, listed_once, IsTableWith};
ghost use Rattle.node_reader.specs.Held.{IsSomeTable};
ghost use Rattle.node_reader.specs.Readers.{TellsNode, attr_at, parent_at, child_at, rows_at, data_of_number, xattrs_at};

use crate::attributes::{Attributes, briefs_of};
use crate::directory::{Directories, Directory};
use crate::guess::Guess;
use crate::layer::{image_at, view_at};
use crate::lookup::{Hints, attr_of, directory_at, hints_of, node_at, numbered, place_of};
use crate::node::{Brief, Node};
use crate::row::Row;
use crate::stamped_rows::StampedRows;
use crate::xattrs::NodeXattrs;
use romfs_reader::{Image, ImageView};
use romfs_rows::FileXattrs;
use stack_model::{Attr, Owner};
use std::alloc::{AllocError, Allocator, Global};
use std::marker::Model;

/// The nodes of a stack of layers, by number: attributes, rows and data.
///
/// A contract sees the layers, their listing, the layers' rows of attributes and lists of extended
/// attributes, the owner of nodes without a row, and whether the images are held in full.
///
/// Each node and row takes at most 113 bytes besides a name of more than 22 (16 of them for guesses
/// of places), and a directory 32 more. If any layer has a row of attributes, each node takes 20
/// more. If any layer has lists of extended attributes, each node takes 4 more, each row of a layer
/// with lists 4 more, and the lists what they take in the image. No reader takes memory, and each
/// answers for every number: 1 is the root, and a number that is not in use has nothing.
///
/// ```text
/// if let Some(number) = table.child(1, b"etc") {
///     for row in table.rows(number) {
///         show(row.name(), table.attr(row.number));
///     }
/// }
/// ```
///
/// All nodes are in one vector, by their numbers, and all rows in another, those of a directory
/// together. Beside each row is the key by which its name is found (`layer_names`) if no guess
/// finds it. A node keeps the place of its data, so no answer parses a header; only a directory
/// keeps more: the place of its rows, and its parent. Attributes are also in a list of their own,
/// since most requests need nothing else of a node; owners and times are in another, if any layer
/// has a row of attributes. Rows are searched once, when the table is made.
#[derive(Drop)]
pub struct Table<A: Allocator> {
    // The images of the layers, the lowest first.
    layers: Vec<Image<A>, A>,
    nodes: Vec<Node, A>,
    // The attributes of the nodes, in the same order.
    briefs: Vec<Brief, A>,
    // The stamps of the nodes, in the same order; for clauses the rows of attributes of each layer.
    rows: StampedRows<A>,
    xattrs: NodeXattrs<A>,
    owner: Owner,
    directories: Directories<A>,
    hints: Hints<A>,
    blocks: u64,
    ghost listing: { Listed (bytes_of layers.items) } by { listed_once (bytes_of layers.items) },
}

const _: () = prove!(size_of::<Node>() <= 40);

const _: () = prove!(size_of::<Brief>() <= 16);

const _: () = prove!(size_of::<Node>() + size_of::<Row<Global>>() + size_of::<u64>() <= 80);

const _: () = prove!(size_of::<Directory>() <= 32);

impl<A: Allocator> Model for Table<A> {
    ghost use Rattle.romfs_reader.specs.Images.{all_whole, bytes_of};
    ghost use Rattle.stack_model.specs.Listing.{Stacked};
    ghost use Rattle.node_reader.specs.Held.{IsHeld};

    ghost Value = { Stacked };

    ghost view = { λ held. record {
      layers = bytes_of held.layers.items;
      entries = held.listing.0;
      rows = held.rows.rows;
      lists = held.xattrs.lists;
      owner = held.owner;
      whole = all_whole held.layers.items;
    } };

    ghost invariant = { λ held.
        IsHeld
        (record {
          layers = bytes_of held.layers.items;
          entries = held.listing.0;
          rows = held.rows.rows;
          lists = held.xattrs.lists;
          owner = held.owner;
          whole = all_whole held.layers.items;
        })
        held.nodes.items held.briefs.items held.rows.stamps held.xattrs held.directories
        held.hints.filter held.blocks };
}

impl<A: Allocator + Copy> Table<A> {
    /// The table of images, lowest layer first, from their nodes and directories, and from what is
    /// known besides their headers. It fails only if memory is refused.
    pub fn of_parts(
        alloc: A,
        layers: Vec<Image<A>, A>,
        nodes: Vec<Node, A>,
        directories: Directories<A>,
        blocks: u64,
        attributes: Attributes<A>,
    ) -> Result<Self, AllocError>
        requires { IsSomeTable (bytes_of layers.items) nodes.items directories blocks }
        ensures stack { IfOk result (λ table. IsTableWith (bytes_of layers.items)
            attributes.rows.items attributes.lists.items attributes.owner table) }
        ensures whole { IfOk result (λ table. table.whole ≡ all_whole layers.items) }
    {
        let hints = hints_of(alloc, &nodes, &directories)?;
        let Attributes { rows, lists, owner } = attributes;
        let briefs = briefs_of(alloc, &nodes, &rows)?;
        let stamped = StampedRows::of(alloc, &rows, &nodes, owner)?;
        let xattrs = NodeXattrs::of(alloc, lists, &rows, &nodes)?;
        Ok(Table {
            layers,
            nodes,
            briefs,
            rows: stamped,
            xattrs,
            owner,
            directories,
            hints,
            blocks,
        })
    }
}

impl<A: Allocator> Table<A> {
    /// How many nodes there are. Their numbers begin at 1.
    pub fn len(&self) -> u64
        ensures value { result ≡ length (nodes self.now.entries) }
        ensures listing { IsListing self.now.layers self.now.entries }
        ensures sound { AllByRecursion IsImage self.now.layers }
    {
        self.nodes.len() as u64
    }

    /// How many layers there are.
    pub fn layer_count(&self) -> usize
        ensures { result ≡ length self.now.layers }
    {
        self.layers.len()
    }

    /// The image of a layer, borrowed; none if there is no such layer.
    pub fn view(&self, layer: usize) -> Option<ImageView<'_>>
        ensures { MatchOption result (slice_get self.now.layers layer ≡ None)
            (λ view. slice_get self.now.layers layer ≡ Some view) }
    {
        view_at(&self.layers, layer)
    }

    /// The node of a number; none if the number is not in use.
    pub fn node(&self, number: u64) -> Option<&Node>
        ensures { TellsNode self.now number result }
    {
        node_at(&self.nodes, number)
    }

    /// The number of the child with this name in a directory; none if the number is not that of a
    /// directory with such a child. Names compare byte by byte, and neither `.` nor `..` is a
    /// child.
    ///
    /// If the row is guessed, it reads one row, or few. Otherwise it takes as many steps over the
    /// keys of the directory's rows as their number has binary digits, and if many names have one
    /// key at most as many again over these names.
    #[inline(always)]
    pub fn child(&self, number: u64, name: &[u8]) -> Option<u64>
        ensures { result ≡ child_at self.now number name.now }
    {
        self.child_guessed(number, name, Guess::Unknown)
    }

    /// The same with an earlier [`guess`](Table::guess). Every guess gives the same child; with a
    /// right one no other row is read.
    #[inline(always)]
    pub fn child_guessed(&self, number: u64, name: &[u8], guess: Guess) -> Option<u64>
        ensures { result ≡ child_at self.now number name.now }
    {
        let directory = directory_at(&self.nodes, &self.directories, number)?;
        let rows = self.directories.rows_of(directory);
        let keys = self.directories.keys_of(directory);
        let at = place_of(rows, keys, &self.hints, number, directory, name, guess)?;
        let row = &rows[at];
        Some(row.number)
    }

    /// Reads ahead what [`guess`](Table::guess) reads for these hashes. The result is meaningless.
    pub fn read_guesses(&self, hashes: &[u64]) -> u32 {
        self.hints.guesses.read_ahead(hashes)
    }

    /// Where the row of a directory's child may be among all rows, by the [`hash`](crate::hashed)
    /// of the directory's number and the child's name. It is a guess for reading ahead: no answer
    /// depends on it.
    pub fn guess(&self, hash: u64) -> Option<usize> {
        self.hints.guesses.first(hash)
    }

    /// The row at a guessed place among all rows; none after the last.
    pub fn guessed(&self, place: usize) -> Option<&Row<A>> {
        self.directories.rows.get(place)
    }

    /// The children of a directory in the order of their names, without `.` and `..`; empty if the
    /// number is not a directory's.
    #[inline(always)]
    pub fn rows(&self, number: u64) -> &[Row<A>]
        ensures { result.now ≡ rows_at self.now number }
    {
        match directory_at(&self.nodes, &self.directories, number) {
            Some(directory) => self.directories.rows_of(directory),
            None => &[],
        }
    }

    /// The number of a directory's parent; the root is its own parent. None if the number is not a
    /// directory's.
    #[inline(always)]
    pub fn parent(&self, number: u64) -> Option<u64>
        ensures { result ≡ parent_at self.now number }
    {
        let directory = directory_at(&self.nodes, &self.directories, number)?;
        Some(directory.parent)
    }

    /// The attributes of a node; none if the number is not in use.
    #[inline(always)]
    pub fn attr(&self, number: u64) -> Option<Attr>
        ensures { result ≡ attr_at self.now number }
    {
        let brief = numbered(&self.briefs, number)?;
        let stamp = self.rows.stamp(number, self.owner);
        Some(attr_of(number, brief, stamp))
    }

    /// The extended attributes of a node; none if it has none, or if the number is not in use.
    pub fn xattrs(&self, number: u64) -> Option<FileXattrs<'_>>
        ensures value { MatchOption result (xattrs_at self.now number ≡ [])
            (λ found. xattrs_at self.now number ≡ found) }
        ensures right { IfSome result (λ found. is_list found ≡ true) }
    {
        match node_at(&self.nodes, number) {
            Some(node) => self.xattrs.of_node(number, node),
            None => None,
        }
    }

    /// Whether any node has an extended attribute.
    #[inline(always)]
    pub fn has_xattrs(&self) -> bool
        ensures { result ≡ has_xattrs self.now }
    {
        self.xattrs.has_some()
    }

    /// Whether any node has an access control list.
    #[inline(always)]
    pub fn has_acls(&self) -> bool
        ensures { result ≡ has_acls self.now }
    {
        self.xattrs.has_acls()
    }

    /// The data of a regular file, or the target of a symbolic link; empty for any other number.
    /// Their length fits in a reply's header. It requires images held in full.
    pub fn bytes(&self, number: u64) -> &[u8]
        requires { self.now.whole ≡ true }
        ensures value { result.now ≡ data_of_number self.now number }
        ensures short { 16 + length result.now < 2 ^ 32 }
    {
        match node_at(&self.nodes, number) {
            Some(node) => {
                let image = image_at(&self.layers, node.place.layer as usize);
                image.part(node.part)
            }
            None => &[],
        }
    }

    /// The full sizes of all layers in blocks of 512 bytes, each rounded up, then summed.
    pub fn blocks_all(&self) -> u64
        ensures { result ≡ blocks_all self.now.layers }
    {
        self.blocks
    }
}
