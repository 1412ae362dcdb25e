//! The terms on which a stream is served.

ghost use Rattle.std.specs.Prelude.{◌≡◌};
ghost use Rattle.serve_core.specs.Headline.{nodes_counted};

use reply_model::Session;
use reply_pool::Plan;
use stack_prepare::Table;
use std::alloc::Allocator;

/// The nodes whose lookups are counted.
#[derive(Clone, Copy)]
pub enum Counted {
    /// All; their balances take 16 bytes a node.
    AllNodes,
    /// None, and no memory is taken for balances.
    NoNodes,
}

/// The terms on which a stream is served.
#[derive_where(Clone, Copy)]
pub struct Terms<'a, G> {
    /// The session that the stream begins in: in [`Session::LastingFresh`] the client learns that
    /// the tree never changes.
    pub first: Session,
    /// How many workers answer a round, and in which batches.
    pub plan: Plan,
    /// The most pulls of the source.
    pub turns: u64,
    /// The nodes whose lookups are counted.
    pub counted: Counted,
    /// Passed before the first request of each batch is answered, and before each image is checked
    /// and stacked.
    pub gate: &'a G,
}

// How many of the first nodes of a table have their lookups counted.
pub(crate) fn nodes_counted<A: Allocator>(counted: Counted, table: &Table<A>) -> u64
    ensures { result ≡ nodes_counted counted table.now }
{
    match counted {
        Counted::AllNodes => table.len(),
        Counted::NoNodes => 0,
    }
}
