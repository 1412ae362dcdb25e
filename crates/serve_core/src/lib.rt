//! Serving a stream of FUSE requests over romfs images, from a source to a sink.
//!
//! [`prepare`] checks images, the lowest layer first, and stacks them (`stack_prepare`); [`run`]
//! serves a stream over their table (`serve_loop`, `reply_pool`); [`serve`] is [`prepare`], then
//! [`run`]. For every list of images, request stream, cutting of its pulls and [`Terms`], the bytes
//! written are the definition's replies, one after another; or the images are refused, and no
//! device is called.
//!
//! Calls with `_as` take a profile of rules. [`Serving::run`] serves over a table and the files of
//! its layers, as the program does: the data of a READ are then those that its layer's file may
//! return, or the reply is EIO. [`Serving::run_until`], which all of these call, may end as soon as
//! the session begins. `IsRun` in `serve_loop`'s `specs/Serving` defines what serving promises at
//! each end, and `ServesBetween` in `specs/Headline` what it promises over images. [`laws`] derive
//! from it what each end means, also for the program's calls: images that are prepared and a stream
//! that is then run over them. A stream over a table stops for a [`StreamFault`]. [`Stop`] joins
//! these with the reasons to refuse images, for the calls that take images, and for [`run`].
//!
//! Of an image that stays in its file only what the rules check is held in memory, and data are
//! read from the file. [`kept_laws`] say that what was gathered from images is refused, stacked and
//! answered as the images are: in each byte if the files hold them, and in everything but the data
//! of a READ whatever the files return.
#![tactic(auto)]

pub mod kept_examples;
pub mod kept_laws;
pub mod laws;
mod preparing;
mod running;
mod serving;
pub mod stop;
mod terms;

pub use devices::limits::MAX_TURNS;
pub use devices::{Failed, Sink, Source, Spout, Tap};
pub use draw_board::{FreePass, Gate, Work};
pub use preparing::{prepare, prepare_as};
pub use reply_model::Session;
pub use reply_pool::{Plan, Served};
pub use romfs_format::Profile;
pub use running::{Serving, run};
pub use serve_loop::{Begun, Done, Opening, StreamFault, Until};
pub use serving::{serve, serve_as};
pub use stack_prepare::SharedAllocator;
pub use stop::Stop;
pub use terms::{Counted, Terms};
