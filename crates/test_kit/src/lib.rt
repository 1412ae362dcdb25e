//! What the crates of tests share.
//!
//! - `refusing`: an allocator that refuses one request for memory.
//! - `memories`: the memories of a call, and the refusing of each of its requests in turn.
//! - `gates`: gates that hold pieces of work, or count them.
//! - `bytes`: bytes as a dump prints them.
//! - `messages`: requests, and the replies to some of them, as bytes.
//! - `sample_images`: small images.
//! - `long`: a large file, a large directory, and streams whose replies are long.
//! - `script`: streams of requests to the sample image, and the replies to one.
#![tactic(auto)]

pub mod bytes;
pub mod gates;
pub mod long;
pub mod memories;
pub mod messages;
pub mod refusing;
pub mod sample_images;
pub mod script;
