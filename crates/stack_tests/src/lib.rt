//! The tests of images, trees and tables for what no command line shows and no contract says.
//!
//! What `romfs_image::sample` lays out (`sample_layouts`), what is read from checked images
//! (`readers`), what small stacks show and cut, in any order of laying (`stacks`, and `told` as
//! text), one layer's tree that waits until another's has begun (`gates`), names without a child
//! and numbers that are not in use (`tables`), each request for memory refused in turn, in any
//! thread (`memory`), and which request the tests' allocator refuses (`refusing`). They are one
//! crate, since loading the crates below takes longer than proving them.
#![tactic(auto)]

#[cfg(test)]
mod tests;
