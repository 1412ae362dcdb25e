//! The modules of tests, and what they share.

mod gates;
mod memory;
mod readers;
mod refusing;
mod sample_layouts;
mod stacks;
mod tables;
mod told;
