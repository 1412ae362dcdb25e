//! The modules of tests, and what they share.

mod answers;
mod batches;
mod drawing;
mod draws;
mod gates;
mod jobs;
mod memory;
mod plans;
mod tables;
mod threads;
