//! The modules of tests, and what they share.

mod failing;
mod frames;
mod gates;
mod layers;
mod memory;
mod readers;
mod reading;
mod refused_workers;
mod room;
mod streams;
mod workers;
mod writers;
