//! The modules of tests, and what they share.

mod attributes;
mod clients;
mod failing;
mod memory;
mod messages;
mod plans;
mod program;
mod replies;
mod serving;
