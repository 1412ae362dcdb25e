//! How often a device is called.

use std::alloc::Global;
use test_kit::refusing::Refusing;

/// How often a device is called, and how often after memory was refused.
#[derive(Drop)]
pub struct Calls<'a> {
    pub made: u64,
    pub late: u64,
    watched: Option<&'a Refusing<Global>>,
}

impl<'a> Calls<'a> {
    /// No calls yet. The memory of `watched` is watched.
    pub fn new(watched: Option<&'a Refusing<Global>>) -> Self {
        Calls {
            made: 0,
            late: 0,
            watched,
        }
    }

    pub fn count(&mut self) {
        self.made = self.made.saturating_add(1);
        if let Some(memory) = self.watched
            && memory.refused()
        {
            self.late = self.late.saturating_add(1);
        }
    }
}
