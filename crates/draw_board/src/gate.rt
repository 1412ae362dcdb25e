//! What workers pass as they begin a piece of work.

/// A kind of work.
#[derive(Clone, Copy)]
pub enum Work {
    /// A layer is checked.
    Check,
    /// A layer's tree is made.
    Tree,
    /// A batch of requests is answered.
    Batch,
}

/// What a worker passes as it begins a piece of work.
pub trait Gate {
    /// Called before the piece of this number, counted from 0. It returns.
    fn pass(&self, work: Work, number: u32);
}

/// Holds nothing.
#[derive(Clone, Copy, Drop)]
pub struct FreePass;

impl Gate for FreePass {
    fn pass(&self, _work: Work, _number: u32) {}
}
