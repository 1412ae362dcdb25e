//! A bound that several functions share.

use std::alloc::Allocator;

/// An allocator that threads may share, each with a copy of its own.
pub trait SharedAllocator: Allocator + Copy + Send + Sync {}

impl<A: Allocator + Copy + Send + Sync> SharedAllocator for A {}
