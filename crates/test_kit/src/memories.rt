//! The memories of a call, and a call repeated with each of its requests refused in turn.

use crate::refusing::Refusing;
use std::alloc::Global;

/// The memories of a call, one of whose requests is refused, or none.
#[derive(Drop)]
pub struct Memories {
    /// For the test itself.
    pub global: Global,
    /// For what precedes the call: it refuses nothing.
    pub plain: Refusing<Global>,
    /// For the call.
    pub refusing: Refusing<Global>,
    /// The number of the request that `refusing` refuses, counted from 1; 0 for none.
    pub refuse_at: u64,
}

impl Memories {
    /// The call's request with the number `refuse_at` is refused, or none at 0.
    pub fn new(global: Global, refuse_at: u64) -> Self {
        Self {
            global,
            plain: Refusing::new(global, 0),
            refusing: Refusing::new(global, refuse_at),
            refuse_at,
        }
    }
}

/// Makes a call with its first request for memory refused, then with the second, and so on, until
/// it makes fewer requests than that. The call returns whether its result was right. Returns how
/// many requests it makes, or otherwise the number of the first whose refusal gave another result.
pub fn refuse_in_turn<F: FnMut(&Memories) -> bool>(global: Global, mut call: F) -> Result<u64, u64>
    requires { F.IsAlwaysCallable call }
{
    for refuse_at in 1..1000 {
        let memories = Memories::new(global, refuse_at);
        if !call(&memories) {
            return Err(refuse_at);
        }
        if !memories.refusing.refused() {
            return Ok(refuse_at - 1);
        }
    }
    Err(1000)
}
