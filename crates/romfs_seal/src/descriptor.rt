//! The descriptor of a file.

ghost use Rattle.std.specs.Prelude.{◌≡◌, ◌≤◌, length, IfOk};
ghost use Rattle.devices.specs.File.{descriptor};

use devices::Algorithm;
use std::alloc::{AllocError, Allocator};

/// The bytes of a descriptor.
const DESCRIPTOR_SIZE: usize = 256;

/// The descriptor of a file of this many bytes with this root hash. Its digest is the file's.
pub fn descriptor_of<A: Allocator>(
    alloc: A,
    algorithm: Algorithm,
    size: u64,
    root: &[u8],
) -> Result<Vec<u8, A>, AllocError>
    requires { length root.now ≤ 64 }
    ensures { IfOk result (λ made. made.items ≡ descriptor algorithm size root.now) }
{
    let mut made = Vec::new(alloc);
    made.extend_from_slice(&[1, algorithm.number(), 12, 0, 0, 0, 0, 0])?;
    made.extend_from_slice(&size.to_le_bytes())?;
    made.extend_from_slice(root)?;
    made.resize(DESCRIPTOR_SIZE, 0)?;
    Ok(made)
}
