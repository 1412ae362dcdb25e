//! The key of a name, and the front that names share.
//!
//! The names of a directory, in order, share the front that its first and its last name share. The
//! next eight bytes of a name, taken as a number with the first byte highest, are its key. Keys
//! never fall as names rise. If names share `file-`, `file-000017` has the key "000017" followed by
//! two zeros, and `file-1` the key "1" followed by seven.

ghost use Rattle.std.specs.Prelude.{◌≡◌, slice_index};
ghost use Rattle.layer_names.specs.Keys.{key};

/// The first eight bytes as a number, the first byte highest. Missing bytes are zeros.
pub fn key_of(bytes: &[u8]) -> u64
    ensures { result ≡ key 8 bytes.now }
{
    if bytes.len() >= 8 {
        u64::from_be_bytes([
            bytes[0], bytes[1], bytes[2], bytes[3], bytes[4], bytes[5], bytes[6], bytes[7],
        ])
    } else {
        u64::from_be_bytes([
            byte_at(bytes, 0),
            byte_at(bytes, 1),
            byte_at(bytes, 2),
            byte_at(bytes, 3),
            byte_at(bytes, 4),
            byte_at(bytes, 5),
            byte_at(bytes, 6),
            0,
        ])
    }
}

/// The byte at this place, or 0.
fn byte_at(bytes: &[u8], i: usize) -> u8
    ensures { result ≡ slice_index bytes.now i }
{
    if i < bytes.len() { bytes[i] } else { 0 }
}
