//! Fields that are set over existing bytes, from a place on. Each function returns the place after
//! its field; its contract says that the bytes before that place are those before the field,
//! followed by the field. Numbers are little-endian.

ghost use Rattle.std.specs.Prelude.{◌≡◌, ◌+◌, ◌≤◌, ◌++◌, length, take};
ghost use Rattle.fuse_wire.specs.Structures.{u16, u32, u64, zeros};

// A number of 16 bits.
#[tactic(auto, unfolding(crate::specs::Structures::u16))]
#[inline(always)]
pub fn set_u16(fields: &mut [u8], at: usize, number: u16) -> usize
    requires { at + 2 ≤ length fields.old }
    ensures fields { take result fields.new ≡ take at fields.old ++ u16 number }
    ensures size { length fields.new ≡ length fields.old }
    ensures end { result ≡ at + 2 }
{
    set_bytes(fields, at, &number.to_le_bytes())
}

// A number of 32 bits.
#[tactic(auto, unfolding(crate::specs::Structures::u32))]
#[inline(always)]
pub fn set_u32(fields: &mut [u8], at: usize, number: u32) -> usize
    requires { at + 4 ≤ length fields.old }
    ensures fields { take result fields.new ≡ take at fields.old ++ u32 number }
    ensures size { length fields.new ≡ length fields.old }
    ensures end { result ≡ at + 4 }
{
    set_bytes(fields, at, &number.to_le_bytes())
}

// A number of 64 bits.
#[tactic(auto, unfolding(crate::specs::Structures::u64))]
#[inline(always)]
pub fn set_u64(fields: &mut [u8], at: usize, number: u64) -> usize
    requires { at + 8 ≤ length fields.old }
    ensures fields { take result fields.new ≡ take at fields.old ++ u64 number }
    ensures size { length fields.new ≡ length fields.old }
    ensures end { result ≡ at + 8 }
{
    set_bytes(fields, at, &number.to_le_bytes())
}

// Fields that are not used.
#[tactic(auto, unfolding(crate::specs::Structures::zeros))]
#[inline(always)]
pub fn set_zeros<const N: usize>(fields: &mut [u8], at: usize) -> usize
    requires { at + N ≤ length fields.old }
    ensures fields { take result fields.new ≡ take at fields.old ++ zeros N }
    ensures size { length fields.new ≡ length fields.old }
    ensures end { result ≡ at + N }
{
    set_bytes(fields, at, &[0; N])
}

// Bytes of other fields.
#[inline(always)]
pub fn set_bytes(fields: &mut [u8], at: usize, bytes: &[u8]) -> usize
    requires { at + length bytes.now ≤ length fields.old }
    ensures fields { take result fields.new ≡ take at fields.old ++ bytes.now }
    ensures size { length fields.new ≡ length fields.old }
    ensures end { result ≡ at + length bytes.now }
{
    let end = at + bytes.len();
    fields[at..end].copy_from_slice(bytes);
    end
}
