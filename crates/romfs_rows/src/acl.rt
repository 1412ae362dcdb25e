//! Access control lists.

ghost use Rattle.std.specs.Prelude.{◌≡◌, ◌+◌, ◌*◌, ◌<◌, ◌≤◌, ◌%◌, ◌^◌, ◌==◌, ◌&&◌, length, nat_lt, if◌then◌else◌, IfSome};
ghost use Rattle.romfs_format.specs.declared.acl.TheConstants.{UNDEFINED_ID};
ghost use Rattle.romfs_format.specs.Below.{holds_below};
ghost use Rattle.romfs_format.specs.Acls.{acl_bits, acl_count, acl_id, acl_key, acl_mode, acl_tag};
ghost use Rattle.romfs_format.specs.Acls.{bits_of, follows, has_tag, has_tags, is_acl, is_acl_entry};
ghost use Rattle.romfs_format.specs.Acls.{little_at, names_nobody, names_one};

use byteorder::{ByteOrder, LittleEndian};
use romfs_format::acl::{GROUP, GROUP_OBJ, MASK, OTHER, UNDEFINED_ID, USER, USER_OBJ, VERSION};
use romfs_format::limits::MAX_ACL_SIZE;

/// Whether a value is an access control list.
pub(crate) fn is_acl(value: &[u8]) -> bool
    ensures { result ≡ is_acl value.now }
{
    value.len() <= MAX_ACL_SIZE
        && value.len() % 8 == 4
        && long_at(value, 0) == VERSION
        && are_entries(value)
        && has_tags(value)
}

/// The permissions in the mode of the file of an access control list.
pub(crate) fn acl_mode(value: &[u8]) -> u32
    ensures { result ≡ acl_mode value.now }
{
    let class = bits_of(value, MASK).or(bits_of(value, GROUP_OBJ));
    bits_of(value, USER_OBJ).unwrap_or(0) * 64
        + class.unwrap_or(0) * 8
        + bits_of(value, OTHER).unwrap_or(0)
}

// How many entries there are.
fn entries_in(value: &[u8]) -> usize
    ensures { result ≡ acl_count value.now }
{
    value.len().saturating_sub(4) / 8
}

// Whether all entries are right.
fn are_entries(value: &[u8]) -> bool
    ensures { result ≡ holds_below (acl_count value.now) (is_acl_entry value.now) }
{
    for number in 0..entries_in(value) {
        if !is_entry(value, number) {
            return false;
        }
    }
    true
}

// Whether an entry is right.
fn is_entry(value: &[u8], number: usize) -> bool
    requires { 8 * number + 12 ≤ length value.now }
    ensures { result ≡ is_acl_entry value.now number }
{
    bits_at(value, number) <= 7
        && names_rightly(tag_at(value, number), id_at(value, number))
        && follows(value, number)
}

// Whether an entry with this tag may name this id.
fn names_rightly(tag: u32, id: u32) -> bool
    ensures { result ≡ (if names_one tag then nat_lt id UNDEFINED_ID
        else names_nobody tag && (id == UNDEFINED_ID)) }
{
    if tag == USER || tag == GROUP {
        id < UNDEFINED_ID
    } else {
        (tag == USER_OBJ || tag == GROUP_OBJ || tag == MASK || tag == OTHER) && id == UNDEFINED_ID
    }
}

// Whether an entry comes after the one before it.
fn follows(value: &[u8], number: usize) -> bool
    requires { 8 * number + 12 ≤ length value.now }
    ensures { result ≡ follows value.now number }
{
    number == 0 || key_at(value, number - 1) < key_at(value, number)
}

// Whether each that must have an entry has one.
fn has_tags(value: &[u8]) -> bool
    ensures { result ≡ has_tags value.now }
{
    has_tag(value, USER_OBJ)
        && has_tag(value, GROUP_OBJ)
        && has_tag(value, OTHER)
        && (has_tag(value, MASK) || !(has_tag(value, USER) || has_tag(value, GROUP)))
}

// Whether there is an entry with a tag.
fn has_tag(value: &[u8], tag: u32) -> bool
    ensures { result ≡ has_tag tag value.now }
{
    bits_of(value, tag).is_some()
}

// What the entry with a tag permits, if there is one.
fn bits_of(value: &[u8], tag: u32) -> Option<u32>
    ensures value { result ≡ bits_of tag value.now }
    ensures small { IfSome result (λ bits. bits < 2 ^ 16) }
{
    let mut found = None;
    for number in 0..entries_in(value) {
        if tag_at(value, number) == tag {
            found = Some(bits_at(value, number));
        }
    }
    found
}

// The key that orders an entry among all.
fn key_at(value: &[u8], number: usize) -> u64
    requires { 8 * number + 12 ≤ length value.now }
    ensures { result ≡ acl_key value.now number }
{
    u64::from(tag_at(value, number)) * 0x1_0000_0000 + u64::from(id_at(value, number))
}

// What an entry is for.
fn tag_at(value: &[u8], number: usize) -> u32
    requires { 8 * number + 12 ≤ length value.now }
    ensures value { result ≡ acl_tag value.now number }
    ensures small { result < 2 ^ 16 }
{
    short_at(value, 8 * number + 4)
}

// What it permits.
fn bits_at(value: &[u8], number: usize) -> u32
    requires { 8 * number + 12 ≤ length value.now }
    ensures value { result ≡ acl_bits value.now number }
    ensures small { result < 2 ^ 16 }
{
    short_at(value, 8 * number + 6)
}

// The user or group that it names.
fn id_at(value: &[u8], number: usize) -> u32
    requires { 8 * number + 12 ≤ length value.now }
    ensures { result ≡ acl_id value.now number }
{
    long_at(value, 8 * number + 8)
}

// The number in the two bytes at a place.
#[tactic(auto, unfolding(romfs_format::specs::Acls::little_at))]
fn short_at(value: &[u8], at: usize) -> u32
    requires { at + 2 ≤ length value.now }
    ensures value { result ≡ little_at 2 value.now at }
    ensures small { result < 2 ^ 16 }
{
    u32::from(LittleEndian::read_u16(&value[at..]))
}

// The number in the four bytes at a place.
#[tactic(auto, unfolding(romfs_format::specs::Acls::little_at))]
fn long_at(value: &[u8], at: usize) -> u32
    requires { at + 4 ≤ length value.now }
    ensures { result ≡ little_at 4 value.now at }
{
    LittleEndian::read_u32(&value[at..])
}
