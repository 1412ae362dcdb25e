//! Names and values of extended attributes.

ghost use Rattle.std.specs.Prelude.{◌≡◌, ◌&&◌, ◌||◌, bytes_eq, not, if◌then◌else◌};
ghost use Rattle.romfs_format.specs.Extended.{capability_name, has_revision, is_acl_name, is_capability};
ghost use Rattle.romfs_format.specs.Acls.{is_acl};
ghost use Rattle.romfs_format.specs.Extended.{is_extended, is_overlay_name, is_xattr_name};

use crate::acl::is_acl;
use romfs_format::limits::{MAX_XATTR_NAME_SIZE, MAX_XATTR_SIZE};
use romfs_format::read::ended;

/// Whether a file may have an attribute of this name and value.
pub(crate) fn is_extended(name: &[u8], value: &[u8]) -> bool
    ensures { result ≡ is_extended (record { name = name.now; value = value.now }) }
{
    is_xattr_name(name) && value.len() <= MAX_XATTR_SIZE && is_value(name, value)
}

// Whether an attribute of this name may have this value.
fn is_value(name: &[u8], value: &[u8]) -> bool
    ensures { result ≡ (if is_acl_name name.now then is_acl value.now
        else not (bytes_eq name.now capability_name) || is_capability value.now) }
{
    if is_acl_name(name) {
        is_acl(value)
    } else {
        !is_capability_name(name) || is_capability(value)
    }
}

// Whether an attribute may have this name.
fn is_xattr_name(name: &[u8]) -> bool
    ensures { result ≡ is_xattr_name name.now }
{
    1 <= name.len()
        && name.len() <= MAX_XATTR_NAME_SIZE
        && ended(name).is_none()
        && !is_overlay_name(name)
}

/// Whether a name is that of an access control list.
#[tactic(auto, unfolding(romfs_format::specs::Extended::access_name, romfs_format::specs::Extended::default_name))]
pub fn is_acl_name(name: &[u8]) -> bool
    ensures { result ≡ is_acl_name name.now }
{
    name == b"system.posix_acl_access".as_slice() || name == b"system.posix_acl_default".as_slice()
}

// Whether a name is that of a file's capabilities.
#[tactic(auto, unfolding(romfs_format::specs::Extended::capability_name))]
fn is_capability_name(name: &[u8]) -> bool
    ensures { result ≡ bytes_eq name.now capability_name }
{
    name == b"security.capability".as_slice()
}

// Whether a name is one that an overlay takes for its own.
#[tactic(auto, unfolding(romfs_format::specs::Extended::is_overlay_name))]
fn is_overlay_name(name: &[u8]) -> bool
    ensures { result ≡ is_overlay_name name.now }
{
    name.starts_with(b"trusted.overlay.") || name.starts_with(b"user.overlay.")
}

// Whether a value is that of a file's capabilities.
#[tactic(auto, unfolding(romfs_format::specs::Extended::is_capability))]
fn is_capability(value: &[u8]) -> bool
    ensures { result ≡ is_capability value.now }
{
    (value.len() == 20 && has_revision(value, 2)) || (value.len() == 24 && has_revision(value, 3))
}

// Whether a value begins with this revision of capabilities.
fn has_revision(value: &[u8], revision: u8) -> bool
    ensures { result ≡ has_revision value.now revision }
{
    value.starts_with(&[0, 0, 0, revision]) || value.starts_with(&[1, 0, 0, revision])
}
