//! The rules of the volume header.

ghost use Rattle.std.specs.Prelude.{◌≡◌, ◌≤◌, ◌%◌, ◌^◌, ◌↔◌, length, IfNone, IsTrue};
ghost use Rattle.romfs_format.specs.declared.limits.TheConstants.{HEAD_SIZE};
ghost use Rattle.romfs_format.specs.Fields.{image, root as root_of, summed, word, word_sum};
ghost use Rattle.romfs_format.specs.Rules.{StartsWith, magic};
ghost use Rattle.romfs_rules.specs.Marks.{IsVolumeImage};
ghost use Rattle.romfs_rules.specs.Volumes.{IsVolumeFault, HoldsRoot};

use romfs_format::head::Kind;
use romfs_format::limits::{HEAD_SIZE, SUMMED_SIZE};
use romfs_format::read::{kind_of, padded};
use romfs_format::rule::{ImageFault, Rule};
use romfs_held::Held;
use romfs_held::read::{starts_with, sum, text_at, word};

/// An image that keeps the rules of the volume header.
#[derive(Drop)]
pub(crate) struct Volume<'v> {
    /// The accessible bytes.
    pub(crate) bytes: &'v Held<'v>,
    /// The place of the root's header.
    pub(crate) root: usize,
    ghost keeps: { IsVolumeImage bytes.now },
    ghost rooted: { root ≡ root_of bytes.now },
}

/// The first rule of the volume header that is broken.
#[tactic(auto, unfolding(romfs_format::specs::Fields::root))]
pub(crate) fn volume_fault(bytes: &Held<'_>) -> Option<ImageFault>
    ensures fault { IsVolumeFault bytes.now result }
    ensures image { IfNone result (IsVolumeImage (image bytes.now)) }
    ensures sound { IfNone result (HoldsRoot bytes.now) }
{
    if bytes.len() < HEAD_SIZE {
        return Some(ImageFault {
            rule: Rule::Short,
            place: 0,
        });
    }
    if !is_magic(bytes) {
        return Some(ImageFault {
            rule: Rule::Magic,
            place: 0,
        });
    }
    let full = word(bytes, 8) as usize;
    if bytes.len() < full || full < HEAD_SIZE {
        return Some(ImageFault {
            rule: Rule::FullSize,
            place: 8,
        });
    }
    let image = image_of(bytes, full);
    if front_sum(&image) != 0 {
        return Some(ImageFault {
            rule: Rule::BadSum,
            place: 12,
        });
    }
    match text_at(&image, HEAD_SIZE) {
        None => Some(ImageFault {
            rule: Rule::VolumeName,
            place: HEAD_SIZE as u32,
        }),
        Some(name) => {
            let root = HEAD_SIZE + padded(name.len() + 1);
            if image.len() < root + HEAD_SIZE || kind_of(word(&image, root)) != Kind::Directory {
                Some(ImageFault {
                    rule: Rule::NoRoot,
                    place: root as u32,
                })
            } else {
                None
            }
        }
    }
}

/// The accessible bytes.
#[tactic(auto, unfolding(romfs_format::specs::Fields::image))]
pub(crate) fn image_of<'a>(bytes: &Held<'a>, full: usize) -> Held<'a>
    requires full { full ≡ word bytes.now 8 }
    requires within { full ≤ length bytes.now }
    ensures value { result ≡ image bytes.now }
    ensures length { length result ≡ full }
{
    bytes.first(full)
}

// The sum of the words that the checksum covers.
fn front_sum(image: &Held<'_>) -> u32
    ensures { result ≡ word_sum (summed image.now) % 2 ^ 32 }
{
    sum(image, 0, SUMMED_SIZE.min(image.len()))
}

// Whether an image begins as each must.
fn is_magic(bytes: &Held<'_>) -> bool
    requires { HEAD_SIZE ≤ length bytes.now }
    ensures { IsTrue result ↔ StartsWith bytes.now magic }
{
    starts_with(bytes, b"-rom1fs-")
}
