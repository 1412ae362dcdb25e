//! What an image may break.

ghost use Rattle.std.specs.Prelude.{◌≡◌};
ghost use Rattle.romfs_format.specs.Profiles.{asks_sums, profile_with, reads_attributes};
ghost use Rattle.romfs_format.specs.Texts.{text_of};

use std::fmt;

/// A rule that every image keeps, in the order in which rules are named if several are broken: the
/// rules of the volume header one by one, then all rules of file headers by place, then the depth,
/// then the attributes.
#[derive(Clone, Copy, Debug, PartialEq, Eq)]
pub enum Rule {
    /// The image has 16 bytes or more.
    Short,
    /// It begins with `-rom1fs-`.
    Magic,
    /// The full size is 16 or more, and no more than there are bytes.
    FullSize,
    /// The words of the first [`SUMMED_SIZE`](crate::limits::SUMMED_SIZE) bytes sum to 0.
    BadSum,
    /// The volume name ends, and its padding lies within the full size.
    VolumeName,
    /// A directory's header follows the volume name.
    NoRoot,
    /// A header that is reached lies between the root's and the end.
    Outside,
    /// A header that is reached has a name that ends within the image.
    NameOpen,
    /// A member's name is not empty and holds no `/`.
    NameBad,
    /// The data of a regular file or link lies within the image.
    DataOutside,
    /// A link's target has at most [`MAX_TARGET_SIZE`](crate::limits::MAX_TARGET_SIZE) bytes.
    TargetLong,
    /// A header is named by one link alone, and the root's by no other directory's chain.
    LinkedTwice,
    /// A directory holds a name once.
    SameName,
    /// A hard link leads to something that is not a hard link.
    LinkLoop,
    /// A hard link leads to no directory.
    LinkDirectory,
    /// A device's major number is at most [`MAX_MAJOR`](crate::limits::MAX_MAJOR).
    MajorLarge,
    /// The words of a header that is reached, with its name and padding, sum to 0. Only the strict
    /// profile requires it.
    HeaderSum,
    /// A path has at most [`MAX_NAMES`](crate::limits::MAX_NAMES) names.
    TooDeep,
    /// An attribute trailer after the full size is complete, its words sum to 0, and its rows rise
    /// by offset and hold nothing out of range. Only a profile with attributes requires it.
    Attributes,
}

/// Which rules an image must keep, and whether its attribute trailer is read. The strict profiles
/// require [`Rule::HeaderSum`], those with attributes [`Rule::Attributes`], and all profiles all
/// other rules.
#[derive(Clone, Copy, PartialEq, Eq)]
pub enum Profile {
    /// Header sums are ignored, as Linux does.
    Usual,
    Strict,
    UsualWithAttributes,
    StrictWithAttributes,
}

/// The rule that an image breaks, and where.
#[derive(Clone, Copy, Debug, PartialEq, Eq)]
pub struct ImageFault {
    pub rule: Rule,
    /// The place that the fault is named at, an offset in bytes.
    pub place: u32,
}

impl Profile {
    /// The profile that requires header sums or not, and reads attributes or not.
    pub fn with(sums: bool, attributes: bool) -> Profile
        ensures { result ≡ profile_with sums attributes }
    {
        match (sums, attributes) {
            (false, false) => Profile::Usual,
            (true, false) => Profile::Strict,
            (false, true) => Profile::UsualWithAttributes,
            (true, true) => Profile::StrictWithAttributes,
        }
    }

    /// Whether it requires that the words of each header sum to 0.
    pub fn asks_sums(self) -> bool
        ensures { result ≡ asks_sums self }
    {
        match self {
            Profile::Usual | Profile::UsualWithAttributes => false,
            Profile::Strict | Profile::StrictWithAttributes => true,
        }
    }

    /// Whether it reads the attribute trailer.
    pub fn reads_attributes(self) -> bool
        ensures { result ≡ reads_attributes self }
    {
        match self {
            Profile::Usual | Profile::Strict => false,
            Profile::UsualWithAttributes | Profile::StrictWithAttributes => true,
        }
    }
}

impl Rule {
    // What its line says.
    fn text(&self) -> &'static str
        ensures { result.now ≡ text_of self.now }
    {
        match self {
            Rule::Short => "too short",
            Rule::Magic => "not romfs",
            Rule::FullSize => "bad full size",
            Rule::BadSum => "bad sum",
            Rule::VolumeName => "bad volume name",
            Rule::NoRoot => "no root",
            Rule::Outside => "header outside",
            Rule::NameOpen => "name not ended",
            Rule::NameBad => "bad name",
            Rule::DataOutside => "data outside",
            Rule::TargetLong => "target too long",
            Rule::LinkedTwice => "linked twice",
            Rule::SameName => "name twice",
            Rule::LinkLoop => "link loop",
            Rule::LinkDirectory => "link to directory",
            Rule::MajorLarge => "major too large",
            Rule::HeaderSum => "bad header sum",
            Rule::TooDeep => "too deep",
            Rule::Attributes => "bad attributes",
        }
    }
}

impl fmt::Display for Rule {
    ghost use Rattle.std.specs.Prelude.{Some};

    ghost output = { λ rule. Some (text_of rule) };

    fn fmt<W: fmt::Write>(&self, f: &mut fmt::Formatter<W>) -> fmt::Result {
        f.write_str(self.text())
    }
}
