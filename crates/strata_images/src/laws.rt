//! What is held of the images of a line, by what loading and preparing promise.

ghost use Rattle.std.specs.Prelude.{◌≡◌, ◌^◌, ◌<◌, ◌≤◌, ◌⊎◌, ◌↔◌, ℕ, List, [], true, false, length, Some};
ghost use Rattle.romfs_format.specs.Profiles.{asks_sums, reads_attributes};
ghost use Rattle.romfs_format.specs.Rules.{IsSound};
ghost use Rattle.romfs_image.specs.declared.refusal.CheckFault.{CheckFault};
ghost use Rattle.romfs_image.specs.Refusals.{IsRefusal};
ghost use Rattle.devices.specs.Sources.{Source, Shows, sealed};
ghost use Rattle.romfs_seal.specs.declared.digest.Digest.{Digest};
ghost use Rattle.romfs_seal.specs.Twins.{AreForgedIn};
ghost use Rattle.romfs_files.specs.Sealing.{seal_by};
ghost use Rattle.romfs_files.specs.Loaded.{WasGathered};
ghost use Rattle.romfs_files.specs.Opening.{IsHeldWhole, loaded_bytes};
ghost use Rattle.romfs_files.specs.declared.loaded.LoadedImage.{LoadedImage};
ghost use Rattle.reply_model.specs.Readings.{Sourced, AreShown, in_memory};
ghost use Rattle.strata_words.specs.declared.options.Line.{Line};
ghost use Rattle.stack_prepare.specs.declared.refusal.Refusal.{Refusal};
ghost use Rattle.stack_prepare.specs.declared.refusal.Refusal.TheVariants as refused;
ghost use Rattle.stack_prepare.specs.Layers.{AreRefused};
ghost use Rattle.strata_images.specs.Checking.{AreAccepted};
ghost use Rattle.strata_images.specs.Images.{AreEachBy, ArePrepared, AreReadFor, AreReadWhole, HasDigest, IsImageBy, asks_attributes, profile_of, trailers_of};

use std::alloc::Allocator;
use std::os::unix::fs::FileExt;

/// If images are read in full, as with `--whole`, their data are not read from any source: what is
/// promised over their stack is what is promised over a held stack, and a READ is answered with
/// their bytes. Only the data of a stack whose bytes are all held are read from no source.
#[tactic(auto, using(crate::proofs::Opened::read_held, crate::proofs::Opened::whole_held, crate::proofs::Opened::held_whole))]
pub fn whole_images_are_held()
    ensures read { (line : Line) (images : List (List ℕ)) (by : Sourced)
        (p : ArePrepared line images by) → AreReadWhole line p.sources.told →
        by ≡ in_memory by.stack }
    ensures asked { (line : Line) (images : List (List ℕ)) (by : Sourced) → line.whole ≡ true →
        ArePrepared line images by → by ≡ in_memory by.stack }
    ensures held { (line : Line) (images : List (List ℕ)) (by : Sourced) → by.sources ≡ [] →
        ArePrepared line images by → by.stack.whole ≡ true }
{}

/// The data of images that are not read in full are read from one source each, as over a device,
/// and with `--in-files`, if the line does not have `--whole`.
#[tactic(auto, using(crate::proofs::Opened::left_in_files, crate::proofs::Opened::in_their_files))]
pub fn images_stay_in_their_files()
    ensures left { (line : Line) (images : List (List ℕ)) (by : Sourced)
        (p : ArePrepared line images by) → (AreReadWhole line p.sources.told → ⊥) →
        length by.sources ≡ length images }
    ensures said { (line : Line) (images : List (List ℕ)) (by : Sourced) → line.whole ≡ false →
        (line.in_files ≡ true) ⊎ (line.device ≡ true) → ArePrepared line images by →
        length by.sources ≡ length images }
{}

/// What is kept of an image without its data is judged by the rules of a line like any bytes that
/// these show, with attributes and without.
pub fn opened_images_are_judged_as_their_data()
    ensures { (line : Line) (source : Source) (bytes image : List ℕ) →
        Shows source bytes → WasGathered (trailers_of line) source image →
        (IsSound (profile_of line) image ↔ IsSound (profile_of line) bytes)
        × ((fault : CheckFault) → IsRefusal (profile_of line) image fault
        ↔ IsRefusal (profile_of line) bytes fault) }
{}

/// An image held in full, such as one from a pipe, is judged like all bytes of its file, if these
/// are known.
#[tactic(auto, using(crate::proofs::Rules::judged_whole))]
pub fn whole_images_are_judged_as_their_files<F: FileExt, A: Allocator>()
    ensures { (line : Line) (bytes : List ℕ) (image : LoadedImage F A) →
        IsHeldWhole (Some bytes) image →
        (IsSound (profile_of line) (loaded_bytes image) ↔ IsSound (profile_of line) bytes)
        × ((fault : CheckFault) → IsRefusal (profile_of line) (loaded_bytes image) fault
        ↔ IsRefusal (profile_of line) bytes fault) }
{}

/// Under the digests of a line no other images are served, checked or listed: the images that its
/// sources show have these digests, each its own; and an image that is read in full is the one with
/// the digest, unless a read returned, instead of a block, another with its digest. If it is not
/// empty, it is every one with the digest, or such a block or descriptor was met: no premise.
pub fn images_have_their_digests()
    ensures shown { (line : Line) (kept images : List (List ℕ)) (by : Sourced)
        (p : ArePrepared line kept by) → (AreReadWhole line p.sources.told → ⊥) →
        AreShown by.sources images → AreEachBy HasDigest line.digests.items images }
    ensures reported { (line : Line) (kept images : List (List ℕ)) (read : AreReadFor line kept) →
        AreShown read.sources images → AreEachBy HasDigest line.digests.items images }
    ensures read { (digest : Digest) (image bytes : List ℕ) (by : IsImageBy (Some digest) image) →
        Shows (sealed (seal_by digest by.0)) bytes → image ≡ bytes }
    ensures met { (digest : Digest) (image bytes : List ℕ) (by : IsImageBy (Some digest) image) →
        1 ≤ length image → length image < 2 ^ 64 → (has : HasDigest (Some digest) bytes) →
        (image ≡ bytes) ⊎ AreForgedIn (seal_by digest by.0) bytes has.levels 0 image by.1 }
{}

/// A line has one option for sums and two for attributes, and its stack has its owner.
#[tactic(auto, using(crate::proofs::Rules::asks, crate::proofs::Rules::reads))]
pub fn lines_say_their_rules()
    ensures sums { (line : Line) → asks_sums (profile_of line) ≡ line.strict }
    ensures attributes { (line : Line) → reads_attributes (profile_of line) ≡
        asks_attributes line }
    ensures owner { (line : Line) (images : List (List ℕ)) (by : Sourced) →
        ArePrepared line images by → by.stack.owner ≡ line.owner }
{}

/// Images that `check --as-mounted` accepts are refused by a mount that is as strict only for lack
/// of memory.
#[tactic(auto, using(crate::proofs::Rules::mountable))]
pub fn accepted_images_are_mounted()
    ensures { (line mount : Line) (images : List (List ℕ)) (sizes : List ℕ) →
        AreAccepted line images sizes → line.as_mounted ≡ true → mount.strict ≡ line.strict →
        asks_attributes mount ≡ true → 1 ≤ length images → (refusal : Refusal) →
        AreRefused (profile_of mount) images refusal → refusal ≡ refused.Memory }
{}
