//! One image of a table's layers.

ghost use Rattle.std.specs.Prelude.{◌≡◌, ◌<◌, length, true, slice_get, Some, None, MatchOption};
ghost use Rattle.std.specs.List.{slice_index_or};
ghost use Rattle.romfs_reader.specs.Images.{all_whole, bytes_of};

use romfs_reader::{Image, ImageView};
use std::alloc::Allocator;

// The image of a layer, borrowed.
pub(crate) fn view_at<A: Allocator>(images: &[Image<A>], layer: usize) -> Option<ImageView<'_>>
    ensures { MatchOption result (slice_get (bytes_of images.now) layer ≡ None)
        (λ view. slice_get (bytes_of images.now) layer ≡ Some view) }
{
    Some(images.get(layer)?.view())
}

// The image of a layer, if all are held in full.
pub(crate) fn image_at<A: Allocator>(images: &[Image<A>], layer: usize) -> &Image<A>
    requires whole { all_whole images.now ≡ true }
    requires there { layer < length (bytes_of images.now) }
    ensures bytes { result.now.bytes
        ≡ slice_index_or (bytes_of images.now) layer result.now.bytes }
    ensures whole { result.now.whole ≡ true }
{
    &images[layer]
}
