//! How much of an image is live.
ghost use Rattle.std.specs.Prelude.{◌≡◌, ℕ, List, sum_by};
ghost use Rattle.object_heap.specs.HeapImage.{heap_words, size_at};
ghost use Rattle.heap_dump.specs.Totals.{held};

use command_times::LiveShare;
use heap_image::Image;
use heap_image::header::size;

/// The words of an image, and those of its live objects.
pub(crate) fn live_share(image: &Image) -> LiveShare
    ensures words { result.words ≡ heap_words image.now }
    ensures live { result.live_words ≡ held (sum_by (size_at image.now) image.now.live) }
{
    LiveShare {
        words: image.len(),
        live_words: live_words(image),
    }
}

/// The words of the live objects, or [`u64::MAX`].
fn live_words(image: &Image) -> u64
    ensures { result ≡ held (sum_by (size_at image.now) image.now.live) }
{
    let mut words = 0u64;
    for a in image.live() {
        let header = image.word(*a);
        words = words.saturating_add(u64::from(size(header)));
    }
    words
}
