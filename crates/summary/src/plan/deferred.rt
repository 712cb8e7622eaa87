//! The deferred object that begins in each region at its new address.

ghost use Rattle.std.specs.Prelude.{◌≡◌, ℕ, ◌+◌, ◌<◌, ◌≤◌, nat_lt, IfOk};
ghost use Rattle.std.specs.List.{prefix_len};
ghost use Rattle.object_heap.specs.HeapImage.{heap_words, region_words, region_count, start_of};
ghost use Rattle.summary.specs.LiveObjects.{object_count, object_at, ArePlacedBelow};
ghost use Rattle.summary.specs.NewAddresses.{new_address};
ghost use Rattle.summary.specs.RegionData.{deferred};
ghost use Rattle.summary.specs.Plan.{AreDeferred, place_in};

use super::redirections::Redirections;
use mark_bitmap::{Listed, Marks};
use std::alloc::{AllocError, Global};

/// For each region, the place in it where the new words of a deferred object begin, counted from 1; 0 for none.
///
/// Makes one pass over the live list and the regions, which is too little work for a second thread to pay.
pub(crate) fn deferred_places(
    alloc: Global,
    image: &Listed<'_>,
    marks: &Marks,
    redirections: &Redirections,
) -> Result<Vec<u32>, AllocError>
    requires marks { marks.now ≡ image.now }
    requires redirections { redirections.now ≡ image.now }
    ensures { IfOk result (λ places. AreDeferred image.now places.items) }
{
    let region_words = image.region_words();
    let mut places = Vec::with_capacity(alloc, image.regions() as usize)?;
    let mut placed = 0;
    for d in 0..image.regions() {
        let end = (u64::from(d) + 1) * region_words;
        placed = placed_below(image, redirections, end, placed);
        places.push(deferred_in(image, marks, redirections, d, placed))?;
    }
    Ok(places)
}

/// The place in region `d`, counted from 1, where the new words of a deferred object begin, or 0 for none. `placed` objects
/// have a new address below the region's end, and only the last of them can cross that end.
fn deferred_in(
    image: &Listed<'_>,
    marks: &Marks,
    redirections: &Redirections,
    d: u32,
    placed: usize,
) -> u32
    requires marks { marks.now ≡ image.now }
    requires redirections { redirections.now ≡ image.now }
    requires inside { d < region_count image.now }
    requires placed { ArePlacedBelow image.now (start_of image.now d + region_words image.now) placed }
    ensures { result ≡ place_in image.now d (deferred image.now d) }
{
    let region_words = image.region_words();
    let start = u64::from(d) * region_words;
    let end = start + region_words;
    if placed == 0 {
        return 0;
    }
    let a = image.live()[placed - 1];
    let to = redirections.new_address(a);
    if start <= to && end < to + marks.size_at(a) {
        (to - start + 1) as u32
    } else {
        0
    }
}

/// The number of live objects with a new address below `limit`. They are the first ones, since objects keep their order;
/// the first `from` are known to be among them.
///
/// No object moves farther down than a later one. So if an object goes `n` words below the limit, all objects that begin
/// within the next `n` words go below it too and are skipped.
fn placed_below(image: &Listed<'_>, redirections: &Redirections, limit: u64, from: usize) -> usize
    requires redirections { redirections.now ≡ image.now }
    requires inside { limit ≤ heap_words image.now }
    requires within { from ≤ object_count image.now }
    requires known { (i : ℕ) → i < from → new_address image.now (object_at image.now i) < limit }
    ensures { ArePlacedBelow image.now limit result }
{
    let live = image.live();
    let mut placed = from;
    while placed < live.len() {
        let a = live[placed];
        let to = redirections.new_address(a);
        if limit <= to {
            break;
        }
        placed += front_below(&live[placed..], a + (limit - to));
    }
    placed
}

/// The number of addresses at the front of a list that lie below a limit.
fn front_below(live: &[u64], limit: u64) -> usize
    ensures { result ≡ prefix_len (λ a. nat_lt a limit) live.now }
{
    live.iter().take_while(|a| **a < limit).count()
}
