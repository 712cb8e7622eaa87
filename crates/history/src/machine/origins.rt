//! The old addresses of the words that go to new addresses.

ghost use Rattle.std.specs.Prelude.{◌≡◌, ◌<◌, ◌≤◌, false, IfOk};
ghost use Rattle.object_heap.specs.HeapImage.{heap_words, is_live_word};
ghost use Rattle.summary.specs.NewAddresses.{prefix_end};
ghost use Rattle.summary.specs.Fillers.{filler_word, may_begin_filler};
ghost use Rattle.history.specs.Carrier.{AreOrigins};

use heap_image::header;
use mark_bitmap::{Marks, marked_image_is_valid};
use std::alloc::{AllocError, Global};
use summary::laws::plan_laws;
use summary::{FILLER_STRIDE, Plan, filler_limit};

/// The old addresses of the words that go to the new addresses from the prefix end up to the new top.
pub(crate) fn origins_of(alloc: Global, plan: &Plan, marks: &Marks) -> Result<Vec<u64>, AllocError>
    requires { marks.now ≡ plan.now }
    ensures { IfOk result (λ origins. AreOrigins plan.now origins.items) }
{
    plan_laws();
    let mut origins = Vec::new(alloc);
    let mut from = plan.prefix_end();
    while let Some(q) = marks.next_live(from) {
        origins.push(q)?;
        from = q + 1;
    }
    Ok(origins)
}

/// Whether the word at `a` belongs to a live object.
pub(crate) fn is_live(marks: &Marks, a: u64) -> bool
    requires { a < heap_words marks.now }
    ensures { result ≡ is_live_word marks.now a }
{
    marked_image_is_valid(marks);
    marks.live_words(a, a + 1) == 1
}

/// Whether a filler begins at `a`, if its word is dead.
fn may_begin_filler(marks: &Marks, a: u64) -> bool
    requires { a ≤ heap_words marks.now }
    ensures { result ≡ may_begin_filler marks.now a }
{
    a % FILLER_STRIDE == 0 || is_live(marks, a - 1)
}

/// The word at `place` of a filler of the dense prefix.
pub(crate) fn filler_word(plan: &Plan, marks: &Marks, place: u64) -> u64
    requires same { marks.now ≡ plan.now }
    requires inside { place < prefix_end plan.now }
    requires dead { is_live_word plan.now place ≡ false }
    ensures { result ≡ filler_word plan.now place }
{
    plan_laws();
    let prefix_end = plan.prefix_end();
    if !may_begin_filler(marks, place) {
        return 0;
    }
    let limit = filler_limit(prefix_end, place);
    let end = marks.next_live(place).unwrap_or(limit).min(limit);
    header::filler((end - place) as u32)
}
