//! `Carrier`: the word machine's copying of words, over a plan.

ghost use Rattle.std.specs.Prelude.{◌≡◌, ◌⊎◌, ◌+◌, ◌*◌, ◌<◌, ◌≤◌, ℕ, Some, IfOk, length, slice_index, map, option_map, take};
ghost use Rattle.std.specs.List.{range_with_len};
ghost use Rattle.object_heap.specs.HeapImage.{HeapImage, IsValid, heap_words, region_words, region_count, word_at, start_of};
ghost use Rattle.summary.specs.NewAddresses.{new_top, new_live};
ghost use Rattle.summary.specs.WordMoves.{origin};
ghost use Rattle.summary.specs.Compaction.{moved_word, compacted_word, redirected, compact};
ghost use Rattle.summary.specs.RegionData.{region_addresses};
ghost use Rattle.history.specs.Slide.{word_for};
ghost use Rattle.history.specs.WordMachine.{image_slide};
ghost use Rattle.history.specs.Carrier.{IsCarrier};

use super::origins::{filler_word, is_live, origins_of};
use super::references::{early_references, late_references};
use heap_image::{Image, ImageParts};
use mark_bitmap::Marks;
use raw_region::Region;
use std::alloc::{AllocError, Global};
use summary::Plan;
use summary::laws::plan_laws;
use summary::laws::plans::{planned_image_is_own, planned_image_is_valid};

/// The memory of so many regions is freed at once: pieces as small as a region would hold none of the new ones.
const FREED_TOGETHER: u32 = 64;

/// For each new address, the word that goes there, and when it is redirected.
pub(crate) struct Carrier<'a> {
    plan: &'a Plan,
    marks: &'a Marks,
    /// The old addresses of the words that go to the new addresses from the prefix end on.
    origins: Vec<u64>,
    /// For each old address, whether its word is redirected as it is moved.
    early: Vec<bool>,
    /// For each new address, whether its word is redirected at the end.
    late: Vec<bool>,
}

impl Drop for Carrier<'_> {
    fn drop(self) {
        let Self {
            plan,
            marks,
            origins,
            early,
            late,
        } = self;
    }
}

impl<'a> Carrier<'a> {
    pub(crate) fn of(
        alloc: Global,
        image: &Image,
        plan: &'a Plan,
        marks: &'a Marks,
    ) -> Result<Carrier<'a>, AllocError>
        requires plan { plan.now ≡ image.now }
        requires marks { marks.now ≡ image.now }
        ensures kept { IfOk result IsCarrier }
        ensures plan { IfOk result (λ carrier. carrier.plan.now ≡ image.now) }
    {
        planned_image_is_valid(plan);
        planned_image_is_own(plan);
        let origins = origins_of(alloc, plan, marks)?;
        let early = early_references(alloc, image, plan)?;
        let late = late_references(alloc, image, plan)?;
        Ok(Carrier {
            plan,
            marks,
            origins,
            early,
            late,
        })
    }

    /// Makes the compacted image of a heap in which all regions are filled: redirects the references
    /// of deferred objects and sets the words from the new top up to 0.
    pub(crate) fn finish(
        &self,
        alloc: Global,
        image: &Image,
        heap: Vec<u64>,
    ) -> Result<Image, AllocError>
        requires kept { IsCarrier self.now }
        requires image { self.now.plan.now ≡ image.now }
        requires long { length heap.items ≡ heap_words image.now }
        requires moved { (a : ℕ) → a < heap_words image.now → slice_index heap.items a ≡ moved_word image.now a }
        ensures { IfOk result (λ new. new ≡ compact image.now) }
    {
        plan_laws();
        let regions = self.finished_regions(alloc, heap)?;
        let live = self.new_live(alloc, image)?;
        let roots = self.new_roots(alloc, image)?;
        let parts = ImageParts {
            version: image.version(),
            region_log: image.region_log(),
            allowance: image.allowance(),
            regions,
            live,
            roots,
        };
        Ok(parts.into_image())
    }

    /// The regions of the compacted image. They are made from the last one on, and the words above are freed meanwhile, so
    /// that both heaps take little more memory than one.
    fn finished_regions(&self, alloc: Global, mut heap: Vec<u64>) -> Result<Vec<Region>, AllocError>
        requires kept { IsCarrier self.now }
        requires long { length heap.items ≡ heap_words self.now.plan.now }
        requires moved { (a : ℕ) → a < heap_words self.now.plan.now → slice_index heap.items a ≡ moved_word self.now.plan.now a }
        ensures { IfOk result (λ regions. regions.items
            ≡ map (λ r. map (compacted_word self.now.plan.now) (region_addresses self.now.plan.now r)) (range_with_len 0 (region_count self.now.plan.now))) }
    {
        let len = self.plan.region_words() as usize;
        let mut regions = Vec::new(alloc);
        let mut r = self.plan.regions();
        while r > 0 {
            r -= 1;
            regions.push(self.finished_region(alloc, &heap, r)?)?;
            cut(&mut heap, r as usize * len, r % FREED_TOGETHER == 0);
        }
        regions.reverse();
        Ok(regions)
    }

    /// The redirected roots, or `None` for an image of version 1.
    fn new_roots(&self, alloc: Global, image: &Image) -> Result<Option<Vec<u64>>, AllocError>
        requires kept { IsCarrier self.now }
        requires image { self.now.plan.now ≡ image.now }
        ensures { IfOk result (λ roots. option_map (λ v. v.items) roots ≡ option_map (map (redirected image.now)) image.now.roots) }
    {
        if !image.version().has_roots() {
            return Ok(None);
        }
        let mut roots = Vec::new(alloc);
        for w in image.roots() {
            roots.push(self.plan.redirected(*w))?;
        }
        Ok(Some(roots))
    }

    /// The new addresses of the live objects.
    fn new_live(&self, alloc: Global, image: &Image) -> Result<Vec<u64>, AllocError>
        requires kept { IsCarrier self.now }
        requires image { self.now.plan.now ≡ image.now }
        ensures { IfOk result (λ live. live.items ≡ new_live image.now) }
    {
        let mut live = Vec::new(alloc);
        for a in image.live() {
            live.push(self.plan.new_address(*a))?;
        }
        Ok(live)
    }

    /// The block of a region of the compacted image.
    fn finished_region(&self, alloc: Global, heap: &[u64], r: u32) -> Result<Region, AllocError>
        requires kept { IsCarrier self.now }
        requires inside { r < region_count self.now.plan.now }
        requires long { length heap.now ≡ r * region_words self.now.plan.now + region_words self.now.plan.now }
        requires moved { (a : ℕ) → a < r * region_words self.now.plan.now + region_words self.now.plan.now → slice_index heap.now a ≡ moved_word self.now.plan.now a }
        ensures { IfOk result (λ region. region ≡ map (compacted_word self.now.plan.now) (region_addresses self.now.plan.now r)) }
    {
        let len = self.plan.region_words();
        let start = u64::from(r) * len;
        let mut region = Region::new(alloc, len as usize)?;
        for i in 0..len {
            region.set(i as usize, self.finished_word(heap, start + i));
        }
        Ok(region)
    }

    /// The word at an address of the compacted image.
    fn finished_word(&self, heap: &[u64], place: u64) -> u64
        requires kept { IsCarrier self.now }
        requires inside { place < heap_words self.now.plan.now }
        requires there { place < length heap.now }
        requires moved { slice_index heap.now place ≡ moved_word self.now.plan.now place }
        ensures { result ≡ compacted_word self.now.plan.now place }
    {
        plan_laws();
        if place >= self.plan.new_top() {
            return 0;
        }
        let word = heap[place as usize];
        if self.late[place as usize] {
            self.plan.redirected(word)
        } else {
            word
        }
    }

    /// Writes the words at `number` addresses from `first` on, ascending, each from the present word at
    /// its origin, which is still the one of the start.
    pub(crate) fn copy(&self, heap: &mut [u64], first: u64, number: u32)
        requires kept { IsCarrier self.now }
        requires long { length heap.old ≡ heap_words self.now.plan.now }
        requires below { first + number ≤ new_top self.now.plan.now }
        requires stands { (a x : ℕ) → first ≤ a → a < first + number → origin self.now.plan.now a ≡ Some x → slice_index heap.old x ≡ word_at self.now.plan.now x }
        ensures written { (a : ℕ) → first ≤ a → a < first + number → slice_index heap.new a ≡ word_for (image_slide self.now.plan.now) (word_at self.now.plan.now) a }
        ensures others { (a : ℕ) → (a < first) ⊎ (first + number ≤ a) → slice_index heap.new a ≡ slice_index heap.old a }
    {
        plan_laws();
        for place in first..first + u64::from(number) {
            heap[place as usize] = self.word(heap, place);
        }
    }

    /// The word that goes to an address, from the present word at its origin.
    fn word(&self, heap: &[u64], place: u64) -> u64
        requires kept { IsCarrier self.now }
        requires long { length heap.now ≡ heap_words self.now.plan.now }
        requires below { place < new_top self.now.plan.now }
        requires stands { (x : ℕ) → origin self.now.plan.now place ≡ Some x → slice_index heap.now x ≡ word_at self.now.plan.now x }
        ensures { result ≡ word_for (image_slide self.now.plan.now) (word_at self.now.plan.now) place }
    {
        plan_laws();
        let Some(origin) = self.origin(place) else {
            return filler_word(self.plan, self.marks, place);
        };
        let word = heap[origin as usize];
        if self.early[origin as usize] {
            self.plan.redirected(word)
        } else {
            word
        }
    }

    /// The old address of the word that goes to a new address.
    fn origin(&self, place: u64) -> Option<u64>
        requires kept { IsCarrier self.now }
        requires below { place < new_top self.now.plan.now }
        ensures { result ≡ origin self.now.plan.now place }
    {
        plan_laws();
        let prefix_end = self.plan.prefix_end();
        if place >= prefix_end {
            return Some(self.origins[(place - prefix_end) as usize]);
        }
        if is_live(self.marks, place) {
            Some(place)
        } else {
            None
        }
    }
}

/// Drops the words from `len` on, and frees their memory if `frees` is set.
fn cut(heap: &mut Vec<u64>, len: usize, frees: bool)
    ensures { heap.new.items ≡ take len heap.old.items }
{
    heap.truncate(len);
    if frees {
        heap.shrink_to_fit();
    }
}
