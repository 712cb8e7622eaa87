//! Generates heaps.
ghost use Rattle.std.specs.Prelude.{◌≡◌, ◌<◌, ◌≤◌, ◌^◌, All, IfOk, OnOk, length};
ghost use Rattle.std.specs.List.{concat};
ghost use Rattle.object_heap.specs.HeapImage.{AreBlocks, IsValid, heap_words, live_words};
ghost use Rattle.heap_maker.specs.GenerationFigures.{AreFiguresOf};
ghost use Rattle.heap_maker.specs.Wanted.{IsAsWanted};

use crate::dice::Dice;
use crate::error::GenerationError;
use crate::figures::GenerationFigures;
use crate::heap_words::HeapWords;
use crate::layout::Layout;
use crate::limits::Limits;
use crate::regions::{all_fit, regions_of};
use crate::room::Room;
use crate::wanted::Wanted;
use heap_image::{Alone, Fault, Image, ImageParts, mark_from_roots, marked_parts_are_valid};
use mark_bitmap::Marks;
use raw_region::Region;
use std::alloc::{AllocError, Global};

/// A generated heap.
#[derive(Drop)]
pub struct Generated {
    /// The image.
    pub image: Image,
    /// Its counts.
    pub figures: GenerationFigures,
}

/// Generates the heap that `wanted` describes.
///
/// Runs on the calling thread, in time linear in the number of words. The image depends on `wanted` alone. Values of
/// `wanted` out of range and refused memory are the only errors.
pub fn generate(alloc: Global, wanted: &Wanted) -> Result<Generated, GenerationError>
    ensures wanted { IfOk result (λ made. IsAsWanted wanted.now made.image) }
    ensures figures { IfOk result (λ made. AreFiguresOf made.image made.figures) }
{
    let limits = wanted.limits()?;
    let room = wanted.room(limits)?;
    let mut dice = Dice::new(wanted.seed);
    let layout = Layout::of(alloc, room, wanted.reference_percent, &mut dice)?;
    let heap = UnmarkedHeap::of(alloc, limits, &layout, dice)?;
    let image = heap.into_image(alloc, wanted)?;
    check_live(alloc, &image, room)?;
    let figures = figures_of(&layout, &image);
    Ok(Generated { image, figures })
}

/// Rejects an image whose live objects have another number of words than planned.
fn check_live(alloc: Global, image: &Image, room: Room) -> Result<(), GenerationError>
    ensures { OnOk result (live_words image.now 0 (heap_words image.now) ≡ room.live) }
{
    let live_words = Marks::of(alloc, image, &Alone)?.live_words(0, image.len());
    if live_words != room.live {
        return Err(GenerationError::Defect);
    }
    Ok(())
}

/// The counts of the image with these objects.
fn figures_of(layout: &Layout, image: &Image) -> GenerationFigures
    ensures { AreFiguresOf image.now result }
{
    GenerationFigures {
        words: image.len(),
        objects: layout.objects.len() as u64,
        roots: image.roots().len() as u64,
        live: image.live().len() as u64,
    }
}

/// The regions and roots of a heap before its live objects are marked.
#[derive(Drop)]
struct UnmarkedHeap {
    limits: Limits,
    regions: Vec<Region>,
    roots: Vec<u64>,
    ghost whole: { AreBlocks limits.region_log regions.items },
    ghost count: { length (concat regions.items) ≡ limits.words },
    ghost fit: { All (λ w. w < 2 ^ 64) (concat regions.items) },
    ghost few: { length roots.items ≤ limits.words },
}

impl UnmarkedHeap {
    /// Fills regions with the objects of a layout.
    fn of(
        alloc: Global,
        limits: Limits,
        layout: &Layout,
        dice: Dice,
    ) -> Result<UnmarkedHeap, AllocError>
        requires few { length layout.now.live.items ≤ limits.words }
        ensures limits { IfOk result (λ heap. heap.limits ≡ limits) }
    {
        let mut words = HeapWords::new(alloc, layout, limits.words, dice)?;
        let regions = regions_of(alloc, limits, &mut words)?;
        let roots = layout.roots(alloc, words.is_referenced())?;
        Ok(UnmarkedHeap {
            limits,
            regions,
            roots,
        })
    }

    /// Marks the heap from its roots, and returns the image. In version 1, the image lists the marked objects and has
    /// no roots. More roots than an image can count are an error.
    fn into_image(self, alloc: Global, wanted: &Wanted) -> Result<Image, GenerationError>
        ensures valid { IfOk result (λ image. IsValid image) }
        ensures version { IfOk result (λ image. image.version ≡ self.limits.version) }
        ensures region_log { IfOk result (λ image. image.region_log ≡ self.limits.region_log) }
        ensures words { IfOk result (λ image. heap_words image ≡ self.limits.words) }
        ensures allowance { IfOk result (λ image. image.allowance ≡ wanted.now.allowance) }
    {
        let UnmarkedHeap {
            limits,
            regions,
            roots,
        } = self;
        if roots.len() > u32::MAX as usize {
            return Err(GenerationError::Roots(roots.len() as u64));
        }
        let (region_log, allowance) = (limits.region_log, wanted.allowance);
        let live = match mark_from_roots(
            alloc,
            region_log,
            regions.as_slice(),
            roots.as_slice(),
            &Alone,
        ) {
            Ok(live) => live,
            Err(Fault::Memory) => return Err(GenerationError::Memory),
            Err(_) => return Err(GenerationError::Defect),
        };
        all_fit(roots.as_slice());
        marked_parts_are_valid();
        if limits.version.has_roots() {
            let parts = ImageParts {
                version: limits.version,
                region_log,
                allowance,
                regions,
                live,
                roots: Some(roots),
            };
            Ok(parts.into_image())
        } else {
            Ok(Image::of_parts(region_log, allowance, regions, live))
        }
    }
}
