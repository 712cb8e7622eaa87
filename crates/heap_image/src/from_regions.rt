//! An image of regions that a caller has, which no word is copied for.
ghost use Rattle.std.specs.Prelude.{◌≡◌, ◌<◌, ◌^◌, [], None, All, length, map, IfOk, OnOk, IfErr, IfSome};
ghost use Rattle.std.specs.List.{concat, range_with_len};
ghost use Rattle.object_heap.specs.HeapImage.{IsValid, AreBlocks, block_of, region_count};
ghost use Rattle.heap_image.specs.Checks.{IsMemoryOr};
ghost use Rattle.heap_image.specs.ImageText.{text, listed_text, from_tail, front_faults, first_fault, first_some, live_list_faults};
ghost use Rattle.heap_image.specs.Reading.{HasFittingNumbers};
ghost use Rattle.heap_image.specs.Unchecked.{front_in, numbers_in};

use crate::check::unchecked::find_sound_objects;
use crate::io::front::Front;
use crate::{Fault, Image, ImageParts, Version};
use heap_marking::Marker;
use object_heap::{Heap, blocks_joined, objects_without_faults};
use raw_region::Region;
use std::alloc::Global;

/// The parts of an image whose sizes and live objects aren't checked.
#[derive(Drop)]
pub struct UncheckedParts {
    pub version: Version,
    /// The logarithm, to base 2, of the number of words of a region.
    pub region_log: u32,
    /// The largest number of dead words that the dense prefix may keep.
    pub allowance: u64,
    /// The regions from address 0 on, each a block of `2 ^ region_log` words.
    pub regions: Vec<Region>,
    /// The numbers after the words: the live addresses in version 1, otherwise the roots.
    pub tail: Vec<u64>,
}

/// Regions that are no image's, and why.
#[derive(Drop)]
pub struct RefusedRegions {
    /// The same regions in the same order, with the same words.
    pub regions: Vec<Region>,
    pub fault: Fault,
}

/// The image of these parts, in the same regions. If it isn't valid, the regions come back with the first fault of its
/// bytes, 3, 4, 6 to 9 or 17, or with fault 11 if memory runs out. The result does not depend on the number of the
/// marker's threads.
///
/// Fault 11 comes also for 2^32 live addresses or roots and for 2^64 words, which the bytes of an image can't count.
pub fn image_of_regions<M: Marker>(
    alloc: Global,
    parts: UncheckedParts,
    marker: &M,
) -> Result<Image, RefusedRegions>
    requires marker { M.may_start }
    requires regions { AreBlocks parts.region_log parts.regions.items }
    ensures valid { IfOk result (λ image. IsValid image) }
    // The live objects are those of the list, or those that the roots reach.
    ensures image { IfOk result (λ image. image ≡ from_tail parts.version (numbers_in parts)) }
    ensures blocks { IfOk result (λ image. parts.regions.items ≡ map (block_of image) (range_with_len 0 (region_count image))) }
    ensures text { IfOk result (λ image. text image ≡ listed_text parts.version (numbers_in parts)) }
    ensures fault { IfErr result
        (λ refused. IsMemoryOr (first_fault (listed_text parts.version (numbers_in parts))) refused.fault) }
    ensures back { IfErr result (λ refused. refused.regions.items ≡ parts.regions.items) }
{
    match parts.check_sizes() {
        Ok(()) => parts.into_image(alloc, marker),
        Err(fault) => Err(parts.refused(fault)),
    }
}

impl UncheckedParts {
    /// The image of these parts, whose sizes are known to be within the limits. If it isn't valid, the regions come back
    /// with the first fault of the live objects, 6 to 9 or 17, or with fault 11 if memory runs out.
    pub(crate) fn into_image<M: Marker>(
        self,
        alloc: Global,
        marker: &M,
    ) -> Result<Image, RefusedRegions>
        requires marker { M.may_start }
        requires regions { AreBlocks self.region_log self.regions.items }
        requires fits { HasFittingNumbers self.version (numbers_in self) }
        ensures valid { IfOk result (λ image. IsValid image) }
        ensures image { IfOk result (λ image. image ≡ from_tail self.version (numbers_in self)) }
        ensures blocks { IfOk result (λ image. self.regions.items ≡ map (block_of image) (range_with_len 0 (region_count image))) }
        ensures sound { OnOk result (first_some (live_list_faults (from_tail self.version (numbers_in self))) ≡ None) }
        ensures fault { IfErr result (λ refused.
            IsMemoryOr (first_some (live_list_faults (from_tail self.version (numbers_in self)))) refused.fault) }
        ensures back { IfErr result (λ refused. refused.regions.items ≡ self.regions.items) }
    {
        blocks_joined();
        objects_without_faults();
        let UncheckedParts {
            version,
            region_log,
            allowance,
            regions,
            tail,
        } = self;
        let heap = Heap::new(regions.as_slice(), region_log);
        match find_sound_objects(alloc, &heap, version, tail, marker) {
            Ok(sound) => {
                let parts = ImageParts {
                    version,
                    region_log,
                    allowance,
                    regions,
                    live: sound.found.live,
                    roots: sound.found.roots,
                };
                Ok(parts.with_seen(Some(sound.found.begins), sound.sizes))
            }
            Err(fault) => Err(RefusedRegions { regions, fault }),
        }
    }

    /// These regions, refused for this fault.
    pub(crate) fn refused(self, fault: Fault) -> RefusedRegions
        ensures regions { result.regions.items ≡ self.regions.items }
        ensures fault { result.fault ≡ fault }
    {
        RefusedRegions {
            regions: self.regions,
            fault,
        }
    }

    /// Checks the sizes by the front that the image would have, whose faults are 3 and 4.
    pub(crate) fn check_sizes(&self) -> Result<(), Fault>
        ensures fits { OnOk result (HasFittingNumbers self.now.version (numbers_in self.now)) }
        ensures fault { IfErr result (IsMemoryOr (first_some (front_faults (front_in self.now)))) }
    {
        let count = length_of(self.tail.as_slice());
        let Some(words) = word_count(self.regions.as_slice()) else {
            return Err(Fault::Memory);
        };
        if count > u64::from(u32::MAX) {
            return Err(Fault::Memory);
        }
        let front = Front {
            version: self.version,
            region_log: self.region_log,
            count: count as u32,
            words,
            allowance: self.allowance,
        };
        front.check()
    }
}

/// The number of words of these regions, if it is below 2^64.
fn word_count(regions: &[Region]) -> Option<u64>
    ensures count { IfSome result (λ words. words ≡ length (concat regions.now)) }
    ensures fit { IfSome result (λ _. All (λ w. w < 2 ^ 64) (concat regions.now)) }
{
    let mut words: u64 = 0;
    for region in regions {
        words = words.checked_add(length_of(region.words()))?;
    }
    Some(words)
}

/// The number of words.
fn length_of(words: &[u64]) -> u64
    ensures count { result ≡ length words.now }
    ensures fit { All (λ w. w < 2 ^ 64) words.now }
{
    words.len() as u64
}
