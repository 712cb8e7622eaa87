//! The check of a heap's live objects by several threads, each of which joins by calls of its own.
ghost use Rattle.std.specs.Prelude.{◌≡◌, [], Some, map, length, IfOk, IfErr};
ghost use Rattle.std.specs.List.{range_with_len};
ghost use Rattle.object_heap.specs.HeapImage.{AreBlocks, IsValid, block_of, image_of, region_count};
ghost use Rattle.image_streams.specs.declared.fault.Fault.TheVariants.{Memory};
ghost use Rattle.heap_marking.specs.Soundness.{AreReferencesOrWellFormed};
ghost use Rattle.heap_image.specs.Checks.{AreSeen, IsMemoryOr};
ghost use Rattle.heap_image.specs.ImageText.{first_fault, first_some, live_list_faults, text};
ghost use Rattle.heap_image.specs.Reading.{HasFittingNumbers};
ghost use Rattle.heap_image.specs.SharedCheck.{bytes_of, heap_in, image_in, numbers_of};

use crate::check::unchecked::{Found, find_live_objects};
use crate::from_regions::{RefusedRegions, UncheckedParts};
use crate::{Fault, Image, ImageParts, Version};
use heap_marking::{Marker, NotedPieces};
use object_heap::{Bits, Heap, blocks_joined, objects_without_faults};
use raw_region::Region;
use std::alloc::Global;
use std::marker::Model;
use std::snapshot::Snapshot;

/// A heap in regions whose live objects are found and are being checked. All threads may check at once.
///
/// Contracts view it as the parts of an image that isn't checked.
#[derive(Drop)]
pub struct SharedCheck {
    version: Version,
    region_log: u32,
    allowance: u64,
    regions: Vec<Region>,
    tail: Snapshot<Vec<u64>>,
    found: Found,
    /// The references that objects may have. `None` if all objects are known to be well-formed.
    references: Option<Bits>,
    noted: NotedPieces,
}

impl Model for SharedCheck {
    ghost use Rattle.heap_image.specs.SharedCheck.{IsCheckOf, UncheckedHeap};

    ghost Value = { UncheckedHeap };

    ghost view = { λ c. record { version = c.version; region_log = c.region_log; allowance = c.allowance; blocks = c.regions.items; tail = c.tail.value.items } };

    ghost invariant = { λ c. IsCheckOf (record { version = c.version; region_log = c.region_log; allowance = c.allowance; blocks = c.regions.items; tail = c.tail.value.items }) c.found c.references c.noted };
}

/// Begins the check of these parts: checks their sizes, and finds the live objects. Takes all memory that checking needs.
///
/// If that shows a fault, the regions come back with it: the first fault of the image's bytes, 3, 4, 6 or 17, or fault 11 if
/// memory runs out.
pub fn begin_check<M: Marker>(
    alloc: Global,
    parts: UncheckedParts,
    marker: &M,
) -> Result<SharedCheck, RefusedRegions>
    requires marker { M.may_start }
    requires regions { AreBlocks parts.region_log parts.regions.items }
    ensures check { IfOk result (λ check. check ≡ heap_in parts) }
    ensures fault { IfErr result (λ refused. IsMemoryOr (first_fault (bytes_of (heap_in parts))) refused.fault) }
    ensures back { IfErr result (λ refused. refused.regions.items ≡ parts.regions.items) }
{
    match parts.check_sizes() {
        Ok(()) => parts.into_check(alloc, marker),
        Err(fault) => Err(parts.refused(fault)),
    }
}

impl UncheckedParts {
    /// The check of these parts, whose sizes are known to be within the limits. The fault is 6, 11 or 17.
    fn into_check<M: Marker>(self, alloc: Global, marker: &M) -> Result<SharedCheck, RefusedRegions>
        requires marker { M.may_start }
        requires regions { AreBlocks self.region_log self.regions.items }
        requires fits { HasFittingNumbers self.version (numbers_of (heap_in self)) }
        ensures check { IfOk result (λ check. check ≡ heap_in self) }
        ensures fault { IfErr result (λ refused.
            IsMemoryOr (first_some (live_list_faults (image_in (heap_in self)))) refused.fault) }
        ensures back { IfErr result (λ refused. refused.regions.items ≡ self.regions.items) }
    {
        let UncheckedParts {
            version,
            region_log,
            allowance,
            regions,
            tail,
        } = self;
        let numbers = Snapshot::of(&tail);
        let heap = Heap::new(regions.as_slice(), region_log);
        match find_live_objects(alloc, &heap, version, tail, marker) {
            Ok(found) => match prepare(alloc, &regions, region_log, found) {
                Ok((found, references, noted)) => Ok(SharedCheck {
                    version,
                    region_log,
                    allowance,
                    regions,
                    tail: numbers,
                    found,
                    references,
                    noted,
                }),
                Err(fault) => Err(RefusedRegions { regions, fault }),
            },
            Err(fault) => Err(RefusedRegions { regions, fault }),
        }
    }
}

/// These objects, and what their check needs: the references that they may have, unless all are known to be well-formed, and
/// pieces to note their sizes in. The only fault is 11, if memory runs out.
fn prepare(
    alloc: Global,
    regions: &Vec<Region>,
    region_log: u32,
    found: Found,
) -> Result<(Found, Option<Bits>, NotedPieces), Fault>
    requires { AreSeen (image_of region_log 0 regions.now.items []) found.live.items found.begins found.well_formed }
    ensures found { IfOk result (λ made. made.0 ≡ found) }
    ensures references { IfOk result (λ made.
        AreReferencesOrWellFormed (image_of region_log 0 regions.now.items found.live.items) made.1) }
    ensures pieces { IfOk result (λ made. made.2 ≡ image_of region_log 0 regions.now.items found.live.items) }
    ensures fault { IfErr result (λ fault. fault ≡ Memory) }
{
    let references = found.references(alloc)?;
    let noted = NotedPieces::new(alloc, regions, region_log, &found.live)?;
    Ok((found, references, noted))
}

impl SharedCheck {
    /// Checks objects that no other thread has taken, at most `turns` times 2,048. Returns whether all are taken. Allocates
    /// nothing, and never waits.
    pub fn work(&self, turns: u64) -> bool {
        let heap = Heap::new(self.regions.as_slice(), self.region_log);
        let marked = self.references.as_ref().map(Bits::words);
        self.noted
            .note(&heap, self.found.live.as_slice(), marked, turns)
    }

    /// The number of regions.
    pub fn regions(&self) -> usize
        ensures { result ≡ length self.now.blocks }
    {
        self.regions.len()
    }

    /// The regions, which nothing has changed.
    pub fn into_regions(self) -> Vec<Region>
        ensures { result.items ≡ self.blocks }
    {
        let SharedCheck { regions, .. } = self;
        regions
    }

    /// The image, in the same regions, once no other thread checks. Checks what none has. If it isn't valid, the regions come
    /// back with the first fault of its live objects, 7 to 9; no other fault is left.
    ///
    /// One thread finds the first fault. Where memory runs out, it checks all objects again.
    pub fn finish(self, alloc: Global) -> Result<Image, RefusedRegions>
        ensures valid { IfOk result (λ image. IsValid image) }
        ensures image { IfOk result (λ image. image ≡ image_in self) }
        ensures blocks { IfOk result (λ image. self.blocks ≡ map (block_of image) (range_with_len 0 (region_count image))) }
        ensures text { IfOk result (λ image. text image ≡ bytes_of self) }
        ensures fault { IfErr result (λ refused. first_fault (bytes_of self) ≡ Some refused.fault) }
        ensures back { IfErr result (λ refused. refused.regions.items ≡ self.blocks) }
    {
        blocks_joined();
        objects_without_faults();
        self.work(u64::MAX);
        let SharedCheck {
            version,
            region_log,
            allowance,
            regions,
            tail: _,
            found,
            references: _,
            noted,
        } = self;
        let sizes = noted.into_sizes(alloc);
        let heap = Heap::new(regions.as_slice(), region_log);
        match found.sound(&heap, sizes) {
            Ok(sound) => {
                let parts = ImageParts {
                    version,
                    region_log,
                    allowance,
                    regions,
                    live: sound.found.live,
                    roots: sound.found.roots,
                };
                Ok(parts.with_seen(Some(sound.found.begins), sound.sizes))
            }
            Err(fault) => Err(RefusedRegions { regions, fault }),
        }
    }
}
