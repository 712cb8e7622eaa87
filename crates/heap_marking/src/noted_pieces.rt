//! The sizes of a heap's live objects, which several threads note without knowing of one another.
//!
//! Each piece of objects has a slot, into which the thread that takes the piece puts what it found. A thread that never comes
//! back leaves its pieces without sizes, and nobody waits for it.
ghost use Rattle.std.specs.Prelude.{◌≡◌, ◌<◌, ◌*◌, All, IfOk, IfSome, length};
ghost use Rattle.object_heap.specs.HeapImage.{HasLiveList, HeapImage, image_of, with_live};
ghost use Rattle.object_heap.specs.Sizes.{AreSizes};
ghost use Rattle.heap_marking.specs.Soundness.{AreAllNoted, AreKnown, AreNoted};

use crate::soundness::{PIECE, are_all_noted, note_sizes};
use counted_slot::{Counted, FREE, Fits, TAKEN};
use object_heap::Heap;
use raw_region::Region;
use std::alloc::{AllocError, Global};
use std::marker::Model;
use std::snapshot::Snapshot;
use std::sync::atomic::{AtomicUsize, Ordering};

/// The number of pieces that a thread takes at a time: 2,048 objects.
const CHUNK: usize = 32;

/// A piece of the live objects by its number, with the sizes of those that are sound. The others have 0.
#[derive(Drop)]
pub(crate) struct Piece {
    number: usize,
    sizes: [u32; PIECE],
}

/// Regions with the live objects that their heap has. It has no words, and says for contracts which heap is checked.
#[derive(Drop)]
pub(crate) struct ListedHeap {
    regions: Snapshot<Vec<Region>>,
    region_log: u32,
    live: Snapshot<Vec<u64>>,
}

impl Model for ListedHeap {
    ghost use Rattle.object_heap.specs.HeapImage.{HeapImage, image_of};

    ghost Value = { HeapImage };

    ghost view = { λ h. image_of h.region_log 0 h.regions.value.items h.live.value.items };
}

impl ListedHeap {
    fn of(regions: &Vec<Region>, region_log: u32, live: &Vec<u64>) -> ListedHeap
        ensures { result ≡ image_of region_log 0 regions.now.items live.now.items }
    {
        ListedHeap {
            regions: Snapshot::of(regions),
            region_log,
            live: Snapshot::of(live),
        }
    }
}

impl Fits for Piece {
    ghost use Rattle.heap_marking.specs.Soundness.{AreNoted};

    type Tag = ListedHeap;

    ghost fits = { λ image piece. AreNoted image piece.number piece.sizes };
}

/// The sizes of a heap's live objects, as far as threads have noted them. All threads may note at once.
///
/// Contracts view it as the heap with its live objects.
#[derive(Drop)]
pub struct NotedPieces {
    heap: ListedHeap,
    objects: usize,
    slots: Vec<Counted<Piece>>,
    /// The first piece that no thread has taken.
    next: AtomicUsize,
}

impl Model for NotedPieces {
    ghost use Rattle.object_heap.specs.HeapImage.{HeapImage};
    ghost use Rattle.heap_marking.specs.NotedPieces.{ArePiecesOf};

    ghost Value = { HeapImage };

    ghost view = { λ n. n.heap };

    ghost invariant = { λ n. ArePiecesOf n.heap n.objects n.slots.items };
}

impl NotedPieces {
    /// No size is noted yet of these live objects. Takes all memory that noting needs.
    pub fn new(
        alloc: Global,
        regions: &Vec<Region>,
        region_log: u32,
        live: &Vec<u64>,
    ) -> Result<NotedPieces, AllocError>
        ensures { IfOk result (λ pieces. pieces ≡ image_of region_log 0 regions.now.items live.now.items) }
    {
        let heap = ListedHeap::of(regions, region_log, live);
        let objects = live.len();
        let slots = empty_slots(alloc, &heap, objects.div_ceil(PIECE))?;
        Ok(NotedPieces {
            heap,
            objects,
            slots,
            next: AtomicUsize::new(0),
        })
    }

    /// Notes the sizes of objects that no other thread has taken, of at most `turns` times 2,048. Returns whether all are
    /// taken. `marked` marks the references that are null or lead to a live object, or is `None` for well-formed objects.
    ///
    /// Allocates nothing, and never waits.
    pub fn note(&self, heap: &Heap<'_>, live: &[u64], marked: Option<&[u64]>, turns: u64) -> bool
        requires same { with_live heap.now live.now ≡ self.now }
        requires known { AreKnown heap.now live.now marked }
    {
        for _ in 0..turns {
            let first = self.next.fetch_add(CHUNK, Ordering::SeqCst);
            if first >= self.slots.len() {
                return true;
            }
            let end = self.slots.len().min(first.saturating_add(CHUNK));
            for number in first..end {
                self.note_piece(heap, live, marked, number);
            }
        }
        false
    }

    /// Notes the sizes of a piece. Nobody else has it, so the turn wins. No contract says so; if it lost, the sizes would be
    /// lacking.
    fn note_piece(&self, heap: &Heap<'_>, live: &[u64], marked: Option<&[u64]>, number: usize)
        requires same { with_live heap.now live.now ≡ self.now }
        requires known { AreKnown heap.now live.now marked }
        requires piece { 64 * number < length live.now }
    {
        let (found, claim) = self.slots[number].turn(FREE, TAKEN);
        if found != FREE {
            claim.done();
            return;
        }
        let mut sizes = [0u32; PIECE];
        note_sizes(heap, live, marked, number, &mut sizes);
        claim.put(Piece { number, sizes }, FREE);
    }

    /// The sizes of all live objects, if all are sound. Returns `None` also if not all are noted, or memory runs out.
    pub fn into_sizes(self, alloc: Global) -> Option<Vec<[u32; PIECE]>>
        ensures sound { IfSome result (λ _. HasLiveList self) }
        ensures sizes { IfSome result (λ sizes. AreSizes self sizes.items) }
    {
        let NotedPieces { objects, slots, .. } = self;
        let sizes = sizes_in(alloc, slots)?;
        if are_all_noted(sizes.as_slice(), objects) {
            Some(sizes)
        } else {
            None
        }
    }
}

/// Slots of pieces whose sizes aren't noted.
fn empty_slots(
    alloc: Global,
    heap: &ListedHeap,
    count: usize,
) -> Result<Vec<Counted<Piece>>, AllocError>
    ensures same { IfOk result (λ slots. All (λ slot. slot ≡ heap.now) slots.items) }
    ensures count { IfOk result (λ slots. length slots.items ≡ count) }
{
    let mut slots = Vec::with_capacity(alloc, count)?;
    for _ in 0..count {
        let piece = Piece {
            number: 0,
            sizes: [0; PIECE],
        };
        slots.push_reserved(Counted::new(piece, heap));
    }
    Ok(slots)
}

/// The sizes in the slots, each at the place of its piece. Returns `None` if memory runs out.
fn sizes_in(alloc: Global, mut slots: Vec<Counted<Piece>>) -> Option<Vec<[u32; PIECE]>>
    ensures count { IfSome result (λ sizes. length sizes.items ≡ length slots.items) }
    ensures noted { IfSome result (λ sizes. (image : HeapImage) → All (λ slot. slot ≡ image) slots.items
        → AreAllNoted image sizes.items) }
{
    let Ok(mut sizes) = without_sizes(alloc, slots.len()) else {
        return None;
    };
    while let Some(slot) = slots.pop() {
        put_sizes(&mut sizes, slot.into_inner());
    }
    Some(sizes)
}

/// Pieces none of whose sizes is noted.
fn without_sizes(alloc: Global, count: usize) -> Result<Vec<[u32; PIECE]>, AllocError>
    ensures count { IfOk result (λ sizes. length sizes.items ≡ count) }
    ensures none { IfOk result (λ sizes. (image : HeapImage) → AreAllNoted image sizes.items) }
{
    let mut sizes = Vec::with_capacity(alloc, count)?;
    for _ in 0..count {
        sizes.push_reserved([0u32; PIECE]);
    }
    Ok(sizes)
}

/// Puts the sizes of a piece at its place, if there is one.
fn put_sizes(sizes: &mut Vec<[u32; PIECE]>, piece: Piece)
    ensures count { length sizes.new.items ≡ length sizes.old.items }
    ensures noted { (image : HeapImage) → AreNoted image piece.number piece.sizes → AreAllNoted image sizes.old.items
        → AreAllNoted image sizes.new.items }
{
    let Piece {
        number,
        sizes: noted,
    } = piece;
    if number < sizes.len() {
        sizes[number] = noted;
    }
}
