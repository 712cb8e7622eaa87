//! The check of an image, and its heap.
ghost use Rattle.std.specs.Prelude.{◌≡◌, ◌<◌, IfOk, IfErr};
ghost use Rattle.object_heap.specs.HeapImage.{HeapImage, IsValid, roots_of};
ghost use Rattle.heap_image.specs.Checks.{IsMemoryOr};
ghost use Rattle.heap_image.specs.ImageText.{text, first_fault};
ghost use Rattle.heap_image.specs.Upgrade.{upgraded};
ghost use Rattle.pcompact_c.specs.Decoded.{IsHeapOf, IsPut};
ghost use Rattle.pcompact_c.specs.Faults.{IsFaultFor, IsOf};

use crate::fault::PcompactFault;
use caller_heap::{HeapSettings, put_words};
use heap_image::{Alone, Fault, Image, decode, upgrade};
use std::alloc::Global;

/// The version, the settings and the sizes of an image, or why it has none.
#[repr(C)]
#[derive(Clone, Copy)]
pub struct PcompactHeap {
    /// The fault. If there is one, the other numbers are 0.
    pub fault: PcompactFault,
    /// The version of the image.
    pub version: u32,
    /// The settings of the heap.
    pub settings: HeapSettings,
    /// The number of words.
    pub word_count: u64,
    /// The number of live addresses or roots.
    pub count: u64,
}

impl PcompactHeap {
    /// Tells of an image with these live addresses or roots, and writes its words and these to the front of lists with room
    /// for all of them. Returns 0, as there is no fault.
    fn put(&mut self, image: &Image, tail: &[u64], words: &mut [u64], list: &mut [u64]) -> u32
        ensures number { result ≡ 0 }
        ensures none { self.new.fault.number ≡ 0 }
        ensures heap { IsHeapOf image.now tail.now self.new }
        ensures words { IsPut image.now.words words.old words.new }
        ensures list { IsPut tail.now list.old list.new }
    {
        put_words_in_front(image, words);
        put_numbers(tail, list);
        *self = PcompactHeap {
            fault: PcompactFault::NONE,
            version: image.version().number(),
            settings: HeapSettings {
                region_log: image.region_log(),
                allowance: image.allowance(),
            },
            word_count: image.len(),
            count: tail.len() as u64,
        };
        0
    }

    /// Tells of no heap, for this reason. Returns the number of the fault.
    fn refuse(&mut self, fault: Fault) -> u32
        ensures number { result ≡ self.new.fault.number }
        ensures fault { IsOf fault self.new.fault }
    {
        let fault = PcompactFault::of(fault);
        *self = PcompactHeap {
            fault,
            version: 0,
            settings: HeapSettings {
                region_log: 0,
                allowance: 0,
            },
            word_count: 0,
            count: 0,
        };
        fault.number
    }
}

/// The first fault of the bytes of an image: 1 to 10 or 17, or 11 if memory runs out. Its number is 0 if the bytes are
/// the text of a valid image.
#[unsafe(no_mangle)]
pub extern "C" fn pcompact_check(alloc: Global, bytes: &[u8]) -> PcompactFault
    ensures valid { result.number ≡ 0 → (image : HeapImage) × IsValid image × (bytes.now ≡ text image) }
    ensures fault { 0 < result.number → IsFaultFor (IsMemoryOr (first_fault bytes.now)) result }
{
    let Err(fault) = decode(alloc, bytes, &Alone) else {
        return PcompactFault::NONE;
    };
    PcompactFault::of(fault)
}

/// Tells the version, the settings and the sizes of the image with these bytes, and writes its words and its live
/// addresses, ascending, to the front of these lists, each if it has room for all of them. Returns the number of the fault
/// in `heap`. An image with roots has the live addresses that the roots reach.
///
/// The fault is the first fault of the bytes, 1 to 10 or 17, or 11 if memory runs out. After a fault the lists are as they
/// were. Takes the memory of the image.
#[unsafe(no_mangle)]
pub extern "C" fn pcompact_decode(
    alloc: Global,
    bytes: &[u8],
    words: &mut [u64],
    live: &mut [u64],
    heap: &mut PcompactHeap,
) -> u32
    ensures number { result ≡ heap.new.fault.number }
    ensures decoded { result ≡ 0 → (image : HeapImage) × IsValid image × (bytes.now ≡ text image)
        × IsHeapOf image image.live heap.new
        × IsPut image.words words.old words.new × IsPut image.live live.old live.new }
    ensures kept { 0 < result → (words.new ≡ words.old) × (live.new ≡ live.old) }
    ensures fault { 0 < result → IsFaultFor (IsMemoryOr (first_fault bytes.now)) heap.new.fault }
{
    match decode(alloc, bytes, &Alone) {
        Ok(image) => heap.put(&image, image.live(), words, live),
        Err(fault) => heap.refuse(fault),
    }
}

/// As [`pcompact_decode`], with the roots in place of the live addresses. An image of version 1 is taken for its upgrade to
/// version 2, with a root to each live object.
#[unsafe(no_mangle)]
pub extern "C" fn pcompact_decode_rooted(
    alloc: Global,
    bytes: &[u8],
    words: &mut [u64],
    roots: &mut [u64],
    heap: &mut PcompactHeap,
) -> u32
    ensures number { result ≡ heap.new.fault.number }
    ensures decoded { result ≡ 0 → (image : HeapImage) × IsValid image × (bytes.now ≡ text image)
        × IsHeapOf (upgraded image) (roots_of (upgraded image)) heap.new
        × IsPut image.words words.old words.new × IsPut (roots_of (upgraded image)) roots.old roots.new }
    ensures kept { 0 < result → (words.new ≡ words.old) × (roots.new ≡ roots.old) }
    ensures fault { 0 < result → IsFaultFor (IsMemoryOr (first_fault bytes.now)) heap.new.fault }
{
    match decode_upgraded(alloc, bytes) {
        Ok(image) => heap.put(&image, image.roots(), words, roots),
        Err(fault) => heap.refuse(fault),
    }
}

/// The image with these bytes, with roots.
fn decode_upgraded(alloc: Global, bytes: &[u8]) -> Result<Image, Fault>
    ensures upgraded { IfOk result (λ new. (image : HeapImage) × IsValid image × (bytes.now ≡ text image) × (new ≡ upgraded image)) }
    ensures fault { IfErr result (IsMemoryOr (first_fault bytes.now)) }
{
    let image = decode(alloc, bytes, &Alone)?;
    match upgrade(alloc, image) {
        Ok(image) => Ok(image),
        Err((_, fault)) => Err(fault),
    }
}

/// Writes numbers to the front of a list that has room for them. Another list stays as it is.
fn put_numbers(numbers: &[u64], list: &mut [u64])
    ensures { IsPut numbers.now list.old list.new }
{
    if numbers.len() <= list.len() {
        let (front, _rest) = list.split_at_mut(numbers.len());
        front.copy_from_slice(numbers);
    }
}

/// Writes the words of an image to the front of a list that has room for them. Another list stays as it is.
fn put_words_in_front(image: &Image, list: &mut [u64])
    ensures { IsPut image.now.words list.old list.new }
{
    let count = image.len() as usize;
    if count <= list.len() {
        let (front, _rest) = list.split_at_mut(count);
        put_words(image, front);
    }
}
