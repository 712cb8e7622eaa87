//! Sets the bits of the live objects.
ghost use Rattle.std.specs.Prelude.{◌≡◌, ℕ, ◌+◌, ◌-◌, ◌*◌, ◌%◌, ◌^◌, ◌<◌, ◌≤◌, ◌==◌, ◌||◌, All, IfOk, IfSome, nat_lt, length, map, slice_index, take, drop};
ghost use Rattle.std.specs.List.{list_any};
ghost use Rattle.object_heap.specs.HeapImage.{IsValid, HasSoundHeader, end_of, is_live_word, words_alone};
ghost use Rattle.object_heap.specs.Bits.{has, room};
ghost use Rattle.object_heap.specs.Sizes.{AreSizesOf};
ghost use Rattle.mark_bitmap.specs.Marks.{AreBegins, AreBitsFrom, IsBlankPart, IsFirstObject, bit_words, continues_at, is_end};

use crate::laws::listed_image_is_valid;
use crate::listed::Listed;
use crate::part_bits::insert_within;
use crate::sizes::Sizes;
use heap_image::{Bits, Heap, Image, PIECE};
use std::alloc::{AllocError, Global};

/// The begin bits of the live objects. If reading the image has kept them, they are copied.
pub(crate) fn begin_bits(alloc: Global, image: &Image) -> Result<Bits, AllocError>
    ensures { IfOk result (λ bits. AreBegins image.now bits) }
{
    match image.begins() {
        Some(begins) => begins.copy(alloc),
        None => listed_begin_bits(alloc, &Listed::of_image(image)),
    }
}

/// The begin bits of the live objects, by their list.
pub(crate) fn listed_begin_bits(alloc: Global, image: &Listed<'_>) -> Result<Bits, AllocError>
    ensures { IfOk result (λ bits. AreBegins image.now bits) }
{
    Bits::of(alloc, image.live(), image.len())
}

/// The begin bits of the live objects. If reading the image has kept them, they are taken out of it.
pub(crate) fn taken_begin_bits(alloc: Global, image: &mut Image) -> Result<Bits, AllocError>
    ensures bits { IfOk result (λ bits. AreBegins image.old bits) }
    ensures same { image.new ≡ image.old }
{
    match image.take_begins() {
        Some(begins) => Ok(begins),
        None => begin_bits(alloc, image),
    }
}

/// Words with a bit for each address, none of which is set.
pub(crate) fn no_bits(alloc: Global, image: &Listed<'_>) -> Result<Vec<u64>, AllocError>
    ensures room { IfOk result (λ words. length words.items ≡ bit_words image.now) }
    ensures none { IfOk result (λ words. All (λ word. word ≡ 0) words.items) }
{
    vec![in alloc; 0; (image.len() / 64 + 1) as usize]
}

/// Sets the live bits of a part of the heap. Word `i` has the bits of the 64 addresses from `64 * (start + i)` on.
///
/// The words first get the end bits, which are set for the last words of live objects.
pub(crate) fn mark_part(image: &Listed<'_>, begins: &Bits, start: usize, words: &mut [u64])
    requires begins { AreBegins image.now begins.now }
    requires blank { IsBlankPart image.now start words.old }
    ensures room { length words.new ≡ length words.old }
    ensures bits { AreBitsFrom (is_live_word image.now) start words.new }
{
    listed_image_is_valid(image);
    mark_ends(image, start, words);
    turn_ends(image, begins, start, words);
}

/// Sets the bit of the last word of each live object that ends in a part of the heap. Of the objects that begin before
/// the part, only the last one can end in it.
fn mark_ends(image: &Listed<'_>, start: usize, ends: &mut [u64])
    requires valid { IsValid image.now }
    requires inside { start + length ends.old ≤ bit_words image.now }
    requires no_ends { All (λ word. word ≡ 0) ends.old }
    ensures room { length ends.new ≡ length ends.old }
    ensures bits { AreBitsFrom (is_end image.now) start ends.new }
{
    let first = first_from(image, 64 * start as u64).saturating_sub(1);
    let behind = first_from(image, 64 * (start + ends.len()) as u64);
    for piece in first / PIECE..behind.div_ceil(PIECE) {
        mark_ends_of(image, piece, start, ends);
    }
}

/// The number of live objects that begin below an address. It is the index of the first one that doesn't.
fn first_from(image: &Listed<'_>, address: u64) -> usize
    ensures { IsFirstObject image.now address result }
{
    image.live().partition_point(
        |begin: &u64| -> bool
            ensures { result ≡ nat_lt begin.now address }
        { *begin < address },
    )
}

/// Sets the bit of the last word of each object of a piece of the live list that ends in a part of the heap.
fn mark_ends_of(image: &Listed<'_>, piece: usize, start: usize, ends: &mut [u64])
    requires piece { 64 * piece < length image.now.live }
    requires inside { start + length ends.old ≤ bit_words image.now }
    ensures room { length ends.new ≡ length ends.old }
    ensures bits { (k : ℕ) → k < room ends.old
        → has ends.new k ≡ (has ends.old k || list_any (λ a. end_of image.now a == 64 * start + k + 1) (take 64 (drop (64 * piece) image.now.live))) }
{
    let objects = image.live();
    let from = piece * PIECE;
    let to = objects.len().min(from + PIECE);
    let lasts = last_words(image, from, to);
    insert_within(ends, 64 * start as u64, &lasts[..to - from]);
}

/// The addresses of the last words of the objects of a piece of the live list, from one index up to another, and zeros after them.
fn last_words(image: &Listed<'_>, from: usize, to: usize) -> [u64; PIECE]
    requires piece { from % 64 ≡ 0 }
    requires some { from < to }
    requires few { to ≤ from + 64 }
    requires inside { to ≤ length image.now.live }
    ensures { take (to - from) result ≡ map (λ a. end_of image.now a - 1) (take (to - from) (drop from image.now.live)) }
{
    listed_image_is_valid(image);
    let objects = &image.live()[from..to];
    match image.sizes() {
        Sizes::Noted(pieces) => last_words_by_sizes(image, objects, &pieces[from / PIECE]),
        Sizes::Listed(sizes) => last_words_by_sizes(image, objects, &sizes[from..to]),
        Sizes::InHeaders(heap) => last_words_by_headers(image, &heap, objects),
    }
}

/// The addresses of the last words of a few objects by their headers, and zeros after them.
///
/// The loop does nothing but read headers, so that their cache misses overlap.
#[inline]
fn last_words_by_headers(image: &Listed<'_>, heap: &Heap<'_>, objects: &[u64]) -> [u64; PIECE]
    requires valid { IsValid image.now }
    requires heap { heap.now ≡ words_alone image.now }
    requires few { length objects.now ≤ 64 }
    requires sound { All (HasSoundHeader image.now) objects.now }
    ensures { take (length objects.now) result ≡ map (λ a. end_of image.now a - 1) objects.now }
{
    let mut lasts = [0; PIECE];
    for (i, &begin) in objects.iter().enumerate() {
        lasts[i] = begin + heap.size_at(begin) - 1;
    }
    lasts
}

/// The addresses of the last words of a few objects of these sizes, and zeros after them.
#[inline]
fn last_words_by_sizes(image: &Listed<'_>, objects: &[u64], sizes: &[u32]) -> [u64; PIECE]
    requires valid { IsValid image.now }
    requires few { length objects.now ≤ 64 }
    requires enough { length objects.now ≤ length sizes.now }
    requires sound { All (HasSoundHeader image.now) objects.now }
    requires sizes { AreSizesOf image.now objects.now sizes.now }
    ensures { take (length objects.now) result ≡ map (λ a. end_of image.now a - 1) objects.now }
{
    listed_image_is_valid(image);
    let mut lasts = [0; PIECE];
    for (i, &begin) in objects.iter().enumerate() {
        lasts[i] = begin + u64::from(sizes[i]) - 1;
    }
    lasts
}

/// Turns the end bits of a part of the heap into its live bits, by the begin bits.
fn turn_ends(image: &Listed<'_>, begins: &Bits, start: usize, words: &mut [u64])
    requires valid { IsValid image.now }
    requires begins { AreBegins image.now begins.now }
    requires inside { start + length words.old ≤ bit_words image.now }
    requires ends { AreBitsFrom (is_end image.now) start words.old }
    ensures room { length words.new ≡ length words.old }
    ensures bits { AreBitsFrom (is_live_word image.now) start words.new }
{
    let mut carried = u64::from(continues_at(image, 64 * start as u64));
    for i in 0..words.len() {
        let ends = words[i];
        let live = live_word(begins.word(start + i), ends, carried);
        words[i] = live;
        carried = (live >> 63) - (ends >> 63);
    }
}

/// Whether the word at this address belongs to an object that begins below it.
fn continues_at(image: &Listed<'_>, address: u64) -> bool
    ensures { result ≡ continues_at image.now address }
{
    let objects = image.live();
    let first = first_from(image, address);
    if first == 0 {
        return false;
    }
    address < objects[first - 1] + image.size_of(first - 1)
}

/// The live bits of a word, by its begin bits and end bits. `carried` is 1 if its first bit belongs to an object that
/// begins in a lower word, and otherwise 0.
///
/// The live bits of an object from bit `b` to bit `e` are `2 ^ (e + 1) - 2 ^ b`, and objects do not overlap. So the
/// live bits of a word are the difference of the sums, modulo `2 ^ 64`.
#[inline]
fn live_word(begins: u64, ends: u64, carried: u64) -> u64
    ensures { (result + begins + carried) % 2 ^ 64 ≡ 2 * ends % 2 ^ 64 }
{
    (ends << 1).wrapping_sub(begins).wrapping_sub(carried)
}
