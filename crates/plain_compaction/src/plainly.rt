//! `compact_plainly`: the compaction, each word by its definition.

ghost use Rattle.std.specs.Prelude.{true, ◌≡◌, ◌+◌, ◌-◌, ◌*◌, ◌^◌, ◌<◌, ◌≤◌, IfOk, IfNone, map, option_map, count_by};
ghost use Rattle.std.specs.List.{list_any, range_with_len};
ghost use Rattle.object_heap.specs.HeapImage.{region_count, word_at, size_at, references_at, is_word_of, is_live_word, is_dead_word, last_end};
ghost use Rattle.summary.specs.NewAddresses.{prefix_end, next_after, next_at, new_address, new_live, new_top};
ghost use Rattle.summary.specs.WordMoves.{origin};
ghost use Rattle.summary.specs.Fillers.{gap_at, filler_word};
ghost use Rattle.summary.specs.Compaction.{redirected, is_reference_of, carried, compacted_word, compact};
ghost use Rattle.summary.specs.RegionData.{region_addresses};
ghost use Rattle.plain_compaction.specs.Placement.{IsPrefix, IsPlacement};

use heap_image::{Image, ImageParts, header};
use raw_region::Region;
use std::alloc::{AllocError, Global};
use summary::laws::plan_laws;
use summary::laws::plans::image_is_own;
use summary::{FILLER_STRIDE, filler_limit};

/// Where the live objects of an image go.
#[derive(Drop)]
struct Placement {
    prefix_end: u64,
    new_live: Vec<u64>,
    new_top: u64,
}

impl Placement {
    fn of(alloc: Global, image: &Image) -> Result<Placement, AllocError>
        ensures { IfOk result (λ places. IsPlacement image.now places) }
    {
        let prefix = prefix_end(image);
        let mut live = Vec::new(alloc);
        for a in image.live() {
            live.push(new_address(image, prefix, *a))?;
        }
        Ok(Placement {
            prefix_end: prefix,
            new_live: live,
            new_top: next_at(image, prefix, image.len()),
        })
    }
}

/// The compaction of an image: the dense prefix with fillers in its gaps, then all other live words in their order
/// without a gap, and zeros up to the end. The live list has the new addresses; the region log and the allowance stay.
///
/// Fails only if memory runs out.
pub fn compact_plainly(alloc: Global, image: &Image) -> Result<Image, AllocError>
    ensures { IfOk result (λ new. new ≡ compact image.now) }
{
    plan_laws();
    image_is_own(image);
    let places = Placement::of(alloc, image)?;
    let mut regions = Vec::new(alloc);
    for r in 0..image.regions() {
        regions.push(compacted_region(alloc, image, &places, r)?)?;
    }
    let roots = new_roots(alloc, image, places.prefix_end)?;
    let Placement { new_live, .. } = places;
    let parts = ImageParts {
        version: image.version(),
        region_log: image.region_log(),
        allowance: image.allowance(),
        regions,
        live: new_live,
        roots,
    };
    Ok(parts.into_image())
}

/// The redirected roots, or `None` for an image of version 1.
fn new_roots(alloc: Global, image: &Image, prefix: u64) -> Result<Option<Vec<u64>>, AllocError>
    requires { IsPrefix image.now prefix }
    ensures { IfOk result (λ roots. option_map (λ v. v.items) roots ≡ option_map (map (redirected image.now)) image.now.roots) }
{
    if !image.version().has_roots() {
        return Ok(None);
    }
    let mut roots = Vec::new(alloc);
    for w in image.roots() {
        roots.push(redirected(image, prefix, *w))?;
    }
    Ok(Some(roots))
}

fn compacted_region(
    alloc: Global,
    image: &Image,
    places: &Placement,
    r: u32,
) -> Result<Region, AllocError>
    requires places { IsPlacement image.now places.now }
    requires inside { r < region_count image.now }
    ensures { IfOk result (λ region. region ≡ map (compacted_word image.now) (region_addresses image.now r)) }
{
    let len = image.region_words();
    let start = u64::from(r) * len;
    let mut region = Region::new(alloc, len as usize)?;
    for i in 0..len {
        region.set(i as usize, compacted_word(image, places, start + i));
    }
    Ok(region)
}

fn compacted_word(image: &Image, places: &Placement, p: u64) -> u64
    requires places { IsPlacement image.now places.now }
    ensures { result ≡ compacted_word image.now p }
{
    if p >= places.new_top {
        return 0;
    }
    match origin(image, &places.new_live, p) {
        Some(q) => carried(image, places.prefix_end, q),
        None => filler_word(image, places.prefix_end, p),
    }
}

/// The old address of the word that goes to `p`.
fn origin(image: &Image, places: &[u64], p: u64) -> Option<u64>
    requires { places.now ≡ new_live image.now }
    ensures value { result ≡ origin image.now p }
    ensures nowhere { IfNone result (p < new_top image.now → p < prefix_end image.now) }
{
    plan_laws();
    for (i, a) in image.live().iter().enumerate() {
        let place = places[i];
        if place <= p && p - place < size_at(image, *a) {
            return Some(*a + (p - place));
        }
    }
    None
}

/// The word at the old address `q`, redirected if it is a reference of a live object.
fn carried(image: &Image, prefix: u64, q: u64) -> u64
    requires { IsPrefix image.now prefix }
    ensures { result ≡ carried image.now (λ _. true) q }
{
    image_is_own(image);
    let word = word_or_zero(image, q);
    if is_reference(image, q) {
        redirected(image, prefix, word)
    } else {
        word
    }
}

/// Null stays null, and a reference to an object leads to its new address.
fn redirected(image: &Image, prefix: u64, word: u64) -> u64
    requires { IsPrefix image.now prefix }
    ensures { result ≡ redirected image.now word }
{
    if word == 0 {
        0
    } else {
        new_address(image, prefix, word - 1) + 1
    }
}

/// The word at `p` of a filler: a header at the first word of its gap, then zeros.
fn filler_word(image: &Image, prefix: u64, p: u64) -> u64
    requires prefix { IsPrefix image.now prefix }
    requires inside { p < prefix }
    ensures { result ≡ filler_word image.now p }
{
    if p % FILLER_STRIDE == 0 || is_live_word(image, p - 1) {
        header::filler(gap_at(image, prefix, p) as u32)
    } else {
        0
    }
}

/// The number of consecutive dead words from `p` on, up to the limit of a filler.
fn gap_at(image: &Image, prefix: u64, p: u64) -> u64
    requires prefix { IsPrefix image.now prefix }
    requires inside { p < prefix }
    ensures value { result ≡ gap_at image.now p }
    ensures small { result < 2 ^ 32 }
{
    plan_laws();
    let end = filler_limit(prefix, p);
    for q in p..end {
        if is_live_word(image, q) {
            return q - p;
        }
    }
    end - p
}

/// An object that begins in the dense prefix stays; any other goes to the next free address.
fn new_address(image: &Image, prefix: u64, a: u64) -> u64
    requires { IsPrefix image.now prefix }
    ensures value { result ≡ new_address image.now a }
    ensures small { result < 2 ^ 60 }
{
    if a < prefix {
        a
    } else {
        next_at(image, prefix, a)
    }
}

/// The next free address after all live objects below `limit` are placed.
fn next_at(image: &Image, prefix: u64, limit: u64) -> u64
    requires { IsPrefix image.now prefix }
    ensures value { result ≡ next_at image.now limit }
    ensures small { result < 2 ^ 60 }
{
    plan_laws();
    let mut next = prefix;
    for a in image.live() {
        if *a < limit {
            next = next_after(image, prefix, next, *a);
        }
    }
    next
}

/// The next free address after the object at `a` is placed too.
fn next_after(image: &Image, prefix: u64, next: u64, a: u64) -> u64
    requires prefix { IsPrefix image.now prefix }
    requires next_fits { next < 2 ^ 60 }
    requires fits { a < 2 ^ 60 }
    ensures { result ≡ next_after image.now next a }
{
    if a < prefix {
        next.max(a + size_at(image, a))
    } else {
        next + size_at(image, a)
    }
}

/// The last region start that is not above the end of the last live object and has no more dead words below it than
/// the allowance.
fn prefix_end(image: &Image) -> u64
    ensures { IsPrefix image.now result }
{
    plan_laws();
    let region_words = image.region_words();
    let mut dead = 0;
    let mut regions = 0;
    for r in 0..last_end(image) / region_words {
        dead += dead_words(image, r * region_words, region_words);
        if dead <= image.allowance() {
            regions = r + 1;
        }
    }
    regions * region_words
}

/// The number of dead words among the `n` words from `from` on.
fn dead_words(image: &Image, from: u64, n: u64) -> u64
    requires fits { from + n < 2 ^ 64 }
    ensures value { result ≡ count_by (is_dead_word image.now) (range_with_len from n) }
    ensures few { result ≤ n }
{
    let mut count = 0;
    for q in from..from + n {
        if !is_live_word(image, q) {
            count += 1;
        }
    }
    count
}

fn last_end(image: &Image) -> u64
    ensures { result ≡ last_end image.now }
{
    let mut end = 0;
    for a in image.live() {
        end = *a + size_at(image, *a);
    }
    end
}

fn is_live_word(image: &Image, q: u64) -> bool
    ensures { result ≡ is_live_word image.now q }
{
    image.live().iter().any(|a| is_word_of(image, *a, q))
}

/// Whether `q` is one of the words of the object at `a`.
fn is_word_of(image: &Image, a: u64, q: u64) -> bool
    ensures { result ≡ is_word_of image.now a q }
{
    a <= q && q - a < size_at(image, a)
}

/// Whether `q` is a reference of a live object.
fn is_reference(image: &Image, q: u64) -> bool
    ensures { result ≡ list_any (λ a. is_reference_of image.now a q) image.now.live }
{
    image.live().iter().any(|a| is_reference_of(image, *a, q))
}

/// Whether `q` is one of the references of the object at `a`.
fn is_reference_of(image: &Image, a: u64, q: u64) -> bool
    ensures { result ≡ is_reference_of image.now a q }
{
    a < q && q - a <= references_at(image, a)
}

fn references_at(image: &Image, a: u64) -> u64
    ensures { result ≡ references_at image.now a }
{
    image_is_own(image);
    u64::from(header::references(word_or_zero(image, a)))
}

fn size_at(image: &Image, a: u64) -> u64
    ensures value { result ≡ size_at image.now a }
    ensures small { result < 2 ^ 32 }
{
    image_is_own(image);
    u64::from(header::size(word_or_zero(image, a)))
}

/// The word at an address, or 0 after the end of the heap.
fn word_or_zero(image: &Image, a: u64) -> u64
    ensures { result ≡ word_at image.now a }
{
    if a < image.len() { image.word(a) } else { 0 }
}
