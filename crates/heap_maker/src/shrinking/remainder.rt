//! The heap that is left after a cut.
ghost use Rattle.std.specs.Prelude.{◌≡◌, ◌≤◌, ◌<◌, ◌^◌, IfOk, IfSome, length};
ghost use Rattle.object_heap.specs.HeapImage.{AreBlocks, HasSoundHeader, IsValid, end_of, heap_words};

use crate::shrinking::cut::Cut;
use crate::shrinking::part::Part;
use heap_image::header::{OBJECT, references};
use heap_image::{
    Alone, Fault, Image, UncheckedParts, image_is_valid, image_of_regions, regions_by_log,
};
use raw_region::Region;
use std::alloc::{AllocError, Global};

/// The image of what is left of the heap. None if that isn't valid.
pub(crate) fn image_without(
    alloc: Global,
    image: &Image,
    cut: Cut,
) -> Result<Option<Image>, AllocError>
    ensures { IfOk result (λ left. IfSome left (λ left. IsValid left × (left.version ≡ image.now.version))) }
{
    match image_of_regions(alloc, parts_without(alloc, image, cut)?, &Alone) {
        Ok(image) => Ok(Some(image)),
        Err(refused) => match refused.fault {
            Fault::Memory => Err(AllocError),
            _ => Ok(None),
        },
    }
}

/// The parts of what is left of the heap.
fn parts_without(alloc: Global, image: &Image, cut: Cut) -> Result<UncheckedParts, AllocError>
    ensures version { IfOk result (λ parts. parts.version ≡ image.now.version) }
    ensures regions { IfOk result (λ parts. AreBlocks parts.region_log parts.regions.items) }
{
    let mut kept = Source { image, cut }.kept(alloc)?;
    let places = NewPlaces {
        live: image.live(),
        references: kept.references.as_slice(),
    };
    places.redirect_all(kept.words.as_mut_slice());
    let fewer = cut.count_of(Part::RegionLog).min(20) as u32;
    let region_log = image.region_log().saturating_sub(fewer);
    Ok(UncheckedParts {
        version: image.version(),
        region_log,
        allowance: image.allowance() >> cut.count_of(Part::Allowance).min(63),
        regions: regions_of(alloc, kept.words.as_slice(), region_log)?,
        tail: places.tail(alloc, image, cut)?,
    })
}

/// A heap, and what is left out of it.
#[derive(Clone, Copy)]
struct Source<'a> {
    image: &'a Image,
    cut: Cut,
}

/// The words that are left, in order.
#[derive(Drop)]
struct Kept {
    words: Vec<u64>,
    /// For each live object the reference that leads to it now, or null if it is left out.
    references: Vec<u64>,
}

impl Source<'_> {
    /// The words that are left. References are the old ones.
    fn kept(self, alloc: Global) -> Result<Kept, AllocError> {
        let mut kept = Kept {
            words: Vec::new(alloc),
            references: Vec::new(alloc),
        };
        let mut end = 0;
        for a in self.image.live() {
            self.keep_dead(&mut kept.words, end, *a)?;
            self.keep_object(&mut kept, *a)?;
            end = *a + self.image.size_at(*a);
        }
        self.keep_free(&mut kept.words, end)?;
        Ok(kept)
    }

    /// Keeps the dead words from `from` up to `to`, but for those that are cut.
    fn keep_dead(self, words: &mut Vec<u64>, from: u64, to: u64) -> Result<(), AllocError>
        requires { to ≤ heap_words self.image.now }
    {
        for address in from..to {
            if !self.cut.covers(Part::DeadWords, address) {
                self.keep_word(words, address)?;
            }
        }
        Ok(())
    }

    /// Keeps the words from the end of the last live object on.
    fn keep_free(self, words: &mut Vec<u64>, from: u64) -> Result<(), AllocError> {
        for address in from..self.image.len() {
            self.keep_word(words, address)?;
        }
        Ok(())
    }

    /// Keeps a word that belongs to no live object, unless its region is cut.
    fn keep_word(self, words: &mut Vec<u64>, address: u64) -> Result<(), AllocError>
        requires { address < heap_words self.image.now }
    {
        let region = address >> self.image.region_log();
        if !self.cut.covers(Part::Regions, region) {
            words.push(self.image.word(address))?;
        }
        Ok(())
    }

    /// Keeps the live object at `a`, or what is left of it.
    fn keep_object(self, kept: &mut Kept, a: u64) -> Result<(), AllocError>
        requires { HasSoundHeader self.image.now a }
    {
        image_is_valid(self.image);
        if self.cut.covers(Part::Objects, a) {
            kept.references.push(0)?;
            return Ok(());
        }
        let end = a + self.image.size_at(a);
        if self.cut.covers(Part::Life, a) || self.loses_region(a, end) {
            kept.references.push(0)?;
            return self.keep_dead(&mut kept.words, a, end);
        }
        kept.references.push(1 + kept.words.len() as u64)?;
        kept.words.push(self.new_header(a))?;
        let data = a + 1 + self.image.references_at(a);
        self.keep_references(&mut kept.words, a + 1, data)?;
        self.keep_data(&mut kept.words, data, end)
    }

    /// Whether a region of the words from `from` up to `to` is cut.
    fn loses_region(self, from: u64, to: u64) -> bool
        requires some { 1 ≤ to }
        requires few { to ≤ heap_words self.image.now }
    {
        image_is_valid(self.image);
        let log = self.image.region_log();
        self.cut
            .count_in(Part::Regions, from >> log, ((to - 1) >> log) + 1)
            > 0
    }

    /// The header of the live object at `a` without the fields that are cut.
    fn new_header(self, a: u64) -> u64
        requires { HasSoundHeader self.image.now a }
    {
        image_is_valid(self.image);
        let (size, references) = (self.image.size_at(a), self.image.references_at(a));
        let fewer = self.cut.count_in(Part::Fields, a + 1, a + size);
        let fewer_references = self.cut.count_in(Part::Fields, a + 1, a + 1 + references);
        u64::from(OBJECT) << 56 | (references - fewer_references) << 32 | (size - fewer)
    }

    /// Keeps the references of a live object from `from` up to `to`, but for fields that are cut. References that are cut
    /// become null.
    fn keep_references(self, words: &mut Vec<u64>, from: u64, to: u64) -> Result<(), AllocError>
        requires { to ≤ heap_words self.image.now }
    {
        for address in from..to {
            if self.cut.covers(Part::References, address) {
                words.push(0)?;
            } else {
                self.keep_field(words, address)?;
            }
        }
        Ok(())
    }

    /// Keeps the data words of a live object from `from` up to `to`, but for fields that are cut.
    fn keep_data(self, words: &mut Vec<u64>, from: u64, to: u64) -> Result<(), AllocError>
        requires { to ≤ heap_words self.image.now }
    {
        for address in from..to {
            self.keep_field(words, address)?;
        }
        Ok(())
    }

    /// Keeps a word of a live object behind its header, unless it is cut.
    fn keep_field(self, words: &mut Vec<u64>, address: u64) -> Result<(), AllocError>
        requires { address < heap_words self.image.now }
    {
        if !self.cut.covers(Part::Fields, address) {
            words.push(self.image.word(address))?;
        }
        Ok(())
    }
}

/// Where the live objects are now.
#[derive(Clone, Copy)]
struct NewPlaces<'a> {
    /// Their old addresses, ascending.
    live: &'a [u64],
    /// For each the reference that leads to it now, or null if it is left out.
    references: &'a [u64],
}

impl NewPlaces<'_> {
    /// The reference that leads to the object to which this one led, or null if that is left out.
    fn redirected(self, reference: u64) -> u64 {
        let Some(address) = reference.checked_sub(1) else {
            return 0;
        };
        let new = match self.live.binary_search(&address) {
            Ok(i) => self.references.get(i),
            Err(_) => None,
        };
        match new {
            Some(new) => *new,
            None => 0,
        }
    }

    /// Redirects the references of all live objects among these words.
    fn redirect_all(self, words: &mut [u64]) {
        for reference in self.references {
            self.redirect_object(words, *reference);
        }
    }

    /// Redirects the references of the object to which this reference leads among these words.
    fn redirect_object(self, words: &mut [u64], reference: u64) {
        let Some(address) = reference.checked_sub(1) else {
            return;
        };
        let Some(object) = words.get_mut(address as usize..) else {
            return;
        };
        let Some((header, fields)) = object.split_first_mut() else {
            return;
        };
        let count = references(*header) as usize;
        for field in fields.iter_mut().take(count) {
            *field = self.redirected(*field);
        }
    }

    /// The roots of this heap, or in version 1 its live list, as they are now.
    fn tail(self, alloc: Global, image: &Image, cut: Cut) -> Result<Vec<u64>, AllocError> {
        if image.version().has_roots() {
            self.roots(alloc, image.roots(), cut)
        } else {
            self.live_list(alloc)
        }
    }

    /// These roots, redirected, without those that are cut.
    fn roots(self, alloc: Global, roots: &[u64], cut: Cut) -> Result<Vec<u64>, AllocError> {
        let mut left = Vec::new(alloc);
        for (i, root) in roots.iter().enumerate() {
            if !cut.covers(Part::Roots, i as u64) {
                left.push(self.redirected(*root))?;
            }
        }
        Ok(left)
    }

    /// The addresses of the live objects that are left.
    fn live_list(self, alloc: Global) -> Result<Vec<u64>, AllocError> {
        let mut live = Vec::new(alloc);
        for reference in self.references {
            if let Some(address) = reference.checked_sub(1) {
                live.push(address)?;
            }
        }
        Ok(live)
    }
}

/// These words in regions, at least one. The last one is filled with zeros.
fn regions_of(alloc: Global, words: &[u64], region_log: u32) -> Result<Vec<Region>, AllocError>
    requires { region_log ≤ 20 }
    ensures { IfOk result (λ regions. AreBlocks region_log regions.items) }
{
    regions_by_log();
    let region_words = 1usize << region_log;
    let mut regions = Vec::new(alloc);
    for r in 0..words.len().div_ceil(region_words).max(1) {
        let rest = words.get(r * region_words..).unwrap_or(&[]);
        let region = region_of(alloc, rest, region_log)?;
        regions.push(region)?;
    }
    Ok(regions)
}

/// A region of `2 ^ region_log` words, the first of these, and zeros if there are fewer.
fn region_of(alloc: Global, words: &[u64], region_log: u32) -> Result<Region, AllocError>
    requires { region_log ≤ 20 }
    ensures { IfOk result (λ region. length region ≡ 2 ^ region_log) }
{
    regions_by_log();
    let region_words = 1usize << region_log;
    if words.len() >= region_words {
        return Region::of_words(alloc, &words[..region_words]);
    }
    let mut region = Region::new(alloc, region_words)?;
    for i in 0..words.len() {
        region.set(i, words[i]);
    }
    Ok(region)
}
