//! The units of a heap that a step can leave out.
ghost use Rattle.std.specs.Prelude.{◌≡◌, ◌≤◌, ◌<◌, ◌^◌, IfOk};
ghost use Rattle.object_heap.specs.HeapImage.{HasSoundHeader};

use crate::shrinking::cut::Cut;
use crate::shrinking::part::Part;
use crate::shrinking::step::Step;
use heap_image::limits::MIN_REGION_LOG;
use heap_image::{Image, image_is_valid};
use std::alloc::{AllocError, Global};

/// The units of each part of a heap.
#[derive(Drop)]
pub(crate) struct Units<'a> {
    image: &'a Image,
    /// The addresses of the dead words below the end of the last live object, ascending.
    dead_words: Vec<u64>,
    /// The addresses of the words of live objects without their headers, ascending.
    fields: Vec<u64>,
    /// The addresses of those that are references and not null.
    references: Vec<u64>,
}

impl<'a> Units<'a> {
    /// The units of this heap.
    pub(crate) fn of(alloc: Global, image: &'a Image) -> Result<Units<'a>, AllocError>
        ensures { IfOk result (λ units. units.image.now ≡ image.now) }
    {
        Ok(Units {
            image,
            dead_words: dead_words_of(alloc, image)?,
            fields: fields_of(alloc, image)?,
            references: references_of(alloc, image)?,
        })
    }

    /// The heap.
    pub(crate) fn image(&self) -> &'a Image
        ensures { result.now ≡ self.now.image.now }
    {
        self.image
    }

    /// Whether each piece of this step, and of all later ones, is one unit that a step before leaves out.
    pub(crate) fn are_done_before(&self, step: Step) -> bool {
        let (roots, live) = (self.image.roots().len(), self.image.live().len());
        let words = self.dead_words.len().max(self.fields.len());
        let most = words
            .max(roots)
            .max(live)
            .max(self.image.regions() as usize);
        step.pieces > 1 && most as u64 <= step.pieces / 2
    }

    /// What this step leaves out. None if that is nothing, or what a step before leaves out.
    pub(crate) fn cut(&self, step: Step) -> Option<Cut> {
        let Step {
            part,
            pieces,
            piece,
            ..
        } = step;
        let count = self.count(part);
        if pieces > 1 && count <= pieces / 2 {
            return None;
        }
        let size = count.div_ceil(pieces);
        let from = piece.saturating_mul(size);
        let last = from.saturating_add(size).min(count).checked_sub(1)?;
        if last < from {
            return None;
        }
        Some(Cut {
            part,
            first: self.unit(part, from),
            last: self.unit(part, last),
        })
    }

    /// The number of units of a part.
    fn count(&self, part: Part) -> u64 {
        match part {
            Part::Roots => self.image.roots().len() as u64,
            Part::Objects | Part::Life => self.image.live().len() as u64,
            Part::Regions => u64::from(self.image.regions()),
            Part::DeadWords => self.dead_words.len() as u64,
            Part::Fields => self.fields.len() as u64,
            Part::References => self.references.len() as u64,
            Part::RegionLog => u64::from(self.image.region_log().saturating_sub(MIN_REGION_LOG)),
            Part::Allowance => u64::from(64 - self.image.allowance().leading_zeros()),
        }
    }

    /// The address, index or number of a unit of a part.
    fn unit(&self, part: Part, i: u64) -> u64 {
        let places = match part {
            Part::Objects | Part::Life => self.image.live(),
            Part::DeadWords => self.dead_words.as_slice(),
            Part::Fields => self.fields.as_slice(),
            Part::References => self.references.as_slice(),
            Part::Roots | Part::Regions | Part::RegionLog | Part::Allowance => return i,
        };
        match places.get(i as usize) {
            Some(place) => *place,
            None => 0,
        }
    }
}

/// The addresses of the dead words below the end of the last live object.
fn dead_words_of(alloc: Global, image: &Image) -> Result<Vec<u64>, AllocError> {
    let mut addresses = Vec::new(alloc);
    let mut end = 0;
    for a in image.live() {
        push_range(&mut addresses, end, *a)?;
        end = *a + image.size_at(*a);
    }
    Ok(addresses)
}

/// The addresses of the words of live objects without their headers.
fn fields_of(alloc: Global, image: &Image) -> Result<Vec<u64>, AllocError> {
    let mut addresses = Vec::new(alloc);
    for a in image.live() {
        push_range(&mut addresses, *a + 1, *a + image.size_at(*a))?;
    }
    Ok(addresses)
}

/// The addresses of the references of live objects that aren't null.
fn references_of(alloc: Global, image: &Image) -> Result<Vec<u64>, AllocError> {
    let mut addresses = Vec::new(alloc);
    for a in image.live() {
        push_references(&mut addresses, image, *a)?;
    }
    Ok(addresses)
}

fn push_range(addresses: &mut Vec<u64>, from: u64, to: u64) -> Result<(), AllocError> {
    for address in from..to {
        addresses.push(address)?;
    }
    Ok(())
}

/// Adds the addresses of the references of the live object at `a` that aren't null.
fn push_references(addresses: &mut Vec<u64>, image: &Image, a: u64) -> Result<(), AllocError>
    requires { HasSoundHeader image.now a }
{
    image_is_valid(image);
    for address in a + 1..a + 1 + image.references_at(a) {
        if image.word(address) != 0 {
            addresses.push(address)?;
        }
    }
    Ok(())
}
