//! Imports a heap dump as an image.
ghost use Rattle.std.specs.Prelude.{◌≡◌, IfOk, OnOk, IsTrue, ◌⊎◌, length};
ghost use Rattle.std.specs.Io.KnownBytes.{IsAtEnd};
ghost use Rattle.heap_dump.specs.Requested.{IsRequested};
ghost use Rattle.std.specs.List.Sorted.{IsStrictlyIncreasing};
ghost use Rattle.heap_dump.specs.Listing.{AreObjectsOf, ids_of};
ghost use Rattle.heap_dump.specs.Totals.{AreDeadWords, IsRanking, sums_of};

use crate::dead_words::DeadWords;
use crate::heap::draft::{Draft, Imported};
use crate::heap::packed::Packed;
use crate::listing::class_names::ClassNames;
use crate::listing::object_labels::ObjectLabels;
use crate::listing::{ListedObject, list_objects};
use crate::options::{Options, Regions};
use crate::totals::{ClassTotals, Totals, ranking};
use crate::transcription::transcribed::Transcribed;
use dump_objects::{Followed, Gaps, Inventory, UnsealedHeap};
use dump_records::ImportError;
use heap_image::{Fault, Intake};
use std::alloc::{AllocError, Global};

/// Makes an image of a heap dump. The dump is read twice: `first` and `second` both give it from its beginning.
///
/// `docs/DUMPS.md` says what is read and where it is in the image. At Ok, both readings are at the end of the dump.
pub fn import<R: Intake>(
    alloc: Global,
    first: &mut R,
    second: &mut R,
    options: Options,
) -> Result<Imported, ImportError>
    ensures requested { IfOk result (λ imported. IsRequested options imported) }
    // The whole dump is read.
    ensures first_end { OnOk result (IsAtEnd (R.left first.new)) }
    ensures second_end { OnOk result (IsAtEnd (R.left second.new)) }
    ensures input { result ≡ Err ImportError.Input
        → IsTrue (R.has_failed first.new) ⊎ IsTrue (R.has_failed second.new) }
{
    let (imported, _) = import_labelled(alloc, first, second, options, false)?;
    Ok(imported)
}

/// An image of a heap dump, with its objects and their classes.
#[derive(Drop)]
pub struct ListedImport {
    pub imported: Imported,
    /// The objects of the image, in the order of their addresses.
    pub objects: Vec<ListedObject>,
    /// The names of their classes.
    pub names: ClassNames,
}

/// Makes an image of a heap dump as [`import`] does, and lists its objects and their classes.
pub fn import_listed<R: Intake>(
    alloc: Global,
    first: &mut R,
    second: &mut R,
    options: Options,
) -> Result<ListedImport, ImportError>
    ensures requested { IfOk result (λ listed. IsRequested options listed.imported) }
    // Each object of the image once, by ascending addresses.
    ensures objects { IfOk result (λ listed. AreObjectsOf listed.imported.image listed.objects.items) }
    // Each has an id of its own, and they are in the order of these.
    ensures ids { IfOk result (λ listed. IsStrictlyIncreasing (ids_of listed.objects.items)) }
    ensures counted { IfOk result (λ listed. listed.imported.figures.objects ≡ length listed.objects.items) }
    ensures first_end { OnOk result (IsAtEnd (R.left first.new)) }
    ensures second_end { OnOk result (IsAtEnd (R.left second.new)) }
    ensures input { result ≡ Err ImportError.Input
        → IsTrue (R.has_failed first.new) ⊎ IsTrue (R.has_failed second.new) }
{
    let (imported, labels) = import_labelled(alloc, first, second, options, true)?;
    let ObjectLabels { labels, names } = labels;
    let objects = list_objects(alloc, &imported.image, labels.as_slice())?;
    if objects.len() as u64 != imported.figures.objects {
        return Err(ImportError::NoHeap(Fault::Length));
    }
    Ok(ListedImport {
        imported,
        objects,
        names,
    })
}

impl ListedImport {
    /// Sums all objects.
    pub fn totals(&self) -> Totals
        ensures { result ≡ sums_of self.now.objects.items }
    {
        Totals::of(self.objects.as_slice())
    }

    /// Ranks the classes that have objects by their words, the most first. Of two with as many words the lower number is
    /// first.
    pub fn ranking(&self, alloc: Global) -> Result<Vec<ClassTotals>, AllocError>
        ensures { IfOk result (λ ranked. IsRanking self.now.objects.items ranked.items) }
    {
        ranking(alloc, self.objects.as_slice())
    }

    /// Sums the words of the image that belong to no live object.
    pub fn dead_words(&self) -> DeadWords
        ensures { AreDeadWords self.now.names self.now.objects.items self.now.imported.figures.words result }
    {
        let words = self.imported.figures.words;
        DeadWords::of(self.objects.as_slice(), &self.names, words)
    }
}

/// Makes an image of a heap dump, and returns the labels of its objects if their classes are wanted.
fn import_labelled<R: Intake>(
    alloc: Global,
    first: &mut R,
    second: &mut R,
    options: Options,
    wants_classes: bool,
) -> Result<(Imported, ObjectLabels), ImportError>
    ensures requested { IfOk result (λ made. IsRequested options made.0) }
    ensures first_end { OnOk result (IsAtEnd (R.left first.new)) }
    ensures second_end { OnOk result (IsAtEnd (R.left second.new)) }
    ensures input { result ≡ Err ImportError.Input
        → IsTrue (R.has_failed first.new) ⊎ IsTrue (R.has_failed second.new) }
{
    let regions = options.regions()?;
    let inventory = Inventory::of(alloc, first, second, wants_classes)?;
    let built = if options.live_only {
        live_heap(alloc, inventory, second, regions, options.followed)
    } else {
        whole_heap(alloc, inventory, second, regions, options)
    };
    let (draft, labels) = built?;
    let imported = draft.into_image(alloc, regions, options)?;
    Ok((imported, labels))
}

/// Builds the heap with all objects of a dump, and the gaps between them.
fn whole_heap<R: Intake>(
    alloc: Global,
    mut inventory: Inventory,
    source: &mut R,
    regions: Regions,
    options: Options,
) -> Result<(Draft, ObjectLabels), ImportError>
    ensures end { OnOk result (IsAtEnd (R.left source.new)) }
    ensures input { result ≡ Err ImportError.Input → IsTrue (R.has_failed source.new) }
{
    let (gaps, followed) = (options.gaps(), options.followed);
    let words = inventory.measure(gaps).words();
    let most = regions.most_words_with_gaps(inventory.measure(Gaps::Dropped).words());
    if words > most {
        // The error names the words of the reachable objects, so the dump is read again.
        let live_words = Packed::of(alloc, inventory, followed, source)?
            .survivors
            .words;
        return Err(ImportError::TooManyWords {
            words,
            most,
            live_words,
        });
    }
    let placed = inventory.place(alloc, regions.log, gaps)?;
    let mut transcribed = Transcribed::of(alloc, &mut inventory, placed, followed, source)?;
    inventory.objects.seal(&mut transcribed.heap)?;
    Ok(transcribed.into_draft(inventory.into_roots()))
}

/// Builds the heap with the reachable objects of a dump, without gaps.
fn live_heap<R: Intake>(
    alloc: Global,
    inventory: Inventory,
    source: &mut R,
    regions: Regions,
    followed: Followed,
) -> Result<(Draft, ObjectLabels), ImportError>
    ensures end { OnOk result (IsAtEnd (R.left source.new)) }
    ensures input { result ≡ Err ImportError.Input → IsTrue (R.has_failed source.new) }
{
    let Packed {
        mut transcribed,
        survivors,
        mut roots,
    } = Packed::of(alloc, inventory, followed, source)?;
    let (words, most) = (survivors.words, regions.most_words());
    if words > most {
        return Err(ImportError::TooManyLiveWords { words, most });
    }
    let mut heap = UnsealedHeap::new(alloc, regions.log, words)?;
    survivors.evacuate(&mut transcribed.heap, &mut heap, roots.as_mut_slice())?;
    survivors.move_weak(&transcribed.heap, &mut transcribed.weak);
    transcribed.heap = heap;
    Ok(transcribed.into_draft(roots))
}
