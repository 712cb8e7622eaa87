//! The objects of an imported image, one by one.
ghost use Rattle.std.specs.Prelude.{◌≡◌, ◌≢◌, ◌<◌, ◌≤◌, ◌+◌, ◌^◌, IfOk, IfSome, OnOk, IsTrue, MatchOption, Some, ◌++◌, length, slice_get, string_bytes};
ghost use Rattle.std.specs.List.Sorted.{IsStrictlyIncreasing};
ghost use Rattle.object_heap.specs.HeapImage.{heap_words, word_at};
ghost use Rattle.heap_dump.specs.ClassNames.{id_text, newlines};
ghost use Rattle.heap_dump.specs.Listing.{AreLabelled, AreObjectsBefore, AreObjectsOf, IsNextLive, IsObjectAt, ids_of, labels_of};

pub(crate) mod class_kind;
pub(crate) mod class_names;
pub(crate) mod class_number;
pub(crate) mod object_count;
pub(crate) mod object_labels;

use dump_records::ImportError;
use heap_image::{Fault, Image};
use object_labels::Label;
use std::alloc::{AllocError, Global};

/// An object of an image.
#[derive(Clone, Copy)]
pub struct ListedObject {
    /// The address in the image.
    pub address: u64,
    /// The id in the dump, which is the address in the machine.
    pub id: u64,
    /// The number of words, header included.
    pub words: u64,
    /// The number of words in the machine: up to the next object, if no more than padding is between. Otherwise no one knows, and
    /// it is the number in the image.
    pub machine_words: u64,
    /// The number of its class.
    pub class: u32,
    /// Whether it is reachable from the roots.
    pub is_live: bool,
}

impl ListedObject {
    /// Appends the id in hexadecimal, as other tools for Java heaps show it: `0xd5f88a28`.
    #[tactic(auto, using(crate::proofs::Lemmas::Names::id_short, crate::proofs::Lemmas::Names::id_line))]
    pub fn push_id(&self, line: &mut String) -> Result<(), AllocError>
        ensures id { OnOk result (string_bytes line.new ≡ string_bytes line.old ++ id_text self.now.id) }
        ensures short { OnOk result (length (id_text self.now.id) ≤ 18) }
        ensures no_line { OnOk result (newlines (id_text self.now.id) ≡ 0) }
    {
        let id = self.id;
        write!(line, "0x{id:x}")
    }
}

/// The objects of an image up to some address.
#[derive(Drop)]
struct ObjectList {
    objects: Vec<ListedObject>,
    /// How many of them are live.
    live: usize,
    /// The id of the last one, or 0.
    last_id: u64,
}

/// Lists the objects of an image in the order of their addresses. `labels` has the label of each.
///
/// Outside its objects an imported image has words 0 only, so any other word there is the header of the next object. An
/// image for which that isn't so gives an error, and so do ids that don't ascend.
pub(crate) fn list_objects(
    alloc: Global,
    image: &Image,
    labels: &[Label],
) -> Result<Vec<ListedObject>, ImportError>
    ensures objects { IfOk result (λ objects. AreObjectsOf image.now objects.items) }
    // Each has the label that was noted of it.
    ensures labels { IfOk result (λ objects. labels_of objects.items ≡ labels.now) }
    ensures ascend { IfOk result (λ objects. IsStrictlyIncreasing (ids_of objects.items)) }
    ensures no_device { result ≢ Err ImportError.Input }
{
    let mut list = ObjectList {
        objects: Vec::with_capacity(alloc, labels.len())?,
        live: 0,
        last_id: 0,
    };
    let mut at = 0;
    while at < image.len() {
        at = list.step(image, labels, at)?;
    }
    list.finish(image, labels)
}

impl ObjectList {
    /// Lists the object at an address, if there is one, and returns the address after it.
    fn step(&mut self, image: &Image, labels: &[Label], at: u64) -> Result<u64, ImportError>
        requires inside { at < heap_words image.now }
        requires before { AreObjectsBefore image.now self.old.live at self.old.objects.items }
        requires labelled { AreLabelled labels.now self.old.last_id self.old.objects.items }
        ensures objects { IfOk result (λ next. AreObjectsBefore image.now self.new.live next self.new.objects.items) }
        ensures labelled { OnOk result (AreLabelled labels.now self.new.last_id self.new.objects.items) }
        ensures later { IfOk result (λ next. at < next) }
        ensures within { IfOk result (λ next. next ≤ heap_words image.now) }
        ensures no_device { result ≢ Err ImportError.Input }
    {
        let Some(words) = words_of_object(image, at)? else {
            return Ok(at + 1);
        };
        self.push(image, labels, at, words)?;
        Ok(at + words)
    }

    /// Lists an object of this size.
    fn push(
        &mut self,
        image: &Image,
        labels: &[Label],
        address: u64,
        words: u64,
    ) -> Result<(), ImportError>
        requires object { IsObjectAt image.now address words }
        requires before { AreObjectsBefore image.now self.old.live address self.old.objects.items }
        requires labelled { AreLabelled labels.now self.old.last_id self.old.objects.items }
        ensures objects { OnOk result (AreObjectsBefore image.now self.new.live (address + words) self.new.objects.items) }
        ensures labelled { OnOk result (AreLabelled labels.now self.new.last_id self.new.objects.items) }
        ensures no_device { result ≢ Err ImportError.Input }
    {
        let Some(label) = self.next_label(labels) else {
            return Err(ImportError::NoHeap(Fault::Header(address)));
        };
        let is_live = is_next_live(image, self.live, address);
        self.objects.push(ListedObject {
            address,
            id: label.id,
            words,
            machine_words: label.machine_words,
            class: label.class,
            is_live,
        })?;
        self.last_id = label.id;
        if is_live {
            self.live += 1;
        }
        Ok(())
    }

    /// The label of the next object, unless its id isn't above that of the last one.
    fn next_label(&self, labels: &[Label]) -> Option<Label>
        ensures next { IfSome result (λ label. slice_get labels.now (length self.now.objects.items) ≡ Some label) }
        ensures above { IfSome result (λ label. self.now.last_id < label.id) }
    {
        let label = labels.get(self.objects.len()).copied()?;
        if label.id > self.last_id {
            Some(label)
        } else {
            None
        }
    }

    /// Returns the objects. It is an error if there are other live ones, or objects without a label.
    fn finish(self, image: &Image, labels: &[Label]) -> Result<Vec<ListedObject>, ImportError>
        requires before { AreObjectsBefore image.now self.live (heap_words image.now) self.objects.items }
        requires labelled { AreLabelled labels.now self.last_id self.objects.items }
        ensures objects { IfOk result (λ objects. AreObjectsOf image.now objects.items) }
        ensures labels { IfOk result (λ objects. labels_of objects.items ≡ labels.now) }
        ensures ascend { IfOk result (λ objects. IsStrictlyIncreasing (ids_of objects.items)) }
        ensures no_device { result ≢ Err ImportError.Input }
    {
        let ObjectList { objects, live, .. } = self;
        if live != image.live().len() || objects.len() != labels.len() {
            return Err(ImportError::NoHeap(Fault::Length));
        }
        Ok(objects)
    }
}

/// The number of words of the object at an address, if there is one.
fn words_of_object(image: &Image, at: u64) -> Result<Option<u64>, ImportError>
    requires inside { at < heap_words image.now }
    ensures found { IfOk result (λ found. MatchOption found (word_at image.now at ≡ 0) (λ words. IsObjectAt image.now at words)) }
    ensures small { heap_words image.now < 2 ^ 64 }
    ensures no_device { result ≢ Err ImportError.Input }
{
    let end = image.len();
    if image.word(at) == 0 {
        return Ok(None);
    }
    let words = image.heap().size_at(at);
    if words == 0 || words > end - at {
        return Err(ImportError::NoHeap(Fault::Header(at)));
    }
    Ok(Some(words))
}

/// Whether the live address with this index is this one.
fn is_next_live(image: &Image, index: usize, address: u64) -> bool
    ensures next { IsTrue result → IsNextLive image.now index address }
    ensures few { IsTrue result → index < 68719476736 }
{
    let live = image.live();
    index < live.len() && live[index] == address
}
