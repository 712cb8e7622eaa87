//! The objects of a dump by their ids.
ghost use Rattle.std.specs.Prelude.{◌≢◌};

use super::classes::Classes;
use super::known_classes::KnownClasses;
use super::resolution::{BATCH, Resolution};
use super::sections::Sections;
use crate::heap::arrangement::{Arrangement, Gaps};
use crate::heap::weak_reference::WeakReference;
use crate::heap::{UnsealedHeap, first_word, header};
use dump_records::{Dump, ImportError, Problem};
use std::alloc::{AllocError, Global};
use std::mem::size_of;

/// The number of objects after which ids are first checked for repetition.
const FIRST_LOOK: usize = 65_536;

/// The most words by which an object may be larger in the machine than in an image, which has a header of one word: the header of
/// an instance has at most 2 words there, that of an array 3, and a class has up to 17 words of fields that a dump leaves out.
pub const INSTANCE_PADDING: u64 = 1;

pub const ARRAY_PADDING: u64 = 2;

pub const CLASS_PADDING: u64 = 17;

/// What is known of an object at each step of the import.
#[derive(Clone, Copy)]
pub enum Object {
    /// An instance of the class with this id, whose fields have this number of bytes.
    Instance { bytes: u32, class: u64 },
    /// An object of this number of words. `class` is the number of a class itself, of an instance's class, or 0 for an
    /// array.
    Sized { class: u32, words: u64 },
    /// An object at this address.
    Placed { class: u32, address: u64 },
}

#[derive(Clone, Copy)]
struct Entry {
    id: u64,
    object: Object,
}

// An empty array has 14 bytes in a dump, and an import may use three times the size of its dump.
const _: () = prove!(size_of::<Entry>() == 24);

/// The place of an object.
#[derive(Clone, Copy)]
pub struct Place {
    /// Its index in the order of ids.
    pub index: usize,
    pub address: u64,
    /// The number of the class itself or of the instance's class, else 0.
    pub class: u32,
}

/// The objects of a dump.
///
/// They are sorted rather than hashed, so no choice of ids makes an import slow.
pub struct Objects {
    /// In the order of the dump while it is read, then of ids.
    entries: Vec<Entry>,
    /// Where to search for an id, once the ids are sorted.
    sections: Sections,
    /// The number of objects after which ids are next checked for repetition.
    next_look: usize,
    alloc: Global,
}

impl Drop for Objects {
    fn drop(self) {
        let Objects {
            entries: _,
            sections: _,
            next_look: _,
            alloc: _,
        } = self;
    }
}

impl Objects {
    /// No objects yet.
    pub fn new(alloc: Global) -> Objects {
        Objects {
            entries: Vec::new(alloc),
            sections: Sections::new(alloc),
            next_look: FIRST_LOOK,
            alloc,
        }
    }

    /// How many there are.
    pub fn len(&self) -> usize {
        self.entries.len()
    }

    /// Adds the object of the last record.
    ///
    /// A repeated id is not always an error at once. Once all are added, [`sort`](Objects::sort) reports whether one is
    /// repeated; its position is found by reading the dump again, so the error here is only a reason to stop.
    pub fn add(&mut self, dump: &Dump, id: u64, object: Object) -> Result<(), ImportError>
        ensures { result ≢ Err ImportError.Input }
    {
        if id == 0 {
            return Err(dump.problem(Problem::NullObject));
        }
        self.entries.push(Entry { id, object })?;
        if self.entries.len() < self.next_look {
            return Ok(());
        }
        self.next_look = self.entries.len().saturating_mul(2);
        if self.sort() {
            return Err(dump.problem(Problem::SecondObject(id)));
        }
        Ok(())
    }

    /// Sorts the objects by their ids, and returns whether two have one id.
    pub fn sort(&mut self) -> bool {
        self.entries.sort_unstable_by_key(|entry| entry.id);
        // No object has id 0.
        let mut last = 0;
        for entry in self.entries.as_slice() {
            if entry.id == last {
                return true;
            }
            last = entry.id;
        }
        false
    }

    /// Divides the sorted ids into sections, for quick search.
    pub fn divide(&mut self) -> Result<(), AllocError> {
        let entries = self.entries.as_slice();
        let (Some(first), Some(last)) = (entries.first(), entries.last()) else {
            return Ok(());
        };
        self.sections = Sections::between(self.alloc, first.id, last.id, entries.len());
        for (index, entry) in entries.iter().enumerate() {
            self.sections.add(entry.id, index)?;
        }
        self.sections.end(entries.len())
    }

    /// Determines the class and the number of words of each instance.
    pub fn size_instances(&mut self, classes: &Classes) {
        for index in 0..self.entries.len() {
            let Some(entry) = self.entries.get(index) else {
                return;
            };
            let Object::Instance { bytes, class } = entry.object else {
                continue;
            };
            let class = self.class_number(classes, class);
            let words = classes.instance_words(class, bytes);
            if let Some(entry) = self.entries.get_mut(index) {
                entry.object = Object::Sized { class, words };
            }
        }
    }

    /// The number of the class with this id, or 0 if the dump has none.
    pub fn class_number(&self, classes: &Classes, id: u64) -> u32 {
        let Some(index) = self.index_of(id) else {
            return 0;
        };
        let number = match self.entries.get(index) {
            Some(entry) => entry.object.class(),
            None => 0,
        };
        if classes.has_id(number, id) {
            number
        } else {
            0
        }
    }

    /// Computes the layout of the objects without a heap.
    pub(crate) fn measure(
        &self,
        gaps: Gaps,
        classes: &Classes,
        known: &KnownClasses,
    ) -> Arrangement {
        let mut arrangement = Arrangement::new(gaps);
        for entry in self.entries.as_slice() {
            let padding = entry.most_padding(classes, known);
            let _ = arrangement.place(entry.id, entry.object.words(), padding);
        }
        arrangement
    }

    /// Assigns an address to each object, and writes its first word.
    pub(crate) fn place(
        &mut self,
        gaps: Gaps,
        classes: &Classes,
        known: &KnownClasses,
        heap: &mut UnsealedHeap,
    ) {
        let mut arrangement = Arrangement::new(gaps);
        for entry in self.entries.as_mut_slice() {
            let words = entry.object.words();
            let padding = entry.most_padding(classes, known);
            let address = arrangement.place(entry.id, words, padding);
            heap.put(address, first_word(words, 0));
            entry.object = Object::Placed {
                class: entry.object.class(),
                address,
            };
        }
    }

    /// The address of the object with this id, once it has one.
    pub fn address_of(&self, id: u64) -> Option<u64> {
        let place = self.place_at(self.index_of(id)?, id)?;
        Some(place.address)
    }

    /// Replaces the ids in the reference slots of all objects by references, once the objects have addresses. An id that no
    /// object has becomes null. Returns how many of those are not 0, the id of null.
    pub fn resolve_references(&self, heap: &mut UnsealedHeap) -> u64 {
        let mut resolution = Resolution::new();
        for entry in self.entries.as_slice() {
            if let Object::Placed { address, .. } = entry.object {
                resolution.add_object(self, heap, address);
            }
        }
        resolution.end(self, heap)
    }

    /// Replaces the ids of these referents by references, and by 0 where no object has the id. Returns how many of those ids
    /// are not 0.
    pub fn resolve_referents(&self, weak: &mut [WeakReference]) -> u64 {
        let mut unresolved = 0u64;
        for reference in weak {
            let found = self.address_of(reference.referent);
            if found.is_none() && reference.referent != 0 {
                unresolved = unresolved.saturating_add(1);
            }
            reference.referent = match found {
                Some(address) => address.saturating_add(1),
                None => 0,
            };
        }
        unresolved
    }

    /// The references to the objects with these ids, or null where there is no such object.
    ///
    /// The first passes fetch what the last one needs, so the look-ups wait for memory together.
    pub(super) fn references_to(&self, ids: &[u64; BATCH]) -> [u64; BATCH] {
        let guesses = self.guesses(ids);
        let are_right = self.are_at(ids, &guesses);
        let mut references = [0; BATCH];
        for i in 0..BATCH {
            let found = if are_right[i] {
                self.address_at(guesses[i])
            } else {
                self.address_of(ids[i])
            };
            if let Some(address) = found {
                references[i] = address.saturating_add(1);
            }
        }
        references
    }

    /// For each id, the index at which the search for it begins.
    fn guesses(&self, ids: &[u64; BATCH]) -> [usize; BATCH] {
        let mut guesses = [0; BATCH];
        for i in 0..BATCH {
            if let Some((from, to)) = self.sections.around(ids[i]) {
                guesses[i] = from.saturating_add(to.saturating_sub(from) / 2);
            }
        }
        guesses
    }

    /// For each id, whether it is the one at this index.
    fn are_at(&self, ids: &[u64; BATCH], indexes: &[usize; BATCH]) -> [bool; BATCH] {
        let mut are_right = [false; BATCH];
        for i in 0..BATCH {
            if let Some(entry) = self.entries.get(indexes[i]) {
                are_right[i] = entry.id == ids[i];
            }
        }
        are_right
    }

    /// The address of the object with this index, once it has one.
    fn address_at(&self, index: usize) -> Option<u64> {
        match self.entries.get(index)?.object {
            Object::Placed { address, .. } => Some(address),
            _ => None,
        }
    }

    /// The place of the object with this id. It is found without a search if its index is `guess`.
    pub fn find(&self, id: u64, guess: usize) -> Option<Place> {
        match self.place_at(guess, id) {
            Some(place) => Some(place),
            None => self.place_at(self.index_of(id)?, id),
        }
    }

    /// The place of the object with this id, if its index is `index`.
    fn place_at(&self, index: usize, id: u64) -> Option<Place> {
        let entry = self.entries.get(index)?;
        match entry.object {
            Object::Placed { class, address } if entry.id == id => Some(Place {
                index,
                address,
                class,
            }),
            _ => None,
        }
    }

    /// How many bytes the next object is away from the one with this index, in the order of ids.
    pub(super) fn distance_after(&self, index: usize) -> Option<u64> {
        let entry = self.entries.get(index)?;
        let next = self.entries.get(index.saturating_add(1))?;
        Some(next.id.saturating_sub(entry.id))
    }

    /// The most words by which the object with this index may be larger in the machine than in an image.
    pub(super) fn most_padding(
        &self,
        index: usize,
        classes: &Classes,
        known: &KnownClasses,
    ) -> u64 {
        match self.entries.get(index) {
            Some(entry) => entry.most_padding(classes, known),
            None => 0,
        }
    }

    /// The index of the object with this id in the order of ids.
    pub fn index_of(&self, id: u64) -> Option<usize> {
        let (from, to) = self.sections.around(id)?;
        let near = self.entries.get(from..to)?;
        let index = near.binary_search_by_key(&id, |entry| entry.id).ok()?;
        Some(from.saturating_add(index))
    }

    /// Turns the first word of each object into a header. An object with more references than a header can count is an
    /// error.
    pub fn seal(&self, heap: &mut UnsealedHeap) -> Result<(), ImportError>
        ensures { result ≢ Err ImportError.Input }
    {
        for entry in self.entries.as_slice() {
            if let Object::Placed { address, .. } = entry.object {
                let header = header(heap.word(address))?;
                heap.put(address, header);
            }
        }
        Ok(())
    }
}

impl Entry {
    /// The most words by which the object may be larger in the machine than in an image.
    fn most_padding(&self, classes: &Classes, known: &KnownClasses) -> u64 {
        let class = self.object.class();
        if class == 0 {
            ARRAY_PADDING
        } else if classes.has_id(class, self.id) || known.is_class_of_classes(class) {
            CLASS_PADDING
        } else {
            INSTANCE_PADDING
        }
    }
}

impl Object {
    /// The number of words in an image, or 1 while it is unknown.
    fn words(self) -> u64 {
        match self {
            Object::Sized { words, .. } => words,
            _ => 1,
        }
    }

    /// The number of the class itself or of the instance's class, else 0.
    fn class(self) -> u32 {
        match self {
            Object::Instance { .. } => 0,
            Object::Sized { class, .. } | Object::Placed { class, .. } => class,
        }
    }
}
