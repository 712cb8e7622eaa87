//! The first reading of a dump.
ghost use Rattle.std.specs.Prelude.{◌≤◌, OnOk, ◌≡◌, ◌≢◌, IsTrue, ◌⊎◌};
ghost use Rattle.std.specs.Io.KnownBytes.{IsAtEnd};

pub(crate) mod class_number;
pub(crate) mod classes;
pub(crate) mod known_classes;
pub(crate) mod name_ids;
pub(crate) mod objects;
mod repeats;
mod resolution;
mod sections;
pub(crate) mod texts;

use crate::heap::UnsealedHeap;
use crate::heap::arrangement::{Arrangement, Gaps, machine_words};
use crate::values::Values;
use class_number::{CLASS_OBJECTS, UNKNOWN_ARRAYS, number_of_class, number_of_code};
use classes::Classes;
use dump_records::{
    Contents, Dump, Elements, ImportError, ObjectKind, ObjectRecord, Problem, Record, RecordVisitor,
};
use heap_image::Intake;
use known_classes::KnownClasses;
use name_ids::NameIds;
use objects::{Object, Objects, Place};
use repeats::find_repeat;
use std::alloc::{AllocError, Global};

/// The classes, the sizes of the objects in the order of their ids, and the roots of a dump.
#[derive(Drop)]
pub struct Inventory {
    pub classes: Classes,
    pub objects: Objects,
    /// The ids of the roots, in the order of the dump; once objects have addresses, the addresses to which the roots
    /// lead.
    pub roots: Vec<u64>,
    /// Which text is the name of which class, if classes are wanted.
    pub names: NameIds,
    /// The classes that a collector treats in their own ways.
    pub known: KnownClasses,
}

impl Inventory {
    /// Reads a dump to its end. Names of classes are kept only if they are wanted. If two objects have one id, `again` is
    /// read up to the second of them.
    pub fn of<R: Intake>(
        alloc: Global,
        source: &mut R,
        again: &mut R,
        wants_classes: bool,
    ) -> Result<Inventory, ImportError>
        ensures end { OnOk result (IsAtEnd (R.left source.new)) }
        ensures input { result ≡ Err ImportError.Input
            → IsTrue (R.has_failed source.new) ⊎ IsTrue (R.has_failed again.new) }
    {
        let mut dump = Dump::open(source)?;
        let mut inventory = Inventory {
            classes: Classes::new(alloc, dump.ids()),
            objects: Objects::new(alloc),
            roots: Vec::new(alloc),
            names: NameIds::new(alloc, wants_classes),
            known: KnownClasses::unknown(),
        };
        let read = dump.visit_records(source, &mut inventory);
        if inventory.objects.sort() {
            find_repeat(alloc, &mut inventory.objects, again)?;
        }
        read?;
        inventory.resolve_instances()?;
        Ok(inventory)
    }

    /// Determines the class and the size of each instance, once all objects are sorted.
    fn resolve_instances(&mut self) -> Result<(), AllocError> {
        self.objects.divide()?;
        self.classes.resolve(&self.objects)?;
        self.objects.size_instances(&self.classes);
        self.known.find(&self.classes, &self.objects);
        self.names.sort();
        Ok(())
    }

    /// Computes the layout of the objects without a heap.
    pub fn measure(&self, gaps: Gaps) -> Arrangement {
        self.objects.measure(gaps, &self.classes, &self.known)
    }

    /// Assigns addresses to the objects, in a new heap with regions of `2 ^ region_log` words, and writes their first
    /// words.
    pub fn place(
        &mut self,
        alloc: Global,
        region_log: u32,
        gaps: Gaps,
    ) -> Result<(UnsealedHeap, Arrangement), AllocError>
        requires low { 3 ≤ region_log }
        requires high { region_log ≤ 20 }
    {
        let arrangement = self.measure(gaps);
        let mut heap = UnsealedHeap::new(alloc, region_log, arrangement.words())?;
        self.objects
            .place(gaps, &self.classes, &self.known, &mut heap);
        Ok((heap, arrangement))
    }

    /// Makes the objects be found by their ids, where no one needs their words: their heap has no room for them.
    pub fn index(&mut self, alloc: Global) -> Result<(), AllocError> {
        let mut none = UnsealedHeap::new(alloc, 3, 1)?;
        self.objects
            .place(Gaps::Dropped, &self.classes, &self.known, &mut none);
        Ok(())
    }

    /// How many words the object with this index, which has `words` words in an image, has in the machine, as far as the ids tell.
    pub fn machine_words(&self, index: usize, words: u64) -> u64 {
        let padding = self.objects.most_padding(index, &self.classes, &self.known);
        machine_words(words, padding, self.objects.distance_after(index))
    }

    /// Replaces the ids of roots by addresses, once the objects have addresses, and drops the roots that lead to no
    /// object. Returns how many those are.
    pub fn place_roots(&mut self) -> u64 {
        let objects = &self.objects;
        let count = self.roots.len();
        self.roots.retain_mut(|root| match objects.address_of(*root) {
            Some(address) => {
                *root = address;
                true
            }
            None => false,
        });
        count.saturating_sub(self.roots.len()) as u64
    }

    /// Returns the roots, and frees the rest.
    pub fn into_roots(self) -> Vec<u64> {
        let Inventory { roots, .. } = self;
        roots
    }

    /// Adds a root, unless it is null.
    fn add_root(&mut self, id: u64) -> Result<(), AllocError> {
        if id != 0 {
            self.roots.push(id)?;
        }
        Ok(())
    }

    /// Reads and adds an object.
    fn add_object<R: Intake>(
        &mut self,
        dump: &mut Dump,
        source: &mut R,
        record: ObjectRecord,
    ) -> Result<(), ImportError>
        ensures input { result ≡ Err ImportError.Input → IsTrue (R.has_failed source.new) }
    {
        let object = match record.kind {
            ObjectKind::Class => return self.add_class(dump, source, record.id),
            ObjectKind::Instance { class, bytes } => Object::Instance { bytes, class },
            ObjectKind::Array { contents, .. } => Object::Sized {
                class: 0,
                words: contents.words(),
            },
        };
        self.objects.add(dump, record.id, object)?;
        dump.skip_object(source, record.kind)
    }

    /// Reads and adds the current class.
    fn add_class<R: Intake>(
        &mut self,
        dump: &mut Dump,
        source: &mut R,
        id: u64,
    ) -> Result<(), ImportError>
        ensures input { result ≡ Err ImportError.Input → IsTrue (R.has_failed source.new) }
    {
        let [parent, ..] = dump.class_head(source)?;
        let own = dump.statics(source)?;
        let class = self.classes.add(id, parent, own)?;
        let words = own.words();
        self.objects.add(dump, id, Object::Sized { class, words })?;
        self.add_fields(dump, source, id)
    }

    /// Reads and adds the instance fields of the last class, which has this id.
    fn add_fields<R: Intake>(
        &mut self,
        dump: &mut Dump,
        source: &mut R,
        class: u64,
    ) -> Result<(), ImportError>
        ensures input { result ≡ Err ImportError.Input → IsTrue (R.has_failed source.new) }
    {
        let count = dump.window.number(source, 2)?;
        for _ in 0..count {
            let (name, field) = dump.named_field(source)?;
            self.known.note_field(class, name, field);
            self.classes.add_field(field)?;
        }
        Ok(())
    }

    /// The place and the contents of the object with this record, in the second reading. It is found without a search if its index
    /// is `guess`. It is an error if the first reading hadn't the object, or it has no class or another size.
    pub fn locate(
        &self,
        dump: &Dump,
        record: ObjectRecord,
        guess: usize,
    ) -> Result<(Place, Contents), ImportError>
        ensures { result ≢ Err ImportError.Input }
    {
        let Some(place) = self.objects.find(record.id, guess) else {
            return Err(dump.problem(Problem::Changed));
        };
        match self.contents_of(record, place.class) {
            Ok(contents) => Ok((place, contents)),
            Err(problem) => Err(dump.problem(problem)),
        }
    }

    /// The values of an object of this kind. `class` is the number of an instance's class.
    pub fn values_of(&self, kind: ObjectKind, class: u32) -> Values<'_> {
        Values {
            classes: &self.classes,
            kind,
            class,
        }
    }

    /// The contents of the object with this record. `class` is the number of the class itself or of the instance's class,
    /// unless the dump has changed.
    fn contents_of(&self, record: ObjectRecord, class: u32) -> Result<Contents, Problem> {
        match record.kind {
            ObjectKind::Class => match self.classes.own_contents(class, record.id) {
                Some(contents) => Ok(contents),
                None => Err(Problem::Changed),
            },
            ObjectKind::Instance { class: id, bytes } => self.fields_of(class, id, bytes),
            ObjectKind::Array { contents, .. } => Ok(contents),
        }
    }

    /// The contents of the fields of an instance of the class with this id, which have `bytes` bytes in the dump. `class` is
    /// the number of that class, unless the dump has changed.
    fn fields_of(&self, class: u32, id: u64, bytes: u32) -> Result<Contents, Problem> {
        if !self.classes.has_id(class, id) {
            return Err(if self.objects.class_number(&self.classes, id) > 0 {
                Problem::Changed
            } else {
                Problem::NoClass
            });
        }
        self.classes.instance_contents(class, bytes)
    }

    /// The number in a list of objects of the class of an object. `class` is the number of an instance's class in the dump.
    pub fn number_of(&self, kind: ObjectKind, class: u32) -> u32 {
        let id = match kind {
            ObjectKind::Class => return CLASS_OBJECTS,
            ObjectKind::Instance { .. } => return number_of_class(class),
            ObjectKind::Array {
                elements: Elements::Primitive { code },
                ..
            } => return number_of_code(code),
            ObjectKind::Array {
                elements: Elements::References { class },
                ..
            } => class,
        };
        match self.objects.class_number(&self.classes, id) {
            0 => UNKNOWN_ARRAYS,
            number => number_of_class(number),
        }
    }
}

impl RecordVisitor for Inventory {
    fn visit<R: Intake>(
        &mut self,
        dump: &mut Dump,
        source: &mut R,
        record: Record,
    ) -> Result<(), ImportError> {
        match record {
            Record::Root { id } => Ok(self.add_root(id)?),
            Record::Object(object) => self.add_object(dump, source, object),
            Record::Text { id } => self.known.read_text(dump, source, id),
            Record::ClassName { class, text } => {
                self.known.note_class(class, text);
                Ok(self.names.add(class, text)?)
            }
        }
    }
}
