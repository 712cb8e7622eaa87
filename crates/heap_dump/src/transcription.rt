//! The second reading of a dump, which copies the values of the objects into their words.
ghost use Rattle.std.specs.Prelude.{OnOk, ◌≡◌, IsTrue, ◌≢◌};
ghost use Rattle.std.specs.Io.KnownBytes.{IsAtEnd};
ghost use Rattle.heap_dump.specs.Listing.{HasLabel};

mod slots;
pub(crate) mod transcribed;

use crate::listing::object_labels::Label;
use dump_objects::{
    Followed, Inventory, Place, Texts, UnsealedHeap, ValueVisitor, WeakReference, first_word,
};
use dump_records::{Contents, Dump, ImportError, ObjectRecord, Problem, Record, RecordVisitor};
use heap_image::Intake;
use slots::Slots;
use std::alloc::{AllocError, Global};

/// A heap into which the values of the objects are copied.
#[derive(Drop)]
pub(crate) struct Transcription<'a> {
    inventory: &'a Inventory,
    /// Which references are followed.
    followed: Followed,
    /// The index after the last object in the order of ids, where the next one often is.
    next: usize,
    done: usize,
    /// The address of the current object.
    holder: u64,
    /// Whether its referent is followed, as far as its classes are known.
    is_followed: bool,
    /// The address of its referent, if that isn't followed, else 0.
    weak_slot: u64,
    /// Those of the current object.
    slots: Slots,
    transcript: Transcript,
}

/// What the second reading of a dump gives.
#[derive(Drop)]
pub(crate) struct Transcript {
    pub(crate) heap: UnsealedHeap,
    /// The references that aren't followed, whose words are null.
    pub(crate) weak: Vec<WeakReference>,
    /// How many references lead to objects that are missing from the dump.
    pub(crate) unresolved: u64,
    /// The label of each object in the order of ids, if classes are wanted, else empty.
    pub(crate) labels: Vec<Label>,
    /// The names of classes, if classes are wanted.
    pub(crate) texts: Texts,
}

impl Transcription<'_> {
    /// Reads a dump to its end and copies the values of its objects to their addresses in this heap.
    pub(crate) fn of<R: Intake>(
        alloc: Global,
        inventory: &Inventory,
        heap: UnsealedHeap,
        followed: Followed,
        source: &mut R,
    ) -> Result<Transcript, ImportError>
        ensures end { OnOk result (IsAtEnd (R.left source.new)) }
        ensures input { result ≡ Err ImportError.Input → IsTrue (R.has_failed source.new) }
    {
        let mut transcription = Transcription {
            inventory,
            followed,
            next: 0,
            done: 0,
            holder: 0,
            is_followed: true,
            weak_slot: 0,
            slots: Slots::new(0, 0, 0),
            transcript: Transcript::new(alloc, inventory, heap)?,
        };
        let mut dump = Dump::open(source)?;
        dump.visit_records(source, &mut transcription)?;
        transcription.finish(&dump)
    }

    /// Returns what was read, once ids are replaced by references. It is an error if objects of the first reading are missing.
    fn finish(self, dump: &Dump) -> Result<Transcript, ImportError>
        ensures { result ≢ Err ImportError.Input }
    {
        let Transcription {
            inventory,
            done,
            mut transcript,
            ..
        } = self;
        if done != inventory.objects.len() {
            return Err(dump.problem(Problem::Changed));
        }
        let objects = &inventory.objects;
        let strong = objects.resolve_references(&mut transcript.heap);
        let weak = objects.resolve_referents(transcript.weak.as_mut_slice());
        transcript.unresolved = strong.saturating_add(weak);
        Ok(transcript)
    }

    /// Reads and copies an object.
    fn copy_object<R: Intake>(
        &mut self,
        dump: &mut Dump,
        source: &mut R,
        record: ObjectRecord,
    ) -> Result<(), ImportError>
        ensures input { result ≡ Err ImportError.Input → IsTrue (R.has_failed source.new) }
    {
        let class = self.begin(dump, record)?;
        let inventory = self.inventory;
        let values = inventory.values_of(record.kind, class);
        values.read(dump, source, self)?;
        self.end(dump)
    }

    /// Begins an object. Returns the number of the class itself or of the instance's class, else 0. It is an error if the
    /// object has another size than in the first reading.
    fn begin(&mut self, dump: &Dump, record: ObjectRecord) -> Result<u32, ImportError>
        ensures { result ≢ Err ImportError.Input }
    {
        let (place, contents) = self.inventory.locate(dump, record, self.next)?;
        self.next = place.index.saturating_add(1);
        if !self.transcript.begin(place.address, contents) {
            return Err(dump.problem(Problem::Changed));
        }
        self.holder = place.address;
        self.weak_slot = 0;
        self.is_followed = self.followed == Followed::All;
        self.slots = Slots::new(place.address, contents.references, contents.words());
        self.note(place, record, contents.words());
        Ok(place.class)
    }

    /// Notes the id and the class of the object with this record, if classes are wanted.
    fn note(&mut self, place: Place, object: ObjectRecord, words: u64)
        ensures id { HasLabel self.new.transcript.labels.items place.index object.id }
    {
        if let Some(label) = self.transcript.labels.get_mut(place.index) {
            *label = Label {
                id: object.id,
                machine_words: self.inventory.machine_words(place.index, words),
                class: self.inventory.number_of(object.kind, place.class),
            };
        }
    }

    /// Ends an object. It is an error if a value is missing.
    fn end(&mut self, dump: &Dump) -> Result<(), ImportError>
        ensures { result ≢ Err ImportError.Input }
    {
        if !self.slots.close(&mut self.transcript.heap) {
            return Err(dump.problem(Problem::Changed));
        }
        self.done = self.done.saturating_add(1);
        Ok(())
    }

    /// The id that the next reference gets: null, if it is a referent that isn't followed, which is kept apart.
    fn strong_id(&mut self, id: u64) -> Result<u64, AllocError> {
        let slot = self.slots.reference_after(0);
        if slot != self.weak_slot {
            return Ok(id);
        }
        if id != 0 {
            self.transcript.weak.push(WeakReference {
                holder: self.holder,
                slot,
                referent: id,
            })?;
        }
        Ok(0)
    }
}

impl Transcript {
    /// A heap without values, with room for the label of each object, if classes are wanted.
    fn new(
        alloc: Global,
        inventory: &Inventory,
        heap: UnsealedHeap,
    ) -> Result<Transcript, AllocError> {
        let names = inventory.names.len();
        let objects = if inventory.names.wants_classes() {
            inventory.objects.len()
        } else {
            0
        };
        Ok(Transcript {
            heap,
            weak: Vec::new(alloc),
            unresolved: 0,
            labels: vec![in alloc; Label::NONE; objects]?,
            texts: Texts::new(alloc, names)?,
        })
    }

    /// Writes the first word of the object at this address. Returns whether the object has the size that it had in the
    /// first reading.
    fn begin(&mut self, address: u64, contents: Contents) -> bool {
        let words = contents.words();
        if self.heap.word(address) != first_word(words, 0) {
            return false;
        }
        self.heap
            .put(address, first_word(words, contents.references));
        true
    }
}

impl ValueVisitor for Transcription<'_> {
    fn enter_class(&mut self, class: u32) {
        let known = &self.inventory.known;
        self.is_followed = self.is_followed
            || self.followed == Followed::StrongAndSoft && known.is_soft(class);
        self.weak_slot = match known.before_referent(class) {
            Some(before) if !self.is_followed => self.slots.reference_after(before),
            _ => 0,
        };
    }

    /// Puts the id of an object, which is replaced by a reference once all are read.
    fn take_reference(&mut self, dump: &Dump, id: u64) -> Result<(), ImportError>
        ensures no_device { result ≢ Err ImportError.Input }
    {
        let strong = self.strong_id(id)?;
        if !self.slots.put_reference(&mut self.transcript.heap, strong) {
            return Err(dump.problem(Problem::Changed));
        }
        Ok(())
    }

    fn take_data(&mut self, dump: &Dump, bytes: &[u8]) -> Result<(), ImportError>
        ensures no_device { result ≢ Err ImportError.Input }
    {
        if !self.slots.put_data(&mut self.transcript.heap, bytes) {
            return Err(dump.problem(Problem::Changed));
        }
        Ok(())
    }
}

impl RecordVisitor for Transcription<'_> {
    fn visit<R: Intake>(
        &mut self,
        dump: &mut Dump,
        source: &mut R,
        record: Record,
    ) -> Result<(), ImportError> {
        match record {
            Record::Object(object) => self.copy_object(dump, source, object),
            Record::Text { id } => {
                let names = &self.inventory.names;
                self.transcript.texts.read(names, dump, source, id)
            }
            _ => Ok(()),
        }
    }
}
