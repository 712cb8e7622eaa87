//! The second reading of a dump, which notes the references of its objects, and checksums of their data.
ghost use Rattle.std.specs.Prelude.{OnOk, ◌≡◌, IsTrue, ◌≢◌};
ghost use Rattle.std.specs.Io.KnownBytes.{IsAtEnd};

use dump_objects::{CLASS_OBJECTS, Inventory, Texts, ValueVisitor};
use dump_records::{
    Contents, Dump, ImportError, ObjectKind, ObjectRecord, Problem, Record, RecordVisitor,
};
use heap_image::Intake;
use object_pairs::{Object, Root};
use std::alloc::{AllocError, Global};

/// The checksum of no bytes, and the factor for each byte (FNV-1a of 64 bits).
const NO_BYTES: u64 = 0xCBF2_9CE4_8422_2325;

const FACTOR: u64 = 0x0000_0100_0000_01B3;

/// What the second reading of a dump gives.
#[derive(Drop)]
pub(crate) struct Trace {
    /// In the order of ids.
    pub(crate) objects: Vec<Object>,
    /// The indexes of the objects to which references lead, counted from 1, or 0.
    pub(crate) references: Vec<u32>,
    /// In the order of the dump.
    pub(crate) roots: Vec<Root>,
    /// The names of classes.
    pub(crate) texts: Texts,
    /// How many numbers the classes of instances and arrays have. Those of class objects follow them.
    pub(crate) kinds: u32,
}

/// A second reading under way.
#[derive(Drop)]
pub(crate) struct Tracing<'a> {
    inventory: &'a Inventory,
    /// The index after the last object in the order of ids, where the next one often is.
    next: usize,
    done: usize,
    /// Whether the references of the current class are hidden.
    is_hiding: bool,
    /// The object that is being read.
    current: Object,
    trace: Trace,
}

impl Tracing<'_> {
    /// Reads a dump to its end.
    pub(crate) fn of<R: Intake>(
        alloc: Global,
        inventory: &Inventory,
        source: &mut R,
    ) -> Result<Trace, ImportError>
        ensures end { OnOk result (IsAtEnd (R.left source.new)) }
        ensures input { result ≡ Err ImportError.Input → IsTrue (R.has_failed source.new) }
    {
        let mut tracing = Tracing {
            inventory,
            next: 0,
            done: 0,
            is_hiding: false,
            current: NO_OBJECT,
            trace: Trace::new(alloc, inventory)?,
        };
        let mut dump = Dump::open(source)?;
        dump.visit_records(source, &mut tracing)?;
        tracing.finish(&dump)
    }

    /// Returns what was read. It is an error if objects of the first reading are missing.
    fn finish(self, dump: &Dump) -> Result<Trace, ImportError>
        ensures { result ≢ Err ImportError.Input }
    {
        let Tracing {
            inventory,
            done,
            trace,
            ..
        } = self;
        if done != inventory.objects.len() {
            return Err(dump.problem(Problem::Changed));
        }
        Ok(trace)
    }

    /// Notes a root, if it leads to an object of the dump.
    fn add_root(&mut self, dump: &Dump, id: u64) -> Result<(), AllocError> {
        let number = self.number_of(id);
        if number == 0 {
            return Ok(());
        }
        let place = dump.root_place();
        self.trace.roots.push(Root {
            kind: place.kind,
            place: place.number,
            object: number - 1,
        })?;
        Ok(())
    }

    /// The index of the object with this id, counted from 1, or 0 if the dump has none.
    fn number_of(&self, id: u64) -> u32 {
        match self.inventory.objects.index_of(id) {
            Some(index) => u32::try_from(index.saturating_add(1)).unwrap_or(0),
            None => 0,
        }
    }

    /// Reads and notes an object.
    fn trace_object<R: Intake>(
        &mut self,
        dump: &mut Dump,
        source: &mut R,
        record: ObjectRecord,
    ) -> Result<(), ImportError>
        ensures input { result ≡ Err ImportError.Input → IsTrue (R.has_failed source.new) }
    {
        let (index, class, contents) = self.begin(dump, record)?;
        let inventory = self.inventory;
        let values = inventory.values_of(record.kind, class);
        values.read(dump, source, self)?;
        self.end(dump, index, contents)
    }

    /// Begins an object. Returns its index, the number of the class itself or of the instance's class, else 0, and its contents. It is
    /// an error if the object is missing from the first reading, or has no class or another size.
    fn begin(
        &mut self,
        dump: &Dump,
        record: ObjectRecord,
    ) -> Result<(usize, u32, Contents), ImportError>
        ensures { result ≢ Err ImportError.Input }
    {
        let (place, contents) = self.inventory.locate(dump, record, self.next)?;
        self.next = place.index.saturating_add(1);
        self.is_hiding = false;
        self.current = Object {
            id: record.id,
            first: self.trace.references.len(),
            class: self.class_of(record.kind, place.class),
            ..NO_OBJECT
        };
        Ok((place.index, place.class, contents))
    }

    /// The number of the class of an object. `class` is that of the class itself or of the instance's class in the dump.
    fn class_of(&self, kind: ObjectKind, class: u32) -> u32 {
        match kind {
            ObjectKind::Class => self
                .trace
                .kinds
                .saturating_add(CLASS_OBJECTS)
                .saturating_add(class),
            _ => self.inventory.number_of(kind, class),
        }
    }

    /// Ends an object. It is an error if its values aren't those of its class.
    fn end(&mut self, dump: &Dump, index: usize, contents: Contents) -> Result<(), ImportError>
        ensures { result ≢ Err ImportError.Input }
    {
        let object = self.current;
        if u64::from(object.references) != contents.references
            || object.data_bytes != contents.data_bytes
        {
            return Err(dump.problem(Problem::Changed));
        }
        if let Some(kept) = self.trace.objects.get_mut(index) {
            *kept = object;
        }
        self.done = self.done.saturating_add(1);
        Ok(())
    }

    /// Notes a reference of the current object.
    fn put_reference(&mut self, number: u32) -> Result<(), AllocError> {
        self.trace.references.push(number)?;
        self.current.references = self.current.references.saturating_add(1);
        Ok(())
    }

    /// Notes data of the current object.
    fn put_data(&mut self, bytes: &[u8]) {
        let mut checksum = self.current.checksum;
        for byte in bytes {
            checksum = (checksum ^ u64::from(*byte)).wrapping_mul(FACTOR);
        }
        self.current.checksum = checksum;
        self.current.data_bytes = self.current.data_bytes.saturating_add(bytes.len() as u64);
    }
}

/// What stands for an object that isn't read yet.
const NO_OBJECT: Object = Object {
    id: 0,
    first: 0,
    data_bytes: 0,
    checksum: NO_BYTES,
    class: 0,
    references: 0,
};

impl Trace {
    /// Nothing read, with room for the objects of this inventory. Without room for their numbers, memory runs out.
    fn new(alloc: Global, inventory: &Inventory) -> Result<Trace, AllocError> {
        let objects = inventory.objects.len();
        let classes = inventory
            .classes
            .len()
            .saturating_add(CLASS_OBJECTS as usize + 1);
        let (Ok(_), Ok(kinds)) = (
            u32::try_from(objects.saturating_add(1)),
            u32::try_from(classes),
        ) else {
            return Err(AllocError);
        };
        Ok(Trace {
            objects: vec![in alloc; NO_OBJECT; objects]?,
            references: Vec::new(alloc),
            roots: Vec::new(alloc),
            texts: Texts::new(alloc, inventory.names.len())?,
            kinds,
        })
    }
}

impl ValueVisitor for Tracing<'_> {
    /// The references that `java.lang.ref.Reference` declares are hidden: a collector treats them in its own way.
    fn enter_class(&mut self, class: u32) {
        self.is_hiding = class == self.inventory.known.reference();
    }

    /// Notes a reference. A hidden one counts as null.
    fn take_reference(&mut self, _dump: &Dump, id: u64) -> Result<(), ImportError>
        ensures no_device { result ≢ Err ImportError.Input }
    {
        let number = if self.is_hiding {
            0
        } else {
            self.number_of(id)
        };
        Ok(self.put_reference(number)?)
    }

    fn take_data(&mut self, _dump: &Dump, bytes: &[u8]) -> Result<(), ImportError>
        ensures no_device { result ≢ Err ImportError.Input }
    {
        self.put_data(bytes);
        Ok(())
    }
}

impl RecordVisitor for Tracing<'_> {
    fn visit<R: Intake>(
        &mut self,
        dump: &mut Dump,
        source: &mut R,
        record: Record,
    ) -> Result<(), ImportError> {
        match record {
            Record::Root { id } => Ok(self.add_root(dump, id)?),
            Record::Object(object) => self.trace_object(dump, source, object),
            Record::Text { id } => {
                let names = &self.inventory.names;
                self.trace.texts.read(names, dump, source, id)
            }
            Record::ClassName { .. } => Ok(()),
        }
    }
}
