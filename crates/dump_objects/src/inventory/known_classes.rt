//! The classes that a collector treats in their own ways.
ghost use Rattle.std.specs.Prelude.{◌≡◌, IsTrue};

use super::classes::Classes;
use super::objects::Objects;
use dump_records::{Dump, FieldType, ImportError};
use heap_image::Intake;

/// Which references are followed.
#[derive(Clone, Copy, PartialEq, Eq)]
pub enum Followed {
    /// All of them.
    All,
    /// All but the referents of weak, phantom and final references.
    StrongAndSoft,
    /// All but the referents of soft references, too.
    Strong,
}

/// A class whose name is known before the dump is read.
#[derive(Clone, Copy)]
struct KnownClass {
    /// The ids of its name and of the class, or 0 while they are unknown.
    text: u64,
    id: u64,
    /// Its number, or 0 if the dump has no such class.
    number: u32,
}

impl KnownClass {
    /// Before the dump is read.
    const UNKNOWN: KnownClass = KnownClass {
        text: 0,
        id: 0,
        number: 0,
    };

    /// Notes the id of its name, if this is it.
    fn note_text(&mut self, id: u64, is_name: bool) {
        if is_name {
            self.text = id;
        }
    }

    /// Notes the id of the class, if this text is its name.
    fn note_class(&mut self, class: u64, text: u64) {
        if self.text != 0 && self.text == text {
            self.id = class;
        }
    }

    /// Notes its number, once all objects are sorted.
    fn find(&mut self, classes: &Classes, objects: &Objects) {
        self.number = if self.id == 0 {
            0
        } else {
            objects.class_number(classes, self.id)
        };
    }
}

/// The classes of a dump that are known by their names. A name that comes after the heap is not found.
#[derive(Clone, Copy)]
pub struct KnownClasses {
    /// `java.lang.Class`.
    class: KnownClass,
    /// `java.lang.ref.Reference`.
    reference: KnownClass,
    /// `java.lang.ref.SoftReference`.
    soft: KnownClass,
    /// The id of the text `referent`, or 0.
    referent: u64,
    /// How many references `java.lang.ref.Reference` declares, as far as it is read, and how many before its referent.
    declared: u64,
    before_referent: Option<u64>,
}

impl KnownClasses {
    /// The longest of their names has so many bytes.
    const LONGEST: u64 = 27;

    /// Before the dump is read.
    pub(crate) fn unknown() -> KnownClasses {
        KnownClasses {
            class: KnownClass::UNKNOWN,
            reference: KnownClass::UNKNOWN,
            soft: KnownClass::UNKNOWN,
            referent: 0,
            declared: 0,
            before_referent: None,
        }
    }

    /// Reads the rest of a record, the text with this id, if it may be one of the names.
    pub(crate) fn read_text<R: Intake>(
        &mut self,
        dump: &mut Dump,
        source: &mut R,
        id: u64,
    ) -> Result<(), ImportError>
        ensures input { result ≡ Err ImportError.Input → IsTrue (R.has_failed source.new) }
    {
        let left = dump.window.left();
        if left > KnownClasses::LONGEST {
            return Ok(());
        }
        let count = left as usize;
        dump.window.need(source, count)?;
        self.note_text(id, dump.window.front(count));
        dump.window.pass(count);
        Ok(())
    }

    /// Notes the text with this id.
    fn note_text(&mut self, id: u64, text: &[u8]) {
        self.class
            .note_text(id, text == b"java/lang/Class".as_slice());
        self.reference
            .note_text(id, text == b"java/lang/ref/Reference".as_slice());
        self.soft
            .note_text(id, text == b"java/lang/ref/SoftReference".as_slice());
        if text == b"referent".as_slice() {
            self.referent = id;
        }
    }

    /// Notes that this text is the name of this class.
    pub(crate) fn note_class(&mut self, class: u64, text: u64) {
        self.class.note_class(class, text);
        self.reference.note_class(class, text);
        self.soft.note_class(class, text);
    }

    /// Notes the next field that the class with this id declares.
    pub(crate) fn note_field(&mut self, class: u64, name: u64, field: FieldType) {
        if class != self.reference.id || field.data_bytes() > 0 {
            return;
        }
        if name == self.referent && self.before_referent.is_none() {
            self.before_referent = Some(self.declared);
        }
        self.declared = self.declared.saturating_add(1);
    }

    /// Finds the numbers of the classes, once all objects are sorted.
    pub(crate) fn find(&mut self, classes: &Classes, objects: &Objects) {
        self.class.find(classes, objects);
        self.reference.find(classes, objects);
        self.soft.find(classes, objects);
    }

    /// The number of `java.lang.ref.Reference`, or 0.
    pub fn reference(&self) -> u32 {
        self.reference.number
    }

    /// Whether this is the number of `java.lang.Class`.
    pub fn is_class_of_classes(&self, number: u32) -> bool {
        number != 0 && number == self.class.number
    }

    /// Whether this is the number of `java.lang.ref.SoftReference`.
    pub fn is_soft(&self, number: u32) -> bool {
        number != 0 && number == self.soft.number
    }

    /// How many references the class with this number declares before its referent, if it has one.
    pub fn before_referent(&self, number: u32) -> Option<u64> {
        if number == 0 || number != self.reference.number {
            return None;
        }
        self.before_referent
    }
}
