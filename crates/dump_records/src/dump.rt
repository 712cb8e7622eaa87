//! Reads a heap dump record by record.
ghost use Rattle.std.specs.Prelude.{◌≡◌, true, OnOk, IsTrue, ◌≢◌};
ghost use Rattle.std.specs.Io.KnownBytes.{IsAtEnd};

pub(crate) mod contents;
pub(crate) mod field_type;
pub(crate) mod record;
pub(crate) mod record_visitor;
pub(crate) mod root_place;
pub(crate) mod window;

use crate::error::{ImportError, Problem};
use contents::Contents;
use field_type::{FieldType, IdSize};
use heap_image::Intake;
use record::{Elements, ObjectKind, ObjectRecord, Record};
use record_visitor::RecordVisitor;
use root_place::RootPlace;
use window::Window;

/// The number of bytes before the first record: the name of the format, the size of ids, and the time.
const HEAD_BYTES: u64 = 31;

/// The number of bytes before the body of a record: its tag, its time and its length.
const RECORD_HEAD_BYTES: u64 = 9;

/// How far the heap of the dump has been read.
#[derive(Clone, Copy)]
enum Stage {
    /// Before the heap.
    Before,
    /// In a heap of segments, before its end record.
    Segments,
    /// After a complete heap: one record, or segments and the end record.
    Whole,
}

impl Stage {
    /// The stage after a record with this tag. An end record without segments before it changes nothing.
    fn after(self, tag: u64) -> Stage {
        match (self, tag) {
            (_, 0x1C) => Stage::Segments,
            (Stage::Before, 0x0C) | (Stage::Segments, 0x2C) => Stage::Whole,
            _ => self,
        }
    }
}

/// A dump that is being read.
#[derive(Drop)]
pub struct Dump {
    pub window: Window,
    ids: IdSize,
    stage: Stage,
    /// Whether the current record is a heap or a segment of one.
    in_heap: bool,
    /// The offset in the dump of the last record of the heap, in bytes.
    at: u64,
    /// Where the last root was found.
    place: RootPlace,
}

impl Dump {
    /// Reads the head of a dump, before the first record.
    pub fn open<R: Intake>(source: &mut R) -> Result<Dump, ImportError>
        ensures input { result ≡ Err ImportError.Input → IsTrue (R.has_failed source.new) }
    {
        let mut window = Window::new();
        window.begin(HEAD_BYTES);
        window.need(source, 19)?;
        let name = window.front(19);
        if name != b"JAVA PROFILE 1.0.1\0".as_slice()
            && name != b"JAVA PROFILE 1.0.2\0".as_slice()
        {
            return Err(window.problem(Problem::Name));
        }
        window.pass(19);
        let at = window.offset();
        let ids = match window.number(source, 4)? {
            4 => IdSize::Four,
            8 => IdSize::Eight,
            other => {
                return Err(ImportError::Malformed {
                    offset: at,
                    problem: Problem::IdSize(as_u32(other)),
                });
            }
        };
        window.skip(source, 8)?;
        Ok(Dump {
            window,
            ids,
            stage: Stage::Before,
            in_heap: false,
            at,
            place: RootPlace::NONE,
        })
    }

    /// The size of ids.
    pub fn ids(&self) -> IdSize {
        self.ids
    }

    /// Where the last root of the heap is held.
    pub fn root_place(&self) -> RootPlace {
        self.place
    }

    /// An error at the last record of the heap.
    pub fn problem(&self, problem: Problem) -> ImportError
        ensures { result ≢ ImportError.Input }
    {
        ImportError::Malformed {
            offset: self.at,
            problem,
        }
    }

    /// Passes each record of the heap to the visitor, up to the end of the dump.
    pub fn visit_records<R: Intake, V: RecordVisitor>(
        &mut self,
        source: &mut R,
        visitor: &mut V,
    ) -> Result<(), ImportError>
        ensures end { OnOk result (IsAtEnd (R.left source.new)) }
        ensures input { result ≡ Err ImportError.Input → IsTrue (R.has_failed source.new) }
    {
        for _ in 0..u64::MAX {
            if self.is_at_end(source)? {
                return Ok(());
            }
            if let Some(record) = self.next(source)? {
                visitor.visit(self, source, record)?;
            }
        }
        Err(self.problem(Problem::NoEnd))
    }

    /// Whether the current heap or segment has another record.
    fn is_in_heap(&self) -> bool {
        self.in_heap && self.window.left() > 0
    }

    /// Whether the dump ends before the next record. An end that is not allowed here is an error.
    fn is_at_end<R: Intake>(&mut self, source: &mut R) -> Result<bool, ImportError>
        ensures end { result ≡ Ok true → IsAtEnd (R.left source.new) }
        ensures input { result ≡ Err ImportError.Input → IsTrue (R.has_failed source.new) }
    {
        if self.is_in_heap() {
            return Ok(false);
        }
        self.window.skip(source, self.window.left())?;
        if self.window.is_at_end(source)? {
            self.check_end()?;
            return Ok(true);
        }
        Ok(false)
    }

    /// Rejects an end of the dump without a complete heap.
    fn check_end(&self) -> Result<(), ImportError>
        ensures { result ≢ Err ImportError.Input }
    {
        match self.stage {
            Stage::Before => Err(self.window.problem(Problem::NoHeap)),
            Stage::Segments => Err(self.window.problem(Problem::NoEnd)),
            Stage::Whole => Ok(()),
        }
    }

    /// Reads the next record up to its body. It is None if it is none of the heap and has no name. What is unread of a
    /// record outside the heap is skipped before the next one.
    fn next<R: Intake>(&mut self, source: &mut R) -> Result<Option<Record>, ImportError>
        ensures input { result ≡ Err ImportError.Input → IsTrue (R.has_failed source.new) }
    {
        if self.is_in_heap() {
            return Ok(Some(self.heap_record(source)?));
        }
        self.enter(source)
    }

    /// Enters the next heap, segment, or record outside the heap. Returns the last one if it has a name.
    fn enter<R: Intake>(&mut self, source: &mut R) -> Result<Option<Record>, ImportError>
        ensures input { result ≡ Err ImportError.Input → IsTrue (R.has_failed source.new) }
    {
        self.window.begin(RECORD_HEAD_BYTES);
        let [tag, _, length] = self.window.numbers(source, [1, 4, 4])?;
        self.window.begin(length);
        self.in_heap = tag == 0x0C || tag == 0x1C;
        self.stage = self.stage.after(tag);
        let id = self.ids.bytes();
        if tag == 0x01 && length >= u64::from(id) {
            let id = self.id(source)?;
            return Ok(Some(Record::Text { id }));
        }
        if tag == 0x02 && length >= 8 + 2 * u64::from(id) {
            let [_, class, _, text] = self.window.numbers(source, [4, id, 4, id])?;
            return Ok(Some(Record::ClassName { class, text }));
        }
        Ok(None)
    }

    /// Reads a record of the heap up to its body.
    fn heap_record<R: Intake>(&mut self, source: &mut R) -> Result<Record, ImportError>
        ensures input { result ≡ Err ImportError.Input → IsTrue (R.has_failed source.new) }
    {
        self.at = self.window.offset();
        let tag = as_u8(self.window.number(source, 1)?);
        let Some(head) = head_of(tag, self.ids.bytes()) else {
            return Err(self.problem(Problem::HeapTag(tag)));
        };
        let [id, second, third, fourth] = self.window.numbers(source, head)?;
        let kind = match tag {
            0x20 => ObjectKind::Class,
            0x21 => ObjectKind::Instance {
                class: third,
                bytes: as_u32(fourth),
            },
            0x22 => ObjectKind::Array {
                elements: Elements::References { class: fourth },
                contents: Contents::of_references(as_u32(third)),
            },
            0x23 => self.primitives(as_u32(third), as_u8(fourth))?,
            _ => {
                self.place = RootPlace::of(tag, second);
                return Ok(Record::Root { id });
            }
        };
        Ok(Record::Object(ObjectRecord { id, kind }))
    }

    /// An array of `count` primitive values, of the type whose code was read last.
    fn primitives(&self, count: u32, code: u8) -> Result<ObjectKind, ImportError>
        ensures { result ≢ Err ImportError.Input }
    {
        let element = self.type_of(code)?;
        if element.data_bytes() == 0 {
            return Err(self.problem(Problem::NotPrimitive));
        }
        Ok(ObjectKind::Array {
            elements: Elements::Primitive { code },
            contents: Contents::of_data(count, element),
        })
    }

    /// The type whose code was read last. A code of no type is an error at its byte.
    fn type_of(&self, code: u8) -> Result<FieldType, ImportError>
        ensures { result ≢ Err ImportError.Input }
    {
        match FieldType::of_code(code) {
            Some(field) => Ok(field),
            None => Err(ImportError::Malformed {
                offset: self.window.offset().saturating_sub(1),
                problem: Problem::Type(code),
            }),
        }
    }

    /// Reads the head of the current class, and skips its constants. Returns the ids of its superclass, loader, signers
    /// and domain.
    pub fn class_head<R: Intake>(&mut self, source: &mut R) -> Result<[u64; 4], ImportError>
        ensures input { result ≡ Err ImportError.Input → IsTrue (R.has_failed source.new) }
    {
        let id = self.ids.bytes();
        let [_, parent] = self.window.numbers(source, [4, id])?;
        self.window.need(source, 5 * usize::from(id) + 4)?;
        // Two reserved ids and the size of instances come last.
        let [loader, signers, domain, _, _, _] = self
            .window
            .numbers(source, [id, id, id, id, id, 4])?;
        self.skip_constants(source)?;
        Ok([parent, loader, signers, domain])
    }

    /// Skips the constants of a class.
    fn skip_constants<R: Intake>(&mut self, source: &mut R) -> Result<(), ImportError>
        ensures input { result ≡ Err ImportError.Input → IsTrue (R.has_failed source.new) }
    {
        let count = self.window.number(source, 2)?;
        for _ in 0..count {
            let (_, constant) = self.named_type(source, 2)?;
            self.skip_value(source, constant)?;
        }
        Ok(())
    }

    /// Reads a name of this many bytes, and the type after it.
    fn named_type<R: Intake>(
        &mut self,
        source: &mut R,
        name: u8,
    ) -> Result<(u64, FieldType), ImportError>
        ensures input { result ≡ Err ImportError.Input → IsTrue (R.has_failed source.new) }
    {
        let [name, code] = self.window.numbers(source, [name, 1])?;
        Ok((name, self.type_of(as_u8(code))?))
    }

    /// Reads the id of a field's name, and its type.
    pub fn named_field<R: Intake>(
        &mut self,
        source: &mut R,
    ) -> Result<(u64, FieldType), ImportError>
        ensures input { result ≡ Err ImportError.Input → IsTrue (R.has_failed source.new) }
    {
        self.named_type(source, self.ids.bytes())
    }

    /// Skips the name of a field, and reads its type.
    pub fn field<R: Intake>(&mut self, source: &mut R) -> Result<FieldType, ImportError>
        ensures input { result ≡ Err ImportError.Input → IsTrue (R.has_failed source.new) }
    {
        let (_, field) = self.named_field(source)?;
        Ok(field)
    }

    /// Reads an id.
    pub fn id<R: Intake>(&mut self, source: &mut R) -> Result<u64, ImportError>
        ensures input { result ≡ Err ImportError.Input → IsTrue (R.has_failed source.new) }
    {
        self.window.number(source, self.ids.bytes())
    }

    /// Skips a value of this type.
    fn skip_value<R: Intake>(&mut self, source: &mut R, value: FieldType) -> Result<(), ImportError>
        ensures input { result ≡ Err ImportError.Input → IsTrue (R.has_failed source.new) }
    {
        self.window.skip(source, u64::from(value.bytes(self.ids)))
    }

    /// Reads the static fields of the current class, and returns the contents of the class object. It also refers to its
    /// superclass, loader, signers and domain.
    pub fn statics<R: Intake>(&mut self, source: &mut R) -> Result<Contents, ImportError>
        ensures input { result ≡ Err ImportError.Input → IsTrue (R.has_failed source.new) }
    {
        let mut contents = Contents::of_references(4);
        let count = self.window.number(source, 2)?;
        for _ in 0..count {
            let field = self.field(source)?;
            contents = contents.with(field);
            self.skip_value(source, field)?;
        }
        Ok(contents)
    }

    /// Skips the instance fields of a class.
    pub fn skip_fields<R: Intake>(&mut self, source: &mut R) -> Result<(), ImportError>
        ensures input { result ≡ Err ImportError.Input → IsTrue (R.has_failed source.new) }
    {
        let count = self.window.number(source, 2)?;
        let bytes = u64::from(self.ids.bytes()) + 1;
        self.window.skip(source, count.saturating_mul(bytes))
    }

    /// Skips the body of an object.
    pub fn skip_object<R: Intake>(
        &mut self,
        source: &mut R,
        kind: ObjectKind,
    ) -> Result<(), ImportError>
        ensures input { result ≡ Err ImportError.Input → IsTrue (R.has_failed source.new) }
    {
        match kind {
            ObjectKind::Class => {
                self.class_head(source)?;
                self.statics(source)?;
                self.skip_fields(source)
            }
            ObjectKind::Instance { bytes, .. } => self.window.skip(source, u64::from(bytes)),
            ObjectKind::Array { contents, .. } => {
                self.window.skip(source, contents.bytes(self.ids))
            }
        }
    }
}

/// The numbers of bytes of the fields in the head of a record of the heap with this tag, in a dump with ids of `id` bytes.
/// It is None for an unknown tag.
fn head_of(tag: u8, id: u8) -> Option<[u8; 4]> {
    match tag {
        // Roots and classes.
        0xFF | 0x05 | 0x07 | 0x20 => Some([id, 0, 0, 0]),
        0x01 => Some([id, id, 0, 0]),
        0x02 | 0x03 | 0x08 => Some([id, 8, 0, 0]),
        0x04 | 0x06 => Some([id, 4, 0, 0]),
        // Instances, arrays of references, and arrays of primitive values.
        0x21 => Some([id, 4, id, 4]),
        0x22 => Some([id, 4, 4, id]),
        0x23 => Some([id, 4, 4, 1]),
        _ => None,
    }
}

/// A number that was read as one byte.
fn as_u8(number: u64) -> u8 {
    (number % 256) as u8
}

/// A number that was read as four bytes.
fn as_u32(number: u64) -> u32 {
    (number % 4_294_967_296) as u32
}
