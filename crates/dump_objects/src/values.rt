//! The values of the objects of a dump, in its second reading.
ghost use Rattle.std.specs.Prelude.{◌<◌, ◌≤◌, ◌≡◌, ◌≢◌, IsTrue};

use crate::inventory::classes::Classes;
use dump_records::{Contents, Dump, FieldType, ImportError, ObjectKind};
use heap_image::Intake;

/// Takes the values of an object, in the order of the dump.
pub trait ValueVisitor {
    /// Prepares for the instance fields that the class with this number declares.
    fn enter_class(&mut self, class: u32);

    /// Takes the id of what the next reference leads to.
    fn take_reference(&mut self, dump: &Dump, id: u64) -> Result<(), ImportError>
        ensures no_device { result ≢ Err ImportError.Input };

    /// Takes the next bytes of primitive data.
    fn take_data(&mut self, dump: &Dump, bytes: &[u8]) -> Result<(), ImportError>
        ensures no_device { result ≢ Err ImportError.Input };
}

/// An object whose head has been read, and whose values come next.
#[derive(Clone, Copy)]
pub struct Values<'a> {
    pub(crate) classes: &'a Classes,
    pub(crate) kind: ObjectKind,
    /// The number of an instance's class.
    pub(crate) class: u32,
}

impl Values<'_> {
    /// Reads the values, and passes them to the visitor. The rest of a class is skipped.
    pub fn read<R: Intake, V: ValueVisitor>(
        &self,
        dump: &mut Dump,
        source: &mut R,
        visitor: &mut V,
    ) -> Result<(), ImportError>
        ensures input { result ≡ Err ImportError.Input → IsTrue (R.has_failed source.new) }
    {
        match self.kind {
            ObjectKind::Class => read_class(dump, source, visitor),
            ObjectKind::Instance { .. } => self.read_fields(dump, source, visitor),
            ObjectKind::Array { contents, .. } => read_elements(dump, source, contents, visitor),
        }
    }

    /// Reads the fields of the instance's class, then those of its superclasses.
    fn read_fields<R: Intake, V: ValueVisitor>(
        &self,
        dump: &mut Dump,
        source: &mut R,
        visitor: &mut V,
    ) -> Result<(), ImportError>
        ensures input { result ≡ Err ImportError.Input → IsTrue (R.has_failed source.new) }
    {
        let mut class = self.class;
        for _ in 0..=self.classes.len() {
            if class == 0 {
                break;
            }
            visitor.enter_class(class);
            read_values(dump, source, self.classes.fields(class), visitor)?;
            class = self.classes.next(class);
        }
        Ok(())
    }
}

/// Reads the references of a class and its static fields, and skips the rest of it.
fn read_class<R: Intake, V: ValueVisitor>(
    dump: &mut Dump,
    source: &mut R,
    visitor: &mut V,
) -> Result<(), ImportError>
    ensures input { result ≡ Err ImportError.Input → IsTrue (R.has_failed source.new) }
{
    for id in dump.class_head(source)? {
        visitor.take_reference(dump, id)?;
    }
    read_statics(dump, source, visitor)?;
    dump.skip_fields(source)
}

/// Reads the static fields of a class.
fn read_statics<R: Intake, V: ValueVisitor>(
    dump: &mut Dump,
    source: &mut R,
    visitor: &mut V,
) -> Result<(), ImportError>
    ensures input { result ≡ Err ImportError.Input → IsTrue (R.has_failed source.new) }
{
    let count = dump.window.number(source, 2)?;
    for _ in 0..count {
        let field = dump.field(source)?;
        read_value(dump, source, field, visitor)?;
    }
    Ok(())
}

/// Reads values of these types.
fn read_values<R: Intake, V: ValueVisitor>(
    dump: &mut Dump,
    source: &mut R,
    types: &[FieldType],
    visitor: &mut V,
) -> Result<(), ImportError>
    ensures input { result ≡ Err ImportError.Input → IsTrue (R.has_failed source.new) }
{
    for value in types {
        read_value(dump, source, *value, visitor)?;
    }
    Ok(())
}

/// Reads a value of this type.
fn read_value<R: Intake, V: ValueVisitor>(
    dump: &mut Dump,
    source: &mut R,
    value: FieldType,
    visitor: &mut V,
) -> Result<(), ImportError>
    ensures input { result ≡ Err ImportError.Input → IsTrue (R.has_failed source.new) }
{
    if let FieldType::Reference = value {
        let id = dump.id(source)?;
        return visitor.take_reference(dump, id);
    }
    let count = usize::from(value.data_bytes());
    dump.window.need(source, count)?;
    visitor.take_data(dump, dump.window.front(count))?;
    dump.window.pass(count);
    Ok(())
}

/// Reads the elements of an array.
fn read_elements<R: Intake, V: ValueVisitor>(
    dump: &mut Dump,
    source: &mut R,
    contents: Contents,
    visitor: &mut V,
) -> Result<(), ImportError>
    ensures input { result ≡ Err ImportError.Input → IsTrue (R.has_failed source.new) }
{
    for _ in 0..contents.references {
        read_value(dump, source, FieldType::Reference, visitor)?;
    }
    read_data(dump, source, contents.data_bytes, visitor)
}

/// Reads this many bytes of data.
fn read_data<R: Intake, V: ValueVisitor>(
    dump: &mut Dump,
    source: &mut R,
    bytes: u64,
    visitor: &mut V,
) -> Result<(), ImportError>
    ensures input { result ≡ Err ImportError.Input → IsTrue (R.has_failed source.new) }
{
    let mut rest = bytes;
    while rest > 0 {
        let count = dump.window.piece(source, rest, unit_of(rest))?;
        visitor.take_data(dump, dump.window.front(count))?;
        dump.window.pass(count);
        rest -= count as u64;
    }
    Ok(())
}

/// The unit in which `rest` bytes are read: whole words while there are any, then bytes.
fn unit_of(rest: u64) -> usize
    requires { 0 < rest }
    ensures some { 1 ≤ result }
    ensures small { result ≤ 8 }
    ensures within { result ≤ rest }
{
    if rest >= 8 { 8 } else { 1 }
}
