//! What commands print, as JSON.
ghost use Rattle.std.specs.Prelude.{◌≡◌, ◌++◌, OnOk};
ghost use Rattle.command_support.specs.Json.{after, column_name, ending, first_of, json_of, next_column, piece, rest_of};

mod class_place;

use class_place::ClassPlace;
use std::alloc::AllocError;

/// A column of a summary.
#[derive(Clone, Copy)]
enum Column {
    Region,
    Partial,
    Live,
    Destination,
    Count,
    Source,
}

impl Column {
    /// The column after it. After the last one it stays.
    fn next(self) -> Column
        ensures { result ≡ next_column self }
    {
        match self {
            Column::Region => Column::Partial,
            Column::Partial => Column::Live,
            Column::Live => Column::Destination,
            Column::Destination => Column::Count,
            Column::Count | Column::Source => Column::Source,
        }
    }

    /// What stands before a number of this column.
    fn name(self) -> &'static str
        ensures { result.now ≡ column_name self }
    {
        match self {
            Column::Region => "{\"region\":",
            Column::Partial => ",\"partial\":",
            Column::Live => ",\"live\":",
            Column::Destination => ",\"dest\":",
            Column::Count => ",\"count\":",
            Column::Source => ",\"source\":",
        }
    }
}

/// A place in a text: a line of names and values, then lines of columns.
#[derive(Clone, Copy)]
enum Place {
    Name,
    Value,
    /// Before the first line of columns.
    FirstLine,
    /// Before a further line of columns.
    NextLine,
    /// Before a number of this column.
    Before(Column),
    /// In a number of this column.
    In(Column),
    /// In a histogram of classes, at this place.
    Classes(ClassPlace),
}

impl Place {
    /// The place after this byte.
    fn after(self, byte: u8) -> Place
        ensures { result ≡ after self byte }
    {
        match (self, byte) {
            (Place::Name, b' ') => Place::Value,
            (Place::Value, b' ') => Place::Name,
            (Place::Name | Place::Value, b'\n') => Place::FirstLine,
            (Place::FirstLine, b'n') => Place::Classes(ClassPlace::Head),
            (Place::Classes(place), _) => Place::Classes(place.after(byte)),
            (Place::In(column), b' ') => Place::Before(column.next()),
            (Place::In(_), b'\n') => Place::NextLine,
            (Place::FirstLine | Place::NextLine, b' ') => self,
            (Place::FirstLine | Place::NextLine, _) => Place::In(Column::Region),
            (Place::Before(_), b' ') => self,
            (Place::Before(column), _) => Place::In(column),
            _ => self,
        }
    }

    /// Appends what this byte adds to the object.
    fn push(self, byte: u8, json: &mut Vec<u8>) -> Result<(), AllocError>
        ensures { OnOk result (json.new.items ≡ json.old.items ++ piece self byte) }
    {
        match (self, byte) {
            (Place::Name, b' ') => json.extend_from_slice(b"\":"),
            (Place::Name, b'\n') => json.extend_from_slice(b"\":true"),
            (Place::Name, b'-') => json.extend_from_slice(b"_"),
            (Place::Value, b' ') => json.extend_from_slice(b",\""),
            (Place::In(_), b'\n') => json.extend_from_slice(b"}"),
            (Place::FirstLine, b'n') => json.extend_from_slice(b",\"classes\":["),
            (Place::Classes(place), _) => place.push(byte, json),
            (Place::Value, b'\n') | (_, b' ') => Ok(()),
            (Place::FirstLine, _) => {
                json.extend_from_slice(b",\"regions\":[")?;
                push_first(Column::Region, byte, json)
            }
            (Place::NextLine, _) => {
                json.extend_from_slice(b",")?;
                push_first(Column::Region, byte, json)
            }
            (Place::Before(column), _) => push_first(column, byte, json),
            _ => json.extend_from_slice(&[byte]),
        }
    }

    /// Appends the end of the object of a text that ends here.
    fn push_end(self, json: &mut Vec<u8>) -> Result<(), AllocError>
        ensures { OnOk result (json.new.items ≡ json.old.items ++ ending self) }
    {
        json.extend_from_slice(match self {
            Place::NextLine => b"]}\n".as_slice(),
            _ => b"}\n".as_slice(),
        })
    }
}

/// Appends the first byte of a number of this column. A hyphen stands for none.
fn push_first(column: Column, byte: u8, json: &mut Vec<u8>) -> Result<(), AllocError>
    ensures { OnOk result (json.new.items ≡ json.old.items ++ first_of column byte) }
{
    json.extend_from_slice(column.name().as_bytes())?;
    if byte == b'-' {
        json.extend_from_slice(b"null")
    } else {
        json.extend_from_slice(&[byte])
    }
}

/// Appends the object of what a command prints: a line of names and values, as `prefix 0 top 19`, and then perhaps the lines of
/// a summary, or a histogram of classes. A name without a value is true; a hyphen in a name becomes `_`.
pub fn push_json(text: &[u8], json: &mut Vec<u8>) -> Result<(), AllocError>
    ensures { OnOk result (json.new.items ≡ json.old.items ++ json_of text.now) }
{
    json.extend_from_slice(b"{\"")?;
    let mut place = Place::Name;
    let mut rest = text;
    while let Some((byte, others)) = rest.split_first() {
        place.push(*byte, json)?;
        place = place.after(*byte);
        rest = others;
    }
    place.push_end(json)
}
