//! Places in a histogram of classes.
ghost use Rattle.std.specs.Prelude.{◌≡◌, ◌++◌, OnOk};
ghost use Rattle.command_support.specs.Classes.{class_after, class_column_name, class_piece, escaped, place_behind};

use std::alloc::AllocError;

/// A column of a histogram.
#[derive(Clone, Copy)]
pub(crate) enum ClassColumn {
    LiveObjects,
    LiveBytes,
    DeadObjects,
    DeadBytes,
    MachineBytes,
}

impl ClassColumn {
    /// The place behind a number of this column.
    fn behind(self) -> ClassPlace
        ensures { result ≡ place_behind self }
    {
        match self {
            ClassColumn::LiveObjects => ClassPlace::Before(ClassColumn::LiveBytes),
            ClassColumn::LiveBytes => ClassPlace::Before(ClassColumn::DeadObjects),
            ClassColumn::DeadObjects => ClassPlace::Before(ClassColumn::DeadBytes),
            ClassColumn::DeadBytes => ClassPlace::Before(ClassColumn::MachineBytes),
            ClassColumn::MachineBytes => ClassPlace::BeforeName,
        }
    }

    /// What stands before a number of this column.
    fn name(self) -> &'static str
        ensures { result.now ≡ class_column_name self }
    {
        match self {
            ClassColumn::LiveObjects => "{\"live_objects\":",
            ClassColumn::LiveBytes => ",\"live_bytes\":",
            ClassColumn::DeadObjects => ",\"dead_objects\":",
            ClassColumn::DeadBytes => ",\"dead_bytes\":",
            ClassColumn::MachineBytes => ",\"machine_bytes\":",
        }
    }
}

/// A place in a histogram: a line with the names of the columns, a line for each class, and a rest that begins with `total`.
#[derive(Clone, Copy)]
pub(crate) enum ClassPlace {
    /// In the names of the columns.
    Head,
    /// Before the first class.
    First,
    /// Before a further class.
    Next,
    /// In the number of a line, which a colon ends.
    Number,
    /// Before a number of this column.
    Before(ClassColumn),
    /// In a number of this column.
    In(ClassColumn),
    /// Before the name of a class.
    BeforeName,
    /// In the name of a class.
    Name,
    /// Behind the classes. An object has nothing of it.
    Rest,
}

impl ClassPlace {
    /// The place after this byte.
    pub(crate) fn after(self, byte: u8) -> ClassPlace
        ensures { result ≡ class_after self byte }
    {
        match (self, byte) {
            (ClassPlace::Head, b'\n') => ClassPlace::First,
            (ClassPlace::First | ClassPlace::Next, b' ') => self,
            (ClassPlace::First | ClassPlace::Next, b't') => ClassPlace::Rest,
            (ClassPlace::First | ClassPlace::Next, _) => ClassPlace::Number,
            (ClassPlace::Number, b':') => ClassPlace::Before(ClassColumn::LiveObjects),
            (ClassPlace::Before(_), b' ') => self,
            (ClassPlace::Before(column), _) => ClassPlace::In(column),
            (ClassPlace::In(column), b' ') => column.behind(),
            (ClassPlace::BeforeName, b' ') => self,
            (ClassPlace::BeforeName, _) => ClassPlace::Name,
            (ClassPlace::Name, b'\n') => ClassPlace::Next,
            _ => self,
        }
    }

    /// Appends what this byte adds to the object.
    pub(crate) fn push(self, byte: u8, json: &mut Vec<u8>) -> Result<(), AllocError>
        ensures { OnOk result (json.new.items ≡ json.old.items ++ class_piece self byte) }
    {
        match (self, byte) {
            (ClassPlace::First | ClassPlace::Next, b't') => json.extend_from_slice(b"]"),
            (ClassPlace::Name, b'\n') => json.extend_from_slice(b"\"}"),
            (ClassPlace::Name, _) => push_escaped(byte, json),
            (_, b' ') => Ok(()),
            (ClassPlace::Next, _) => json.extend_from_slice(b","),
            (ClassPlace::Before(column), _) => {
                json.extend_from_slice(column.name().as_bytes())?;
                json.extend_from_slice(&[byte])
            }
            (ClassPlace::In(_), _) => json.extend_from_slice(&[byte]),
            (ClassPlace::BeforeName, _) => {
                json.extend_from_slice(b",\"class\":\"")?;
                push_escaped(byte, json)
            }
            _ => Ok(()),
        }
    }
}

/// Appends a byte of a name, and a backslash before it where JSON wants one.
fn push_escaped(byte: u8, json: &mut Vec<u8>) -> Result<(), AllocError>
    ensures { OnOk result (json.new.items ≡ json.old.items ++ escaped byte) }
{
    match byte {
        b'"' | b'\\' => json.extend_from_slice(&[b'\\', byte]),
        _ => json.extend_from_slice(&[byte]),
    }
}
