//! The types of fields and of array elements, and the size of references.
ghost use Rattle.std.specs.Prelude.{◌≤◌};

/// The number of bytes of an id, and so of a reference, in a dump.
#[derive(Clone, Copy)]
pub enum IdSize {
    Four,
    Eight,
}

impl IdSize {
    /// How many bytes an id has.
    pub fn bytes(self) -> u8
        ensures { result ≤ 8 }
    {
        match self {
            IdSize::Four => 4,
            IdSize::Eight => 8,
        }
    }
}

/// The type of a field or of an array's elements: a reference, or primitive data of 1, 2, 4 or 8 bytes.
#[derive(Clone, Copy)]
pub enum FieldType {
    Reference,
    One,
    Two,
    Four,
    Eight,
}

impl FieldType {
    /// The type with this code in the format.
    pub fn of_code(code: u8) -> Option<FieldType> {
        match code {
            2 => Some(FieldType::Reference),
            4 | 8 => Some(FieldType::One),
            5 | 9 => Some(FieldType::Two),
            6 | 10 => Some(FieldType::Four),
            7 | 11 => Some(FieldType::Eight),
            _ => None,
        }
    }

    /// The number of bytes of primitive data of a value: 0 for a reference.
    pub fn data_bytes(self) -> u8
        ensures { result ≤ 8 }
    {
        match self {
            FieldType::Reference => 0,
            FieldType::One => 1,
            FieldType::Two => 2,
            FieldType::Four => 4,
            FieldType::Eight => 8,
        }
    }

    /// The number of bytes of a value in a dump with ids of this size.
    pub fn bytes(self, ids: IdSize) -> u8
        ensures { result ≤ 8 }
    {
        match self {
            FieldType::Reference => ids.bytes(),
            _ => self.data_bytes(),
        }
    }
}
