//! The size of an object without its header.
use super::field_type::{FieldType, IdSize};

/// The number of references and of bytes of primitive data of an object.
#[derive(Clone, Copy)]
pub struct Contents {
    pub references: u64,
    pub data_bytes: u64,
}

impl Contents {
    /// No references and no data.
    pub const EMPTY: Contents = Contents {
        references: 0,
        data_bytes: 0,
    };

    /// The contents of an array of `count` references.
    pub fn of_references(count: u32) -> Contents {
        Contents {
            references: u64::from(count),
            ..Contents::EMPTY
        }
    }

    /// The contents of an array of `count` primitive values of this type.
    pub fn of_data(count: u32, element: FieldType) -> Contents {
        Contents {
            data_bytes: u64::from(count) * u64::from(element.data_bytes()),
            ..Contents::EMPTY
        }
    }

    /// The contents with one more value of this type.
    pub fn with(self, field: FieldType) -> Contents {
        match field {
            FieldType::Reference => Contents {
                references: self.references.saturating_add(1),
                ..self
            },
            _ => Contents {
                data_bytes: self
                    .data_bytes
                    .saturating_add(u64::from(field.data_bytes())),
                ..self
            },
        }
    }

    /// The sum of both.
    pub fn plus(self, other: Contents) -> Contents {
        Contents {
            references: self.references.saturating_add(other.references),
            data_bytes: self.data_bytes.saturating_add(other.data_bytes),
        }
    }

    /// The number of words of the object in an image: its header, its references, and its data, rounded up to whole
    /// words.
    pub fn words(self) -> u64 {
        self.references
            .saturating_add(self.data_bytes.div_ceil(8))
            .saturating_add(1)
    }

    /// The number of bytes of the values in a dump with ids of this size.
    pub fn bytes(self, ids: IdSize) -> u64 {
        self.references
            .saturating_mul(u64::from(ids.bytes()))
            .saturating_add(self.data_bytes)
    }
}
