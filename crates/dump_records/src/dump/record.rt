use super::contents::Contents;

/// A record of the heap, or one with names of classes, whose head has been read, and whose body, if it has one, comes next.
#[derive(Clone, Copy)]
pub enum Record {
    /// A root. The other fields of its record have been skipped.
    Root { id: u64 },
    Object(ObjectRecord),
    /// A text outside the heap, whose bytes are the rest of its record.
    Text { id: u64 },
    /// A record outside the heap that says which text is the name of a class.
    ClassName { class: u64, text: u64 },
}

/// The head of an object.
#[derive(Clone, Copy)]
pub struct ObjectRecord {
    pub id: u64,
    pub kind: ObjectKind,
}

/// What an object is.
#[derive(Clone, Copy)]
pub enum ObjectKind {
    Class,
    /// An instance of the class with this id, whose fields have this number of bytes.
    Instance {
        class: u64,
        bytes: u32,
    },
    Array {
        elements: Elements,
        contents: Contents,
    },
}

/// What the elements of an array are.
#[derive(Clone, Copy)]
pub enum Elements {
    /// References. This is the id of the array's class.
    References { class: u64 },
    /// Primitive values of the type with this code.
    Primitive { code: u8 },
}
