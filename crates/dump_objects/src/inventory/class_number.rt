//! The numbers of classes in a list of objects.

/// The number of arrays of a class that is missing from the dump.
pub const UNKNOWN_ARRAYS: u32 = 0;

/// The number of class objects.
pub const CLASS_OBJECTS: u32 = 9;

/// The number of the class whose number in the dump, counted from 1, is `class`. 0 gives that of
/// [`CLASS_OBJECTS`].
pub fn number_of_class(class: u32) -> u32 {
    class.saturating_add(CLASS_OBJECTS)
}

/// The number of the arrays of primitive values of the type with this code.
pub fn number_of_code(code: u8) -> u32 {
    u32::from(code).saturating_sub(3).min(8)
}
