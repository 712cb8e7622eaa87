//! What the objects of a class are.

use dump_objects::{ARRAY_PADDING, CLASS_PADDING, INSTANCE_PADDING};

/// What the objects of a class are, as far as it tells how much larger they may be in the machine than in an image.
#[derive(Clone, Copy)]
pub(crate) enum ClassKind {
    Arrays,
    Classes,
    Instances,
}

impl ClassKind {
    ghost use Rattle.std.specs.Prelude.{◌≡◌};
    ghost use Rattle.heap_dump.specs.ClassNames.{padding_of};

    /// The kind of a class with this name in the dump.
    pub(crate) fn of_name(name: &[u8]) -> ClassKind {
        if name.first() == Some(&b'[') {
            ClassKind::Arrays
        } else if name == b"java/lang/Class".as_slice() {
            ClassKind::Classes
        } else {
            ClassKind::Instances
        }
    }

    /// The most words by which an object of this kind may be larger in the machine than in an image.
    pub(crate) fn most_padding(self) -> u64
        ensures { result ≡ padding_of self }
    {
        match self {
            ClassKind::Arrays => ARRAY_PADDING,
            ClassKind::Classes => CLASS_PADDING,
            ClassKind::Instances => INSTANCE_PADDING,
        }
    }
}
