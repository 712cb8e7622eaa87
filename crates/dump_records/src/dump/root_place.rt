//! Where roots are held.

/// Where a root is held. Roots of one kind are told apart by a number.
#[derive(Clone, Copy)]
pub struct RootPlace {
    /// The tag of its record, which says what holds it.
    pub kind: u8,
    /// The thread, in the upper half, and the frame; or the number of a handle; or 0.
    pub number: u64,
}

impl RootPlace {
    /// Before the first root.
    pub(crate) const NONE: RootPlace = RootPlace { kind: 0, number: 0 };

    /// The place in a record with this tag, where this number follows the id.
    pub(crate) fn of(tag: u8, number: u64) -> RootPlace {
        let number = match tag {
            // The object of a thread: the number of its stack trace isn't a frame.
            0x08 => number >> 32 << 32,
            // A thread alone.
            0x04 | 0x06 => (number % 4_294_967_296) << 32,
            _ => number,
        };
        RootPlace { kind: tag, number }
    }
}
