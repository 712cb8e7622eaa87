//! References that aren't followed.

/// A reference of a heap that isn't followed, and isn't in the heap yet: its word is null.
#[derive(Clone, Copy)]
pub struct WeakReference {
    /// The address of the object that has it.
    pub holder: u64,
    /// The address of its word.
    pub slot: u64,
    /// The id of its referent; once ids are resolved, the reference, or 0.
    pub referent: u64,
}
