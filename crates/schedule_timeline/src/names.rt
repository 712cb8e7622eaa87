use heap_map::write_name;
use std::alloc::AllocError;

/// The names of the files that a picture shows.
#[derive(Debug, Clone, Copy)]
pub struct Names<'a> {
    /// The file of the image.
    pub heap: &'a str,
    /// The file of the schedule.
    pub schedule: &'a str,
}

/// Writes the names of the files, without their folders, as text of XML or HTML.
pub(crate) fn write_names(text: &mut String, names: Names<'_>) -> Result<(), AllocError> {
    text.push_str("Heap ")?;
    write_name(text, names.heap)?;
    text.push_str(", schedule ")?;
    write_name(text, names.schedule)
}
