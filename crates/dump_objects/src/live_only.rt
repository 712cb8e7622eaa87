//! The collector of `import --live-only`: it marks what the roots of a dump reach, and copies that into a heap of its own.
//!
//! `import` doesn't use the proved collection. That takes an image, and all objects of a dump may be too much for one where
//! those that are reached are not: an unreachable object may have more than the 16,777,215 references that a header counts, as
//! the outgrown table of a large hash map has. All objects together may have more than the 68,719,476,736 words of the largest
//! image, or than the 8,388,608 that regions of 8 words allow. And a collection keeps the words and the regions of its image,
//! so the survivors would be copied once more, into as much memory.
//!
//! The result is checked as any imported heap is: [`mark_from_roots`](heap_image::mark_from_roots) marks it again, and the
//! contract of `Draft::into_image` in `heap_dump` says that the image is valid and that its figures are right. That no
//! survivor is lost or changed is tested: `tests/large/test_large_dumps.py` compares the words with those that a collection
//! leaves, and `tests/cli/test_imported_heaps.py` with those of a plain model.

mod evacuation;
mod marking;
pub(crate) mod survivors;
