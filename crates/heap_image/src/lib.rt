//! Heap images: their type, their encoding in bytes, and the faults of bytes that encode no valid image.
//!
//! An [`Image`] is a heap of words in regions, the addresses of its live objects, and an allowance of dead words. Every
//! value of the type is valid: its sizes keep the limits of the format, each live address has the header of an object
//! that fits, no two live objects overlap, and each reference is null or leads to a live object. An image of version 1
//! lists its live objects. An image of version 2 or 3 has roots, and its live objects are those reachable from them;
//! [`mark_from_roots`] finds these, and [`upgrade`] converts version 1 to version 2, [`upgrade_to`] to any later one.
//! Version 3 allows larger heaps.
//!
//! Each valid image has exactly one encoding, its text. [`decode`] and [`encode`] work in memory; [`read_image`] and
//! [`write_image`] work on any [`Intake`] and [`Outlet`]; [`FromRead`] and [`ToWrite`] adapt std's readers and writers.
//! Bytes that encode no valid image are rejected with their first [`Fault`]. A [`Marker`] is who marks and checks: the
//! caller [`Alone`], or [`Many`] threads, as [`all_processors`], with the same result.
//!
//! A [`Heap`] is the words of a heap alone, and a [`Bits`] is a set of addresses.
//!
//! **Proved**, for all inputs: `decode` returns an image exactly when the bytes are its text and memory suffices, and
//! otherwise the first fault; `encode` and `write_image` produce the text; `read_image` decides as `decode` does for
//! the bytes left in its device, and takes no byte that its result doesn't need; two valid images with the same text
//! are equal; fault 13 comes exactly when the device has failed; `mark_from_roots` returns the least set of addresses
//! that is closed under the roots and the references of sound objects; an upgraded image has the same live objects.
//! **Only tested**: the wording of the faults, and that fault 11 comes only when memory runs out.
#![tactic(auto)]

mod check;
mod check_share;
mod from_regions;
mod image;
mod io;
mod laws;
mod marking;
mod processors;
mod shared_check;
mod upgrading;

pub use check_share::CheckShare;
pub use from_regions::{RefusedRegions, UncheckedParts, image_of_regions};
pub use heap_marking::{Marker, PIECE};
pub use image::{Image, ImageParts};
pub use image_streams::{
    Body, BodySize, Extent, Failed, Fault, FileStore, FromRead, Intake, Outlet, Store, ToWrite,
    body_at, give_all,
};
pub use io::decoding::decode;
pub use io::encoding::encode;
pub use io::front::length_cause::LengthCause;
pub use io::front::{FRONT_BYTES, Front, extent_after_front};
pub use io::read::read_image;
pub use io::write::{write_image, write_image_buffered};
pub use laws::{
    faultless_is_text, faults_of_roots, image_is_valid, marked_parts_are_valid, one_text,
    text_is_faultless, text_is_read_back, text_tells_its_size,
};
pub use marking::mark_from_roots;
pub use object_heap::{
    Bits, Heap, Version, blocks_joined, header, inserted_bit, limits, live_laws,
    live_objects_are_reached, reachable_is_the_least_closed, regions_by_log,
    roots_are_null_or_live,
};
pub use processors::all_processors;
pub use shared_check::{SharedCheck, begin_check};
pub use thread_row::{Alone, Many};
pub use upgrading::{upgrade, upgrade_to};
