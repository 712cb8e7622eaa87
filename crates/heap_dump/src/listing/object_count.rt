//! How many objects an imported image has.
ghost use Rattle.std.specs.Prelude.{◌≢◌, ◌<◌, ◌≤◌, IfOk};
ghost use Rattle.object_heap.specs.HeapImage.{heap_words};
ghost use Rattle.heap_dump.specs.Listing.{HasObjects, HasObjectsBefore};

use super::{is_next_live, words_of_object};
use dump_records::ImportError;
use heap_image::{Fault, Image};

/// How many objects an image has up to some address.
#[derive(Clone, Copy)]
struct ObjectCount {
    objects: u64,
    /// How many of them are live.
    live: usize,
}

/// Counts the objects of an image, as [`list_objects`](super::list_objects) lists them.
pub(crate) fn count_objects(image: &Image) -> Result<u64, ImportError>
    ensures count { IfOk result (λ count. HasObjects image.now count) }
    ensures no_device { result ≢ Err ImportError.Input }
{
    let mut count = ObjectCount {
        objects: 0,
        live: 0,
    };
    let mut at = 0;
    while at < image.len() {
        at = count.step(image, at)?;
    }
    if count.live != image.live().len() {
        return Err(ImportError::NoHeap(Fault::Length));
    }
    Ok(count.objects)
}

impl ObjectCount {
    /// Counts the object at an address, if there is one, and returns the address after it.
    fn step(&mut self, image: &Image, at: u64) -> Result<u64, ImportError>
        requires inside { at < heap_words image.now }
        requires before { HasObjectsBefore image.now self.old.live at self.old.objects }
        requires few { self.old.objects ≤ at }
        ensures before { IfOk result (λ next. HasObjectsBefore image.now self.new.live next self.new.objects) }
        ensures few { IfOk result (λ next. self.new.objects ≤ next) }
        ensures later { IfOk result (λ next. at < next) }
        ensures within { IfOk result (λ next. next ≤ heap_words image.now) }
        ensures no_device { result ≢ Err ImportError.Input }
    {
        let Some(words) = words_of_object(image, at)? else {
            return Ok(at + 1);
        };
        self.objects += 1;
        if is_next_live(image, self.live, at) {
            self.live += 1;
        }
        Ok(at + words)
    }
}
