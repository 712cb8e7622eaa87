//! The objects of a heap that its roots reach.
use super::evacuation::forwarding_address;
use super::marking::mark_reachable;
use crate::heap::weak_reference::WeakReference;
use crate::heap::{UnsealedHeap, size};
use std::alloc::{AllocError, Global};

/// The objects of a heap without gaps that are reachable from its roots.
#[derive(Drop)]
pub struct Survivors {
    /// Their addresses, ascending.
    pub addresses: Vec<u64>,
    /// The number of their words.
    pub words: u64,
}

impl Survivors {
    /// Finds the objects that are reachable from the objects at `roots`. The only error is that memory runs out.
    pub fn of(alloc: Global, heap: &UnsealedHeap, roots: &[u64]) -> Result<Survivors, AllocError> {
        let marks = mark_reachable(alloc, heap, roots)?;
        let mut survivors = Survivors {
            addresses: Vec::new(alloc),
            words: 0,
        };
        let end = heap.len();
        let mut at = 0u64;
        while at < end {
            let words = size(heap.word(at)).max(1);
            if marks.contains(at) {
                survivors.addresses.push(at)?;
                survivors.words = survivors.words.saturating_add(words);
            }
            at = at.saturating_add(words);
        }
        Ok(survivors)
    }

    /// Moves weak references along with the survivors, once these are copied from the old heap. Those of other objects, or to
    /// others, are dropped.
    pub fn move_weak(&self, old: &UnsealedHeap, weak: &mut Vec<WeakReference>) {
        weak.retain_mut(|reference| {
            let referent = reference.referent.wrapping_sub(1);
            if !self.has(reference.holder) || !self.has(referent) {
                return false;
            }
            let field = reference.slot.saturating_sub(reference.holder);
            reference.holder = forwarding_address(old, reference.holder);
            reference.slot = reference.holder.saturating_add(field);
            reference.referent = forwarding_address(old, referent).saturating_add(1);
            true
        });
    }

    /// Whether the object at this address of the old heap survives.
    fn has(&self, address: u64) -> bool {
        self.addresses.as_slice().binary_search(&address).is_ok()
    }
}
