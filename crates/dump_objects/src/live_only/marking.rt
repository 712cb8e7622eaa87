//! Marks what the roots of a heap reach.
ghost use Rattle.std.specs.Prelude.{◌<◌};
ghost use Rattle.object_heap.specs.Bits.{room};

use crate::heap::{UnsealedHeap, references};
use object_heap::Bits;
use std::alloc::{AllocError, Global};

/// The marks of a heap while references are followed.
#[derive(Drop)]
struct Marking {
    /// The number of words of the heap.
    words: u64,
    /// The addresses of the marked objects.
    marks: Bits,
    /// The mark stack: the marked objects whose references are still to be followed.
    stack: Vec<u64>,
    ghost inside: { words < room marks },
}

/// Marks what is reachable from the objects at these addresses. Returns the addresses of the marked objects.
pub(super) fn mark_reachable(
    alloc: Global,
    heap: &UnsealedHeap,
    roots: &[u64],
) -> Result<Bits, AllocError> {
    let words = heap.len();
    let mut marking = Marking {
        words,
        marks: Bits::new(alloc, words)?,
        stack: Vec::new(alloc),
    };
    marking.mark_all(roots)?;
    marking.follow_all(heap)?;
    let Marking { marks, .. } = marking;
    Ok(marks)
}

impl Marking {
    fn mark_all(&mut self, addresses: &[u64]) -> Result<(), AllocError> {
        for address in addresses {
            self.mark(*address)?;
        }
        Ok(())
    }

    /// Marks the object at an address and pushes it on the stack, unless it is marked already or outside the heap.
    fn mark(&mut self, address: u64) -> Result<(), AllocError> {
        if address < self.words && !self.marks.contains(address) {
            self.marks.insert(address);
            self.stack.push(address)?;
        }
        Ok(())
    }

    /// Follows references until the stack is empty.
    fn follow_all(&mut self, heap: &UnsealedHeap) -> Result<(), AllocError> {
        // Each address is pushed at most once.
        for _ in 0..self.words {
            let Some(address) = self.stack.pop() else {
                break;
            };
            self.follow(heap, address)?;
        }
        Ok(())
    }

    /// Marks what the references of the object at an address lead to.
    fn follow(&mut self, heap: &UnsealedHeap, address: u64) -> Result<(), AllocError> {
        let first = address.saturating_add(1);
        for slot in first..first.saturating_add(references(heap.word(address))) {
            let reference = heap.word(slot);
            if reference != 0 {
                self.mark(reference - 1)?;
            }
        }
        Ok(())
    }
}
