//! References on their way between the parts of a heap.
ghost use Rattle.std.specs.Prelude.{◌≡◌, ◌<◌, IfOk, OnOk, [], length, slice_index_or};
ghost use Rattle.heap_marking.specs.Boxes.{AreEmpty, HasMore};

use std::alloc::{AllocError, Global};
use std::marker::Model;

/// References to addresses of the parts of a heap, in a box for each part.
///
/// A contract sees the references in each box.
#[derive(Drop)]
pub(crate) struct Boxes {
    boxes: Vec<Vec<u64>>,
}

impl Model for Boxes {
    ghost use Rattle.std.specs.Prelude.{List, ℕ, map};

    ghost Value = { List (List ℕ) };

    ghost view = { λ b. map (λ v. v.items) b.boxes.items };
}

impl Boxes {
    /// This number of empty boxes.
    pub(crate) fn new(alloc: Global, parts: usize) -> Result<Boxes, AllocError>
        ensures count { IfOk result (λ boxes. length boxes ≡ parts) }
        ensures empty { IfOk result (λ boxes. AreEmpty boxes) }
    {
        let mut boxes = Vec::with_capacity(alloc, parts)?;
        for _ in 0..parts {
            boxes.push(Vec::new(alloc))?;
        }
        Ok(Boxes { boxes })
    }

    /// The number of boxes.
    pub(crate) fn len(&self) -> usize
        ensures { result ≡ length self.now }
    {
        self.boxes.len()
    }

    /// Empties each box, and keeps its memory.
    pub(crate) fn clear(&mut self)
        ensures count { length self.new ≡ length self.old }
        ensures empty { AreEmpty self.new }
    {
        for k in 0..self.boxes.len() {
            self.boxes[k].clear();
        }
    }

    /// Puts a reference into box `k`.
    #[inline]
    pub(crate) fn send(&mut self, k: usize, reference: u64) -> Result<(), AllocError>
        requires { k < length self.old }
        ensures count { length self.new ≡ length self.old }
        ensures sent { OnOk result (HasMore k reference self.old self.new) }
    {
        self.boxes[k].push(reference)?;
        Ok(())
    }

    /// The references in box `k`.
    pub(crate) fn get(&self, k: usize) -> &[u64]
        requires { k < length self.now }
        ensures { result.now ≡ slice_index_or self.now k [] }
    {
        self.boxes[k].as_slice()
    }

    /// The number of references. No contract depends on it.
    pub(crate) fn load(&self) -> usize {
        let mut load: usize = 0;
        for references in &self.boxes {
            load = load.wrapping_add(references.len());
        }
        load
    }

    /// The number of references for which there is memory. No contract depends on it.
    pub(crate) fn room(&self) -> usize {
        let mut room: usize = 0;
        for references in &self.boxes {
            room = room.wrapping_add(references.capacity());
        }
        room
    }
}
