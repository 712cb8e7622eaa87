//! The end of rounds: the marks of the parts in one set, from which one thread goes on.
ghost use Rattle.std.specs.Prelude.{◌≤◌, All, IfOk, OnOk, IsTrue};
ghost use Rattle.std.specs.List.{list_any};
ghost use Rattle.heap_marking.specs.Boxes.{arrives_anywhere};
ghost use Rattle.heap_marking.specs.Marking.{Grows, HasRoom, leads_any};
ghost use Rattle.heap_marking.specs.Rounds.{AreAllWaiting, AreJoinable, AreJoinedIn, HasLayout, IsContinued};

use super::Marking;
use super::boxes::Boxes;
use super::part::{Part, part_size};
use super::rounds::Rounds;
use object_heap::{Bits, Heap, reachable_is_the_least_closed};
use std::alloc::{AllocError, Global};

impl Rounds {
    /// The marking in one thread that goes on from here.
    pub(crate) fn marking(&self, alloc: Global, heap: &Heap<'_>) -> Result<Marking, AllocError>
        requires low { 6 ≤ self.now.log }
        requires layout { HasLayout heap.now self.now }
        ensures { IfOk result (IsContinued heap.now self.now) }
    {
        reachable_is_the_least_closed();
        let words = heap.len();
        let parts = self.parts.as_slice();
        let mut marking = Marking {
            words,
            bits: join_bits(alloc, words, self.log, parts)?,
            stack: join_stacks(alloc, parts)?,
            well_formed: are_well_formed(parts),
        };
        marking.visit_rows(self.sent.as_slice())?;
        Ok(marking)
    }
}

/// The bits of the parts, one after the other, as a set with room for the addresses up to and including `words`.
fn join_bits(alloc: Global, words: u64, log: u32, parts: &[Part]) -> Result<Bits, AllocError>
    requires { AreJoinable log words parts.now }
    ensures { IfOk result (AreJoinedIn log words parts.now) }
{
    let mut joined = Vec::with_capacity(alloc, (words / 64 + part_size(log) / 64 + 1) as usize)?;
    for part in parts {
        part.append_bits(log, &mut joined)?;
    }
    joined.push(0)?;
    joined.truncate((words / 64 + 1) as usize);
    Ok(Bits::from_words(joined))
}

/// The addresses that wait in the parts.
fn join_stacks(alloc: Global, parts: &[Part]) -> Result<Vec<u64>, AllocError>
    ensures { IfOk result (λ stack. AreAllWaiting parts.now stack.items) }
{
    let mut stack = Vec::new(alloc);
    for part in parts {
        stack.extend_from_slice(part.stack.as_slice())?;
    }
    Ok(stack)
}

/// Whether all objects that were followed in the parts are well-formed.
fn are_well_formed(parts: &[Part]) -> bool
    ensures { IsTrue result → All (λ p. IsTrue p.well_formed) parts.now }
{
    for part in parts {
        if !part.well_formed {
            return false;
        }
    }
    true
}

impl Marking {
    /// Visits the targets of all references in these rows of boxes.
    fn visit_rows(&mut self, rows: &[Boxes]) -> Result<(), AllocError>
        requires { HasRoom self.old }
        ensures growth { OnOk result (Grows (arrives_anywhere rows.now) self.old self.new) }
        ensures well_formed { OnOk result (IsTrue self.new.well_formed → IsTrue self.old.well_formed) }
    {
        for boxes in rows {
            self.visit_boxes(boxes)?;
        }
        Ok(())
    }

    /// Visits the targets of all references in these boxes.
    fn visit_boxes(&mut self, boxes: &Boxes) -> Result<(), AllocError>
        requires { HasRoom self.old }
        ensures growth { OnOk result (Grows (λ b. list_any (λ references. leads_any references b) boxes.now) self.old self.new) }
        ensures well_formed { OnOk result (IsTrue self.new.well_formed → IsTrue self.old.well_formed) }
    {
        for k in 0..boxes.len() {
            self.visit_all(boxes.get(k))?;
        }
        Ok(())
    }
}
