//! The words of a heap in order.
ghost use Rattle.std.specs.Prelude.{◌≡◌, ◌≤◌, length};

use crate::dice::Dice;
use crate::layout::Layout;
use crate::object::Object;
use std::alloc::{AllocError, Global};

/// Generates the words of a heap in order.
///
/// A reference of a live object is null with probability 1/4, else it leads to a random live object. A reference of a
/// dead object is null with probability 1/4, else 1 plus a random address of the heap.
#[derive(Drop)]
pub(crate) struct HeapWords<'a> {
    layout: &'a Layout,
    /// The objects that come next.
    objects: &'a [Object],
    /// The number of words of the heap.
    words: u64,
    dice: Dice,
    /// The reference that leads to the current object, and whether that object is live.
    here: u64,
    is_live: bool,
    /// How many references and how many other words of the current object come next.
    references_left: u32,
    others_left: u32,
    /// For each live object, whether a live object before it refers to it.
    is_referenced: Vec<bool>,
    ghost some: { 1 ≤ words },
    ghost all_live: { length is_referenced.items ≡ length layout.now.live.items },
}

impl<'a> HeapWords<'a> {
    /// The words of the objects of a layout, in a heap of `words` words.
    pub(crate) fn new(
        alloc: Global,
        layout: &'a Layout,
        words: u64,
        dice: Dice,
    ) -> Result<HeapWords<'a>, AllocError>
        requires { 1 ≤ words }
    {
        Ok(HeapWords {
            layout,
            objects: layout.objects.as_slice(),
            words,
            dice,
            here: 0,
            is_live: false,
            references_left: 0,
            others_left: 0,
            is_referenced: vec![in alloc; false; layout.live.len()]?,
        })
    }

    /// The next word, or 0 after the last object.
    pub(crate) fn next_word(&mut self) -> u64 {
        if self.references_left > 0 {
            self.references_left -= 1;
            return self.next_reference();
        }
        if self.others_left > 0 {
            self.others_left -= 1;
            return self.dice.word();
        }
        match self.objects.split_first() {
            Some((object, others)) => {
                self.objects = others;
                self.begin(*object)
            }
            None => 0,
        }
    }

    /// Begins an object, and returns its header.
    fn begin(&mut self, object: Object) -> u64 {
        self.here = object.reference;
        self.is_live = object.is_live;
        self.references_left = object.references;
        self.others_left = object.size - 1 - object.references;
        object.header()
    }

    fn next_reference(&mut self) -> u64 {
        if self.dice.below(4) == 0 {
            0
        } else if self.is_live {
            self.live_reference()
        } else {
            1 + self.dice.below(self.words)
        }
    }

    /// A reference to a random live object, whose flag is set if it comes later.
    fn live_reference(&mut self) -> u64 {
        let live = self.layout.live.as_slice();
        if live.is_empty() {
            return 0;
        }
        let chosen = self.dice.below(live.len() as u64) as usize;
        if live[chosen] > self.here {
            self.is_referenced[chosen] = true;
        }
        live[chosen]
    }

    /// For each live object, whether a live object before it refers to it.
    pub(crate) fn is_referenced(&self) -> &[bool] {
        self.is_referenced.as_slice()
    }
}
