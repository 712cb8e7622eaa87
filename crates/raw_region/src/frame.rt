//! One allocation whose words are parts of one size, each of which is in its slot or out.
ghost use Rattle.std.specs.Prelude.{◌≡◌, ◌+◌, ◌*◌, ◌^◌, ◌<◌, ◌≤◌, ◌∷◌, [], ◌++◌, map, IfSome, IfOk, vec_len};
ghost use Rattle.std.specs.List.{range_with_len};
ghost use Rattle.std.specs.Vec.{vec_capacity};
ghost use Rattle.raw_region.specs.Frame.{place_of, part_of, IsPart, IsRest};

use crate::block::MAX_WORDS;
use crate::part::{Part, Place};
use crate::room::{Room, Root};
use counted_slot::{Counted, FREE, TAKEN};
use std::alloc::{AllocError, Global};
use std::marker::Model;

/// The state of a slot whose part is in it.
const HERE: u64 = FREE;

/// The state of a slot whose part is out.
const OUT: u64 = 0x1_0000_0000;

/// An allocation, and a slot for each part of it.
///
/// It has no `Drop`: only `end` ends one.
pub(crate) struct Frame {
    // No room, and the right to free the allocation.
    deed: Room,
    root: Root,
    size: usize,
    slots: Vec<Counted<Option<Part>>>,
}

impl Model for Frame {
    ghost use Rattle.std.specs.Prelude.{length};
    ghost use Rattle.raw_region.specs.Frame.{FrameView, IsFrame};

    ghost Value = { FrameView };

    ghost view = { λ f. record { root = f.deed.at; size = f.size; count = length f.slots.items } };

    ghost invariant = { λ f. IsFrame f.deed f.root.at f.size f.slots.items };
}

impl Frame {
    /// Allocates `count` parts of `size` words.
    pub(crate) fn new(alloc: Global, count: usize, size: usize) -> Result<Frame, AllocError>
        requires some { 1 ≤ count }
        requires nonempty { 1 ≤ size }
        requires at_most { size ≤ MAX_WORDS }
        requires fits { count * size < 2 ^ 60 }
        ensures size { IfOk result (λ f. f.size ≡ size) }
        ensures count { IfOk result (λ f. f.count ≡ count) }
    {
        let mut slots = Vec::with_capacity(alloc, count)?;
        let (deed, room) = Room::allocate(&alloc, count * size)?.cut(0);
        let (deed, root) = deed.rooted();
        let first = Place::first(root, size);
        put_all(&mut slots, room, count, first);
        Ok(Frame {
            deed,
            root,
            size,
            slots,
        })
    }

    /// The number of words of a part.
    pub(crate) fn size(&self) -> usize
        ensures value { result ≡ self.now.size }
        ensures nonempty { 1 ≤ result }
        ensures at_most { result ≤ MAX_WORDS }
    {
        self.size
    }

    /// The number of parts.
    pub(crate) fn count(&self) -> usize
        ensures { result ≡ self.now.count }
    {
        self.slots.len()
    }

    /// Takes a part out of its slot. `None` if it is out already.
    pub(crate) fn take(&self, index: usize) -> Option<Room>
        requires { index < self.now.count }
        ensures part { IfSome result (λ room. IsPart (part_of self.now index) room) }
        ensures nonempty { 1 ≤ self.now.size }
        ensures at_most { self.now.size ≤ MAX_WORDS }
    {
        let (found, claim) = self.slot(index).turn(HERE, TAKEN);
        if found != HERE {
            claim.done();
            return None;
        }
        let part = claim.put(None, OUT)?;
        Some(part.into_room(self.root, index, self.size))
    }

    /// Puts a part back into its slot. No one else turns the slot while the part is out, so the turn wins. No contract
    /// says so; if it lost, the frame would never be freed.
    pub(crate) fn put(&self, index: usize, room: Room)
        requires inside { index < self.now.count }
        requires part { IsPart (part_of self.now index) room }
    {
        let part = Part::of(room);
        let (found, claim) = self.slot(index).turn(OUT, TAKEN);
        if found == OUT {
            claim.put(Some(part), HERE);
        } else {
            claim.done();
        }
    }

    /// Frees the allocation. If a part is out, nobody frees it.
    pub(crate) fn end(self, alloc: &Global) {
        let Frame {
            deed,
            root,
            size,
            slots,
        } = self;
        let mut whole = deed;
        let mut index = 0;
        for slot in slots {
            let Some(part) = slot.into_inner() else {
                whole.leave();
                return;
            };
            whole = whole.join(part.into_room(root, index, size));
            index += 1;
        }
        whole.release(alloc);
    }

    fn slot(&self, index: usize) -> &Counted<Option<Part>>
        requires { index < self.now.count }
        ensures value { result.now ≡ part_of self.now index }
        ensures fits { index * self.now.size + self.now.size < 2 ^ 60 }
        ensures nonempty { 1 ≤ self.now.size }
        ensures at_most { self.now.size ≤ MAX_WORDS }
    {
        &self.slots[index]
    }
}

/// Cuts the room into `count` parts, and appends a slot for each.
fn put_all(slots: &mut Vec<Counted<Option<Part>>>, room: Room, count: usize, first: Place)
    requires first { first.index ≡ 0 }
    requires rest { IsRest first.root first.size count 0 room }
    requires empty { slots.old.items ≡ [] }
    requires capacity { count ≤ vec_capacity slots.old }
    ensures { slots.new.items ≡ map (place_of first.root first.size) (range_with_len 0 count) }
{
    let mut place = first;
    let mut rest = room;
    for _ in 0..count {
        let (room, above) = rest.cut(place.size());
        add(slots, Counted::new(Some(Part::of(room)), &place));
        rest = above;
        place.step();
    }
    rest.leave();
}

/// Pushes an item for which room is reserved.
fn add<T: Drop>(items: &mut Vec<T>, item: T)
    requires { vec_len items.old < vec_capacity items.old }
    ensures items { items.new.items ≡ items.old.items ++ item ∷ [] }
    ensures capacity { vec_capacity items.old ≤ vec_capacity items.new }
{
    if items.push(item).is_err() {
        unreachable!();
    }
}
