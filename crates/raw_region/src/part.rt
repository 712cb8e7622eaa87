//! The parts of a frame, by their numbers.
ghost use Rattle.std.specs.Prelude.{◌≡◌, ◌+◌, ◌*◌, ◌<◌, ◌^◌, ℕ, None};
ghost use Rattle.std.specs.Ptr.{Ptr};
ghost use Rattle.raw_region.specs.Block.{room_owns};
ghost use Rattle.raw_region.specs.Frame.{place_of};

use crate::room::{Room, Root};
use counted_slot::Fits;
use std::marker::{Model, Send, Sync};

/// The room of a region while it is in a frame. It takes no space: where it lies follows from its number. If it is
/// dropped, nobody frees it.
pub(crate) struct Part {
    pub(crate) ghost at: { Ptr },
    pub(crate) ghost len: { ℕ },
}

impl Model for Part {
    ghost also_owns = { λ p. room_owns None p.at p.len };
}

unsafe impl Send for Part {}

unsafe impl Sync for Part {}

impl Part {
    ghost use Rattle.raw_region.specs.Frame.{IsPart};
    ghost use Rattle.raw_region.specs.PartRoom.{held_by};

    pub(crate) fn of(room: Room) -> Part
        requires { room.deed ≡ None }
        ensures { held_by result ≡ room }
    {
        let Room { at: _, len: _ } = room;
        Part {}
    }

    /// Gives up its room, which is that of the part with this number, among parts of `size` words from `root` on.
    pub(crate) fn into_room(self, root: Root, index: usize, size: usize) -> Room
        requires part { IsPart (place_of root.at size index) (held_by self) }
        requires fits { index * size + size < 2 ^ 60 }
        ensures { result ≡ held_by self }
    {
        let Part {} = self;
        let at = unsafe { root.at.add(index * size) };
        Room { at, len: size }
    }
}

impl Drop for Part {
    fn drop(self) {
        let Part {} = self;
    }
}

impl Fits for Part {
    ghost use Rattle.raw_region.specs.Frame.{IsPart};
    ghost use Rattle.raw_region.specs.PartRoom.{held_by};

    type Tag = Place;

    ghost fits = { λ place part. IsPart place (held_by part) };
}

/// Which part of a frame.
#[derive(Drop)]
pub(crate) struct Place {
    root: Root,
    size: usize,
    index: usize,
}

impl Model for Place {
    ghost use Rattle.raw_region.specs.Frame.{Place, place_of};

    ghost Value = { Place };

    ghost view = { λ p. place_of p.root.at p.size p.index };
}

impl Place {
    pub(crate) fn first(root: Root, size: usize) -> Place
        ensures { result ≡ place_of root.at size 0 }
    {
        Place {
            root,
            size,
            index: 0,
        }
    }

    pub(crate) fn size(&self) -> usize
        ensures { result ≡ self.now.size }
    {
        self.size
    }

    /// Moves to the next part.
    pub(crate) fn step(&mut self)
        requires { self.old.index + 1 < 2 ^ 64 }
        ensures { self.new ≡ place_of self.old.root self.old.size (self.old.index + 1) }
    {
        self.index += 1;
    }
}
