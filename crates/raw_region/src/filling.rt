//! Room whose first words are written.
ghost use Rattle.std.specs.Prelude.{◌≡◌, ◌<◌, ℕ, List, Option};
ghost use Rattle.std.specs.Ptr.{Ptr};
ghost use Rattle.raw_region.specs.Filling.{filling_owns};

use crate::block::Block;
use crate::room::Room;
use std::marker::Model;

/// Room for `len` words, the first `done` of which are written.
///
/// It has no `Drop`: only `end` ends it.
pub(crate) struct Filling {
    pub(crate) at: *mut u64,
    pub(crate) len: usize,
    pub(crate) done: usize,
    pub(crate) ghost words: { List ℕ },
    /// The allocation that may be freed, once all words of it are here.
    pub(crate) ghost deed: { Option (Ptr × ℕ) },
}

impl Model for Filling {
    ghost also_owns = { λ f. filling_owns f.deed f.at f.len f.done f.words };
}

impl Filling {
    ghost use Rattle.raw_region.specs.FillingSteps.{room_filled, IsBegun, HasOneMore};
    ghost use Rattle.raw_region.specs.Rooms.{room_of};

    /// Room none of whose words is written.
    pub(crate) fn begin(room: Room) -> Filling
        ensures { IsBegun room result }
    {
        let Room { at, len } = room;
        Filling { at, len, done: 0 }
    }

    /// Writes the next word.
    pub(crate) fn put(self, word: u64) -> Filling
        requires { self.done < self.len }
        ensures { HasOneMore self word result }
    {
        let Filling { at, len, done } = self;
        unsafe { at.add(done).write(word) };
        Filling {
            at,
            len,
            done: done + 1,
        }
    }

    /// The words, all of which are written.
    pub(crate) fn end(self) -> Block
        requires { self.done ≡ self.len }
        ensures { (room_of result ≡ room_filled self) × (result.words ≡ self.words) }
    {
        let Filling { at, len, done: _ } = self;
        Block { at, len }
    }
}
