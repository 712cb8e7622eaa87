//! Room for words, which have no value yet.
ghost use Rattle.std.specs.Prelude.{◌≡◌, ◌+◌, ◌*◌, ◌^◌, ◌<◌, ◌≤◌, ℕ, flat_map, length, slice_range, replicate, Option, Some, IfOk};
ghost use Rattle.std.specs.Int.{w64, to_le_bytes};
ghost use Rattle.std.specs.Ptr.{Ptr};
ghost use Rattle.raw_region.specs.Block.{room_owns};

use crate::block::Block;
use crate::filling::Filling;
use std::alloc::{AllocError, Allocator, Global};
use std::marker::{Model, Send, Sync};

/// Room for `len` words at a place, which may be a part of an allocation.
///
/// It has no `Drop`, so the check rejects code that drops it: only `release` and `leave` end it.
pub(crate) struct Room {
    pub(crate) at: *mut u64,
    pub(crate) len: usize,
    /// The allocation that may be freed, once the room is all of it.
    pub(crate) ghost deed: { Option (Ptr × ℕ) },
}

impl Model for Room {
    ghost also_owns = { λ r. room_owns r.deed r.at r.len };
}

unsafe impl Send for Room {}

unsafe impl Sync for Room {}

/// Where room begins. It owns nothing.
#[derive(Clone, Copy)]
pub(crate) struct Root {
    pub(crate) at: *mut u64,
}

unsafe impl Send for Root {}

unsafe impl Sync for Root {}

impl Room {
    ghost use Rattle.raw_region.specs.Cutting.{IsCut, CanJoin, IsJoin};
    ghost use Rattle.raw_region.specs.Rooms.{room_of};

    /// Allocates room.
    pub(crate) fn allocate(alloc: &Global, len: usize) -> Result<Room, AllocError>
        requires nonempty { 1 ≤ len }
        requires at_most { len < 2 ^ 60 }
        ensures { IfOk result (λ r. (r.len ≡ len) × (r.deed ≡ Some (r.at, len))) }
    {
        match alloc.allocate(len * 8, 8) {
            Ok(start) => {
                let at = start as *mut u64;
                Ok(Room { at, len })
            }
            Err(refused) => Err(refused),
        }
    }

    /// Returns the room itself, and where it begins.
    pub(crate) fn rooted(self) -> (Room, Root)
        ensures { (result.0 ≡ self) × (result.1.at ≡ self.at) }
    {
        let Room { at, len } = self;
        (Room { at, len }, Root { at })
    }

    /// Cuts off the room for the first `n` words, which keeps the deed.
    pub(crate) fn cut(self, n: usize) -> (Room, Room)
        requires { n ≤ self.len }
        ensures { IsCut self n result.0 result.1 }
    {
        let Room { at, len } = self;
        let above = unsafe { at.add(n) };
        (
            Room { at, len: n },
            Room {
                at: above,
                len: len - n,
            },
        )
    }

    /// Joins the room that begins where this one ends.
    pub(crate) fn join(self, above: Room) -> Room
        requires { CanJoin self above }
        ensures { IsJoin self above result }
    {
        let Room { at, len } = self;
        let Room { at: _, len: more } = above;
        Room {
            at,
            len: len + more,
        }
    }

    /// Writes zeros.
    pub(crate) fn zeroed(self) -> Block
        ensures { (room_of result ≡ self) × (result.words ≡ replicate self.len 0) }
    {
        let Room { at, len } = self;
        let mut i = 0;
        while i < len {
            unsafe { at.add(i).write(0) };
            i += 1;
        }
        Block { at, len }
    }

    /// Writes a copy of these words.
    pub(crate) fn write(self, words: &[u64]) -> Block
        requires { length words.now ≡ self.len }
        ensures { (room_of result ≡ self) × (result.words ≡ words.now) }
    {
        let Room { at, len } = self;
        let mut i = 0;
        while i < len {
            unsafe { at.add(i).write(words[i]) };
            i += 1;
        }
        Block { at, len }
    }

    /// Writes the words that these bytes are, 8 each, the lowest byte first.
    pub(crate) fn write_bytes(self, bytes: &[u8]) -> Block
        requires { length bytes.now ≡ 8 * self.len }
        ensures room { room_of result ≡ self }
        ensures words { flat_map (to_le_bytes w64) result.words ≡ bytes.now }
    {
        let mut filling = Filling::begin(self);
        for i in 0..bytes.len() / 8 {
            filling = filling.put(word_at(bytes, i));
        }
        filling.end()
    }

    /// Frees the allocation, all of which is in the room.
    pub(crate) fn release(self, alloc: &Global)
        requires { self.deed ≡ Some (self.at, self.len) }
    {
        let Room { at, len } = self;
        unsafe { alloc.deallocate(at as *mut u8, len * 8, 8) }
    }

    /// Drops the room without freeing it.
    pub(crate) fn leave(self) {
        let Room { at: _, len: _ } = self;
    }
}

/// The word at index `i`, whose bytes are 8 of these, the lowest first.
fn word_at(bytes: &[u8], i: usize) -> u64
    requires { 8 * i + 8 ≤ length bytes.now }
    ensures { to_le_bytes w64 result ≡ slice_range bytes.now (8 * i) (8 * i + 8) }
{
    u64::from_le_bytes(*bytes[8 * i..8 * i + 8].first_chunk::<8>().unwrap())
}
