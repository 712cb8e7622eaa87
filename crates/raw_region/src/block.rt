//! The unsafe code of the crate: a raw pointer, a length, and the memory that they own.
ghost use Rattle.std.specs.Prelude.{◌≡◌, ◌*◌, ◌^◌, ◌<◌, ◌≤◌, ℕ, List, flat_map, length, replicate, Option, Some, IfOk};
ghost use Rattle.std.specs.Borrow.{sem};
ghost use Rattle.std.specs.Int.{w64, to_le_bytes};
ghost use Rattle.std.specs.Ptr.{Ptr};
ghost use Rattle.raw_region.specs.Block.{block_owns, block_shares};

use crate::room::Room;
use std::alloc::{AllocError, Global};
use std::marker::{Model, Send, Sync};
use std::slice;

/// The largest number of words of a region.
pub const MAX_WORDS: usize = 1_048_576;

/// `len` words at a place, which may be a part of an allocation.
///
/// It has no `Drop`, so the check rejects code that drops a block: only `release` and `leave` end one.
pub(crate) struct Block {
    pub(crate) at: *mut u64,
    pub(crate) len: usize,
    pub(crate) ghost words: { List ℕ },
    /// The allocation that the block may free, once all words of it are in the block.
    pub(crate) ghost deed: { Option (Ptr × ℕ) },
}

impl Model for Block {
    ghost also_owns = { λ b. block_owns b.deed b.at b.len b.words };

    ghost also_shares = { λ b _ κ. block_shares b.at b.len b.words κ };
}

unsafe impl Send for Block {}

unsafe impl Sync for Block {}

impl Block {
    ghost use Rattle.raw_region.specs.BlockLending.{LendsBlock};
    ghost use Rattle.raw_region.specs.Rooms.{room_of};

    /// Allocates a block of zeros.
    pub(crate) fn zeroed(alloc: &Global, len: usize) -> Result<Block, AllocError>
        requires nonempty { 1 ≤ len }
        requires at_most { len < 2 ^ 60 }
        ensures { IfOk result (λ b. (b.words ≡ replicate len 0) × (b.len ≡ len) × (b.deed ≡ Some (b.at, len))) }
    {
        Ok(Room::allocate(alloc, len)?.zeroed())
    }

    /// Allocates a block with a copy of these words.
    pub(crate) fn of_words(alloc: &Global, words: &[u64]) -> Result<Block, AllocError>
        requires nonempty { 1 ≤ length words.now }
        requires at_most { length words.now < 2 ^ 60 }
        ensures words { IfOk result (λ b. b.words ≡ words.now) }
        ensures length { IfOk result (λ b. b.len ≡ length words.now) }
        ensures deed { IfOk result (λ b. b.deed ≡ Some (b.at, b.len)) }
    {
        Ok(Room::allocate(alloc, words.len())?.write(words))
    }

    /// Allocates a block with the words that these bytes are, 8 each, the lowest byte first.
    pub(crate) fn of_bytes(alloc: &Global, bytes: &[u8], len: usize) -> Result<Block, AllocError>
        requires nonempty { 1 ≤ len }
        requires at_most { len < 2 ^ 60 }
        requires whole { length bytes.now ≡ 8 * len }
        ensures words { IfOk result (λ b. flat_map (to_le_bytes w64) b.words ≡ bytes.now) }
        ensures length { IfOk result (λ b. b.len ≡ len) }
        ensures deed { IfOk result (λ b. b.deed ≡ Some (b.at, b.len)) }
    {
        Ok(Room::allocate(alloc, len)?.write_bytes(bytes))
    }

    pub(crate) fn words(&self) -> &[u64]
        ensures value { result.now ≡ self.now.words }
        ensures length { length self.now.words ≡ self.now.len }
    {
        unsafe { slice::from_raw_parts(self.at, self.len) }
    }

    pub(crate) fn words_mut(&mut self) -> &mut [u64]
        ensures* writes_back { sem 𝓛 (LendsBlock self.entry result) }
        ensures value { result.now ≡ self.old.words }
    {
        unsafe { slice::from_raw_parts_mut(self.at, self.len) }
    }

    /// Gives the words up.
    pub(crate) fn into_room(self) -> Room
        ensures { result ≡ room_of self }
    {
        let Block { at, len } = self;
        Room { at, len }
    }

    /// Frees the allocation, all of whose words are in the block.
    pub(crate) fn release(self, alloc: &Global)
        requires { self.deed ≡ Some (self.at, self.len) }
    {
        self.into_room().release(alloc);
    }

    /// Drops the block without freeing its words.
    pub(crate) fn leave(self) {
        let Block { at: _, len: _ } = self;
    }
}
