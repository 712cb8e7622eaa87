//! The safe part of the crate: a list of words, built on `Block`.
ghost use Rattle.std.specs.Prelude.{◌≡◌, ◌+◌, ◌*◌, ◌<◌, ◌≤◌, flat_map, length, replicate, slice_index, slice_set, IfOk, IfErr, IsTrue, None};
ghost use Rattle.std.specs.Int.{w64, to_le_bytes};
ghost use Rattle.std.specs.Borrow.{sem};
ghost use Rattle.raw_region.specs.Region.{with_words, part, hides};

use crate::block::{Block, MAX_WORDS};
use crate::chunks::move_down;
use crate::home::{Home, Lease};
use std::alloc::{AllocError, Global};
use std::marker::Model;

/// The most words of a cleared region whose block still has the old ones.
const HIDDEN_WORDS: usize = 65_536;

/// The words of a cleared region, whose block still has the old ones.
static ZEROS: [u64; HIDDEN_WORDS] = [0; HIDDEN_WORDS];

/// From 1 to `MAX_WORDS` words of 64 bits. A contract sees the list of them.
pub struct Region {
    block: Block,
    /// If it is clear, all words are 0, whatever the block contains, if that has at most `HIDDEN_WORDS`.
    home: Home,
    alloc: Global,
}

impl Model for Region {
    ghost use Rattle.std.specs.Prelude.{List, ℕ};
    ghost use Rattle.raw_region.specs.Region.{shown_words};
    ghost use Rattle.raw_region.specs.RegionBlock.{IsRegionBlock, is_clear_of};

    ghost Value = { List ℕ };

    ghost view = { λ r. shown_words (is_clear_of r.home) r.block.words };

    ghost invariant = { λ r. IsRegionBlock r.home r.block };
}

impl Region {
    ghost use Rattle.raw_region.specs.RegionLending.{LendsRegion};
    ghost use Rattle.raw_region.specs.RegionBlock.{IsLeased};
    ghost use Rattle.raw_region.specs.Rooms.{room_of};

    /// Allocates a region of this many words, all 0. The only error is that memory runs out.
    pub fn new(alloc: Global, words: usize) -> Result<Region, AllocError>
        requires nonempty { 1 ≤ words }
        requires at_most { words ≤ MAX_WORDS }
        ensures zeros { IfOk result (λ r. r ≡ replicate words 0) }
        ensures length { IfOk result (λ r. length r ≡ words) }
    {
        let block = Block::zeroed(&alloc, words)?;
        Ok(Region {
            block,
            home: Home::Own { is_clear: false },
            alloc,
        })
    }

    /// Allocates a region with a copy of these words. The only error is that memory runs out.
    pub fn of_words(alloc: Global, words: &[u64]) -> Result<Region, AllocError>
        requires nonempty { 1 ≤ length words.now }
        requires at_most { length words.now ≤ MAX_WORDS }
        ensures { IfOk result (λ region. region ≡ words.now) }
    {
        let block = Block::of_words(&alloc, words)?;
        Ok(Region {
            block,
            home: Home::Own { is_clear: false },
            alloc,
        })
    }

    /// Allocates a region of `len` words, which these bytes are, 8 each, the lowest byte first. The only error is that memory
    /// runs out.
    pub fn of_bytes(alloc: Global, bytes: &[u8], len: usize) -> Result<Region, AllocError>
        requires nonempty { 1 ≤ len }
        requires at_most { len ≤ MAX_WORDS }
        requires whole { length bytes.now ≡ 8 * len }
        ensures { IfOk result (λ region. flat_map (to_le_bytes w64) region ≡ bytes.now) }
    {
        let block = Block::of_bytes(&alloc, bytes, len)?;
        Ok(Region {
            block,
            home: Home::Own { is_clear: false },
            alloc,
        })
    }

    /// A region of a part of a frame.
    pub(crate) fn of_lease(alloc: Global, lease: Lease, block: Block) -> Region
        requires lease { IsLeased lease (room_of block) }
        requires nonempty { 1 ≤ block.len }
        requires at_most { block.len ≤ MAX_WORDS }
        ensures { result ≡ block.words }
    {
        Region {
            block,
            home: Home::Leased {
                is_clear: false,
                lease,
            },
            alloc,
        }
    }

    /// A region of a host's words.
    pub(crate) fn of_host(alloc: Global, block: Block) -> Region
        requires nonempty { 1 ≤ block.len }
        requires at_most { block.len ≤ MAX_WORDS }
        requires deed { block.deed ≡ None }
        ensures { result ≡ block.words }
    {
        Region {
            block,
            home: Home::Host { is_clear: false },
            alloc,
        }
    }

    /// The words of a host. A region of other words comes back.
    pub(crate) fn into_host(self) -> Result<Block, Region>
        ensures block { IfOk result (λ b. (b.words ≡ self) × (b.deed ≡ None)) }
        ensures refused { IfErr result (λ back. back ≡ self) }
    {
        let Region {
            mut block,
            home,
            alloc,
        } = self;
        match home {
            Home::Host { is_clear } => {
                if hides(is_clear, block.words()) {
                    zero(block.words_mut());
                }
                Ok(block)
            }
            home => Err(Region { block, home, alloc }),
        }
    }

    /// The number of words, which never changes.
    pub fn len(&self) -> usize
        ensures value { result ≡ length self.now }
        ensures nonempty { 1 ≤ length self.now }
        ensures at_most { length self.now ≤ MAX_WORDS }
    {
        self.words().len()
    }

    /// The words. Those of a cleared region are read from a static array.
    pub fn words(&self) -> &[u64]
        ensures value { result.now ≡ self.now }
        ensures nonempty { 1 ≤ length self.now }
        ensures at_most { length self.now ≤ MAX_WORDS }
    {
        let words = self.block.words();
        if hides(self.home.is_clear(), words) {
            &ZEROS[..words.len()]
        } else {
            words
        }
    }

    /// The words, mutably. If the region is cleared, this first writes its zeros.
    pub fn words_mut(&mut self) -> &mut [u64]
        ensures* writes_back { sem 𝓛 (LendsRegion self.entry result) }
        ensures value { result.now ≡ self.old }
    {
        if hides(self.home.is_clear(), self.block.words()) {
            zero(self.block.words_mut());
        }
        self.home.set_clear(false);
        self.block.words_mut()
    }

    /// The word at index `i`.
    pub fn get(&self, i: usize) -> u64
        requires { i < length self.now }
        ensures { result ≡ slice_index self.now i }
    {
        self.words()[i]
    }

    /// Sets the word at index `i`.
    pub fn set(&mut self, i: usize, word: u64)
        requires { i < length self.old }
        ensures value { self.new ≡ slice_set self.old i word }
        ensures same_length { length self.new ≡ length self.old }
    {
        self.words_mut()[i] = word;
    }

    /// Makes all words 0. It writes none of them, which the next call that writes a word does, unless there are more
    /// than `HIDDEN_WORDS`.
    pub fn clear(&mut self)
        ensures value { self.new ≡ replicate (length self.old) 0 }
        ensures same_length { length self.new ≡ length self.old }
    {
        let is_large = self.block.words().len() > HIDDEN_WORDS;
        if is_large {
            zero(self.block.words_mut());
        }
        self.home.set_clear(true);
    }

    /// Whether the region was cleared and not written since, and has at most `HIDDEN_WORDS` words. Then all of them
    /// are 0.
    pub fn is_cleared(&self) -> bool
        ensures { IsTrue result → self.now ≡ replicate (length self.now) 0 }
    {
        hides(self.home.is_clear(), self.block.words())
    }

    /// Sets each of the `n` words at index `at` to `word`.
    pub fn fill(&mut self, at: usize, n: usize, word: u64)
        requires { at + n ≤ length self.old }
        ensures value { self.new ≡ with_words self.old at (replicate n word) }
        ensures same_length { length self.new ≡ length self.old }
    {
        self.words_mut()[at..at + n].fill(word);
    }

    /// Copies the `n` words of `other` at index `from` to index `at`.
    pub fn copy_from(&mut self, at: usize, other: &Region, from: usize, n: usize)
        requires room { at + n ≤ length self.old }
        requires source { from + n ≤ length other.now }
        ensures value { self.new ≡ with_words self.old at (part other.now from n) }
        ensures same_length { length self.new ≡ length self.old }
    {
        self.words_mut()[at..at + n].copy_from_slice(&other.words()[from..from + n]);
    }

    /// Moves the `n` words at index `from` down to index `to`. The two ranges may overlap: the words
    /// that arrive are those from before the call.
    pub fn slide(&mut self, from: usize, to: usize, n: usize)
        requires downward { to ≤ from }
        requires source { from + n ≤ length self.old }
        ensures value { self.new ≡ with_words self.old to (part self.old from n) }
        ensures same_length { length self.new ≡ length self.old }
    {
        move_down(self.words_mut(), from, to, n);
    }
}

/// Whether the words of a block are hidden if its region was cleared.
#[inline]
fn hides(is_clear: bool, words: &[u64]) -> bool
    ensures value { result ≡ hides is_clear words.now }
    ensures few { IsTrue result → length words.now ≤ 65536 }
{
    is_clear && words.len() <= HIDDEN_WORDS
}

fn zero(words: &mut [u64])
    ensures { words.new ≡ replicate (length words.old) 0 }
{
    words.fill(0);
}

impl Drop for Region {
    fn drop(self) {
        let Region { block, home, alloc } = self;
        match home {
            Home::Own { is_clear: _ } => block.release(&alloc),
            Home::Leased { is_clear: _, lease } => lease.end(block.into_room(), &alloc),
            Home::Host { is_clear: _ } => block.leave(),
        }
    }
}
