//! Regions that share one allocation.
ghost use Rattle.std.specs.Prelude.{◌≡◌, ◌*◌, ◌^◌, ◌<◌, ◌≤◌, flat_map, length, replicate, IfSome, IfOk};
ghost use Rattle.std.specs.Int.{w64, to_le_bytes};
ghost use Rattle.raw_region.specs.RegionBlock.{IsLeased};

use crate::block::MAX_WORDS;
use crate::frame::Frame;
use crate::home::{Lease, leave};
use crate::region::Region;
use crate::room::Room;
use std::alloc::{AllocError, Global};
use std::marker::Model;
use std::sync::Arc;

/// Regions of one size in one allocation, which the last of the pool and its regions frees.
///
/// A region is taken by its number. Once it is dropped, its words are back in the pool, and it may be taken again.
pub struct RegionPool {
    frame: Arc<Frame, Global>,
    alloc: Global,
}

impl Model for RegionPool {
    ghost use Rattle.std.specs.Arc.{arc_value};
    ghost use Rattle.raw_region.specs.Frame.{FrameView};

    ghost Value = { FrameView };

    ghost view = { λ p. arc_value p.frame };
}

impl RegionPool {
    /// Allocates the words of `count` regions of `words` words. The only error is that memory runs out.
    pub fn new(alloc: Global, count: usize, words: usize) -> Result<RegionPool, AllocError>
        requires some { 1 ≤ count }
        requires nonempty { 1 ≤ words }
        requires at_most { words ≤ MAX_WORDS }
        requires fits { count * words < 2 ^ 60 }
        ensures size { IfOk result (λ pool. pool.size ≡ words) }
        ensures count { IfOk result (λ pool. pool.count ≡ count) }
    {
        let frame = Frame::new(alloc, count, words)?;
        match Arc::new(alloc, frame) {
            Ok(frame) => Ok(RegionPool { frame, alloc }),
            Err(failed) => {
                failed.value.end(&alloc);
                Err(AllocError)
            }
        }
    }

    /// The number of regions, whether they are out or not.
    pub fn len(&self) -> usize
        ensures { result ≡ self.now.count }
    {
        self.frame.count()
    }

    /// The number of words of a region.
    pub fn region_len(&self) -> usize
        ensures value { result ≡ self.now.size }
        ensures nonempty { 1 ≤ result }
        ensures at_most { result ≤ MAX_WORDS }
    {
        self.frame.size()
    }

    /// Takes a region, all of whose words are 0. `None` if it is out already.
    pub fn take(&self, index: usize) -> Option<Region>
        requires { index < self.now.count }
        ensures { IfSome result (λ region. region ≡ replicate self.now.size 0) }
    {
        let (lease, room) = self.lease(index)?;
        Some(Region::of_lease(self.alloc, lease, room.zeroed()))
    }

    /// Takes a region with a copy of these words, and writes each word once. `None` if it is out already.
    pub fn take_with(&self, index: usize, words: &[u64]) -> Option<Region>
        requires inside { index < self.now.count }
        requires whole { length words.now ≡ self.now.size }
        ensures { IfSome result (λ region. region ≡ words.now) }
    {
        let (lease, room) = self.lease(index)?;
        Some(Region::of_lease(self.alloc, lease, room.write(words)))
    }

    /// Takes a region with the words that these bytes are, 8 each, the lowest byte first, and writes each word once.
    /// `None` if it is out already.
    pub fn take_with_bytes(&self, index: usize, bytes: &[u8]) -> Option<Region>
        requires inside { index < self.now.count }
        requires whole { length bytes.now ≡ 8 * self.now.size }
        ensures { IfSome result (λ region. flat_map (to_le_bytes w64) region ≡ bytes.now) }
    {
        let (lease, room) = self.lease(index)?;
        Some(Region::of_lease(self.alloc, lease, room.write_bytes(bytes)))
    }

    /// Takes the room of a region, with a share of the frame. `None` if it is out already.
    fn lease(&self, index: usize) -> Option<(Lease, Room)>
        requires { index < self.now.count }
        ensures leased { IfSome result (λ out. IsLeased out.0 out.1) }
        ensures length { IfSome result (λ out. out.1.len ≡ self.now.size) }
        ensures nonempty { IfSome result (λ _. 1 ≤ self.now.size) }
        ensures at_most { IfSome result (λ _. self.now.size ≤ MAX_WORDS) }
    {
        let Ok(frame) = Arc::try_clone(&self.frame) else {
            return None;
        };
        match self.frame.take(index) {
            Some(room) => Some((Lease { frame, index }, room)),
            None => {
                leave(frame, &self.alloc);
                None
            }
        }
    }
}

impl Drop for RegionPool {
    fn drop(self) {
        let RegionPool { frame, alloc } = self;
        leave(frame, &alloc);
    }
}
