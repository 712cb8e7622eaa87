//! Where the regions of a body come from.
ghost use Rattle.std.specs.Prelude.{◌≡◌, ◌+◌, ◌*◌, ◌<◌, ◌≤◌, ◌^◌, [], All, None, length, IfOk, IfErr, IfSome};
ghost use Rattle.image_streams.specs.Body.{HasFewWords};
ghost use Rattle.image_streams.specs.Numbers.{numbers};
ghost use Rattle.image_streams.specs.RegionSource.{HasRegions, IsPoolOf};

use crate::{BodySize, Fault};
use raw_region::{Region, RegionPool};
use std::alloc::{AllocError, Global};

/// No allocation has as many words.
const TOO_MANY_WORDS: usize = 1 << 60;

/// Where the regions of a body come from: a pool, or else each is a block of its own.
#[derive(Clone, Copy)]
pub(crate) struct RegionSource<'a> {
    pub(crate) alloc: Global,
    pool: Option<&'a RegionPool>,
    /// The number in the pool of the first region.
    first: usize,
}

impl<'a> RegionSource<'a> {
    /// Regions of this pool, from its first on, if there is one.
    pub(crate) fn new(alloc: Global, pool: Option<&'a RegionPool>) -> RegionSource<'a>
        ensures pool { result.pool ≡ pool.entry }
        ensures first { result.first ≡ 0 }
    {
        RegionSource {
            alloc,
            pool,
            first: 0,
        }
    }

    /// The regions after the first `count`.
    pub(crate) fn after(self, count: usize) -> RegionSource<'a>
        requires { self.first + count < 2 ^ 64 }
        ensures pool { result.pool ≡ self.entry.pool }
        ensures first { result.first ≡ self.entry.first + count }
    {
        RegionSource {
            first: self.first + count,
            ..self
        }
    }

    /// An empty list, with room for `count` regions if they come from a pool. Otherwise the list grows as their words
    /// come, since a text may claim more of them than it has.
    pub(crate) fn list(&self, count: usize) -> Result<Vec<Region>, AllocError>
        ensures { IfOk result (λ list. list.items ≡ []) }
    {
        match self.pool {
            Some(_) => Vec::with_capacity(self.alloc, count),
            None => Ok(Vec::new(self.alloc)),
        }
    }

    /// The region with this number, with a copy of these words. Fault 11 if memory runs out, or if it is out of the
    /// pool.
    pub(crate) fn region(&self, index: usize, words: &[u64]) -> Result<Region, Fault>
        requires some { 1 ≤ length words.now }
        requires few { length words.now ≤ 1048576 }
        requires has { HasRegions self.now (length words.now) (index + 1) }
        ensures words { IfOk result (λ region. region ≡ words.now) }
        ensures fault { IfErr result (λ fault. fault ≡ Fault.Memory) }
    {
        match self.pool {
            Some(pool) => pool
                .take_with(self.first + index, words)
                .ok_or(Fault::Memory),
            None => Ok(Region::of_words(self.alloc, words)?),
        }
    }

    /// The region with this number, of `len` words with these bytes. Fault 11 if memory runs out, or if it is out of the
    /// pool.
    pub(crate) fn region_of_bytes(
        &self,
        index: usize,
        bytes: &[u8],
        len: usize,
    ) -> Result<Region, Fault>
        requires some { 1 ≤ len }
        requires few { len ≤ 1048576 }
        requires whole { length bytes.now ≡ 8 * len }
        requires has { HasRegions self.now len (index + 1) }
        ensures words { IfOk result (λ region. numbers region ≡ bytes.now) }
        ensures fit { IfOk result (λ region. All (λ w. w < 2 ^ 64) region) }
        ensures fault { IfErr result (λ fault. fault ≡ Fault.Memory) }
    {
        let region = match self.pool {
            Some(pool) => pool
                .take_with_bytes(self.first + index, bytes)
                .ok_or(Fault::Memory)?,
            None => Region::of_bytes(self.alloc, bytes, len)?,
        };
        words_fit(region.words());
        Ok(region)
    }
}

/// The words of a region fit in 64 bits.
fn words_fit(words: &[u64])
    ensures { All (λ w. w < 2 ^ 64) words.now }
{
    let _count = words.len();
}

/// Allocates the regions of a body of this size at once, if it has any. The only error is that memory runs out.
#[tactic(auto, using(crate::proofs::Lemmas::Counts::region_few))]
pub(crate) fn pool_for(alloc: Global, size: BodySize) -> Result<Option<RegionPool>, AllocError>
    requires { HasFewWords size }
    ensures { IfOk result (λ pool. IfSome pool (IsPoolOf size)) }
{
    if size.regions == 0 {
        return Ok(None);
    }
    if size.words() >= TOO_MANY_WORDS {
        return Err(AllocError);
    }
    let pool = RegionPool::new(alloc, size.regions, 1 << size.region_log)?;
    Ok(Some(pool))
}
