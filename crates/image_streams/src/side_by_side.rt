//! Reads the body of an image from a store in several threads.
ghost use Rattle.std.specs.Prelude.{◌≡◌, ◌<◌, ◌≤◌, ◌^◌, [], IfSome};
ghost use Rattle.image_streams.specs.Body.{body_words};
ghost use Rattle.image_streams.specs.Extents.{IsBodyOf, AreJoined, AreTwoParts, IsExtent, extent_end};
ghost use Rattle.image_streams.specs.RegionSource.{HasPlace, HasRest};

use crate::cursor::Cursor;
use crate::numbers::incoming::Incoming;
use crate::region_source::{RegionSource, pool_for};
use crate::{Body, BodySize, Store};
use std::alloc::Global;
use std::thread;
use std::thread::Threads;
use thread_row::behind_an_empty_thread;

/// The least number of words that are worth a thread.
const LEAST_WORDS: usize = 65_536;

/// The most bytes that a thread requests at a time. More at a time take fewer calls, and are still in the processor's
/// second cache when they are decoded.
const BUFFER_BYTES: usize = 262_144;

/// The place of the body of an image, or of a part of it, in a store.
#[derive(Debug, Clone, Copy, PartialEq, Eq)]
pub struct Extent {
    /// The offset of the first byte.
    pub at: u64,
    pub size: BodySize,
}

impl Extent {
    /// The offset after the last byte, if it fits in 64 bits.
    pub fn end(self) -> Option<u64>
        requires log { self.size.region_log ≤ 20 }
        requires few { body_words self.size ≤ 137438953472 }
        ensures end { IfSome result (λ end. end ≡ extent_end self) }
        ensures fits { IfSome result (λ end. IsExtent self) }
    {
        self.at.checked_add(8 * self.size.words() as u64)
    }

    /// Splits off the first of `parts` parts, which has regions only, from the others.
    fn split(self, parts: usize) -> (Extent, Extent)
        requires extent { IsExtent self }
        requires some { 0 < parts }
        ensures { AreTwoParts self result.0 result.1 }
    {
        let Extent { at, size } = self;
        let share = (size.words() / parts) >> size.region_log;
        let few = share.min(size.regions);
        let low = BodySize {
            regions: few,
            numbers: 0,
            ..size
        };
        let high = BodySize {
            regions: size.regions - few,
            ..size
        };
        let behind = at + 8 * low.words() as u64;
        (
            Extent { at, size: low },
            Extent {
                at: behind,
                size: high,
            },
        )
    }
}

/// Reads the body in an extent in at most `most` threads, the caller's included. Returns `None` if the store has too
/// few bytes or fails, or if memory runs out, which is taken for all regions at once.
pub fn body_at<S: Store>(
    alloc: Global,
    store: &S,
    extent: Extent,
    most: usize,
    threads: &(impl Threads + Sync),
) -> Option<Body>
    requires { IsExtent extent }
    ensures { IfSome result (IsBodyOf (S.bytes store.now) extent) }
{
    let Ok(pool) = pool_for(alloc, extent.size) else {
        return None;
    };
    let source = RegionSource::new(alloc, pool.as_ref());
    body_by(source, store, extent, most, threads)
}

/// Reads the body in an extent into the last regions of this source, as [`body_at`] does.
fn body_by<S: Store>(
    source: RegionSource<'_>,
    store: &S,
    extent: Extent,
    most: usize,
    threads: &(impl Threads + Sync),
) -> Option<Body>
    requires { HasRest source extent }
    ensures { IfSome result (IsBodyOf (S.bytes store.now) extent) }
{
    let most = most.min(extent.size.words() / LEAST_WORDS);
    if most < 2 {
        return body_in_order(source, store, extent);
    }
    let in_row = move || -> Option<Body>
        requires { HasRest source extent × (most < 2 ^ 64) }
        ensures { IfSome result (IsBodyOf (S.bytes store.entry.now) extent) }
    { body_in_row(source, store, extent, most, threads) };
    behind_an_empty_thread(threads, in_row)
}

/// Reads the body in an extent into the last regions of this source, in `most` threads, of which this one starts the
/// others. Returns `None` as [`body_at`] does.
fn body_in_row<S: Store>(
    source: RegionSource<'_>,
    store: &S,
    extent: Extent,
    most: usize,
    threads: &(impl Threads + Sync),
) -> Option<Body>
    requires { HasRest source extent }
    ensures { IfSome result (IsBodyOf (S.bytes store.now) extent) }
{
    if most < 2 {
        return body_in_order(source, store, extent);
    }
    let (low, high) = extent.split(most);
    let others = most - 1;
    let rest = source.after(low.size.regions);
    let first = move || -> Option<Body>
        requires { HasPlace source low }
        ensures { IfSome result (IsBodyOf (S.bytes store.entry.now) low) }
    { body_in_order(source, store, low) };
    let second = move || -> Option<Body>
        requires { HasRest rest high × (others < 2 ^ 64) }
        ensures { IfSome result (IsBodyOf (S.bytes store.entry.now) high) }
    { body_in_row(rest, store, high, others, threads) };
    let (first, second) = thread::join(threads, first, second);
    join_bodies(first?, second?)
}

/// Reads the body in an extent in this thread. Returns `None` as [`body_at`] does.
fn body_in_order<S: Store>(source: RegionSource<'_>, store: &S, extent: Extent) -> Option<Body>
    requires { HasPlace source extent }
    ensures { IfSome result (IsBodyOf (S.bytes store.now) extent) }
{
    let Ok(mut buffer) = vec![in source.alloc; 0u8; BUFFER_BYTES] else {
        return None;
    };
    let mut cursor = Cursor::new(store, extent.at);
    let mut incoming = Incoming::new(buffer.as_mut_slice(), extent.size.words());
    match Body::read(&source, &mut incoming, &mut cursor, extent.size) {
        Ok(body) => Some(body),
        Err(_) => None,
    }
}

/// Joins two bodies, of which the first has regions only. Returns `None` if memory runs out.
fn join_bodies(first: Body, second: Body) -> Option<Body>
    requires { first.tail.items ≡ [] }
    ensures { IfSome result (AreJoined first second) }
{
    let mut regions = first.regions;
    let mut others = second.regions;
    match regions.append(&mut others) {
        Ok(()) => Some(Body {
            regions,
            tail: second.tail,
        }),
        Err(_) => None,
    }
}
