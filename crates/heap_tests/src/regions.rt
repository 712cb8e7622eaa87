//! Tests of `raw_region`.
ghost use Rattle.std.specs.Prelude.{◌<◌};

use crate::checks::{equal, equal_words, holds};
use raw_region::{MAX_WORDS, Region, RegionPool};
use std::test::Fail;

fn crosses_threads<T: Send + Sync>(_value: &T) {}

#[test]
fn words_are_written_and_read(rt: HostRuntime) -> Result<(), Fail> {
    let mut a = Region::new(rt.alloc(), 4)?;
    crosses_threads(&a);
    equal_words(&rt, a.words(), &[0, 0, 0, 0]);
    a.set(1, 5);
    a.set(3, u64::MAX);
    equal(
        &rt,
        (a.len(), a.get(0), a.get(1), a.get(3)),
        (4, 0, 5, u64::MAX),
    );
    a.fill(0, 3, 7);
    equal_words(&rt, a.words(), &[7, 7, 7, u64::MAX]);
    a.words_mut()[1..].copy_from_slice(&[1, 2, 3]);
    equal_words(&rt, a.words(), &[7, 1, 2, 3]);
    Ok(())
}

#[test]
fn words_are_copied_from_another_region(rt: HostRuntime) -> Result<(), Fail> {
    let mut a = Region::new(rt.alloc(), 6)?;
    let mut b = Region::new(rt.alloc(), 4)?;
    b.words_mut().copy_from_slice(&[1, 2, 3, 4]);
    a.copy_from(2, &b, 1, 3);
    equal_words(&rt, a.words(), &[0, 0, 2, 3, 4, 0]);
    equal_words(&rt, b.words(), &[1, 2, 3, 4]);
    Ok(())
}

#[test]
fn words_slide_over_each_other(rt: HostRuntime) -> Result<(), Fail> {
    let mut a = Region::new(rt.alloc(), 8)?;
    a.words_mut().copy_from_slice(&[1, 2, 3, 4, 5, 6, 7, 8]);
    a.slide(1, 0, 5);
    equal_words(&rt, a.words(), &[2, 3, 4, 5, 6, 6, 7, 8]);
    a.slide(5, 2, 3);
    equal_words(&rt, a.words(), &[2, 3, 6, 7, 8, 6, 7, 8]);
    a.slide(3, 3, 5);
    equal_words(&rt, a.words(), &[2, 3, 6, 7, 8, 6, 7, 8]);
    Ok(())
}

#[test]
fn a_cleared_region_has_zeros(rt: HostRuntime) -> Result<(), Fail> {
    let mut a = Region::new(rt.alloc(), 4)?;
    a.words_mut().copy_from_slice(&[1, 2, 3, 4]);
    holds(&rt, !a.is_cleared());
    a.clear();
    holds(&rt, a.is_cleared());
    equal_words(&rt, a.words(), &[0, 0, 0, 0]);
    equal(&rt, (a.len(), a.get(3)), (4, 0));
    a.set(2, 5);
    holds(&rt, !a.is_cleared());
    equal_words(&rt, a.words(), &[0, 0, 5, 0]);
    a.clear();
    a.slide(1, 0, 3);
    equal_words(&rt, a.words(), &[0, 0, 0, 0]);
    Ok(())
}

#[test]
fn zeros_are_copied_from_a_cleared_region(rt: HostRuntime) -> Result<(), Fail> {
    let mut a = Region::new(rt.alloc(), 4)?;
    let mut b = Region::new(rt.alloc(), 4)?;
    a.words_mut().copy_from_slice(&[1, 2, 3, 4]);
    a.clear();
    b.fill(0, 4, 7);
    b.copy_from(1, &a, 0, 2);
    equal_words(&rt, b.words(), &[7, 0, 0, 7]);
    holds(&rt, a.is_cleared());
    Ok(())
}

/// Whether each word of a region equals `word`.
fn is_full_of(region: &Region, word: u64) -> bool {
    region.words().iter().all(|&it| it == word)
}

#[test]
fn the_smallest_and_the_largest_region(rt: HostRuntime) -> Result<(), Fail> {
    let mut least = Region::new(rt.alloc(), 1)?;
    let mut largest = Region::new(rt.alloc(), MAX_WORDS)?;
    holds(&rt, is_full_of(&largest, 0));
    least.set(0, 3);
    largest.copy_from(MAX_WORDS - 1, &least, 0, 1);
    largest.slide(1, 0, MAX_WORDS - 1);
    equal(
        &rt,
        (largest.len(), largest.get(MAX_WORDS - 2)),
        (MAX_WORDS, 3),
    );
    largest.fill(0, MAX_WORDS, 9);
    largest.fill(MAX_WORDS, 0, 1);
    holds(&rt, is_full_of(&largest, 9));
    largest.clear();
    equal(
        &rt,
        (largest.len(), is_full_of(&largest, 0)),
        (MAX_WORDS, true),
    );
    Ok(())
}

/// Takes a region, and fills it with its number.
fn take_filled(pool: &RegionPool, index: usize) -> Option<Region>
    requires { index < pool.now.count }
{
    let mut region = pool.take(index)?;
    let words = region.len();
    region.fill(0, words, index as u64);
    Some(region)
}

/// The first and the last word of a region.
fn ends(region: &Option<Region>) -> Option<(u64, u64)> {
    match region {
        Some(region) => {
            let last = region.len() - 1;
            Some((region.get(0), region.get(last)))
        }
        None => None,
    }
}

#[test]
fn regions_of_a_pool_have_words_of_their_own(rt: HostRuntime) -> Result<(), Fail> {
    let pool = RegionPool::new(rt.alloc(), 3, 4)?;
    crosses_threads(&pool);
    equal(&rt, (pool.len(), pool.region_len()), (3, 4));
    let high = take_filled(&pool, 2);
    let low = take_filled(&pool, 0);
    let middle = take_filled(&pool, 1);
    equal(
        &rt,
        (ends(&low), ends(&middle), ends(&high)),
        (Some((0, 0)), Some((1, 1)), Some((2, 2))),
    );
    Ok(())
}

#[test]
fn a_region_is_out_until_it_is_dropped(rt: HostRuntime) -> Result<(), Fail> {
    let pool = RegionPool::new(rt.alloc(), 2, 4)?;
    let region = take_filled(&pool, 1);
    holds(&rt, pool.take(1).is_none());
    drop(region);
    equal(&rt, ends(&pool.take(1)), Some((0, 0)));
    Ok(())
}

#[test]
fn regions_copy_given_words(rt: HostRuntime) -> Result<(), Fail> {
    let mut own = Region::of_words(rt.alloc(), &[1, 2, u64::MAX])?;
    equal_words(&rt, own.words(), &[1, 2, u64::MAX]);
    own.set(0, 7);
    equal_words(&rt, own.words(), &[7, 2, u64::MAX]);
    let least = Region::of_words(rt.alloc(), &[9])?;
    equal_words(&rt, least.words(), &[9]);
    Ok(())
}

#[test]
fn regions_of_a_pool_copy_given_words(rt: HostRuntime) -> Result<(), Fail> {
    let pool = RegionPool::new(rt.alloc(), 3, 4)?;
    let low = pool.take_with(0, &[1, 2, 3, 4]);
    let high = pool.take_with(2, &[5, 6, 7, 8]);
    let middle = pool.take_with(1, &[9, 0, 0, u64::MAX]);
    equal(
        &rt,
        (ends(&low), ends(&middle), ends(&high)),
        (Some((1, 4)), Some((9, u64::MAX)), Some((5, 8))),
    );
    holds(&rt, pool.take_with(0, &[0, 0, 0, 0]).is_none());
    drop(low);
    equal(&rt, ends(&pool.take(0)), Some((0, 0)));
    Ok(())
}

/// The bytes of the words 0x0807060504030201, 9 and 2^64 - 1, the lowest byte first.
const BYTES: [u8; 24] = [
    1, 2, 3, 4, 5, 6, 7, 8, 9, 0, 0, 0, 0, 0, 0, 0, 255, 255, 255, 255, 255, 255, 255, 255,
];

const WORDS: [u64; 3] = [0x0807_0605_0403_0201, 9, u64::MAX];

#[test]
fn regions_take_the_words_of_bytes(rt: HostRuntime) -> Result<(), Fail> {
    let own = Region::of_bytes(rt.alloc(), &BYTES, 3)?;
    equal_words(&rt, own.words(), &WORDS);
    Ok(())
}

#[test]
fn regions_of_a_pool_take_the_words_of_bytes(rt: HostRuntime) -> Result<(), Fail> {
    let pool = RegionPool::new(rt.alloc(), 2, 3)?;
    let out = pool.take_with_bytes(1, &BYTES);
    equal(&rt, ends(&out), Some((WORDS[0], WORDS[2])));
    holds(&rt, pool.take_with_bytes(1, &BYTES).is_none());
    Ok(())
}

#[test]
fn a_region_outlives_its_pool(rt: HostRuntime) -> Result<(), Fail> {
    let pool = RegionPool::new(rt.alloc(), 2, MAX_WORDS)?;
    let region = take_filled(&pool, 1);
    drop(pool);
    equal(&rt, ends(&region), Some((1, 1)));
    Ok(())
}
