//! Devices that skip the zeros of regions that a collection has cleared.
use crate::checks::{equal, equal_at};
use crate::texts::{Texts, with_prefix};
use collector::{OpenGate, collect_stream};
use heap_image::{Failed, Fault, FromRead, Outlet};
use heap_samples::Base;
use std::alloc::Global;
use std::sync::Wait;
use std::test::Fail;
use std::thread::Threads;

/// Keeps the bytes that it receives and the zeros that it skips. Fails if it would receive more than `limit` bytes.
#[derive(Drop)]
struct Holes {
    bytes: Vec<u8>,
    /// The number of bytes that are skipped zeros.
    left_out: usize,
    limit: usize,
    failed: bool,
}

impl Holes {
    fn new(alloc: Global, limit: usize) -> Holes {
        Holes {
            bytes: Vec::new(alloc),
            left_out: 0,
            limit,
            failed: false,
        }
    }
}

impl Outlet for Holes {
    ghost use Rattle.std.specs.Prelude.{None};

    ghost took = { λ _. None };

    ghost has_failed = { λ holes. holes.failed };

    fn give(&mut self, bytes: &[u8]) -> Result<usize, Failed> {
        if self.failed {
            return Err(Failed);
        }
        let n = bytes.len().min(self.limit.saturating_sub(self.bytes.len()));
        let is_short = n == 0 && !bytes.is_empty();
        if is_short || self.bytes.extend_from_slice(&bytes[..n]).is_err() {
            self.failed = true;
            return Err(Failed);
        }
        Ok(n)
    }

    fn failed(&self) -> bool {
        self.failed
    }

    fn leave_out_zeros(&mut self, count: usize) -> bool {
        let len = self.bytes.len();
        if self.failed || self.bytes.resize(len.saturating_add(count), 0).is_err() {
            return false;
        }
        self.left_out = self.left_out.saturating_add(count);
        true
    }
}

/// Collects with two workers. Returns the device and the result.
fn collected<R: Threads + Wait + Sync>(
    alloc: Global,
    rt: &R,
    texts: &Texts,
    limit: usize,
) -> (Holes, Result<(), Fault>) {
    let mut reader = FromRead::new(texts.before.as_slice());
    let mut holes = Holes::new(alloc, limit);
    let answer = collect_stream(alloc, &mut reader, &mut holes, 2, &OpenGate, rt, rt);
    (holes, answer.map(|_| ()))
}

#[test]
fn the_zeros_of_cleared_regions_are_skipped(rt: HostRuntime) -> Result<(), Fail> {
    let texts = with_prefix(rt.alloc(), Base::WithLiveList, &rt)?;
    let (holes, answer) = collected(rt.alloc(), &rt, &texts, usize::MAX);
    // The heap has 32 words in regions of 8, and its new top is 21, so the last region lies above it.
    equal(&rt, (answer, holes.left_out), (Ok(()), 64));
    equal(&rt, holes.bytes.as_slice(), texts.after.as_slice());
    Ok(())
}

/// Whether a device that fails after `limit` bytes has a prefix of the text, followed only by zeros.
fn is_begun<R: Threads + Wait + Sync>(alloc: Global, rt: &R, texts: &Texts, limit: usize) -> bool {
    let (holes, answer) = collected(alloc, rt, texts, limit);
    let (kept, rest) = holes.bytes.split_at(holes.bytes.len().min(limit));
    let is_right = texts.after.starts_with(kept) && rest.iter().all(|&byte| byte == 0);
    answer == Err(Fault::Io) && is_right
}

#[test]
fn a_device_that_skips_zeros_fails_at_any_byte(rt: HostRuntime) -> Result<(), Fail> {
    let texts = with_prefix(rt.alloc(), Base::WithLiveList, &rt)?;
    for limit in 0..texts.after.len() {
        equal_at(
            &rt,
            is_begun(rt.alloc(), &rt, &texts, limit),
            true,
            limit as u64,
        );
    }
    Ok(())
}
