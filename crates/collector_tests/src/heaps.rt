//! Heaps to collect, and checks of their collections.
ghost use Rattle.std.specs.Prelude.{◌≡◌};

use collector::{Figures, Gate, Outcome, Verdict, collect, record, verify};
use heap_image::{Fault, Image, all_processors, decode, encode};
use heap_samples::{BASE_LIVE, BASE_WORDS, Settings, image_of};
use history::{End, Schedule, replay};
use plain_compaction::compact_plainly;
use std::alloc::Global;
use std::sync::Wait;
use std::test::Fail;
use std::thread::Threads;
use summary::Survey;
use thread_row::Many;

/// The header of an object of `size` words without references.
const fn plain(size: u64) -> u64 {
    1 << 56 | size
}

/// A heap of region log 3: its words, live addresses and allowance.
#[derive(Clone, Copy)]
pub(crate) struct Heap<'a> {
    words: &'a [u64],
    live: &'a [u64],
    allowance: u64,
}

impl Heap<'_> {
    pub(crate) fn image(
        &self,
        alloc: Global,
        threads: &(impl Threads + Sync),
    ) -> Result<Image, Fail> {
        let settings = Settings::of_base(self.allowance);
        image_of(alloc, settings, self.words, self.live, threads)
    }

    /// The figures of a collection by `workers` workers. Fails unless the image is the compaction.
    pub(crate) fn collected<G: Gate + Sync, R: Threads + Wait + Sync>(
        &self,
        alloc: Global,
        workers: u32,
        gate: &G,
        rt: &R,
    ) -> Result<Figures, Fail> {
        let image = self.image(alloc, rt)?;
        let outcome = outcome_of(alloc, image, workers, gate, rt)?;
        self.verified(alloc, &outcome.image, rt)?;
        Ok(outcome.figures)
    }

    /// The schedule of a recorded collection by `workers` workers. Fails unless the image is the compaction.
    pub(crate) fn recorded<G: Gate + Sync, R: Threads + Wait + Sync>(
        &self,
        alloc: Global,
        workers: u32,
        gate: &G,
        rt: &R,
    ) -> Result<Schedule, Fail> {
        match record(alloc, self.image(alloc, rt)?, workers, gate, rt, rt) {
            Ok((outcome, schedule)) => {
                self.verified(alloc, &outcome.image, rt)?;
                Ok(schedule)
            }
            Err(refusal) => Err(Fail::from(refusal.fault())),
        }
    }

    /// Fails unless this is the compaction.
    fn verified(
        &self,
        alloc: Global,
        after: &Image,
        threads: &(impl Threads + Sync),
    ) -> Result<(), Fail> {
        let before = self.image(alloc, threads)?;
        if verify(alloc, &before, after, &all_processors(threads))? == Verdict::Same {
            Ok(())
        } else {
            Err(Fail::from("not the compaction"))
        }
    }
}

/// The outcome of a collection of this image by `workers` workers.
fn outcome_of<G: Gate + Sync, R: Threads + Wait + Sync>(
    alloc: Global,
    image: Image,
    workers: u32,
    gate: &G,
    rt: &R,
) -> Result<Outcome, Fail> {
    match collect(alloc, image, workers, gate, rt, rt) {
        Ok((outcome, _finished)) => Ok(outcome),
        Err(refusal) => Err(Fail::from(refusal.fault())),
    }
}

/// The base heap with this allowance.
pub(crate) fn base(allowance: u64) -> Heap<'static> {
    Heap {
        words: BASE_WORDS.as_slice(),
        live: BASE_LIVE.as_slice(),
        allowance,
    }
}

/// Four regions that one object occupies, so that each is ready at the start.
pub(crate) fn four_regions(words: &mut [u64; 32]) -> Heap<'_> {
    words[0] = plain(32);
    Heap {
        words: words.as_slice(),
        live: &[0],
        allowance: 0,
    }
}

/// Five regions. All live words of regions 1 and 2 move to region 0, and those of 3 and 4 to 1 and 2.
pub(crate) fn five_regions(words: &mut [u64; 40]) -> Heap<'_> {
    for (a, size) in [(0, 2), (8, 2), (16, 4), (24, 8), (32, 8)] {
        words[a] = plain(size);
    }
    Heap {
        words: words.as_slice(),
        live: &[0, 8, 16, 24, 32],
        allowance: 0,
    }
}

/// Four regions, of which the third has no live words, so that nothing reads it. Regions 0 to 2 are to be filled.
pub(crate) fn dead_between(words: &mut [u64; 32]) -> Heap<'_> {
    for (a, size) in [(0, 4), (8, 8), (24, 8)] {
        words[a] = plain(size);
    }
    Heap {
        words: words.as_slice(),
        live: &[0, 8, 24],
        allowance: 0,
    }
}

/// Whether a replay of the schedule over the heap ends with its compaction.
pub(crate) fn replays(
    alloc: Global,
    heap: Heap<'_>,
    schedule: &Schedule,
    threads: &(impl Threads + Sync),
) -> Result<bool, Fail> {
    let image = heap.image(alloc, threads)?;
    Ok(is_replayed(alloc, &image, schedule, threads)?)
}

fn is_replayed(
    alloc: Global,
    image: &Image,
    schedule: &Schedule,
    threads: &(impl Threads + Sync),
) -> Result<bool, Fault> {
    let survey = Survey::of(alloc, image, &all_processors(threads))?;
    ends_compacted(alloc, image, &survey, schedule, threads)
}

fn ends_compacted(
    alloc: Global,
    image: &Image,
    survey: &Survey,
    schedule: &Schedule,
    threads: &(impl Threads + Sync),
) -> Result<bool, Fault>
    requires { survey.now ≡ image.now }
{
    let replayed = replay(alloc, image, survey, schedule)?;
    is_compacted(alloc, image, &replayed.ended, threads)
}

fn is_compacted(
    alloc: Global,
    image: &Image,
    ended: &End,
    threads: &(impl Threads + Sync),
) -> Result<bool, Fault> {
    match ended {
        End::Finished(after) => {
            let verdict = verify(alloc, image, after, &all_processors(threads))?;
            Ok(verdict == Verdict::Same)
        }
        End::Open => Ok(false),
    }
}

pub(crate) fn figures(prefix_end: u64, new_top: u64, filled: u32) -> Figures {
    Figures {
        prefix_end,
        new_top,
        filled,
    }
}

/// The text of the plain compaction of the image with this text.
pub(crate) fn compacted_text(
    alloc: Global,
    text: &[u8],
    threads: &(impl Threads + Sync),
) -> Result<Vec<u8>, Fault> {
    let before = decode(alloc, text, &all_processors(threads))?;
    text_compacted(alloc, &before)
}

fn text_compacted(alloc: Global, before: &Image) -> Result<Vec<u8>, Fault> {
    let after = compact_plainly(alloc, before)?;
    Ok(encode(alloc, &after)?)
}
