//! The schedule that one worker records of the base heap, and replays.
ghost use Rattle.std.specs.Prelude.{◌≡◌};

use collector::{Verdict, verify};
use heap_image::{Fault, Image, all_processors};
use history::{End, Schedule, replay};
use std::alloc::Global;
use std::thread::Threads;
use summary::Survey;

/// The schedule of one worker that collects the base heap with allowance 0.
pub(crate) const BASE_SCHEDULE: &str = "schedule 1 1
0 claim 0 yes
0 copy 0 6 ok
0 copy 0 2 ok
0 drain 0 1 last
0 complete 0 ok
0 settle 0 more
0 claim 1 yes
0 copy 1 1 ok
0 copy 1 4 ok
0 drain 1 2 last
0 copy 1 3 ok
0 drain 1 3 notlast
0 complete 1 ok
0 settle 1 more
0 claim 2 yes
0 copy 2 3 ok
0 drain 2 3 last
0 complete 2 ok
0 settle 2 all
";

/// Whether a replay of the schedule over the image ends with its compaction.
pub(crate) fn replays(
    alloc: Global,
    threads: &(impl Threads + Sync),
    image: &Image,
    schedule: &Schedule,
) -> Result<bool, Fault> {
    let survey = Survey::of(alloc, image, &all_processors(threads))?;
    ends_compacted(alloc, image, &survey, schedule, threads)
}

fn ends_compacted(
    alloc: Global,
    image: &Image,
    survey: &Survey,
    schedule: &Schedule,
    threads: &(impl Threads + Sync),
) -> Result<bool, Fault>
    requires { survey.now ≡ image.now }
{
    let replayed = replay(alloc, image, survey, schedule)?;
    is_compacted(alloc, image, &replayed.ended, threads)
}

fn is_compacted(
    alloc: Global,
    image: &Image,
    ended: &End,
    threads: &(impl Threads + Sync),
) -> Result<bool, Fault> {
    match ended {
        End::Finished(after) => {
            let verdict = verify(alloc, image, after, &all_processors(threads))?;
            Ok(verdict == Verdict::Same)
        }
        End::Open => Ok(false),
    }
}
