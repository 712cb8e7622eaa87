//! Checks and replays of schedules of the base heap. `tests/cli/test_commands.py` has the replies, and other refused lines.
use crate::checks::{equal_at, expect_memory_fault, holds};
use heap_image::{Fault, all_processors, decode, encode};
use heap_samples::{Base, MOVED_LIVE, MOVED_WORDS, Settings, image_text};
use history::{
    End, Replayed, Replied, check, explain, read_schedule, replay, reply, write_schedule,
};
use scheduler::Schedule;
use std::alloc::{AllocError, Global};
use std::process::Abort;
use std::test::Fail;
use std::thread::Threads;
use summary::{Plan, Survey};
use thread_row::Many;

/// The words of the compaction of the base heap with an allowance of 2 dead words.
pub const WITH_PREFIX: [u64; 32] = [
    0x0100_0002_0000_0003,
    6,
    12,
    0x0200_0000_0000_0002,
    0,
    0x0100_0001_0000_0004,
    10,
    107,
    108,
    0x0100_0001_0000_0002,
    1,
    0x0100_0008_0000_000A,
    12,
    0,
    6,
    10,
    1,
    0,
    12,
    6,
    129,
    0,
    0,
    0,
    0,
    0,
    0,
    0,
    0,
    0,
    0,
    0,
];

/// The new live list of that compaction.
const PREFIX_LIVE: [u64; 4] = [0, 5, 9, 11];

/// The recorded schedule of one worker on the base heap.
pub const RECORDED: &str = "schedule 1 1
0 claim 0 yes
0 copy 0 6 ok
0 copy 0 2 ok
0 drain 0 1 last
0 complete 0 ok
0 settle 0 more
0 claim 1 yes
0 copy 1 1 ok
0 copy 1 4 ok
0 drain 1 2 last
0 copy 1 3 ok
0 drain 1 3 notlast
0 complete 1 ok
0 settle 1 more
0 claim 2 yes
0 copy 2 3 ok
0 drain 2 3 last
0 complete 2 ok
0 settle 2 all
";

/// A schedule of two workers on the base heap with an allowance of 2 dead words.
pub const BY_TWO: &str = "schedule 1 2
0 claim 0 ?
0 copy 0 8 ?
0 complete 0 ?
1 claim 1 ?
1 copy 1 8 ?
1 drain 1 2 ?
1 drain 1 3 ?
0 claim 2 ?
0 copy 2 5 ?
0 drain 2 3 ?
1 complete 1 ?
0 complete 2 ?
0 settle 0 ?
1 settle 1 ?
0 settle 2 all
";

/// Surveys the image with these bytes.
fn survey_of(alloc: Global, threads: &(impl Threads + Sync), text: &[u8]) -> Result<Survey, Fault> {
    let image = decode(alloc, text, &all_processors(threads))?;
    Survey::of(alloc, &image, &Many { threads, most: 2 })
}

/// Replays a schedule over the image with these bytes.
fn replay_on(
    alloc: Global,
    threads: &(impl Threads + Sync),
    text: &[u8],
    schedule: &Schedule,
) -> Result<Replayed, Fault> {
    let image = decode(alloc, text, &all_processors(threads))?;
    let survey = Survey::of(alloc, &image, &Many { threads, most: 2 })?;
    replay(alloc, &image, &survey, schedule)
}

/// Replays a schedule over the base heap.
fn replay_on_base(
    alloc: Global,
    threads: &(impl Threads + Sync),
    schedule: &Schedule,
) -> Result<Replayed, Fault> {
    let base = Base::WithLiveList.text(alloc, 0)?;
    replay_on(alloc, threads, base.as_slice(), schedule)
}

/// Whether the replay ended with the image of these bytes.
fn is_finished(alloc: Global, ended: &End, text: &[u8]) -> Result<bool, AllocError> {
    let End::Finished(image) = ended else {
        return Ok(false);
    };
    Ok(encode(alloc, image)?.as_slice() == text)
}

/// Whether a replay over the image with the bytes `before` ends with that of `after`.
pub fn finishes(
    alloc: Global,
    threads: &(impl Threads + Sync),
    lines: &str,
    before: &[u8],
    after: &[u8],
) -> Result<bool, Fault> {
    let schedule = read_schedule(alloc, lines.as_bytes())?;
    let all = replay_on(alloc, threads, before, &schedule)?;
    Ok(is_finished(alloc, &all.ended, after)?)
}

/// The outcome of a schedule over the base heap.
#[derive(Clone, Copy, Debug, PartialEq, Eq)]
enum Course {
    /// All regions to be filled are settled; `replay` makes the compacted image.
    Finishes,
    StaysOpen,
    /// The machine refuses this line of the text.
    IsRefused(u64),
}

/// Checks a schedule over the image with these bytes.
fn check_on(
    alloc: Global,
    threads: &(impl Threads + Sync),
    text: &[u8],
    schedule: &Schedule,
) -> Result<bool, Fault> {
    let survey = survey_of(alloc, threads, text)?;
    check(alloc, survey.plan(), schedule)
}

/// The outcome of `check` over the base heap.
fn course_by_check(
    alloc: Global,
    threads: &(impl Threads + Sync),
    schedule: &Schedule,
) -> Result<Course, Fault> {
    let base = Base::WithLiveList.text(alloc, 0)?;
    course_of_check(check_on(alloc, threads, base.as_slice(), schedule))
}

/// The outcome that a result of `check` means.
fn course_of_check(checked: Result<bool, Fault>) -> Result<Course, Fault> {
    match checked {
        Ok(true) => Ok(Course::Finishes),
        Ok(false) => Ok(Course::StaysOpen),
        Err(Fault::Schedule(line)) => Ok(Course::IsRefused(line)),
        Err(fault) => Err(fault),
    }
}

/// The outcome of a replay of the base heap. Fails if the image isn't the compacted one.
fn course_of(alloc: Global, all: &Replayed) -> Result<Course, Fault> {
    let compacted = image_text(alloc, Settings::of_base(0), &MOVED_WORDS, &MOVED_LIVE)?;
    if matches!(all.ended, End::Open) {
        Ok(Course::StaysOpen)
    } else if is_finished(alloc, &all.ended, compacted.as_slice())? {
        Ok(Course::Finishes)
    } else {
        Err(Fault::Trailing)
    }
}

/// The outcome of `replay` over the base heap.
fn course_by_replay(
    alloc: Global,
    threads: &(impl Threads + Sync),
    schedule: &Schedule,
) -> Result<Course, Fault> {
    match replay_on_base(alloc, threads, schedule) {
        Ok(all) => course_of(alloc, &all),
        Err(Fault::Schedule(line)) => Ok(Course::IsRefused(line)),
        Err(fault) => Err(fault),
    }
}

/// The outcomes of both for the schedule with this text.
fn courses(
    alloc: Global,
    threads: &(impl Threads + Sync),
    lines: &str,
) -> Result<[Course; 2], Fault> {
    let schedule = read_schedule(alloc, lines.as_bytes())?;
    let by_check = course_by_check(alloc, threads, &schedule)?;
    Ok([by_check, course_by_replay(alloc, threads, &schedule)?])
}

/// Fails the test if the outcome of a schedule isn't that of its row.
fn check_courses(
    alloc: Global,
    rt: &(impl Abort + Threads + Sync),
    rows: &[(&str, Course)],
) -> Result<(), Fault> {
    for (row, (lines, course)) in rows.iter().enumerate() {
        equal_at(rt, courses(alloc, rt, lines)?, [*course, *course], row);
    }
    Ok(())
}

#[test]
fn check_and_replay_agree(rt: HostRuntime) -> Result<(), Fail> {
    let open = RECORDED.strip_suffix("0 settle 2 all\n").ok_or("a line")?;
    let rows = [
        (RECORDED, Course::Finishes),
        (open, Course::StaysOpen),
        (
            "schedule 1 1\n0 claim 0 yes\n0 claim 1 yes\n",
            Course::IsRefused(3),
        ),
        ("schedule 1 2\n0 claim 4 ?\n", Course::IsRefused(2)),
    ];
    Ok(check_courses(rt.alloc(), &rt, &rows)?)
}

/// Whether a schedule of two workers finishes over the base heap with an allowance of 2 dead words, and makes fillers.
fn comes_through(alloc: Global, threads: &(impl Threads + Sync)) -> Result<bool, Fault> {
    let before = Base::WithLiveList.text(alloc, 2)?;
    let after = image_text(alloc, Settings::of_base(2), &WITH_PREFIX, &PREFIX_LIVE)?;
    let is_settled = is_settled(alloc, threads, before.as_slice())?;
    let is_moved = finishes(alloc, threads, BY_TWO, before.as_slice(), after.as_slice())?;
    Ok(is_settled && is_moved)
}

/// Whether `check` and `reply` say that this schedule finishes, and `explain` that none of its lines is refused.
fn is_settled(
    alloc: Global,
    threads: &(impl Threads + Sync),
    before: &[u8],
) -> Result<bool, Fault> {
    let schedule = read_schedule(alloc, BY_TWO.as_bytes())?;
    let survey = survey_of(alloc, threads, before)?;
    is_taken(alloc, survey.plan(), &schedule)
}

/// Whether all say so with this plan.
fn is_taken(alloc: Global, plan: &Plan, schedule: &Schedule) -> Result<bool, Fault> {
    let refused = explain(alloc, plan, schedule)?;
    let is_replied = reply(alloc, plan, schedule)?.is_settled;
    Ok(check(alloc, plan, schedule)? && refused.is_none() && is_replied)
}

/// The text of a schedule over the base heap with all replies, and whether all regions to be filled are settled.
fn replied(
    alloc: Global,
    threads: &(impl Threads + Sync),
    lines: &str,
) -> Result<(Vec<u8>, bool), Fault> {
    let base = Base::WithLiveList.text(alloc, 0)?;
    let survey = survey_of(alloc, threads, base.as_slice())?;
    let schedule = read_schedule(alloc, lines.as_bytes())?;
    let Replied { lines, is_settled } = reply(alloc, survey.plan(), &schedule)?;
    Ok((write_schedule(alloc, &lines)?, is_settled))
}

#[test]
fn reply_fills_in_replies(rt: HostRuntime) -> Result<(), Fail> {
    let begun = "schedule 1 1\n0 claim 0 ?\n0 copy 0 6 ok\n0 copy 0 2 ?\n0 drain 0 1 ?\n";
    let (text, is_settled) = replied(rt.alloc(), &rt, begun)?;
    holds(&rt, RECORDED.as_bytes().starts_with(text.as_slice()));
    holds(&rt, !is_settled);
    let (whole, is_settled) = replied(rt.alloc(), &rt, RECORDED)?;
    holds(&rt, whole.as_slice() == RECORDED.as_bytes());
    holds(&rt, is_settled);
    Ok(())
}

/// The script tests/build/test_crate_allocations.sh runs this with each allocation refused in turn.
#[test]
fn refused_memory_is_reported(rt: HostRuntime) {
    let first = comes_through(rt.alloc(), &rt);
    let second = comes_through(rt.alloc(), &rt);
    expect_memory_fault(&rt, [first, second], Fault::Memory);
}
