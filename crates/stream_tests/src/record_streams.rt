//! Recorded collections from bytes to bytes: both texts, and how far they are written if a device fails.
use crate::checks::{equal, equal_at, holds};
use crate::devices::Checked;
use crate::memory::are_right;
use crate::recordings::BASE_SCHEDULE;
use crate::texts::{Texts, figures, slid};
use collector::{Figures, OpenGate, Workers, record_stream};
use heap_image::{Fault, FromRead, ToWrite};
use heap_samples::{Base, Trickle};
use std::alloc::Global;
use std::sync::Wait;
use std::test::Fail;
use std::thread::Threads;

/// The result of a recorded collection, and the numbers of bytes of the compaction and of the lines that are not
/// written, if the written ones are prefixes.
type Recorded = (Result<Figures, Fault>, Option<usize>, Option<usize>);

/// A recorded collection of these bytes by one worker.
fn record_from<R: Threads + Wait + Sync>(
    alloc: Global,
    rt: &R,
    bytes: &[u8],
    writer: Checked<'_>,
    lines: Checked<'_>,
) -> Recorded {
    let mut reader = FromRead::new(Trickle::of(bytes, 7));
    let (mut writer, mut lines) = (ToWrite::new(writer), ToWrite::new(lines));
    let workers = Workers {
        count: 1,
        gate: &OpenGate,
        threads: rt,
        wait: rt,
    };
    let answer = record_stream(alloc, &mut reader, &mut writer, &mut lines, workers);
    let compaction = writer.into_inner().unwritten();
    (answer, compaction, lines.into_inner().unwritten())
}

/// A recorded collection of `texts.before`, whose devices compare what they receive with `texts.after` and the
/// schedule.
fn record_whole<R: Threads + Wait + Sync>(alloc: Global, rt: &R, texts: &Texts) -> Recorded {
    let writer = Checked::against(&texts.after);
    let lines = Checked::against(BASE_SCHEDULE.as_bytes());
    record_from(alloc, rt, &texts.before, writer, lines)
}

#[test]
fn both_texts_of_the_base_heap_are_written(rt: HostRuntime) -> Result<(), Fail> {
    let texts = slid(rt.alloc(), Base::WithLiveList)?;
    let done = record_whole(rt.alloc(), &rt, &texts);
    equal(&rt, done, (Ok(figures(0, 19, 3)), Some(0), Some(0)));
    Ok(())
}

/// Whether a device for the lines that accepts `limit` bytes gets that prefix, and the whole compaction is written.
fn ends_in_the_lines<R: Threads + Wait + Sync>(
    alloc: Global,
    rt: &R,
    texts: &Texts,
    limit: usize,
) -> bool {
    let schedule = BASE_SCHEDULE.as_bytes();
    let writer = Checked::against(&texts.after);
    let lines = Checked::until(schedule, limit, true);
    let (answer, compaction, lines) = record_from(alloc, rt, &texts.before, writer, lines);
    let left = lines.map(|count| count.wrapping_add(limit));
    (answer, compaction, left) == (Err(Fault::Io), Some(0), Some(schedule.len()))
}

#[test]
fn lines_that_fail_at_any_byte_keep_the_compaction(rt: HostRuntime) -> Result<(), Fail> {
    let texts = slid(rt.alloc(), Base::WithLiveList)?;
    for limit in 0..BASE_SCHEDULE.len() {
        let is_right = ends_in_the_lines(rt.alloc(), &rt, &texts, limit);
        equal_at(&rt, is_right, true, limit as u64);
    }
    Ok(())
}

/// Whether a device for the compaction that accepts `limit` bytes gets that prefix, and no line is written.
fn ends_in_the_compaction<R: Threads + Wait + Sync>(
    alloc: Global,
    rt: &R,
    texts: &Texts,
    limit: usize,
) -> bool {
    let writer = Checked::until(&texts.after, limit, true);
    let lines = Checked::against(&[]);
    let (answer, compaction, lines) = record_from(alloc, rt, &texts.before, writer, lines);
    let left = compaction.map(|count| count.wrapping_add(limit));
    (answer, left, lines) == (Err(Fault::Io), Some(texts.after.len()), Some(0))
}

#[test]
fn a_writer_that_fails_leaves_no_line(rt: HostRuntime) -> Result<(), Fail> {
    let texts = slid(rt.alloc(), Base::WithLiveList)?;
    for limit in [0, 1, 40] {
        let is_right = ends_in_the_compaction(rt.alloc(), &rt, &texts, limit);
        equal_at(&rt, is_right, true, limit as u64);
    }
    Ok(())
}

/// Whether both texts of the base heap are written. Its only error is running out of memory, with nothing written.
fn records<R: Threads + Wait + Sync>(alloc: Global, rt: &R) -> Result<bool, Fault> {
    let texts = slid(alloc, Base::WithLiveList)?;
    let (answer, compaction, lines) = record_whole(alloc, rt, &texts);
    let unwritten = (Some(texts.after.len()), Some(BASE_SCHEDULE.len()));
    match answer {
        Ok(_figures) => Ok((compaction, lines) == (Some(0), Some(0))),
        Err(fault) if (compaction, lines) == unwritten => Err(fault),
        Err(_) => Ok(false),
    }
}

/// The script tests/build/test_crate_allocations.sh runs this with each allocation refused in turn.
#[test]
fn record_stream_where_refused_memory_is_reported(rt: HostRuntime) {
    let answers = [records(rt.alloc(), &rt), records(rt.alloc(), &rt)];
    holds(&rt, are_right(&answers));
}
