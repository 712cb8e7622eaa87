//! Collections from bytes to bytes: devices that read and write in small pieces or fail at any byte, and nothing
//! written before a collection has succeeded.
use crate::checks::equal;
use crate::devices::Checked;
use crate::texts::{Texts, figures, slid, with_prefix, without_the_last};
use collector::{Figures, Gate, OpenGate, collect_stream};
use heap_image::{Fault, FromRead, Intake, Outlet, ToWrite};
use heap_samples::{Base, Trickle};
use std::alloc::Global;
use std::io;
use std::io::Write;
use std::sync::Wait;
use std::sync::atomic::{AtomicBool, Ordering};
use std::test::Fail;
use std::thread::Threads;

/// The result of a collection from bytes to bytes, and the state of its devices.
#[derive(Clone, Copy)]
struct Stream {
    answer: Result<Figures, Fault>,
    read_failed: bool,
    unread: usize,
    write_failed: bool,
    /// The number of bytes of the right text that are not written, if the written ones are a prefix of it.
    unwritten: Option<usize>,
}

/// A collection by two workers.
fn streamed<R: Threads + Wait + Sync>(
    alloc: Global,
    rt: &R,
    reader: Trickle<'_>,
    writer: Checked<'_>,
) -> Stream {
    let (mut reader, mut writer) = (FromRead::new(reader), ToWrite::new(writer));
    let answer = collect_stream(alloc, &mut reader, &mut writer, 2, &OpenGate, rt, rt);
    let (read_failed, write_failed) = (reader.failed(), writer.failed());
    Stream {
        answer,
        read_failed,
        unread: reader.into_inner().bytes.len(),
        write_failed,
        unwritten: writer.into_inner().unwritten(),
    }
}

/// The figures of a collection whose devices move `step` bytes at a time, if it succeeds and reads and writes
/// everything.
fn whole<R: Threads + Wait + Sync>(
    alloc: Global,
    rt: &R,
    texts: &Texts,
    step: usize,
) -> Option<Figures> {
    let reader = Trickle::of(&texts.before, step);
    let stream = streamed(alloc, rt, reader, Checked::in_steps(&texts.after, step));
    let is_whole = (stream.unread, stream.unwritten) == (0, Some(0));
    match stream.answer {
        Ok(figures) if is_whole && !stream.read_failed && !stream.write_failed => Some(figures),
        _ => None,
    }
}

/// The numbers of bytes that the devices move at a time.
const STEPS: [usize; 3] = [1, 7, usize::MAX];

#[test]
fn the_base_heap_goes_from_bytes_to_bytes(rt: HostRuntime) -> Result<(), Fail> {
    let slid = slid(rt.alloc(), Base::WithLiveList)?;
    let with_prefix = with_prefix(rt.alloc(), Base::WithLiveList, &rt)?;
    for step in STEPS {
        let found = whole(rt.alloc(), &rt, &slid, step);
        equal(&rt, found, Some(figures(0, 19, 3)));
        let found = whole(rt.alloc(), &rt, &with_prefix, step);
        equal(&rt, found, Some(figures(8, 21, 3)));
    }
    Ok(())
}

#[test]
fn what_the_roots_reach_goes_from_bytes_to_bytes(rt: HostRuntime) -> Result<(), Fail> {
    let slid = slid(rt.alloc(), Base::WithRoots)?;
    let without_the_last = without_the_last(rt.alloc())?;
    for step in STEPS {
        let found = whole(rt.alloc(), &rt, &slid, step);
        equal(&rt, found, Some(figures(0, 19, 3)));
        let found = whole(rt.alloc(), &rt, &without_the_last, step);
        equal(&rt, found, Some(figures(0, 9, 2)));
    }
    Ok(())
}

/// The base heap in both versions, and the length of its text in bytes.
const BASES: [(Base, usize); 2] = [(Base::WithLiveList, 320), (Base::WithRoots, 304)];

/// Whether nothing is written if the reader fails after `limit` bytes.
fn is_unwritten<R: Threads + Wait + Sync>(
    alloc: Global,
    rt: &R,
    texts: &Texts,
    limit: usize,
) -> bool {
    let reader = Trickle::until(&texts.before, limit);
    let stream = streamed(alloc, rt, reader, Checked::against(&texts.after));
    stream.answer == Err(Fault::Io)
        && stream.read_failed
        && !stream.write_failed
        && stream.unwritten == Some(texts.after.len())
}

/// The first byte at which something is written although the reader fails there, if any.
fn first_written<R: Threads + Wait + Sync>(alloc: Global, rt: &R, texts: &Texts) -> Option<usize> {
    for limit in 0..=texts.before.len() {
        if !is_unwritten(alloc, rt, texts, limit) {
            return Some(limit);
        }
    }
    None
}

#[test]
fn a_reader_that_fails_at_any_byte_lets_nothing_be_written(rt: HostRuntime) -> Result<(), Fail> {
    for (base, len) in BASES {
        let texts = slid(rt.alloc(), base)?;
        equal(&rt, texts.before.len(), len);
        equal(&rt, first_written(rt.alloc(), &rt, &texts), None);
    }
    Ok(())
}

/// Whether all is read and the first `limit` bytes are written if the writer then fails, or accepts 0.
fn is_begun<R: Threads + Wait + Sync>(
    alloc: Global,
    rt: &R,
    texts: &Texts,
    (limit, fails): (usize, bool),
) -> bool {
    let writer = Checked::until(&texts.after, limit, fails);
    let stream = streamed(alloc, rt, Trickle::of(&texts.before, 100), writer);
    let left = stream.unwritten.map(|count| count.wrapping_add(limit));
    stream.answer == Err(Fault::Io)
        && stream.write_failed
        && !stream.read_failed
        && stream.unread == 0
        && left == Some(texts.after.len())
}

/// The first byte at which a writer that accepts no more has something else than the prefix, if any.
fn first_not_begun<R: Threads + Wait + Sync>(
    alloc: Global,
    rt: &R,
    texts: &Texts,
) -> Option<usize> {
    for limit in 0..texts.after.len() {
        if !is_begun(alloc, rt, texts, (limit, true))
            || !is_begun(alloc, rt, texts, (limit, false))
        {
            return Some(limit);
        }
    }
    None
}

#[test]
fn a_writer_that_fails_at_any_byte_has_the_prefix(rt: HostRuntime) -> Result<(), Fail> {
    for (base, len) in BASES {
        let texts = slid(rt.alloc(), base)?;
        equal(&rt, texts.after.len(), len);
        equal(&rt, first_not_begun(rt.alloc(), &rt, &texts), None);
    }
    Ok(())
}

/// Refuses every fill if it is shut, and otherwise every fill after the first write.
#[derive(Drop)]
struct Watch<'a> {
    is_written: &'a AtomicBool,
    is_shut: bool,
}

impl Gate for Watch<'_> {
    ghost may_refuse = { λ _ _ _. Unit {0} };

    fn before_fill(&self, _worker: u32, _region: u32) -> bool {
        !self.is_shut && !self.is_written.load(Ordering::SeqCst)
    }

    fn after_complete(&self, _worker: u32, _region: u32) {}
}

/// A writer that sets a flag once it is written to.
#[derive(Drop)]
struct Flagging<'a> {
    is_written: &'a AtomicBool,
}

impl Write for Flagging<'_> {
    fn write(&mut self, buf: &[u8]) -> io::Result<usize> {
        self.is_written.store(true, Ordering::SeqCst);
        Ok(buf.len())
    }

    fn flush(&mut self) -> io::Result<()> {
        Ok(())
    }
}

/// The number of regions that a collection of this text fills, or its fault, and whether anything was written.
fn watched<R: Threads + Wait + Sync>(
    alloc: Global,
    rt: &R,
    text: &[u8],
    (workers, is_shut): (u32, bool),
) -> (Result<u32, Fault>, bool) {
    let is_written = AtomicBool::new(false);
    let gate = Watch {
        is_written: &is_written,
        is_shut,
    };
    let mut reader = FromRead::new(text);
    let mut writer = ToWrite::new(Flagging {
        is_written: &is_written,
    });
    let answer = collect_stream(alloc, &mut reader, &mut writer, workers, &gate, rt, rt);
    let filled = answer.map(|figures| figures.filled);
    (filled, is_written.load(Ordering::SeqCst))
}

#[test]
fn nothing_is_written_before_a_collection_has_succeeded(rt: HostRuntime) -> Result<(), Fail> {
    let text = Base::WithLiveList.text(rt.alloc(), 2)?;
    for workers in [1, 2, 3] {
        let open = watched(rt.alloc(), &rt, &text, (workers, false));
        equal(&rt, open, (Ok(3), true));
        let shut = watched(rt.alloc(), &rt, &text, (workers, true));
        equal(&rt, shut, (Err(Fault::Gate), false));
    }
    Ok(())
}

#[test]
fn nothing_is_written_by_no_workers_or_too_many(rt: HostRuntime) -> Result<(), Fail> {
    let text = Base::WithLiveList.text(rt.alloc(), 2)?;
    for workers in [0, 65] {
        let refused = watched(rt.alloc(), &rt, &text, (workers, false));
        equal(&rt, refused, (Err(Fault::Workers), false));
    }
    let bad = watched(rt.alloc(), &rt, &[0; 40], (0, false));
    equal(&rt, bad, (Err(Fault::Magic), false));
    Ok(())
}
