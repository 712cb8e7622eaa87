//! The line on standard error that shows how far a command is.

pub(crate) mod gauge;
mod status_line;
pub(crate) mod transfer;

use crate::phase::Phase;
use crate::stats::stopwatch::Stopwatch;
use command_line::When;
use gauge::Gauge;
use status_line::StatusLine;
use std::fmt;
use std::fs::OpenFile;
use std::io::Write;
use std::sync::atomic::{AtomicBool, AtomicU64, Ordering};

/// How long a command runs before it shows on a terminal how far it is, in milliseconds.
const DELAY: u64 = 1000;

/// The time between two lines of a phase, in milliseconds.
const INTERVAL: u64 = 100;

/// The line on standard error that shows how far a command is. Each line overwrites the one before. Any thread may show one, and
/// a failed write changes nothing.
///
/// There are no colours and no escape sequences in it.
#[derive(Drop)]
pub struct Meter {
    rt: HostRuntime,
    watch: Stopwatch,
    /// The number of columns of the terminal, if it is known.
    columns: Option<u32>,
    /// When the first line may be shown, in milliseconds since the start.
    first: u64,
    /// When the next line is due, in milliseconds since the start.
    due: AtomicU64,
    is_on: AtomicBool,
    is_shown: AtomicBool,
}

impl Meter {
    /// A meter that shows something always, on a terminal or never. Unless it is always, it waits for a second.
    ///
    /// It stays off where standard error is closed.
    pub fn new(rt: HostRuntime, when: When, is_terminal: bool, columns: Option<u32>) -> Meter {
        let is_on = when.is_now(is_terminal) && rt.stderr().write(&[]).is_ok();
        let first = if when == When::Always { 0 } else { DELAY };
        Meter {
            rt,
            watch: Stopwatch::start(&rt, is_on),
            columns,
            first,
            due: AtomicU64::new(first),
            is_on: AtomicBool::new(is_on),
            is_shown: AtomicBool::new(false),
        }
    }

    pub fn is_on(&self) -> bool {
        self.is_on.load(Ordering::Relaxed)
    }

    /// The gauge of an open file that is read or written. None if the meter is off.
    pub fn gauge<F: OpenFile>(&self, phase: Phase, file: &F) -> Option<Gauge<'_>> {
        if !self.is_on() {
            return None;
        }
        let len = match file.metadata() {
            Ok(metadata) if phase == Phase::Read && metadata.is_file() => metadata.len(),
            _ => 0,
        };
        Some(Gauge::new(self, phase, len))
    }

    /// Erases the line, and shows none any more.
    pub fn end(&self) {
        self.is_on.store(false, Ordering::Relaxed);
        if self.is_shown.swap(false, Ordering::Relaxed) {
            self.put(&StatusLine::blank(self.columns));
        }
    }

    /// The time since the start in milliseconds, if the clock works.
    pub(crate) fn now(&self) -> Option<u64> {
        u64::try_from(self.watch.elapsed(&self.rt)?.as_millis()).ok()
    }

    /// The time if a line is due. One thread alone gets it.
    pub(crate) fn turn(&self) -> Option<u64> {
        let now = self.now()?;
        let due = self.due.load(Ordering::Relaxed);
        if now < due {
            return None;
        }
        let next = now.saturating_add(INTERVAL);
        match self
            .due
            .compare_exchange(due, next, Ordering::Relaxed, Ordering::Relaxed)
        {
            Ok(_) => Some(now),
            Err(_) => None,
        }
    }

    /// Shows the first line of a phase at this time, unless that is too early.
    pub(crate) fn begin<D: fmt::Display + Drop>(&self, now: u64, text: D) {
        if now >= self.first {
            self.due
                .store(now.saturating_add(INTERVAL), Ordering::Relaxed);
            self.show(text);
        }
    }

    /// Shows a line with this text.
    pub(crate) fn show<D: fmt::Display + Drop>(&self, text: D) {
        if self.is_on() {
            self.is_shown.store(true, Ordering::Relaxed);
            let line = StatusLine::blank(self.columns)
                .with("pcompact: ")
                .with(text);
            self.put(&line);
        }
    }

    fn put(&self, line: &StatusLine) {
        let mut stderr = self.rt.stderr();
        let _ = stderr.write(line.bytes());
    }
}
