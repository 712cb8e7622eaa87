//! What `--stats` prints.

pub(crate) mod laps;
pub(crate) mod live_share;
pub(crate) mod moved;
mod peak_memory;
pub(crate) mod phase_times;
pub(crate) mod stopwatch;
pub(crate) mod tenths;
pub(crate) mod timed_intake;
pub(crate) mod timed_outlet;

use laps::Laps;
use live_share::LiveShare;
use moved::Moved;
use peak_memory::peak_kib;
use phase_times::PhaseTimes;
use std::io;
use std::io::Write;
use std::rt::Files;
use std::thread::{Threads, available_parallelism};
use std::time::Clock;
use stopwatch::Stopwatch;
use tenths::Tenths;

/// The timings of a command.
#[derive(Clone, Copy)]
pub struct Stats {
    /// Started with the command.
    watch: Stopwatch,
    laps: Laps,
    /// Of a collection only.
    moved: Option<Moved>,
    /// Of an import only.
    share: Option<LiveShare>,
    /// Of a collection or an import. A comparison uses a thread for each processor.
    workers: Option<u32>,
}

impl Stats {
    /// The timings of a collection.
    pub fn of_collection<H: Clock>(times: &PhaseTimes<'_, H>, moved: Moved, workers: u32) -> Stats {
        Stats {
            watch: times.watch(),
            laps: times.laps(),
            moved: Some(moved),
            share: None,
            workers: Some(workers),
        }
    }

    /// The timings of a comparison.
    pub fn of_comparison<H: Clock>(times: &PhaseTimes<'_, H>) -> Stats {
        Stats {
            watch: times.watch(),
            laps: times.laps(),
            moved: None,
            share: None,
            workers: None,
        }
    }

    /// The timings of an import, which uses one thread.
    pub fn of_import(watch: Stopwatch, laps: Laps, share: LiveShare) -> Stats {
        Stats {
            watch,
            laps,
            moved: None,
            share: Some(share),
            workers: Some(1),
        }
    }

    /// Writes the lines of `--stats`, with the total time and the peak memory until now.
    pub fn print<H: Files + Threads + Clock, B: Write>(
        &self,
        host: &H,
        err: &mut B,
    ) -> io::Result<()> {
        self.laps.print(self.watch.elapsed(host), err)?;
        if let Some(moved) = &self.moved {
            moved.print(self.laps.in_memory(), err)?;
        }
        if let Some(share) = &self.share {
            share.print(err)?;
        }
        let threads = match self.workers {
            None => processors(host),
            workers => workers,
        };
        if let Some(threads) = threads {
            writeln!(err, "pcompact: threads {threads}")?;
        }
        print_peak(host, err)
    }
}

/// Writes the line of the peak memory, if the system reports it.
fn print_peak<H: Files, B: Write>(host: &H, err: &mut B) -> io::Result<()> {
    match peak_kib(host) {
        Some(kib) => {
            let peak = Tenths::of_mib(kib.saturating_mul(1024));
            writeln!(err, "pcompact: peak memory {peak} MiB")
        }
        None => Ok(()),
    }
}

/// The number of processors for this process, if the system reports it.
fn processors(threads: &impl Threads) -> Option<u32> {
    let count = available_parallelism(threads).ok()?;
    u32::try_from(count.get()).ok()
}
