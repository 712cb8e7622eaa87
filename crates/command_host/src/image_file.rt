use crate::ahead::{Ahead, heap_words};
use command_support::Watched;
use command_times::{Phase, PhaseTimes};
use heap_image::{Body, BodySize, Failed, Intake, all_processors, extent_after_front};
use std::alloc::Global;
use std::fs::OpenFile;
use std::io::{Read, Seek};
use std::os::unix::fs::FileExt;
use std::thread::Threads;
use std::time::Clock;

/// The file of an image. Its bytes are unknown to contracts.
///
/// The body of a large image in a regular file is read ahead, by several threads side by side if there are more. Any
/// other file, such as a pipe, is read in order. So is a whole regular file of which a thread can't read its part: what
/// is wrong is then found as for a pipe.
#[derive(Drop)]
pub struct ImageFile<'a, 't, H, F: Drop> {
    watched: Watched<'a, F>,
    failed: bool,
    ahead: Option<Ahead>,
    /// The phase that reads it, which ends when the last bytes have come, if times are noted.
    timed: Option<(&'t PhaseTimes<'t, H>, Phase)>,
}

impl<'a, 't, H: Clock, F: Drop> ImageFile<'a, 't, H, F> {
    /// Reads the body ahead by at most `readers` threads, if it is a large one in a regular file.
    pub fn read_ahead(
        host: &H,
        watched: Watched<'a, F>,
        readers: usize,
        times: &'t PhaseTimes<'t, H>,
        phase: Phase,
    ) -> ImageFile<'a, 't, H, F>
    where
        H: AllocGlobal + Threads + Sync,
        F: OpenFile + FileExt + Sync,
    {
        let ahead = Ahead::read(host.alloc(), &watched, readers, host);
        times.end(phase);
        ImageFile {
            watched,
            failed: false,
            ahead,
            timed: Some((times, phase)),
        }
    }

    /// Reads the body ahead by a thread for each processor, and notes no times.
    pub fn untimed(host: &H, watched: Watched<'a, F>) -> ImageFile<'a, 't, H, F>
    where
        H: AllocGlobal + Threads + Sync,
        F: OpenFile + FileExt + Sync,
    {
        let readers = all_processors(host).most;
        let ahead = Ahead::read(host.alloc(), &watched, readers, host);
        ImageFile {
            watched,
            failed: false,
            ahead,
            timed: None,
        }
    }

    /// The number of words of the heap, if the image that was read so far has a sound front.
    pub fn heap_words(&self) -> Option<u64> {
        Some(heap_words(extent_after_front(&self.watched.front())?))
    }

    /// The file, for what is known of a fault.
    pub fn watched(&self) -> &Watched<'a, F> {
        &self.watched
    }

    /// The file.
    pub fn into_inner(self) -> Watched<'a, F> {
        let ImageFile { watched, .. } = self;
        watched
    }
}

impl<H: Clock, F: Read + Seek + Drop> Intake for ImageFile<'_, '_, H, F> {
    ghost use Rattle.std.specs.Prelude.{None};

    ghost left = { λ _. None };

    ghost has_failed = { λ image. image.failed };

    fn take(&mut self, buffer: &mut [u8]) -> Result<usize, Failed> {
        if self.failed {
            return Err(Failed);
        }
        match self.watched.read(buffer) {
            Ok(n) => {
                match self.timed {
                    Some((times, phase)) if n > 0 => times.end(phase),
                    _ => {}
                }
                Ok(n)
            }
            Err(_) => {
                self.failed = true;
                Err(Failed)
            }
        }
    }

    fn failed(&self) -> bool {
        self.failed
    }

    fn take_body(&mut self, _alloc: Global, size: BodySize) -> Option<Body> {
        let Ahead { extent, body } = self.ahead.take()?;
        if extent.size != size {
            return None;
        }
        if self.watched.pass(extent.at, extent.end()?) {
            Some(body)
        } else {
            None
        }
    }
}
