//! The body of an image's file, read before the collector reads the image.
ghost use Rattle.std.specs.Prelude.{◌≤◌, None};
ghost use Rattle.image_streams.specs.Extents.{IsBodyOf};

use command_support::{Watched, reshape};
use heap_image::{Body, Extent, FRONT_BYTES, FileStore, body_at, extent_after_front};
use std::alloc::Global;
use std::fs::OpenFile;
use std::os::unix::fs::FileExt;
use std::thread::Threads;

/// A body of fewer words is read in order.
const LEAST_WORDS: u64 = 131_072;

/// The body of an image's file, whose regions share one block.
#[derive(Drop)]
pub struct Ahead {
    /// Where the body lies in the file.
    pub extent: Extent,
    pub body: Body,
    ghost is: { IsBodyOf None extent body },
}

impl Ahead {
    /// Reads the body of a regular file by at most `readers` threads. None for no reader or another file, if the file
    /// doesn't begin as that of a large image, if a thread can't read its part, or if memory runs out.
    pub fn read<F: OpenFile + FileExt + Sync + Drop>(
        alloc: Global,
        watched: &Watched<'_, F>,
        readers: usize,
        threads: &(impl Threads + Sync),
    ) -> Option<Ahead> {
        if readers == 0 {
            return None;
        }
        let len = watched.regular_len();
        let extent = extent_after_front(&front_of(watched)?)?;
        if heap_words(extent) < LEAST_WORDS || extent.end()? > len {
            return None;
        }
        let store = FileStore::new(watched.file());
        let body = body_at(alloc, &store, extent, readers, threads)?;
        Some(Ahead { extent, body })
    }
}

/// The front of the image in a file, if it can be read whole.
fn front_of<F: FileExt + Drop>(watched: &Watched<'_, F>) -> Option<[u8; FRONT_BYTES]> {
    let mut front = [0; FRONT_BYTES];
    let Ok(FRONT_BYTES) = watched.file().read_at(&mut front, 0) else {
        return None;
    };
    reshape(watched.shape(), 0, &mut front);
    Some(front)
}

/// The number of words of the heap whose body lies in this extent.
pub fn heap_words(extent: Extent) -> u64
    requires { extent.size.region_log ≤ 20 }
{
    (extent.size.regions as u64) << extent.size.region_log
}
