//! Tests of images that are written through a buffer in memory.
use super::devices::Full;
use super::texts::{base_text, regions_of};
use crate::answers::are_right;
use crate::checks::{equal, equal_at, equal_bytes, holds};
use heap_image::{Alone, Fault, Image, Outlet, ToWrite, decode, write_image, write_image_buffered};
use heap_samples::{Base, image_text};
use std::alloc::Global;
use std::io;
use std::io::Write;
use std::process::Abort;
use std::test::Fail;

/// A writer that takes all bytes, and keeps the length of the longest piece.
#[derive(Drop)]
struct Longest(usize);

impl Write for Longest {
    fn write(&mut self, buf: &[u8]) -> io::Result<usize> {
        self.0 = self.0.max(buf.len());
        Ok(buf.len())
    }

    fn flush(&mut self) -> io::Result<()> {
        Ok(())
    }
}

/// A heap of 1 MiB, with this region log.
fn large(alloc: Global, region_log: u64) -> Result<Image, Fault> {
    let words = Vec::from_iter(alloc, (0..131_072u64).map(|a| a << 32 | a))?;
    let text = image_text(alloc, regions_of(region_log), words.as_slice(), &[])?;
    decode(alloc, text.as_slice(), &Alone)
}

/// The lengths of the longest pieces in which an image is written, without and with a buffer in memory.
fn longest_pieces(rt: &impl Abort, alloc: Global, image: &Image) -> (usize, usize) {
    let mut plain = ToWrite::new(Longest(0));
    equal(rt, write_image(image, &mut plain), Ok(()));
    let mut buffered = ToWrite::new(Longest(0));
    equal(
        rt,
        write_image_buffered(alloc, image, &mut buffered),
        Ok(()),
    );
    (plain.into_inner().0, buffered.into_inner().0)
}

#[test]
fn pieces_are_as_long_as_the_buffer(rt: HostRuntime) -> Result<(), Fail> {
    for region_log in [3, 16] {
        let image = large(rt.alloc(), region_log)?;
        let longest = longest_pieces(&rt, rt.alloc(), &image);
        equal(&rt, longest, (16_384, 262_144));
    }
    Ok(())
}

/// Writes an image to a writer that takes at most `limit` bytes, and returns the result and these bytes.
fn write_limited(alloc: Global, image: &Image, limit: usize) -> (Result<(), Fault>, Vec<u8>) {
    let mut writer = ToWrite::new(Full {
        bytes: Vec::new(alloc),
        step: usize::MAX,
        limit,
        fails: true,
    });
    let answer = write_image_buffered(alloc, image, &mut writer);
    (answer, writer.into_inner().bytes)
}

#[test]
fn a_writer_fails_at_each_byte(rt: HostRuntime) -> Result<(), Fail> {
    let text = base_text(rt.alloc())?;
    let image = decode(rt.alloc(), text.as_slice(), &Alone)?;
    for limit in 0..=text.len() {
        let (answer, bytes) = write_limited(rt.alloc(), &image, limit);
        equal_at(&rt, answer.is_ok(), limit == text.len(), limit);
        equal_bytes(&rt, bytes.as_slice(), &text[..limit]);
    }
    Ok(())
}

/// Whether the right text is written. Returns false also if memory runs out after something is written.
fn is_written(alloc: Global) -> Result<bool, Fault> {
    let text = Base::WithRoots.text(alloc, 2)?;
    let image = decode(alloc, text.as_slice(), &Alone)?;
    let mut writer = ToWrite::new(Full {
        bytes: Vec::with_capacity(alloc, 400)?,
        step: 100,
        limit: usize::MAX,
        fails: true,
    });
    let answer = write_image_buffered(alloc, &image, &mut writer);
    let written = writer.into_inner().bytes;
    match answer {
        Ok(()) => Ok(written == text),
        Err(fault) if written.is_empty() => Err(fault),
        Err(_) => Ok(false),
    }
}

/// A script runs this with each allocation refused in turn.
#[test]
fn refused_memory_is_reported(rt: HostRuntime) {
    let answers = [is_written(rt.alloc()), is_written(rt.alloc())];
    holds(&rt, are_right(&answers));
}
