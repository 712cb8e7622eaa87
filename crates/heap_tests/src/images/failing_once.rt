//! Tests of devices that fail in one call and would work again, and of a front without a body when memory runs out.
use super::texts::{base_text, front};
use crate::answers::expect_fault;
use crate::checks::{equal, equal_at, equal_bytes, holds};
use heap_image::{
    Alone, Fault, FromRead, Image, Intake, Outlet, ToWrite, decode, read_image, write_image,
};
use std::alloc::Global;
use std::io;
use std::io::{Read, Write};
use std::process::Abort;
use std::test::Fail;

/// The most bytes that a device moves at a time.
const STEP: usize = 7;

/// A reader of `bytes`, and a writer that appends to `taken`. One call fails, and the others don't.
#[derive(Drop)]
struct FailsOnce<'a> {
    bytes: &'a [u8],
    taken: Vec<u8>,
    calls: usize,
    fails_at: usize,
}

impl FailsOnce<'_> {
    /// Counts a call, and returns whether it is the one that fails.
    fn is_failing(&mut self) -> bool {
        let call = self.calls;
        self.calls = call.wrapping_add(1);
        call == self.fails_at
    }
}

impl Read for FailsOnce<'_> {
    fn read(&mut self, buf: &mut [u8]) -> io::Result<usize> {
        if self.is_failing() {
            return Err(io::Error::from(io::ErrorKind::Other));
        }
        let wanted = buf.len().min(STEP);
        let (given, rest) = self.bytes.split_at(wanted.min(self.bytes.len()));
        buf[..given.len()].copy_from_slice(given);
        self.bytes = rest;
        Ok(given.len())
    }
}

impl Write for FailsOnce<'_> {
    fn write(&mut self, buf: &[u8]) -> io::Result<usize> {
        if self.is_failing() {
            return Err(io::Error::from(io::ErrorKind::Other));
        }
        let n = buf.len().min(STEP);
        self.taken.extend_from_slice(&buf[..n])?;
        Ok(n)
    }

    fn flush(&mut self) -> io::Result<()> {
        Ok(())
    }
}

fn failing_at(alloc: Global, fails_at: usize, bytes: &[u8]) -> FailsOnce<'_> {
    FailsOnce {
        bytes,
        taken: Vec::new(alloc),
        calls: 0,
        fails_at,
    }
}

/// The fault of a reading, whether the reader stays failed, the fault of a second reading, and the number of calls of
/// the device.
type TwoReadings = (Fault, bool, Fault, usize);

/// Reads twice from a reader whose device fails in this call.
fn read_twice(rt: &impl Abort, alloc: Global, text: &[u8], fails_at: usize) -> TwoReadings {
    let mut reader = FromRead::new(failing_at(alloc, fails_at, text));
    let fault = expect_fault(rt, read_image(alloc, &mut reader, &Alone));
    let failed = reader.failed() && reader.take(&mut [0; 1]).is_err();
    let again = expect_fault(rt, read_image(alloc, &mut reader, &Alone));
    (fault, failed, again, reader.into_inner().calls)
}

/// Reads an image without a failure, and returns it with the number of calls of the device.
fn read_sound(alloc: Global, text: &[u8]) -> Result<(Image, usize), Fault> {
    let mut reader = FromRead::new(failing_at(alloc, 48, text));
    let image = read_image(alloc, &mut reader, &Alone)?;
    Ok((image, reader.into_inner().calls))
}

/// No contract forbids asking a failed reader again, so this is tested.
#[test]
fn a_failed_reader_is_not_asked_again(rt: HostRuntime) -> Result<(), Fail> {
    let text = base_text(rt.alloc())?;
    // The front takes 5 calls, the body 42, and the end one.
    for fails_at in 0..48 {
        let found = read_twice(&rt, rt.alloc(), text.as_slice(), fails_at);
        equal_at(
            &rt,
            found,
            (Fault::Io, true, Fault::Io, fails_at + 1),
            fails_at,
        );
    }
    let (image, calls) = read_sound(rt.alloc(), text.as_slice())?;
    equal(&rt, (image.len(), calls), (32, 48));
    Ok(())
}

/// Writes twice, and once more in between, to a writer whose device fails in this call. Returns whether each failed,
/// and the device.
fn write_twice(alloc: Global, image: &Image, fails_at: usize) -> ([bool; 3], FailsOnce<'static>) {
    let mut writer = ToWrite::new(failing_at(alloc, fails_at, &[]));
    let first = write_image(image, &mut writer).is_err();
    let failed = writer.failed() && writer.give(&[0; 1]).is_err();
    let again = write_image(image, &mut writer).is_err();
    ([first, failed, again], writer.into_inner())
}

/// Whether the device has a prefix of the text, after this number of calls.
fn has_prefix(device: &FailsOnce<'_>, text: &[u8], calls: usize) -> bool {
    device.calls == calls && text.starts_with(device.taken.as_slice())
}

/// No contract forbids writing to a failed writer again, so this is tested.
#[test]
fn a_failed_writer_is_not_written_to_again(rt: HostRuntime) -> Result<(), Fail> {
    let text = base_text(rt.alloc())?;
    let (image, _calls) = read_sound(rt.alloc(), text.as_slice())?;
    for fails_at in 0..47 {
        let (failed, device) = write_twice(rt.alloc(), &image, fails_at);
        equal_at(&rt, failed, [true; 3], fails_at);
        holds(&rt, has_prefix(&device, text.as_slice(), fails_at + 1));
    }
    let (is_written, device) = write_once(rt.alloc(), &image);
    holds(&rt, is_written && device.calls == 47);
    equal_bytes(&rt, device.taken.as_slice(), text.as_slice());
    Ok(())
}

fn write_once(alloc: Global, image: &Image) -> (bool, FailsOnce<'static>) {
    let mut writer = ToWrite::new(failing_at(alloc, 47, &[]));
    let is_written = write_image(image, &mut writer).is_ok();
    (is_written, writer.into_inner())
}

/// No memory is allocated for a front without a body. A script runs this with each allocation refused in turn.
#[test]
fn front_alone_where_refused_memory_is_reported(rt: HostRuntime) {
    let bytes = front(8, 0, 4_194_304);
    let decoded = expect_fault(&rt, decode(rt.alloc(), &bytes, &Alone));
    let read = expect_fault(
        &rt,
        read_image(rt.alloc(), &mut FromRead::new(bytes.as_slice()), &Alone),
    );
    equal(
        &rt,
        (decoded, read),
        (Fault::TruncatedBody, Fault::TruncatedBody),
    );
}
