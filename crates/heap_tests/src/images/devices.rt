//! Tests of devices that move small pieces or fail at a byte.
use super::roots::{object, text_with_roots};
use crate::answers::expect_fault;
use crate::checks::{equal, equal_at, equal_bytes, holds};
use heap_image::{
    Failed, Fault, FromRead, Image, Outlet, ToWrite, all_processors, decode, give_all, read_image,
    write_image,
};
use heap_samples::{BASE_WORDS, Base, Trickle};
use std::alloc::Global;
use std::io;
use std::io::Write;
use std::process::Abort;
use std::test::Fail;
use std::thread::Threads;

/// A writer that takes at most `step` bytes at a time, and `limit` in all. Then it fails, or takes none.
#[derive(Drop)]
pub struct Full {
    pub bytes: Vec<u8>,
    pub step: usize,
    pub limit: usize,
    pub fails: bool,
}

impl Write for Full {
    fn write(&mut self, buf: &[u8]) -> io::Result<usize> {
        if self.fails && self.limit == 0 {
            return Err(io::Error::from(io::ErrorKind::Other));
        }
        let n = buf.len().min(self.step).min(self.limit);
        self.bytes.extend_from_slice(&buf[..n])?;
        self.limit -= n;
        Ok(n)
    }

    fn flush(&mut self) -> io::Result<()> {
        Ok(())
    }
}

/// Writes an image to a writer that takes `limit` bytes, which are too few, and returns these bytes.
fn write_cut(rt: &impl Abort, alloc: Global, image: &Image, limit: usize, fails: bool) -> Vec<u8> {
    let mut full = ToWrite::new(Full {
        bytes: Vec::new(alloc),
        step: 7,
        limit,
        fails,
    });
    equal(rt, write_image(image, &mut full), Err(Fault::Io));
    holds(rt, full.failed());
    full.into_inner().bytes
}

#[test]
fn give_all_gives_all_bytes(rt: HostRuntime) -> Result<(), Fail> {
    let mut full = ToWrite::new(Full {
        bytes: Vec::new(rt.alloc()),
        step: 2,
        limit: 5,
        fails: false,
    });
    equal(&rt, give_all(&mut full, b"three"), Ok(()));
    equal(&rt, give_all(&mut full, b""), Ok(()));
    equal(&rt, full.failed(), false);
    equal(&rt, give_all(&mut full, b"more"), Err(Failed));
    equal_bytes(&rt, full.into_inner().bytes.as_slice(), b"three");
    Ok(())
}

/// Fails if a reader of this image that fails at some byte, or after the last one, gives another fault than 13.
fn try_failing_readers(rt: &(impl Abort + Threads + Sync), alloc: Global, text: &[u8]) {
    for limit in 0..=text.len() {
        let mut broken = FromRead::new(Trickle {
            bytes: text,
            step: 7,
            limit,
        });
        let fault = expect_fault(rt, read_image(alloc, &mut broken, &all_processors(rt)));
        equal_at(rt, fault, Fault::Io, limit);
    }
}

/// Fails if a writer that is full at some byte of this image, and then fails or takes none, doesn't have the bytes
/// before.
fn try_full_writers(
    rt: &(impl Abort + Threads + Sync),
    alloc: Global,
    text: &[u8],
) -> Result<(), Fault> {
    let image = decode(alloc, text, &all_processors(rt))?;
    for limit in 0..text.len() {
        let taken = write_cut(rt, alloc, &image, limit, false);
        equal_bytes(rt, taken.as_slice(), &text[..limit]);
        let taken = write_cut(rt, alloc, &image, limit, true);
        equal_bytes(rt, taken.as_slice(), &text[..limit]);
    }
    Ok(())
}

#[test]
fn a_reader_fails_at_each_byte(rt: HostRuntime) -> Result<(), Fail> {
    for base in [Base::WithLiveList, Base::WithRoots] {
        try_failing_readers(&rt, rt.alloc(), base.text(rt.alloc(), 0)?.as_slice());
    }
    Ok(())
}

#[test]
fn a_writer_is_full_at_each_byte(rt: HostRuntime) -> Result<(), Fail> {
    for base in [Base::WithLiveList, Base::WithRoots] {
        try_full_writers(&rt, rt.alloc(), base.text(rt.alloc(), 0)?.as_slice())?;
    }
    Ok(())
}

/// The fault of this text if its reader fails after it.
fn broken_fault(rt: &(impl Abort + Threads + Sync), alloc: Global, text: &[u8]) -> Fault {
    let mut broken = FromRead::new(Trickle {
        bytes: text,
        step: 7,
        limit: text.len(),
    });
    expect_fault(rt, read_image(alloc, &mut broken, &all_processors(rt)))
}

#[test]
fn a_fault_of_an_image_comes_before_one_of_its_reader(rt: HostRuntime) -> Result<(), Fail> {
    let mut beyond = BASE_WORDS;
    beyond[23] = 33;
    let inner = [object(3, 0), object(4, 0), 0, 0, 0, 0, 0, 0];
    let rows: [(&[u64], &[u64], Fault); 4] = [
        (&BASE_WORDS, &[4, 33], Fault::Root(1)),
        (&BASE_WORDS, &[4], Fault::Header(3)),
        (&inner, &[2, 1], Fault::Overlap(1)),
        (&beyond, &[21], Fault::Reference(20, 2)),
    ];
    for (words, roots, fault) in rows {
        let text = text_with_roots(rt.alloc(), words, roots)?;
        equal(&rt, broken_fault(&rt, rt.alloc(), text.as_slice()), fault);
    }
    Ok(())
}
