//! Open files that note how calls on them fail.
ghost use Rattle.std.specs.Prelude.{◌≡◌, ◌+◌, None, length, min};

use super::file_id::FileId;
use super::file_word::FileWord;
use super::head::reshape;
use super::writing::Writing;
use crate::trouble::failed_call::{FailedCall, SystemCall};
use crate::trouble::{Trouble, on_file};
use command_line::Shape;
use heap_image::FRONT_BYTES;
use std::fs::{Metadata, OpenFile};
use std::io::{Read, Seek, SeekFrom, Write};
use std::os::unix::fs::MetadataExt;
use std::rt::Files;
use std::{fs, io};

/// The mode bits by which others than its owner may read a file.
const OTHERS_READ: u32 = 0o044;

/// An open file of the command line. It reads and writes as the file does, and keeps the first bytes that were read and the
/// last call that failed. An image is read as if its head had the values of the shape.
#[derive(Drop)]
pub struct Watched<'a, F: Drop> {
    file: F,
    word: FileWord<'a>,
    shape: Shape,
    front: Front,
    failed: Option<FailedCall>,
}

impl<'a, F: Drop> Watched<'a, F> {
    /// Watches this open file.
    pub fn new(word: FileWord<'a>, file: F) -> Watched<'a, F>
        ensures file { result.file ≡ file }
        ensures region_log { result.shape.region_log ≡ None }
        ensures allowance { result.shape.allowance ≡ None }
    {
        Watched {
            file,
            word,
            shape: Shape::unchanged(),
            front: Front::empty(),
            failed: None,
        }
    }

    /// Opens the file of this word for reading.
    ///
    /// Fault 13 if it can't be opened.
    pub fn open<H: Files<File = F>>(
        host: &H,
        word: FileWord<'a>,
    ) -> Result<Watched<'a, F>, Trouble> {
        let file = on_file(word, SystemCall::Open, fs::open(host, word.path_to_read()))?;
        Ok(Watched::new(word, file))
    }

    /// Which file of the system it is. Fault 13 if the call fails.
    pub fn id(&self) -> Result<FileId, Trouble>
    where
        F: OpenFile,
    {
        Ok(FileId::of(&self.metadata()?))
    }

    /// The file's metadata. Fault 13 if the call fails.
    pub fn metadata(&self) -> Result<Metadata, Trouble>
    where
        F: OpenFile,
    {
        on_file(self.word, SystemCall::Stat, self.file.metadata())
    }

    /// How a command writes that reads this file: a file that isn't there yet is made for its owner alone if this one is.
    ///
    /// Fault 13 if the call for its metadata fails.
    pub fn writing(&self, atomic: bool) -> Result<Writing, Trouble>
    where
        F: OpenFile,
    {
        let metadata = self.metadata()?;
        Ok(Writing {
            atomic,
            is_private: is_private(&metadata),
            read: Some(FileId::of(&metadata)),
        })
    }

    pub fn file(&self) -> &F {
        &self.file
    }

    pub fn word(&self) -> FileWord<'a> {
        self.word
    }

    /// What the image is read with in place of what is in its head.
    pub fn shape(&self) -> Shape
        ensures { result ≡ self.now.shape }
    {
        self.shape
    }

    /// The first 32 bytes of the image, with zeros for those that weren't read.
    pub fn front(&self) -> [u8; FRONT_BYTES] {
        let mut front = self.front.bytes;
        reshape(self.shape, 0, &mut front);
        front
    }

    /// The first 32 bytes of the file that were read, or fewer if no more were.
    pub fn first_bytes(&self) -> &[u8] {
        &self.front.bytes[..self.front.count.min(FRONT_BYTES)]
    }

    /// The last call on the file that failed.
    pub fn failed(&self) -> Option<FailedCall> {
        self.failed
    }
}

impl<'a, F: Read + Drop> Watched<'a, F> {
    ghost use Rattle.std.specs.Prelude.{◌≡◌, option_map};
    ghost use Rattle.command_support.specs.Heads.{bytes_read};
    ghost use Rattle.command_support.specs.Watching.{bytes_left};

    /// Reads the image in the file with this shape. Nothing of it has been read yet.
    pub fn with_shape(self, shape: Shape) -> Watched<'a, F>
        ensures shape { result.shape ≡ shape }
        ensures bytes { bytes_left F.remaining result ≡ option_map (bytes_read shape 0) (F.remaining self.entry.file) }
    {
        Watched {
            shape,
            front: Front::empty(),
            ..self
        }
    }
}

impl<F: OpenFile + Drop> Watched<'_, F> {
    /// The length of a regular file in bytes, and 0 for any other or if the call fails.
    pub fn regular_len(&self) -> u64 {
        match self.file.metadata() {
            Ok(metadata) if metadata.is_file() => metadata.len(),
            _ => 0,
        }
    }
}

impl<'a, F: OpenFile + Seek + Drop> Watched<'a, F> {
    /// Cuts the file at the present position: another process may have written more. Fault 13 if a call fails.
    pub fn cut(&mut self) -> Result<(), Trouble> {
        let end = on_file(self.word, SystemCall::Write, self.file.stream_position())?;
        on_file(self.word, SystemCall::Empty, self.cut_at(end))
    }

    /// Skips `count` bytes. They read as zeros once more is written, whatever another process has written there.
    pub fn skip(&mut self, count: u64) -> io::Result<()> {
        match self.cut_and_seek(count) {
            Ok(_) => Ok(()),
            Err(error) => {
                self.failed = Some(FailedCall::of(SystemCall::Write, &error));
                Err(error)
            }
        }
    }

    fn cut_and_seek(&mut self, count: u64) -> io::Result<u64> {
        let at = self.file.stream_position()?;
        self.cut_at(at)?;
        self.file.seek(SeekFrom::Start(at.saturating_add(count)))
    }

    fn cut_at(&self, end: u64) -> io::Result<()> {
        if self.file.metadata()?.len() == end {
            return Ok(());
        }
        self.file.set_len(end)
    }
}

impl<F: Seek + Drop> Watched<'_, F> {
    /// Skips the bytes between two positions, if the first is the present one. Returns whether it did.
    pub fn pass(&mut self, from: u64, to: u64) -> bool {
        match self.file.stream_position() {
            Ok(at) if at == from => self.file.seek(SeekFrom::Start(to)).is_ok(),
            _ => false,
        }
    }
}

impl<F: Read + Drop> Read for Watched<'_, F> {
    ghost use Rattle.command_support.specs.Watching.{bytes_left};

    ghost remaining = { bytes_left F.remaining };

    fn read(&mut self, buf: &mut [u8]) -> io::Result<usize> {
        match self.file.read(buf) {
            Ok(n) => {
                let at = self.front.count;
                self.front.keep(&buf[..n]);
                reshape(self.shape, at, &mut buf[..n]);
                Ok(n)
            }
            Err(error) => {
                self.failed = Some(FailedCall::of(SystemCall::Read, &error));
                Err(error)
            }
        }
    }
}

impl<F: Write + Drop> Write for Watched<'_, F> {
    ghost contents = { λ watched. F.contents watched.file };

    fn write(&mut self, buf: &[u8]) -> io::Result<usize> {
        match self.file.write(buf) {
            Ok(n) => {
                if n == 0 && !buf.is_empty() {
                    self.failed = Some(FailedCall::full());
                }
                Ok(n)
            }
            Err(error) => {
                self.failed = Some(FailedCall::of(SystemCall::Write, &error));
                Err(error)
            }
        }
    }

    fn flush(&mut self) -> io::Result<()> {
        self.file.flush()
    }
}

/// The first bytes of a file.
#[derive(Clone, Copy)]
struct Front {
    bytes: [u8; FRONT_BYTES],
    /// How many of them were read.
    count: usize,
}

impl Front {
    fn empty() -> Front
        ensures { result.count ≡ 0 }
    {
        Front {
            bytes: [0; FRONT_BYTES],
            count: 0,
        }
    }

    /// Keeps as many of the next bytes as there is room for.
    fn keep(&mut self, bytes: &[u8])
        ensures { self.new.count ≡ min (min self.old.count 32 + length bytes.now) 32 }
    {
        let from = self.count.min(FRONT_BYTES);
        let count = bytes.len().min(FRONT_BYTES - from);
        self.bytes[from..from + count].copy_from_slice(&bytes[..count]);
        self.count = from + count;
    }
}

/// Whether it is a regular file that only its owner may read.
fn is_private(metadata: &Metadata) -> bool {
    metadata.is_file() && metadata.mode() & OTHERS_READ == 0
}
