//! Dumps from slow and failing devices, and region sizes and a version that no command line can give. `tests/cli/test_import.py` has
//! the words, figures and errors of other dumps, and `tests/faults/test_hostile.py` dumps that change between the two readings.
use crate::checks::equal;
use heap_dump::{Followed, ImportError, Imported, Options, import};
use heap_image::{FromRead, Image, Intake, Version};
use heap_samples::Trickle;
use std::alloc::{AllocError, Global};
use std::test::Fail;

/// Regions of eight words, and allowance 5.
const SMALL: Options = Options {
    region_log: Some(3),
    allowance: 5,
    live_only: false,
    followed: Followed::All,
    packs: false,
    version: None,
};

/// The words of the heap of [`sample`].
const SAMPLE_WORDS: [u64; 24] = [
    0x0100_0005_0000_0006,
    0,
    0,
    0,
    0,
    8,
    0,
    0x0100_0001_0000_0003,
    15,
    0x0403_0201,
    0x0100_0003_0000_0004,
    8,
    0,
    0,
    0x0100_0000_0000_0003,
    0x0807_0605_0403_0201,
    9,
    0,
    0,
    0,
    0,
    0,
    0,
    0,
];

/// The parts of a dump with an object of each kind, whose ids have eight bytes. There is a gap of one word after the class, and one
/// of 513 words before the last array.
const SAMPLE: [&[u8]; 15] = [
    // The head, and a record with a name.
    b"JAVA PROFILE 1.0.2\0\0\0\0\x08\0\0\0\0\0\0\0\0",
    b"\x01\0\0\0\0\0\0\0\x04name",
    // The head of the first segment, and roots, of which two lead nowhere.
    b"\x1C\0\0\0\0\0\0\0\x93",
    b"\x08\0\0\0\0\0\0\x01\x38\0\0\0\0\0\0\0\0\x05\0\0\0\0\0\0\x01\x38",
    b"\x01\0\0\0\0\0\0\x01\x50\0\0\0\0\0\0\0\0",
    b"\xFF\0\0\0\0\0\0\x03\xE7\x07\0\0\0\0\0\0\0\0",
    // An instance, and an array of references.
    b"\x21\0\0\0\0\0\0\x01\x38\0\0\0\0\0\0\0\0\0\0\x01\0\0\0\0\x0C\0\0\0\0\0\0\x11\x78\x01\x02\x03\x04",
    b"\x22\0\0\0\0\0\0\x01\x50\0\0\0\0\0\0\0\x03\0\0\0\0\0\0\x01\0\0\0\0\0\0\0\x01\x38\0\0\0\0\0\0\0\0\0\0\0\0\0\0\x03\xE7",
    // The head of the last segment, and an array of bytes.
    b"\x1C\0\0\0\0\0\0\0\x85",
    b"\x23\0\0\0\0\0\0\x11\x78\0\0\0\0\0\0\0\x09\x08\x01\x02\x03\x04\x05\x06\x07\x08\x09",
    // The class of the instance, with a static field and two fields.
    b"\x20\0\0\0\0\0\0\x01\0\0\0\0\0",
    b"\0\0\0\0\0\0\0\0\0\0\0\0\0\0\0\0\0\0\0\0\0\0\0\0\0\0\0\0\0\0\0\0\0\0\0\0\0\0\0\0\0\0\0\0\0\0\0\0\0\0\0\0",
    b"\0\0\0\x01\0\0\0\0\0\0\0\x01\x02\0\0\0\0\0\0\x01\x38",
    b"\0\x02\0\0\0\0\0\0\0\x01\x02\0\0\0\0\0\0\0\x01\x0A",
    // The end of the heap.
    b"\x2C\0\0\0\0\0\0\0\0",
];

/// The bytes of the sample.
pub(crate) fn sample(alloc: Global) -> Result<Vec<u8>, AllocError> {
    let mut dump = Vec::new(alloc);
    for part in &SAMPLE {
        dump.extend_from_slice(part)?;
    }
    Ok(dump)
}

/// Whether an image has these words.
fn has_words(image: &Image, words: &[u64]) -> bool {
    let mut all = image.len() == words.len() as u64;
    for (address, word) in words.iter().enumerate() {
        let address = address as u64;
        all = all && address < image.len() && image.word(address) == *word;
    }
    all
}

/// Whether a dump gives the words of the sample if the second reading is slow and fails after `limit` bytes. None if
/// the failure of the device is reported.
fn gives_sample_slowly(
    alloc: Global,
    bytes: &[u8],
    limit: usize,
) -> Result<Option<bool>, ImportError> {
    let mut first = FromRead::new(Trickle::of(bytes, 1));
    let mut second = FromRead::new(Trickle {
        bytes,
        step: 1,
        limit,
    });
    match import(alloc, &mut first, &mut second, SMALL) {
        Ok(Imported { image, .. }) => {
            Ok(Some(has_words(&image, &SAMPLE_WORDS) && !second.failed()))
        }
        Err(ImportError::Input) if second.failed() => Ok(None),
        Err(error) => Err(error),
    }
}

#[test]
fn a_slow_reader_is_served_and_a_failing_one_is_reported(rt: HostRuntime) -> Result<(), Fail> {
    let dump = sample(rt.alloc())?;
    let bytes = dump.as_slice();
    for limit in [0, 1, 19, 40, 41, bytes.len()] {
        equal(&rt, gives_sample_slowly(rt.alloc(), bytes, limit)?, None);
    }
    let served = gives_sample_slowly(rt.alloc(), bytes, bytes.len() + 1)?;
    equal(&rt, served, Some(true));
    Ok(())
}

/// The error for regions of this size, where another one is the largest.
fn too_large(region_log: u32, most: u32) -> ImportError {
    ImportError::RegionLog { region_log, most }
}

/// The error of an import of a dump, or None if it gives an image. Refused memory is an error of the test.
fn refusal(
    alloc: Global,
    dump: &[u8],
    options: Options,
) -> Result<Option<ImportError>, ImportError> {
    let mut first = FromRead::new(dump);
    let mut second = FromRead::new(dump);
    match import(alloc, &mut first, &mut second, options) {
        Ok(_) => Ok(None),
        Err(ImportError::Memory) => Err(ImportError::Memory),
        Err(error) => Ok(Some(error)),
    }
}

/// A dump that ends behind an empty segment of its heap.
const UNENDED: &[u8] = b"JAVA PROFILE 1.0.2\0\0\0\0\x08\0\0\0\0\0\0\0\0\x1C\0\0\0\0\0\0\0\0";

#[test]
fn options_that_no_image_has_are_refused(rt: HostRuntime) -> Result<(), Fail> {
    for (version, region_log, error) in [
        (Some(Version::Two), 17, too_large(17, 16)),
        (Some(Version::Three), 21, too_large(21, 20)),
        (None, 21, too_large(21, 20)),
        (Some(Version::One), 3, ImportError::NoRoots),
    ] {
        let options = Options {
            region_log: Some(region_log),
            version,
            ..SMALL
        };
        let found = refusal(rt.alloc(), UNENDED, options)?;
        equal(&rt, found, Some(error));
    }
    Ok(())
}
