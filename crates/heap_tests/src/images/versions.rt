//! Tests of what each version allows.
use crate::checks::{equal, equal_at};
use heap_image::Version;

/// The most words of an image of version 3.
const WORDS: u64 = 1 << 36;

/// A version, a region log, a number of words, and whether the version allows them.
const ALLOWED: [(Version, u32, u64, bool); 11] = [
    (Version::Two, 16, 4_194_304, true),
    (Version::Two, 17, 131_072, false),
    (Version::Two, 16, 4_259_840, false),
    (Version::Two, 3, 131_072, true),
    (Version::One, 3, 131_080, false),
    (Version::Three, 20, WORDS, true),
    (Version::Three, 21, WORDS, false),
    (Version::Three, 16, WORDS + 65_536, false),
    (Version::Three, 3, 8_388_608, true),
    (Version::Three, 3, 8_388_616, false),
    (Version::Three, u32::MAX, 0, false),
];

#[test]
fn versions_allow_sizes(rt: HostRuntime) {
    for (index, row) in ALLOWED.iter().enumerate() {
        let (version, region_log, words, is_allowed) = *row;
        equal_at(&rt, version.allows(region_log, words), is_allowed, index);
    }
    for (region_log, words, version) in [
        (16, 4_194_304, Version::Two),
        (16, 4_259_840, Version::Three),
        (17, 131_072, Version::Three),
        (3, 131_072, Version::Two),
        (3, 131_080, Version::Three),
        (3, u64::MAX, Version::Three),
    ] {
        equal(&rt, Version::for_roots(region_log, words), version);
    }
}
