//! Invalid descriptions of heaps that no command line can give, because the program rejects such arguments earlier.
//! `tests/cli/test_generate.py` has the others, and the words of seeds.
use crate::checks::equal;
use heap_image::Version;
use heap_maker::{GenerationError, Wanted, generate};
use std::alloc::Global;
use std::test::Fail;

/// A heap of four regions of eight words.
const SMALL: Wanted = Wanted {
    words: 32,
    region_log: 3,
    live_percent: 60,
    reference_percent: 50,
    version: Version::Two,
    allowance: 5,
    seed: 35,
};

/// A heap of a region more than version 3 allows.
const LARGE: Wanted = Wanted {
    words: 8_388_616,
    version: Version::Three,
    ..SMALL
};

/// Descriptions of heaps that no image can be, and the error messages.
const REFUSED: [(Wanted, &str); 11] = [
    (
        Wanted { words: 0, ..SMALL },
        "0 words, where 1 to 4194304 are allowed",
    ),
    (
        Wanted {
            words: 4_194_312,
            ..SMALL
        },
        "4194312 words, where 1 to 4194304 are allowed",
    ),
    (
        Wanted {
            region_log: 17,
            ..SMALL
        },
        "region log 17, where 3 to 16 are allowed",
    ),
    (
        Wanted {
            region_log: 2,
            ..SMALL
        },
        "region log 2, where 3 to 16 are allowed",
    ),
    (
        Wanted {
            live_percent: 101,
            ..SMALL
        },
        "101 of a hundred, where 0 to 100 are allowed",
    ),
    (
        Wanted {
            reference_percent: 102,
            ..SMALL
        },
        "102 of a hundred, where 0 to 100 are allowed",
    ),
    (
        Wanted {
            words: 131_080,
            version: Version::One,
            ..SMALL
        },
        "131080 words are 16385 regions, where 16384 are the most",
    ),
    (
        LARGE,
        "8388616 words are 1048577 regions, where 1048576 are the most",
    ),
    (
        Wanted {
            words: 68_719_476_744,
            ..LARGE
        },
        "68719476744 words, where 1 to 68719476736 are allowed",
    ),
    (
        Wanted {
            region_log: 21,
            ..LARGE
        },
        "region log 21, where 3 to 20 are allowed",
    ),
    (
        Wanted {
            region_log: 2,
            ..LARGE
        },
        "region log 2, where 3 to 20 are allowed",
    ),
];

fn refusal(alloc: Global, wanted: &Wanted) -> Option<GenerationError> {
    match generate(alloc, wanted) {
        Ok(_) => None,
        Err(error) => Some(error),
    }
}

/// The error message for this description.
fn refusal_text(alloc: Global, wanted: &Wanted) -> Result<String, Fail> {
    match refusal(alloc, wanted) {
        Some(error) => Ok(format!(in alloc; "{error}")?),
        None => Err(Fail::new("a wish that no image has is met")),
    }
}

#[test]
fn wishes_that_no_image_has_are_refused(rt: HostRuntime) -> Result<(), Fail> {
    for (wanted, text) in &REFUSED {
        let said = refusal_text(rt.alloc(), wanted)?;
        equal(&rt, said.as_str(), *text);
    }
    Ok(())
}
