//! What is said of roots and words that differ from those of the base heap's compaction.
ghost use Rattle.std.specs.Prelude.{◌<◌};

use crate::checks::equal_at;
use collector::{
    ExplainedWord, Found, Lead, Moved, OtherLive, OtherRoot, Verdict, explain, verify,
    verify_below_top,
};
use heap_image::{Fault, Image, all_processors, decode};
use heap_samples::{
    BASE_LIVE, BASE_ROOTS, BASE_WORDS, MOVED_LIVE, MOVED_ROOTS, MOVED_WORDS, Settings, image_of,
    rooted_text,
};
use std::alloc::Global;
use std::test::Fail;
use std::thread::Threads;
use verification::{Origin, OtherPrefix, other_prefix};

/// The number of words that differ, the first of them, and the first live address and root that differ.
#[derive(Debug, Clone, Copy, PartialEq, Eq)]
struct Differences {
    count: u64,
    first: Option<ExplainedWord>,
    live: Option<OtherLive>,
    root: Option<OtherRoot>,
}

/// What is said where nothing differs.
const NO_DIFFERENCE: Differences = Differences {
    count: 0,
    first: None,
    live: None,
    root: None,
};

fn differences_of(
    alloc: Global,
    before: &Image,
    found: Found<'_>,
    threads: &(impl Threads + Sync),
) -> Result<Option<Differences>, Fault> {
    match explain(alloc, before, found, false, &all_processors(threads))? {
        Some(explanation) => Ok(Some(Differences {
            count: explanation.count,
            first: explanation.first.as_slice().first().copied(),
            live: explanation.live,
            root: explanation.root,
        })),
        None => Ok(None),
    }
}

/// What is said of these roots, where the words are right.
fn differences_of_roots(
    alloc: Global,
    roots: &[u64],
    threads: &(impl Threads + Sync),
) -> Result<Option<Differences>, Fail> {
    let settings = Settings::of_base(0);
    let before = rooted_text(alloc, settings, &BASE_WORDS, &BASE_ROOTS)?;
    let before = decode(alloc, before.as_slice(), &all_processors(threads))?;
    let after = rooted_text(alloc, settings, &MOVED_WORDS, &MOVED_ROOTS)?;
    let after = decode(alloc, after.as_slice(), &all_processors(threads))?;
    let heap = after.heap();
    let found = Found {
        heap: &heap,
        live: after.live(),
        roots,
    };
    Ok(differences_of(alloc, &before, found, threads)?)
}

#[test]
fn roots_are_explained(rt: HostRuntime) -> Result<(), Fail> {
    let stale = OtherRoot {
        index: 0,
        expected: 10,
        found: 21,
        lead: Lead::Unchanged,
    };
    let beyond = OtherRoot {
        index: 1,
        expected: 0,
        found: 33,
        lead: Lead::Outside,
    };
    let rows = [
        ([10, 0], None),
        ([21, 0], Some(stale)),
        ([10, 33], Some(beyond)),
    ];
    for (i, (roots, root)) in rows.iter().enumerate() {
        let differences = differences_of_roots(rt.alloc(), roots, &rt)?;
        let want = Differences {
            root: *root,
            ..NO_DIFFERENCE
        };
        equal_at(&rt, differences, Some(want), i as u64);
    }
    Ok(())
}

/// The words of the compaction with another one at this address.
fn with_word(address: usize, word: u64) -> [u64; 32]
    requires { address < 32 }
{
    let mut words = MOVED_WORDS;
    words[address] = word;
    words
}

/// The verdicts on these words beside the base heap, on all of them and on those below the top.
fn verdicts(
    alloc: Global,
    words: &[u64],
    threads: &(impl Threads + Sync),
) -> Result<(Verdict, Verdict), Fail> {
    let settings = Settings::of_base(0);
    let before = image_of(alloc, settings, &BASE_WORDS, &BASE_LIVE, threads)?;
    let after = image_of(alloc, settings, words, &MOVED_LIVE, threads)?;
    let verifier = all_processors(threads);
    let all = verify(alloc, &before, &after, &verifier)?;
    Ok((all, verify_below_top(alloc, &before, &after, &verifier)?))
}

#[test]
fn words_above_the_top_are_passed_over(rt: HostRuntime) -> Result<(), Fail> {
    let rows = [
        (with_word(25, 7), (Verdict::Word(25), Verdict::Same)),
        (with_word(19, 7), (Verdict::Word(19), Verdict::Same)),
        (with_word(18, 7), (Verdict::Word(18), Verdict::Word(18))),
    ];
    for (i, (words, want)) in rows.iter().enumerate() {
        let found = verdicts(rt.alloc(), words, &rt)?;
        equal_at(&rt, found, *want, i as u64);
    }
    Ok(())
}

/// Where this word stands, too, if it is found at this address in place of that of the compaction.
fn origin_at(
    alloc: Global,
    address: usize,
    word: u64,
    threads: &(impl Threads + Sync),
) -> Result<Option<Origin>, Fail>
    requires { address < 32 }
{
    let settings = Settings::of_base(0);
    let before = image_of(alloc, settings, &BASE_WORDS, &BASE_LIVE, threads)?;
    let words = with_word(address, word);
    let after = image_of(alloc, settings, &words, &MOVED_LIVE, threads)?;
    let heap = after.heap();
    let found = Found {
        heap: &heap,
        live: after.live(),
        roots: after.roots(),
    };
    let differences = differences_of(alloc, &before, found, threads)?;
    match differences {
        Some(
            Differences {
                first: Some(first),
                ..
            },
        ) => Ok(first.origin),
        _ => Ok(None),
    }
}

#[test]
fn origins_are_told(rt: HostRuntime) -> Result<(), Fail> {
    let first = Moved { old: 0, new: 0 };
    let rows = [
        (BASE_WORDS[5], Some(Origin::Before)),
        (MOVED_WORDS[2], Some(Origin::Neighbour(first))),
        (77, None),
    ];
    for (i, (word, want)) in rows.iter().enumerate() {
        let origin = origin_at(rt.alloc(), 5, *word, &rt)?;
        equal_at(&rt, origin, *want, i as u64);
    }
    Ok(())
}

/// The prefix that these words of the base heap's compaction have in place of the right one.
fn prefix_of(
    alloc: Global,
    allowance: u64,
    words: &[u64],
    threads: &(impl Threads + Sync),
) -> Result<Option<OtherPrefix>, Fail> {
    let settings = Settings::of_base(allowance);
    let before = image_of(alloc, settings, &BASE_WORDS, &BASE_LIVE, threads)?;
    let after = image_of(alloc, settings, words, &MOVED_LIVE, threads)?;
    let verifier = all_processors(threads);
    Ok(other_prefix(alloc, before, &after.heap(), false, &verifier)?)
}

#[test]
fn another_prefix_is_found(rt: HostRuntime) -> Result<(), Fail> {
    let other = OtherPrefix {
        expected: 8,
        found: 0,
    };
    let spoiled = with_word(5, 77);
    let rows = [
        (2, MOVED_WORDS, Some(other)),
        (0, MOVED_WORDS, None),
        (2, spoiled, None),
    ];
    for (i, (allowance, words, want)) in rows.iter().enumerate() {
        let prefix = prefix_of(rt.alloc(), *allowance, words, &rt)?;
        equal_at(&rt, prefix, *want, i as u64);
    }
    Ok(())
}
