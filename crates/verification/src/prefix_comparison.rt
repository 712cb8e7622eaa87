//! Whether the words of a heap are those of a collection with another dense prefix.
ghost use Rattle.std.specs.Prelude.{◌≡◌, IfOk, IfErr, IfSome};
ghost use Rattle.object_heap.specs.HeapImage.{heap_words, words_alone};
ghost use Rattle.image_streams.specs.declared.fault.Fault.TheVariants.{Memory};
ghost use Rattle.summary.specs.NewAddresses.{prefix_end};
ghost use Rattle.verification.specs.OtherPrefix.{IsOtherPrefix, allowing};

use crate::comparison_explained::{Found, WordComparison};
use crate::verdict_explanation::OtherPrefix;
use crate::verifier::Verifier;
use heap_image::{Fault, Heap, Image, image_is_valid};
use std::alloc::Global;
use summary::Survey;

/// Where the dense prefix of `before` ends and where it would end by another allowance, if the compaction has the words of
/// `after` by that one: all, or if `below_top` those below its new top. Of all other allowances one is tried, by which the
/// objects stay that do in `after`. Returns `None` if the words are others, or the prefix ends at the same address.
///
/// Takes linear time. The only error is `Fault::Memory`, if memory runs out.
pub fn other_prefix<V: Verifier>(
    alloc: Global,
    before: Image,
    after: &Heap<'_>,
    below_top: bool,
    verifier: &V,
) -> Result<Option<OtherPrefix>, Fault>
    requires start { V.may_start }
    ensures prefix { IfOk result (λ prefix. IfSome prefix (IsOtherPrefix before after.now below_top)) }
    ensures fault { IfErr result (λ fault. fault ≡ Memory) }
{
    if after.len() != before.len() {
        return Ok(None);
    }
    let expected = prefix_end(alloc, &before, verifier)?;
    let allowance = allowance_of(&before, after);
    let before = with_allowance(before, allowance);
    let survey = Survey::of(alloc, &before, verifier)?;
    let found = survey.plan().prefix_end();
    if found == expected {
        return Ok(None);
    }
    let words = WordComparison {
        before: &before,
        after,
        survey: &survey,
    };
    let limit = words.limit(below_top);
    let tally = words.tally(alloc, limit)?;
    Ok(match tally.last {
        None => Some(OtherPrefix { expected, found }),
        Some(_) => None,
    })
}

/// Where the dense prefix of an image ends.
fn prefix_end<V: Verifier>(alloc: Global, image: &Image, verifier: &V) -> Result<u64, Fault>
    requires start { V.may_start }
    ensures end { IfOk result (λ end. end ≡ prefix_end image.now) }
    ensures fault { IfErr result (λ fault. fault ≡ Memory) }
{
    let survey = Survey::of(alloc, image, verifier)?;
    Ok(survey.plan().prefix_end())
}

/// The allowance with which the objects would stay that do in these words: the dead words below the first object that
/// doesn't, or only those below the end of the one before it, unless the first is found where its region begins.
fn allowance_of(before: &Image, after: &Heap<'_>) -> u64
    requires { heap_words after.now ≡ heap_words before.now }
{
    image_is_valid(before);
    let (mut live, mut end) = (0u64, 0u64);
    for &a in before.live() {
        let header = before.word(a);
        if after.word(a) != header {
            let start = a - a % before.region_words();
            let is_at_start = start > end && after.word(start) == header;
            let kept = if is_at_start { start } else { end };
            return kept.saturating_sub(live);
        }
        let size = before.size_at(a);
        live = live.saturating_add(size);
        end = a.saturating_add(size);
    }
    end.saturating_sub(live)
}

/// The image with this allowance.
fn with_allowance(image: Image, allowance: u64) -> Image
    ensures { result ≡ allowing allowance image }
{
    let mut parts = image.into_parts();
    parts.allowance = allowance;
    parts.into_image()
}
