//! The first difference between words of images.
ghost use Rattle.std.specs.Prelude.{◌≡◌, ◌+◌, ◌≤◌, MatchOption};
ghost use Rattle.object_heap.specs.HeapImage.{heap_words, word_at};
ghost use Rattle.verification.specs.Difference.{AreAlike, IsLeastDifference};

use heap_image::{Image, image_is_valid};

/// The index of the first of the `n` words from address `at` on that is not 0.
pub(crate) fn first_nonzero(image: &Image, at: u64, n: u64) -> Option<u64>
    requires { at + n ≤ heap_words image.now }
    ensures { MatchOption result (AreAlike (λ _. 0) (λ j. word_at image.now (at + j)) n)
        (IsLeastDifference (λ _. 0) (λ j. word_at image.now (at + j)) n) }
{
    image_is_valid(image);
    for j in 0..n {
        if image.word(at + j) != 0 {
            return Some(j);
        }
    }
    None
}

/// The index of the first of the `n` words of `image`, from address `at` on, that differs from the word of `wanted` at
/// the same index from address `from` on.
pub(crate) fn first_unlike(image: &Image, at: u64, wanted: &Image, from: u64, n: u64) -> Option<u64>
    requires inside { at + n ≤ heap_words image.now }
    requires wanted_inside { from + n ≤ heap_words wanted.now }
    ensures { MatchOption result (AreAlike (λ j. word_at wanted.now (from + j)) (λ j. word_at image.now (at + j)) n)
        (IsLeastDifference (λ j. word_at wanted.now (from + j)) (λ j. word_at image.now (at + j)) n) }
{
    image_is_valid(image);
    image_is_valid(wanted);
    for j in 0..n {
        if image.word(at + j) != wanted.word(from + j) {
            return Some(j);
        }
    }
    None
}
