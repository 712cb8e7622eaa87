//! Where the words of a heap go, for who asks of many.
ghost use Rattle.std.specs.Prelude.{◌≡◌, true, false, MatchOption};
ghost use Rattle.object_heap.specs.HeapImage.{heap_words, is_live_word};
ghost use Rattle.summary.specs.WordMoves.{slid};

use crate::plan::RedirectionSlices;
use std::marker::Model;

/// Where the words of a heap go, by the lists of a plan: who asks of many words looks these up once.
///
/// A contract sees the image that the plan was made of.
#[derive(Drop)]
pub struct WordPlaces<'a> {
    redirections: RedirectionSlices<'a>,
    /// The number of words of the heap.
    words: u64,
}

impl<'a> Model for WordPlaces<'a> {
    ghost use Rattle.std.specs.Prelude.{◌≡◌};
    ghost use Rattle.object_heap.specs.HeapImage.{HeapImage, heap_words};

    ghost Value = { HeapImage };

    ghost view = { λ p. p.redirections };

    ghost invariant = { λ p. p.words ≡ heap_words p.redirections };
}

impl<'a> WordPlaces<'a> {
    pub(crate) fn new(redirections: RedirectionSlices<'a>, words: u64) -> WordPlaces<'a>
        requires { words ≡ heap_words redirections }
        ensures { result ≡ redirections.entry }
    {
        WordPlaces {
            redirections,
            words,
        }
    }

    /// The number of words of the heap.
    #[inline]
    pub fn words(&self) -> u64
        ensures { result ≡ heap_words self.now }
    {
        self.words
    }

    /// Where the word at this address goes, the first of its object or not. `None` if no live object has such a word.
    #[inline]
    pub fn get(&self, address: u64) -> Option<u64>
        ensures { MatchOption result (is_live_word self.now address ≡ false)
            (λ to. (is_live_word self.now address ≡ true) × (to ≡ slid self.now address)) }
    {
        self.redirections.place_of(address)
    }
}
