//! `Redirections`: the new value of each reference, by one count of live words.

ghost use Rattle.std.specs.Prelude.{◌≡◌, ◌+◌, ◌-◌, ◌<◌, ◌≤◌, true, false, map, All, IfOk, IsTrue, Contains, MatchOption};
ghost use Rattle.object_heap.specs.HeapImage.{heap_words, is_live_word, is_null_or_live, live_words};
ghost use Rattle.summary.specs.WordMoves.{slid};
ghost use Rattle.summary.specs.NewAddresses.{prefix_end, new_address};
ghost use Rattle.summary.specs.Compaction.{redirected};
ghost use Rattle.summary.specs.Redirections.{counted_below, first_rank};

use crate::plan::ranks::{RankSlices, Ranks};
use heap_image::Bits;
use mark_bitmap::{Listed, Marks, Surveyed};
use std::alloc::{AllocError, Global};
use std::marker::Model;
use std::snapshot::Snapshot;
use std::sync::Arc;

/// The new value of each reference of an image.
///
/// A reference is 1 plus the address of a live object, or 0 for null. One that slides becomes the dead words of the dense
/// prefix plus the live words below the reference itself, of which the object's first is the last. That number is never above
/// the reference. Null and a reference into the dense prefix stay, and for them it is never below. So the new value is the
/// lesser of the two, and there are no cases.
///
/// A contract sees the image that the redirections were made of, as it was then.
pub(crate) struct Redirections {
    image: Snapshot<Surveyed>,
    /// The live bits, which the marks keep, too.
    live: Arc<Bits, Global>,
    /// For each word of `live`, the dead words of the dense prefix plus the number of bits set in all words before it.
    ranks: Ranks,
}

impl Drop for Redirections {
    fn drop(self) {
        let Self { image, live, ranks } = self;
    }
}

impl Model for Redirections {
    ghost use Rattle.std.specs.Arc.{arc_value};
    ghost use Rattle.object_heap.specs.HeapImage.{HeapImage};
    ghost use Rattle.summary.specs.Redirections.{AreRedirections};

    ghost Value = { HeapImage };

    ghost view = { λ r. r.image.value };

    ghost invariant = { λ r. AreRedirections r.image.value (arc_value r.live) r.ranks };
}

impl Redirections {
    /// Makes the redirections of an image with these marks, whose dense prefix ends at `prefix`.
    ///
    /// Allocates about 2 bytes for each 64 words of the heap.
    pub(crate) fn of(
        alloc: Global,
        image: &Listed<'_>,
        marks: &Marks,
        prefix: u64,
    ) -> Result<Redirections, AllocError>
        requires marks { marks.now ≡ image.now }
        requires prefix { prefix ≡ prefix_end image.now }
        ensures { IfOk result (λ redirections. redirections ≡ image.now) }
    {
        let words = (image.len() / 64 + 1) as usize;
        let dead = prefix - marks.live_words(0, prefix);
        let live = marks.share_live()?;
        let ranks = Ranks::of(alloc, &live, words, dead)?;
        Ok(Redirections {
            image: image.surveyed(),
            live,
            ranks,
        })
    }

    /// The new address of the live object at `a`.
    #[inline]
    pub(crate) fn new_address(&self, a: u64) -> u64
        requires { Contains self.now.live a }
        ensures { result ≡ new_address self.now a }
    {
        self.as_slices().new_address(a)
    }

    /// The reference to the same object after the collection; null stays null.
    #[inline]
    pub(crate) fn redirected(&self, reference: u64) -> u64
        requires { IsTrue (is_null_or_live self.now reference) }
        ensures { result ≡ redirected self.now reference }
    {
        self.as_slices().redirected(reference)
    }

    /// Redirects each reference in place.
    pub(crate) fn redirect_all(&self, references: &mut [u64])
        requires { All (λ w. IsTrue (is_null_or_live self.now w)) references.old }
        ensures { references.new ≡ map (redirected self.now) references.old }
    {
        let redirections = self.as_slices();
        for reference in references.iter_mut() {
            *reference = redirections.redirected(*reference);
        }
    }

    /// The same redirections, borrowed.
    #[inline]
    pub(crate) fn as_slices(&self) -> RedirectionSlices<'_>
        ensures { result ≡ self.now }
    {
        RedirectionSlices {
            image: &self.image,
            live: self.live.words(),
            ranks: self.ranks.as_slices(),
        }
    }
}

/// Borrowed [`Redirections`]: who redirects many references looks the lists up once, not for each of them.
///
/// A contract sees the image that the redirections were made of.
#[derive(Drop)]
pub(crate) struct RedirectionSlices<'a> {
    image: &'a Snapshot<Surveyed>,
    live: &'a [u64],
    ranks: RankSlices<'a>,
}

impl<'a> Model for RedirectionSlices<'a> {
    ghost use Rattle.object_heap.specs.HeapImage.{HeapImage};
    ghost use Rattle.summary.specs.Redirections.{AreRedirections};

    ghost Value = { HeapImage };

    ghost view = { λ r. r.image.now.value };

    ghost invariant = { λ r. AreRedirections r.image.now.value r.live.now r.ranks };
}

impl RedirectionSlices<'_> {
    /// The new address of the live object at `a`.
    #[inline]
    fn new_address(&self, a: u64) -> u64
        requires { Contains self.now.live a }
        ensures { result ≡ new_address self.now a }
    {
        // The image is valid by what they keep.
        let _image = self.image;
        self.rank(a + 1) - 1
    }

    /// The reference to the same object after the collection; null stays null.
    #[inline]
    fn redirected(&self, reference: u64) -> u64
        requires { IsTrue (is_null_or_live self.now reference) }
        ensures { result ≡ redirected self.now reference }
    {
        let _image = self.image;
        self.rank(reference)
    }

    /// The new value of a reference.
    #[inline]
    fn rank(&self, reference: u64) -> u64
        requires inside { reference ≤ heap_words self.now }
        requires live { 0 < reference → IsTrue (is_live_word self.now (reference - 1)) }
        ensures { result ≡ counted_below self.now reference }
    {
        reference.min(self.live_below(reference))
    }

    /// Where the word at `q` goes, if a live object has it.
    #[inline]
    pub(crate) fn place_of(&self, q: u64) -> Option<u64>
        ensures { MatchOption result (is_live_word self.now q ≡ false) (λ to. (is_live_word self.now q ≡ true) × (to ≡ slid self.now q)) }
    {
        // The image is valid by what they keep.
        let _image = self.image;
        if !self.is_live(q) {
            return None;
        }
        Some(q.min(self.live_below(q)))
    }

    /// Whether a live object has the word at this address.
    #[inline]
    fn is_live(&self, q: u64) -> bool
        ensures { result ≡ is_live_word self.now q }
    {
        // The live bits are the image's by what they keep.
        let _image = self.image;
        match self.live.get((q / 64) as usize) {
            Some(word) => (*word >> (q % 64)) & 1 == 1,
            None => false,
        }
    }

    /// The live words below an address, counted on from the dead words of the dense prefix.
    #[inline]
    fn live_below(&self, a: u64) -> u64
        requires { a ≤ heap_words self.now }
        ensures { result ≡ first_rank self.now + live_words self.now 0 a }
    {
        let i = (a / 64) as usize;
        let below = self.live[i] & ((1 << (a % 64)) - 1);
        self.ranks.get(i) + u64::from(below.count_ones())
    }
}
