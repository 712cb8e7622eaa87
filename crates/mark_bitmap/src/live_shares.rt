//! Sets the live bits of an image in shares, each in a thread.
ghost use Rattle.std.specs.Prelude.{◌≡◌, ◌+◌, ◌<◌, length};
ghost use Rattle.object_heap.specs.HeapImage.{is_live_word};
ghost use Rattle.mark_bitmap.specs.Marks.{AreBegins, AreBitsFrom, IsBlankPart};

use crate::laws::listed_image_is_valid;
use crate::listed::Listed;
use crate::objects::mark_part;
use heap_image::Bits;
use std::thread::{Threads, join_mut};

/// What the threads share.
#[derive(Drop)]
pub(crate) struct LiveShares<'a, T: Threads + Sync> {
    pub(crate) image: &'a Listed<'a>,
    /// The bits of the first words of the live objects.
    pub(crate) begins: &'a Bits,
    pub(crate) threads: &'a T,
    /// The number of words of bits that a thread sets.
    pub(crate) share: usize,
}

impl<T: Threads + Sync> LiveShares<'_, T> {
    /// Sets the live bits of the addresses from `64 * start` on. Each share of words but the last gets a thread, which this
    /// one starts.
    #[cycle(parts)]
    pub(crate) fn mark(&self, start: usize, words: &mut [u64])
        requires share { 0 < self.now.share }
        requires begins { AreBegins self.now.image.now self.now.begins.now }
        requires blank { IsBlankPart self.now.image.now start words.old }
        ensures room { length words.new ≡ length words.old }
        ensures bits { AreBitsFrom (is_live_word self.now.image.now) start words.new }
    {
        if words.len() <= self.share {
            mark_part(self.image, self.begins, start, words);
            return;
        }
        listed_image_is_valid(self.image);
        let (low_words, high_words) = words.split_at_mut(self.share);
        let middle = start + low_words.len();
        let mut low = ||
            requires { (0 < self.now.share) × AreBegins self.now.image.now self.now.begins.now
                × IsBlankPart self.now.image.now start low_words.now }
            ensures { (length low_words.exit.now ≡ length low_words.entry.now)
                × AreBitsFrom (is_live_word self.entry.now.image.now) start low_words.exit.now }
        { self.mark(start, low_words) };
        let mut high = ||
            requires { (0 < self.now.share) × AreBegins self.now.image.now self.now.begins.now
                × IsBlankPart self.now.image.now middle high_words.now }
            ensures { (length high_words.exit.now ≡ length high_words.entry.now)
                × AreBitsFrom (is_live_word self.entry.now.image.now) middle high_words.exit.now }
        { self.mark(middle, high_words) };
        join_mut(self.threads, &mut low, &mut high);
    }
}
