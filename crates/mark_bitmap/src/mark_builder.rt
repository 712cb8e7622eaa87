//! Making the marks of an image in one thread or in several, for code that serves both.
ghost use Rattle.std.specs.Prelude.{◌≡◌, length};
ghost use Rattle.object_heap.specs.HeapImage.{is_live_word};
ghost use Rattle.mark_bitmap.specs.Marks.{AreBegins, AreBitsFrom, IsBlankPart};

use crate::listed::Listed;
use crate::live_shares::LiveShares;
use crate::objects::mark_part;
use heap_image::Bits;
use std::thread::Threads;
use thread_row::{Alone, Hands, Many};

/// The least number of words of bits that are worth a thread.
const LEAST_BIT_WORDS: usize = 16_384;

/// The threads that set the live bits of an image.
pub trait MarkBuilder: Hands {
    /// Sets the live bits of the whole heap in `words`, none of which is set yet. `begins` has the begin bits.
    fn set_live_bits(&self, image: &Listed<'_>, begins: &Bits, words: &mut [u64])
        requires start { Self.may_start }
        requires begins { AreBegins image.now begins.now }
        requires blank { IsBlankPart image.now 0 words.old }
        ensures room { length words.new ≡ length words.old }
        ensures bits { AreBitsFrom (is_live_word image.now) 0 words.new };
}

impl MarkBuilder for Alone {
    fn set_live_bits(&self, image: &Listed<'_>, begins: &Bits, words: &mut [u64]) {
        mark_part(image, begins, 0, words);
    }
}

impl<T: Threads + Sync> MarkBuilder for Many<'_, T> {
    fn set_live_bits(&self, image: &Listed<'_>, begins: &Bits, words: &mut [u64]) {
        let share = words.len().div_ceil(self.most.max(1)).max(LEAST_BIT_WORDS);
        let shares = LiveShares {
            image,
            begins,
            threads: self.threads,
            share,
        };
        shares.mark(0, words);
    }
}
