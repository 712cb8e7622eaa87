//! The words of an imported image that belong to no live object.
ghost use Rattle.std.specs.Prelude.{◌≡◌, ◌+◌, if◌then◌else◌, nat_le};
ghost use Rattle.heap_dump.specs.Totals.{AreDeadWords, held};

use crate::listing::ListedObject;
use crate::listing::class_names::ClassNames;
use crate::totals::Totals;

/// What the words of an imported image are that belong to no live object. What a `u64` cannot hold is [`u64::MAX`].
#[derive(Clone, Copy)]
pub struct DeadWords {
    /// The words of dead objects.
    pub objects: u64,
    /// The words of narrow gaps, which the machine needs for larger headers and for alignment.
    pub padding: u64,
    /// The words of wider gaps: free space, or objects that the dump leaves out.
    pub gaps: u64,
    /// The words after the last object.
    pub end: u64,
}

impl DeadWords {
    /// All of them.
    pub fn words(&self) -> u64
        ensures { result ≡ held (held (held (self.now.objects + self.now.padding) + self.now.gaps) + self.now.end) }
    {
        self.objects
            .saturating_add(self.padding)
            .saturating_add(self.gaps)
            .saturating_add(self.end)
    }

    /// Sums the dead words of an image of `words` words with these objects.
    pub(crate) fn of(objects: &[ListedObject], names: &ClassNames, words: u64) -> DeadWords
        ensures { AreDeadWords names.now objects.now words result }
    {
        let (mut end, mut most) = (0u64, 0u64);
        let (mut padding, mut gaps) = (0u64, 0u64);
        for object in objects {
            let gap = object.address.saturating_sub(end);
            let (narrow, wide) = parted(gap, most);
            padding = padding.saturating_add(narrow);
            gaps = gaps.saturating_add(wide);
            end = object.address.saturating_add(object.words);
            most = names.most_padding(object.class);
        }
        DeadWords {
            objects: Totals::of(objects).dead_words,
            padding,
            gaps,
            end: words.saturating_sub(end),
        }
    }
}

/// A gap as padding and as a wider gap, where `most` words may be padding. One of the two is 0.
fn parted(gap: u64, most: u64) -> (u64, u64)
    ensures padding { result.0 ≡ if nat_le gap most then gap else 0 }
    ensures wider { result.1 ≡ if nat_le gap most then 0 else gap }
{
    if gap <= most { (gap, 0) } else { (0, gap) }
}
