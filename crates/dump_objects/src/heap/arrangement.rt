//! Assigns addresses to the objects of a dump.
ghost use Rattle.std.specs.Prelude.{◌≡◌, ◌≤◌};
ghost use Rattle.dump_objects.specs.Gaps.{gap_before, machine_words};

/// The widest gap between objects, in words, that is kept.
const WIDEST_GAP: u64 = 512;

/// Which gaps between objects are kept. Wider ones than 512 words never are.
#[derive(Clone, Copy, PartialEq, Eq)]
pub enum Gaps {
    /// All.
    Kept,
    /// All but those that may be padding, so that objects that touch in the machine touch.
    Packed,
    /// None.
    Dropped,
}

/// Assigns addresses to objects in the order of their ids.
#[derive(Clone, Copy)]
pub struct Arrangement {
    gaps: Gaps,
    /// The end of the last object.
    next: u64,
    /// The id that an object directly after the last one would have, by the size of the last one in the image.
    next_id: Option<u64>,
    /// How many words after the last object may be padding.
    padding: u64,
    /// How many gaps were dropped because they are too wide.
    dropped_gaps: u64,
}

impl Arrangement {
    ghost use Rattle.dump_objects.specs.declared.heap.arrangement.Gaps.TheVariants.{Packed};

    /// Before the first object.
    pub fn new(gaps: Gaps) -> Arrangement {
        Arrangement {
            gaps,
            next: 0,
            next_id: None,
            padding: 0,
            dropped_gaps: 0,
        }
    }

    /// Returns the address of the next object, which has this id and `words` words. After it up to `padding` words may be
    /// padding.
    pub fn place(&mut self, id: u64, words: u64, padding: u64) -> u64
        ensures touch { self.old.gaps ≡ Packed → gap_before self.old.next_id id ≤ self.old.padding → result ≡ self.old.next }
    {
        let gap = self.gap_before(id);
        match self.gaps {
            Gaps::Dropped => {}
            Gaps::Packed if gap <= self.padding => {}
            _ if gap > WIDEST_GAP => self.dropped_gaps = self.dropped_gaps.saturating_add(1),
            _ => self.next = self.next.saturating_add(gap),
        }
        let address = self.next;
        self.next = address.saturating_add(words);
        self.next_id = Some(id.saturating_add(words.saturating_mul(8)));
        self.padding = padding;
        address
    }

    /// How many words lie between the last object and one with this id.
    fn gap_before(&self, id: u64) -> u64
        ensures { result ≡ gap_before self.now.next_id id }
    {
        match self.next_id {
            Some(next_id) => id.saturating_sub(next_id) / 8,
            None => 0,
        }
    }

    /// The number of words of the objects and the gaps between them.
    pub fn words(&self) -> u64 {
        self.next
    }

    /// How many gaps were dropped because they are too wide.
    pub fn dropped_gaps(&self) -> u64 {
        self.dropped_gaps
    }
}

/// How many words an object has in the machine that has `words` words in an image, and then up to `padding` words of padding. The next
/// object is `distance` bytes away. Where more than padding is between, it counts as in the image.
pub fn machine_words(words: u64, padding: u64, distance: Option<u64>) -> u64
    ensures { result ≡ machine_words words padding distance }
{
    match distance {
        Some(bytes) if bytes / 8 <= words.saturating_add(padding) => bytes / 8,
        _ => words,
    }
}
