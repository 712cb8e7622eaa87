//! The words of a heap that belong to no object yet.
ghost use Rattle.std.specs.Prelude.{◌≡◌, ◌+◌, ◌<◌, ◌≤◌};

use crate::dice::Dice;

/// The numbers of words of a heap that belong to no object yet.
#[derive(Clone, Copy)]
pub(crate) struct Room {
    /// Those for live objects.
    pub(crate) live: u64,
    /// Those for dead objects.
    pub(crate) dead: u64,
    ghost few: { live + dead ≤ 68719476736 },
}

/// The size of an object, and whether it is live.
#[derive(Clone, Copy)]
pub(crate) struct Allotment {
    pub(crate) size: u64,
    pub(crate) is_live: bool,
    ghost some: { 1 ≤ size },
    ghost few: { size ≤ 512 },
}

impl Room {
    /// The number of all these words.
    pub(crate) fn words(&self) -> u64
        ensures value { result ≡ self.now.live + self.now.dead }
        ensures few { result ≤ 68719476736 }
    {
        self.live + self.dead
    }

    /// Draws the size of the next object, and whether it is live. The probability of a live one is the share of the
    /// words that are for live objects. The object is no larger than the words of its kind.
    pub(crate) fn take(&mut self, dice: &mut Dice) -> Allotment
        requires { 0 < self.old.live + self.old.dead }
        ensures { self.old.live + self.old.dead ≡ self.new.live + self.new.dead + result.size }
    {
        let is_live = dice.below(self.words()) < self.live;
        let wanted = dice.size();
        if is_live {
            let size = wanted.min(self.live);
            self.live -= size;
            Allotment { size, is_live }
        } else {
            let size = wanted.min(self.dead);
            self.dead -= size;
            Allotment { size, is_live }
        }
    }
}
