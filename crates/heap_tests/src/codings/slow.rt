//! What a layout says, computed in the plainest way.
ghost use Rattle.std.specs.Prelude.{◌<◌, ◌≤◌};

use object_coding::{ALL_REFERENCES, NO_REFERENCES, ObjectCoding, ObjectLayout};

/// The layout of a heap with this number of words, slow to read.
#[derive(Drop)]
pub struct SlowCoding {
    pub layout: ObjectLayout,
    pub words: u64,
}

impl SlowCoding {
    /// The size in words of the object with this header.
    fn size(&self, header: u64) -> u128 {
        let units = field(header, self.layout.size_shift, self.layout.size_bits);
        let all = u128::from(units) + u128::from(self.layout.size_more);
        all / power(self.layout.size_unit)
    }

    /// The number of references of the object with this header.
    fn references(&self, header: u64) -> u128 {
        let kind = field(header, self.layout.type_shift, self.layout.type_bits);
        match self.layout.modes[(kind % 256) as usize] {
            NO_REFERENCES => 0,
            ALL_REFERENCES => self.size(header).saturating_sub(1),
            _ => u128::from(field(header, self.layout.first_shift, self.layout.first_bits)),
        }
    }

    /// The word that leads to address `a`.
    fn word_to(&self, a: u64) -> u128 {
        let distance = u128::from(a).saturating_mul(power(self.layout.unit));
        distance.saturating_add(u128::from(self.layout.base))
    }

    /// 1 plus the address to which a word leads, or 0 if it leads nowhere.
    fn reference(&self, word: u64) -> u64 {
        for a in 0..self.words {
            if self.word_to(a) == u128::from(word) {
                return a.saturating_add(1);
            }
        }
        0
    }

    /// The word in place of `word` that leads where `reference` does.
    fn redirected(&self, word: u64, reference: u64) -> u128 {
        if self.reference(word) == 0 {
            u128::from(word)
        } else {
            self.word_to(reference.saturating_sub(1))
        }
    }

    /// Whether a header says the same of its object by this coding.
    pub fn reads(&self, coding: &ObjectCoding, header: u64) -> bool {
        u128::from(coding.size(header)) == self.size(header)
            && u128::from(coding.references(header)) == self.references(header)
    }

    /// Whether a word leads to the same address by this coding.
    pub fn leads(&self, coding: &ObjectCoding, word: u64) -> bool {
        coding.reference(word) == self.reference(word)
    }

    /// Whether a word is redirected to the same one by this coding.
    pub fn redirects(&self, coding: &ObjectCoding, word: u64, reference: u64) -> bool
        requires { reference ≤ coding.now.count }
    {
        u128::from(coding.redirected(word, reference)) == self.redirected(word, reference)
    }

    /// Whether a word is unsound at address `a` by this coding exactly if it is so here.
    pub fn judges(&self, coding: &ObjectCoding, word: u64, a: u64) -> bool
        requires { a ≤ 68719476736 }
    {
        let size = self.size(word);
        let ends = u128::from(a).saturating_add(size) <= u128::from(self.words);
        let is_sound = size > self.references(word) && ends;
        coding.is_unsound(word, a) != is_sound
    }

    /// Whether a filler of this size has it, and is else like its tag.
    pub fn fills(&self, coding: &ObjectCoding, size: u64) -> bool
        requires { size ≤ 2147483648 }
    {
        let filler = coding.filler(size);
        let changed = filler ^ self.layout.filler_tag;
        let units = field(changed, self.layout.size_shift, self.layout.size_bits);
        let is_inside = changed.count_ones() == units.count_ones();
        is_inside && self.size(filler) == u128::from(size)
    }
}

/// 2 to this power.
fn power(exponent: u8) -> u128
    ensures { 0 < result }
{
    let mut power: u128 = 1;
    for _ in 0..exponent {
        power = power.saturating_mul(2);
    }
    power.max(1)
}

/// These bits of a word, one after the other from the highest on.
fn field(word: u64, shift: u8, bits: u8) -> u64 {
    let mut value: u64 = 0;
    for k in 0..u32::from(bits) {
        let bit = u32::from(shift) + u32::from(bits) - 1 - k;
        let is_set = bit < 64 && word >> bit & 1 == 1;
        value = value.wrapping_mul(2).wrapping_add(u64::from(is_set));
    }
    value
}
