//! The numbers that say how a host lays out its objects.
ghost use Rattle.std.specs.Prelude.{◌≡◌, false, ◌<◌, ◌≤◌, ◌+◌, ◌*◌, ◌^◌, ℕ, None, ◌∷◌, ◌++◌, replicate};
ghost use Rattle.object_heap.specs.Layout.{ocaml, scheme48};
ghost use Rattle.object_coding.specs.ObjectLayout.{coding_of};
ghost use Rattle.object_coding.specs.LayoutFault.{layout_fault, is_field, is_narrow, knows_modes, reaches, clears_size, reads_back};

use crate::layout_fault::LayoutFault;

/// The mode of a type without references.
pub const NO_REFERENCES: u8 = 0;

/// The mode of a type whose words after the header are all references.
pub const ALL_REFERENCES: u8 = 1;

/// The mode of a type whose first words after the header are references, as many as the header says.
pub const FIRST_REFERENCES: u8 = 2;

/// How a host lays out its objects, as numbers that C hands over.
///
/// A header has three fields, each by its lowest bit and its number of bits: the size, the type, and the number of the
/// first references. The size is in units, of which a word has `2^size_unit`. An object has the whole words of
/// `size + size_more` units, header included. The word `base + 2^unit * a` leads to address `a`.
#[repr(C)]
#[derive(Clone, Copy)]
pub struct ObjectLayout {
    /// The lowest bit of the size.
    pub size_shift: u8,
    /// The number of bits of the size.
    pub size_bits: u8,
    /// The logarithm, to base 2, of the number of units in a word.
    pub size_unit: u8,
    /// The lowest bit of the type.
    pub type_shift: u8,
    /// The number of bits of the type, at most 8.
    pub type_bits: u8,
    /// The lowest bit of the number of the first references.
    pub first_shift: u8,
    /// The number of bits of the number of the first references.
    pub first_bits: u8,
    /// The logarithm, to base 2, of the distance from the word that leads to an address to that for the next: 3 for
    /// machine addresses.
    pub unit: u8,
    /// What is added to the size, in units: the header, and what rounds up to whole words.
    pub size_more: u64,
    /// The word that leads to address 0.
    pub base: u64,
    /// The header of a filler, with size 0.
    pub filler_tag: u64,
    /// How many units the size in a filler's header is below those of its words.
    pub filler_less: u64,
    /// Of each type, which of its words are references: [`NO_REFERENCES`], [`ALL_REFERENCES`] or [`FIRST_REFERENCES`].
    pub modes: [u8; 256],
}

impl ObjectLayout {
    /// The layout of OCaml, 4.14 or later, for a heap whose word 0 is at the machine address `start`.
    pub fn ocaml(start: u64) -> ObjectLayout
        requires { start + 8 < 2 ^ 64 }
        ensures value { (words : ℕ) → coding_of result words ≡ ocaml start words }
        ensures fits { (words : ℕ) → start + 8 + 8 * words ≤ 2 ^ 64 → layout_fault result words ≡ None }
    {
        ObjectLayout {
            size_shift: 10,
            size_bits: 54,
            size_unit: 0,
            type_shift: 0,
            type_bits: 8,
            first_shift: 0,
            first_bits: 0,
            unit: 3,
            size_more: 1,
            base: start + 8,
            filler_tag: 251,
            filler_less: 1,
            modes: ocaml_modes(),
        }
    }

    /// The layout of Scheme 48, for a heap whose word 0 is at the machine address `start`.
    pub fn scheme48(start: u64) -> ObjectLayout
        requires { start + 11 < 2 ^ 64 }
        ensures value { (words : ℕ) → coding_of result words ≡ scheme48 start words }
        ensures fits { (words : ℕ) → start + 11 + 8 * words ≤ 2 ^ 64 → layout_fault result words ≡ None }
    {
        ObjectLayout {
            size_shift: 8,
            size_bits: 56,
            size_unit: 3,
            type_shift: 2,
            type_bits: 5,
            first_shift: 0,
            first_bits: 0,
            unit: 3,
            size_more: 15,
            base: start + 11,
            filler_tag: 70,
            filler_less: 8,
            modes: scheme48_modes(),
        }
    }

    /// What is wrong with these numbers for a heap of this number of words, if anything is: of the faults the first.
    pub(crate) fn fault(&self, words: u64) -> Option<LayoutFault>
        requires { words ≤ 68719476736 }
        ensures { result ≡ layout_fault self.now words }
    {
        if !is_field(self.size_shift, self.size_bits) {
            return Some(LayoutFault::SizeField);
        }
        if self.is_narrow() {
            return Some(LayoutFault::NarrowSize);
        }
        if !is_field(self.type_shift, self.type_bits) || self.type_bits > 8 {
            return Some(LayoutFault::TypeField);
        }
        if !is_field(self.first_shift, self.first_bits) {
            return Some(LayoutFault::FirstField);
        }
        if !self.knows_modes() {
            return Some(LayoutFault::Mode);
        }
        if !self.reaches(words) {
            return Some(LayoutFault::Addresses);
        }
        if !self.clears_size() {
            return Some(LayoutFault::FillerTag);
        }
        if !self.reads_back() {
            return Some(LayoutFault::FillerSize);
        }
        None
    }

    /// Whether the size can't count the units of 2,147,483,648 words.
    #[tactic(auto, unfolding(crate::specs::LayoutFault::is_narrow))]
    fn is_narrow(&self) -> bool
        ensures value { result ≡ is_narrow self.now }
        ensures wide { result ≡ false → self.now.size_unit < self.now.size_bits }
    {
        u32::from(self.size_bits) <= u32::from(self.size_unit) + 31
    }

    /// Whether each mode is known.
    #[tactic(auto, unfolding(crate::specs::LayoutFault::knows_modes))]
    fn knows_modes(&self) -> bool
        ensures { result ≡ knows_modes self.now }
    {
        self.modes.iter().all(|mode| *mode <= FIRST_REFERENCES)
    }

    /// Whether the words that lead to addresses of a heap of this number of words end within 64 bits.
    #[tactic(auto, unfolding(crate::specs::LayoutFault::reaches))]
    fn reaches(&self, words: u64) -> bool
        requires { words ≤ 68719476736 }
        ensures { result ≡ reaches self.now words }
    {
        self.unit < 64 && u128::from(self.base) + (u128::from(words) << self.unit) <= 1 << 64
    }

    /// Whether the tag of a filler is 0 where the size is.
    #[tactic(auto, unfolding(crate::specs::LayoutFault::clears_size))]
    fn clears_size(&self) -> bool
        requires shift { self.now.size_shift < 64 }
        requires bits { self.now.size_bits < 64 }
        ensures { result ≡ clears_size self.now }
    {
        self.filler_tag >> self.size_shift & ((1 << self.size_bits) - 1) == 0
    }

    /// Whether the size of a filler, with what it lacks, reads back.
    #[tactic(auto, unfolding(crate::specs::LayoutFault::reads_back))]
    fn reads_back(&self) -> bool
        requires { self.now.size_unit < 64 }
        ensures { result ≡ reads_back self.now }
    {
        let word_units = 1 << self.size_unit;
        self.filler_less <= self.size_more
            && self.size_more - self.filler_less < word_units
            && self.filler_less <= word_units
    }
}

/// Whether these bits from this one on lie in a header.
fn is_field(shift: u8, bits: u8) -> bool
    ensures { result ≡ is_field shift bits }
{
    shift < 64 && bits < 64 && shift + bits <= 64
}

/// The modes of OCaml's tags: from 251 on no word is a reference.
fn ocaml_modes() -> [u8; 256]
    ensures { result ≡ replicate 251 1 ++ replicate 5 0 }
{
    let mut modes = [NO_REFERENCES; 256];
    modes[..251].copy_from_slice(&[ALL_REFERENCES; 251]);
    modes
}

/// The modes of Scheme 48's types: no word of a weak pointer is a reference, nor any from type 16 on.
fn scheme48_modes() -> [u8; 256]
    ensures { result ≡ replicate 13 1 ++ (0 ∷ replicate 2 1) ++ replicate 240 0 }
{
    const WEAK_POINTER: usize = 13;
    let mut modes = [NO_REFERENCES; 256];
    modes[..16].copy_from_slice(&[ALL_REFERENCES; 16]);
    modes[WEAK_POINTER] = NO_REFERENCES;
    modes
}
