//! The words of two hosts, read and written in the plainest way.
use object_coding::ObjectLayout;

/// Where word 0 lies.
pub const START: u64 = 0x7f00_0000_1000;

/// Whose objects a heap has.
#[derive(Clone, Copy, PartialEq, Eq, Debug)]
pub enum Host {
    OCaml,
    Scheme48,
}

impl Host {
    /// The numbers of the host.
    pub fn layout(self) -> ObjectLayout {
        match self {
            Host::OCaml => ObjectLayout::ocaml(START),
            Host::Scheme48 => ObjectLayout::scheme48(START),
        }
    }

    /// The header of an object of `size` words. All words after it are references, or none is.
    pub fn header(self, size: u64, has_references: bool) -> u64 {
        let fields = size.saturating_sub(1);
        match (self, has_references) {
            (Host::OCaml, true) => fields.wrapping_mul(1024),
            (Host::OCaml, false) => fields.wrapping_mul(1024) | 252,
            (Host::Scheme48, true) => fields.wrapping_mul(2048) | 2,
            (Host::Scheme48, false) => fields.wrapping_mul(2048) | 70,
        }
    }

    /// The size in words of the object with this header.
    pub fn size(self, header: u64) -> u64 {
        match self {
            Host::OCaml => header / 1024 + 1,
            Host::Scheme48 => (header / 256 + 15) / 8,
        }
    }

    /// Whether the words after this header are references.
    pub fn has_references(self, header: u64) -> bool {
        match self {
            Host::OCaml => header % 256 < 251,
            Host::Scheme48 => header / 4 % 32 < 16 && header / 4 % 32 != 13,
        }
    }

    /// The word that leads to address `a`.
    pub fn word_to(self, a: u64) -> u64 {
        let first_field = START.wrapping_add(8).wrapping_add(a.wrapping_mul(8));
        match self {
            Host::OCaml => first_field,
            Host::Scheme48 => first_field.wrapping_add(3),
        }
    }

    /// The address below `words` to which a word leads.
    pub fn target(self, word: u64, words: u64) -> Option<u64> {
        for a in 0..words {
            if self.word_to(a) == word {
                return Some(a);
            }
        }
        None
    }
}
