//! Headers: the first word of an object or of a filler.
//!
//! Bits 0 to 31 are the size in words, header included; bits 32 to 55 are the number of references, which are the words
//! after the header; bits 56 to 63 are the kind.
ghost use Rattle.std.specs.Prelude.{◌≡◌, ◌+◌, ◌≤◌, ◌||◌, ◌==◌, nat_le, nat_lt, not};
ghost use Rattle.object_heap.specs.Header.{size_of, references_of, kind_of, filler_header};

/// The kind of an object.
pub const OBJECT: u8 = 1;

/// The kind of a filler.
pub const FILLER: u8 = 2;

/// The size of the object in words, header included.
#[inline]
pub fn size(header: u64) -> u32
    ensures { result ≡ size_of header }
{
    (header & 0xffff_ffff) as u32
}

/// The number of references of the object.
#[inline]
pub fn references(header: u64) -> u32
    ensures { result ≡ references_of header }
{
    (header >> 32 & 0xff_ffff) as u32
}

/// The kind: [`OBJECT`], [`FILLER`], or in an unsound header any other number.
#[inline]
pub fn kind(header: u64) -> u8
    ensures { result ≡ kind_of header }
{
    (header >> 56) as u8
}

/// The header of a filler of `size` words.
#[inline]
pub fn filler(size: u32) -> u64
    ensures { result ≡ filler_header size }
{
    u64::from(FILLER) << 56 | u64::from(size)
}

/// Whether this word at address `a` is not the header of an object that fits into a heap of `words` words.
#[inline]
pub fn is_unsound(word: u64, a: u64, words: u64) -> bool
    requires { a ≤ 68719476736 }
    ensures { result ≡ (not (kind_of word == 1) || (size_of word == 0)
        || nat_le (size_of word) (references_of word) || nat_lt words (a + size_of word)) }
{
    let length = size(word);
    kind(word) != OBJECT
        || length == 0
        || length <= references(word)
        || a + u64::from(length) > words
}
