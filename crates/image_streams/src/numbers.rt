//! Little-endian numbers.
ghost use Rattle.std.specs.Prelude.{◌≡◌, ◌≤◌, ◌+◌, ◌*◌, length};
ghost use Rattle.image_streams.specs.Numbers.{numbers, u32_at, u64_at};

pub(crate) mod incoming;
pub(crate) mod outgoing;

use byteorder::{ByteOrder, LittleEndian};

/// The 32-bit number at an offset.
pub fn u32_at(bytes: &[u8], offset: usize) -> u32
    requires { offset + 4 ≤ length bytes.now }
    ensures { result ≡ u32_at bytes.now offset }
{
    LittleEndian::read_u32(&bytes[offset..offset + 4])
}

/// The 64-bit number at an offset.
pub fn u64_at(bytes: &[u8], offset: usize) -> u64
    requires { offset + 8 ≤ length bytes.now }
    ensures { result ≡ u64_at bytes.now offset }
{
    LittleEndian::read_u64(&bytes[offset..offset + 8])
}

/// Decodes 64-bit numbers, 8 bytes each, from all of the bytes.
pub(crate) fn read_all(bytes: &[u8], words: &mut [u64])
    requires { length bytes.now ≡ 8 * length words.old }
    ensures { numbers words.new ≡ bytes.now }
{
    LittleEndian::read_u64_into(bytes, words);
}

/// Encodes 64-bit numbers as 8 bytes each.
pub(crate) fn write_all(words: &[u64], bytes: &mut [u8])
    requires { length bytes.old ≡ 8 * length words.now }
    ensures { bytes.new ≡ numbers words.now }
{
    LittleEndian::write_u64_into(words, bytes);
}
