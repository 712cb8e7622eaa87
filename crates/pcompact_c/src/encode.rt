//! The bytes of the image of a heap.
ghost use Rattle.std.specs.Prelude.{◌≡◌, ◌<◌, ◌≤◌, ◌+◌, ◌*◌, ◌-◌, ◌^◌, ◌++◌, length, drop, min};
ghost use Rattle.object_heap.specs.Version.{IsForRoots};
ghost use Rattle.object_heap.specs.declared.version.Version.{Version};
ghost use Rattle.object_heap.specs.declared.version.Version.TheVariants.{One};
ghost use Rattle.caller_heap.specs.HeapWords.{heap_bytes, image_size};

use byteorder::{ByteOrder, LittleEndian};
use caller_heap::{HeapSettings, front_of};
use heap_image::{FRONT_BYTES, Version};

/// Writes the bytes of the image of version 1 with these words and live addresses. The bytes after them stay. Without room
/// for all of them nothing is written.
///
/// Returns their number, 32 and 8 for each word and live address, or the largest number if it is larger. The heap isn't
/// checked: [`pcompact_check`](crate::decode::pcompact_check) tells whether the bytes are those of a valid image.
#[unsafe(no_mangle)]
pub extern "C" fn pcompact_encode(
    words: &[u64],
    live: &[u64],
    settings: HeapSettings,
    bytes: &mut [u8],
) -> usize
    ensures size { result ≡ min (image_size words.now live.now) (2 ^ 64 - 1) }
    ensures written { image_size words.now live.now ≤ length bytes.old
        → bytes.new ≡ heap_bytes One settings words.now live.now ++ drop (image_size words.now live.now) bytes.old }
    ensures kept { length bytes.old < image_size words.now live.now → bytes.new ≡ bytes.old }
{
    put_heap(Version::One, settings, words, live, bytes)
}

/// As [`pcompact_encode`], with roots in place of the live addresses. The image is of version 2 if that allows these sizes,
/// otherwise of version 3.
#[unsafe(no_mangle)]
pub extern "C" fn pcompact_encode_rooted(
    words: &[u64],
    roots: &[u64],
    settings: HeapSettings,
    bytes: &mut [u8],
) -> usize
    ensures size { result ≡ min (image_size words.now roots.now) (2 ^ 64 - 1) }
    ensures written { image_size words.now roots.now ≤ length bytes.old
        → (version : Version) × IsForRoots settings.region_log (length words.now) version
        × (bytes.new ≡ heap_bytes version settings words.now roots.now ++ drop (image_size words.now roots.now) bytes.old) }
    ensures kept { length bytes.old < image_size words.now roots.now → bytes.new ≡ bytes.old }
{
    let version = Version::for_roots(settings.region_log, words.len() as u64);
    put_heap(version, settings, words, roots, bytes)
}

/// Writes the bytes of the image of a heap with these words and, in version 1, live addresses, otherwise roots. The bytes
/// after them stay. Without room for all of them nothing is written.
///
/// Returns their number, or the largest number if it is larger.
fn put_heap(
    version: Version,
    settings: HeapSettings,
    words: &[u64],
    tail: &[u64],
    bytes: &mut [u8],
) -> usize
    ensures size { result ≡ min (image_size words.now tail.now) (2 ^ 64 - 1) }
    ensures written { image_size words.now tail.now ≤ length bytes.old
        → bytes.new ≡ heap_bytes version settings words.now tail.now ++ drop (image_size words.now tail.now) bytes.old }
    ensures kept { length bytes.old < image_size words.now tail.now → bytes.new ≡ bytes.old }
{
    let size = size_of_image(words.len(), tail.len());
    if size < usize::MAX && size <= bytes.len() {
        let (front, _rest) = bytes.split_at_mut(size);
        write_heap(version, settings, words, tail, front);
    }
    size
}

/// The number of bytes of an image, or the largest number if it is larger.
fn size_of_image(words: usize, numbers: usize) -> usize
    ensures { result ≡ min (32 + 8 * (words + numbers)) (2 ^ 64 - 1) }
{
    words
        .saturating_add(numbers)
        .saturating_mul(8)
        .saturating_add(FRONT_BYTES)
}

/// Writes the bytes of the image of a heap over as many bytes.
fn write_heap(
    version: Version,
    settings: HeapSettings,
    words: &[u64],
    tail: &[u64],
    bytes: &mut [u8],
)
    requires { length bytes.old ≡ image_size words.now tail.now }
    ensures { bytes.new ≡ heap_bytes version settings words.now tail.now }
{
    let (front, body) = bytes.split_at_mut(FRONT_BYTES);
    front.copy_from_slice(&front_of(version, settings, words.len(), tail.len()));
    let (of_words, of_tail) = body.split_at_mut(8 * words.len());
    LittleEndian::write_u64_into(words, of_words);
    LittleEndian::write_u64_into(tail, of_tail);
}
