//! Inserts addresses into a part of a larger bit set.
ghost use Rattle.std.specs.Prelude.{◌≡◌, ℕ, ◌+◌, ◌<◌, ◌==◌, ◌||◌, ◌^◌, length};
ghost use Rattle.std.specs.List.{list_any};
ghost use Rattle.object_heap.specs.Bits.{has, room};

use heap_image::inserted_bit;

/// Inserts the addresses that lie within this part of a bit set. The first bit of the part is for the address `start`.
pub(crate) fn insert_within(words: &mut [u64], start: u64, addresses: &[u64])
    requires { start + room words.old < 2 ^ 64 }
    ensures room { length words.new ≡ length words.old }
    ensures bits { (k : ℕ) → k < room words.old
        → has words.new k ≡ (has words.old k || list_any (λ a. a == start + k) addresses.now) }
{
    for &address in addresses {
        insert_if_within(words, start, address);
    }
}

/// Inserts an address if it lies within this part of a bit set.
#[inline]
fn insert_if_within(words: &mut [u64], start: u64, address: u64)
    requires { start + room words.old < 2 ^ 64 }
    ensures room { length words.new ≡ length words.old }
    ensures bits { (k : ℕ) → k < room words.old → has words.new k ≡ (has words.old k || address == start + k) }
{
    let i = address.wrapping_sub(start);
    if i < 64 * words.len() as u64 {
        insert(words, i);
    }
}

/// Sets bit `i` of these words.
#[inline]
fn insert(words: &mut [u64], i: u64)
    requires { i < room words.old }
    ensures room { length words.new ≡ length words.old }
    ensures bits { (k : ℕ) → has words.new k ≡ (has words.old k || i == k) }
{
    inserted_bit();
    words[(i / 64) as usize] |= 1 << (i % 64);
}
