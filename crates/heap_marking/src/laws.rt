//! Laws of marks, for callers' proofs, which have no other way to them. A function here does nothing: its contract is a
//! law.
ghost use Rattle.std.specs.Prelude.{◌≡◌, ◌*◌, ◌≤◌, ℕ, List, false, filter, length};
ghost use Rattle.std.specs.List.{range_with_len};
ghost use Rattle.object_heap.specs.Bits.{addresses_of, has};

/// Where no bit from `size` on is set, the addresses of the set are those below `size` that are in it.
#[inline]
pub fn marks_are_listed()
    ensures { (words : List ℕ) (size : ℕ) → size ≤ 64 * length words → ((a : ℕ) → size ≤ a → has words a ≡ false)
        → addresses_of words ≡ filter (has words) (range_with_len 0 size) }
{}
