//! `Ranks`: how many bits are set before each word of a list.

ghost use Rattle.std.specs.Prelude.{◌≡◌, ℕ, ◌<◌, ◌^◌, ◌%◌, ◌++◌, ◌∷◌, [], length, map, slice_index, IfOk};
ghost use Rattle.std.specs.List.{range_with_len};
ghost use Rattle.summary.specs.Ranks.{ones_from};

use heap_image::Bits;
use std::alloc::{AllocError, Global};
use std::marker::Model;

/// The number of words of a block: the most by which a rank exceeds that of its block fits 16 bits.
const BLOCK: usize = 1_024;

/// For each word of a list, a first number plus the number of bits set in all words before it.
///
/// A contract sees the list of these numbers.
#[derive(Drop)]
pub(crate) struct Ranks {
    /// The ranks of each block's first word.
    starts: Vec<u64>,
    /// By how much each word's rank exceeds that of its block's first.
    steps: Vec<u16>,
}

impl Model for Ranks {
    ghost use Rattle.std.specs.Prelude.{ℕ, List};
    ghost use Rattle.summary.specs.Ranks.{AreRanks, ranks_of};

    ghost Value = { List ℕ };

    ghost view = { λ r. ranks_of r.starts.items r.steps.items };

    ghost invariant = { λ r. AreRanks r.starts.items r.steps.items };
}

impl Ranks {
    /// Counts the bits of these words, on from a first number. Allocates about 2 bytes for each word.
    pub(crate) fn of(
        alloc: Global,
        bits: &Bits,
        words: usize,
        first: u64,
    ) -> Result<Ranks, AllocError>
        requires words { words ≡ length bits.now }
        requires few { words < 2 ^ 56 }
        requires small { first < 2 ^ 62 }
        ensures { IfOk result (λ ranks. ranks ≡ map (ones_from first bits.now) (range_with_len 0 words)) }
    {
        let mut starts = Vec::with_capacity(alloc, words / BLOCK + 1)?;
        let mut steps = Vec::with_capacity(alloc, words)?;
        let mut start = first;
        let mut rank = first;
        for i in 0..words {
            start = start_of(&mut starts, i, start, rank)?;
            steps.push((rank - start) as u16)?;
            rank += u64::from(bits.word(i).count_ones());
        }
        Ok(Ranks { starts, steps })
    }

    /// The same numbers, borrowed.
    #[inline]
    pub(crate) fn as_slices(&self) -> RankSlices<'_>
        ensures { result ≡ self.now }
    {
        RankSlices {
            starts: self.starts.as_slice(),
            steps: self.steps.as_slice(),
        }
    }
}

/// Borrowed [`Ranks`]: who reads many of them looks their lists up once.
///
/// A contract sees the list of these numbers.
#[derive(Drop)]
pub(crate) struct RankSlices<'a> {
    starts: &'a [u64],
    steps: &'a [u16],
}

impl<'a> Model for RankSlices<'a> {
    ghost use Rattle.std.specs.Prelude.{ℕ, List};
    ghost use Rattle.summary.specs.Ranks.{AreRanks, ranks_of};

    ghost Value = { List ℕ };

    ghost view = { λ r. ranks_of r.starts.now r.steps.now };

    ghost invariant = { λ r. AreRanks r.starts.now r.steps.now };
}

impl RankSlices<'_> {
    /// The first number plus the number of bits set in all words before word `i`.
    #[inline]
    pub(crate) fn get(&self, i: usize) -> u64
        requires { i < length self.now }
        ensures { result ≡ slice_index self.now i }
    {
        self.starts[i / BLOCK] + u64::from(self.steps[i])
    }
}

/// The rank of the first word of the block of word `i`, which becomes the last of `starts` where `i` begins a block:
/// otherwise `start`, which is that of the word before.
fn start_of(starts: &mut Vec<u64>, i: usize, start: u64, rank: u64) -> Result<u64, AllocError>
    ensures first { i % 1024 ≡ 0 → IfOk result (λ found. (found ≡ rank)
        × (starts.new.items ≡ starts.old.items ++ rank ∷ [])) }
    ensures others { 0 < i % 1024 → IfOk result (λ found. (found ≡ start) × (starts.new.items ≡ starts.old.items)) }
{
    if i % BLOCK > 0 {
        return Ok(start);
    }
    starts.push(rank)?;
    Ok(rank)
}
