//! A set of addresses, as a bitmap.
ghost use Rattle.std.specs.Prelude.{◌≡◌, ℕ, ◌+◌, ◌-◌, ◌*◌, ◌/◌, ◌%◌, ◌^◌, ◌<◌, ◌≤◌, ◌==◌, ◌||◌, ◌&&◌, nat_le, nat_lt, ◌++◌, length, replicate, take, drop, All, slice_index, slice_set, count_by, count_ones, position, not, IfOk, IsTrue, MatchOption};
ghost use Rattle.std.specs.Int.{bit_at};
ghost use Rattle.std.specs.List.{range_with_len, list_any};
ghost use Rattle.object_heap.specs.Bits.{has, room, IsLowestBit, NoneFrom, IsFirstFrom, NoneBetween, IsFirstBetween, IsHighestBit, NoneBelow, IsLastBelow, IsLastWord};

use std::alloc::{AllocError, Global};
use std::marker::Model;

/// A set of addresses, with one bit for each: address `i` is bit `i % 64` of word `i / 64`.
///
/// A contract sees the words; `has` says whether an address is in the set.
#[derive(Drop)]
pub struct Bits {
    words: Vec<u64>,
}

impl Model for Bits {
    ghost use Rattle.std.specs.Prelude.{List, ℕ};

    ghost Value = { List ℕ };

    ghost view = { λ b. b.words.items };
}

impl Bits {
    /// The empty set, with room for the addresses up to and including `len`.
    pub fn new(alloc: Global, len: u64) -> Result<Bits, AllocError>
        ensures { IfOk result (λ bits. bits ≡ replicate (len / 64 + 1) 0) }
    {
        let words = vec![in alloc; 0; (len / 64 + 1) as usize]?;
        Ok(Bits { words })
    }

    /// The set with these words as bits.
    pub fn from_words(words: Vec<u64>) -> Bits
        ensures { result ≡ words.items }
    {
        Bits { words }
    }

    /// The set of these addresses, with room for those up to and including `len`.
    pub fn of(alloc: Global, addresses: &[u64], len: u64) -> Result<Bits, AllocError>
        requires { All (λ a. a < len) addresses.now }
        ensures room { IfOk result (λ bits. length bits ≡ len / 64 + 1) }
        ensures bits { IfOk result (λ bits. (k : ℕ) → has bits k ≡ list_any (λ a. a == k) addresses.now) }
    {
        let mut bits = Bits::new(alloc, len)?;
        bits.insert_all(addresses);
        Ok(bits)
    }

    /// Copies the set.
    pub fn copy(&self, alloc: Global) -> Result<Bits, AllocError>
        ensures { IfOk result (λ bits. bits ≡ self.now) }
    {
        let mut words = Vec::with_capacity(alloc, self.words.len())?;
        words.extend_from_slice(self.words.as_slice())?;
        Ok(Bits { words })
    }

    /// Whether address `i` is in the set. An address outside its room is not.
    #[inline]
    pub fn contains(&self, i: u64) -> bool
        ensures { result ≡ has self.now i }
    {
        match self.words.get((i / 64) as usize) {
            Some(word) => (*word >> (i % 64)) & 1 == 1,
            None => false,
        }
    }

    /// Whether address `i`, which is within the room, is in the set.
    #[inline]
    pub fn has(&self, i: u64) -> bool
        requires { i < room self.now }
        ensures { result ≡ has self.now i }
    {
        (self.words[(i / 64) as usize] >> (i % 64)) & 1 == 1
    }

    /// Inserts address `i`.
    #[inline]
    pub fn insert(&mut self, i: u64)
        requires { i < room self.old }
        ensures room { length self.new ≡ length self.old }
        ensures bits { (k : ℕ) → has self.new k ≡ (has self.old k || i == k) }
    {
        self.words[(i / 64) as usize] |= 1 << (i % 64);
    }

    /// Inserts these addresses.
    pub fn insert_all(&mut self, addresses: &[u64])
        requires { All (λ a. a < room self.old) addresses.now }
        ensures room { length self.new ≡ length self.old }
        ensures bits { (k : ℕ) → has self.new k ≡ (has self.old k || list_any (λ a. a == k) addresses.now) }
    {
        for &address in addresses {
            self.insert(address);
        }
    }

    /// The word with index `i`.
    #[inline]
    pub fn word(&self, i: usize) -> u64
        requires { i < length self.now }
        ensures { result ≡ slice_index self.now i }
    {
        let words = self.words.as_slice();
        words[i]
    }

    /// Replaces the word with index `i`.
    #[inline]
    pub fn set_word(&mut self, i: usize, word: u64)
        requires { i < length self.old }
        ensures { self.new ≡ slice_set self.old i word }
    {
        self.words[i] = word;
    }

    /// The least address of the set from `from` on.
    pub fn next(&self, from: u64) -> Option<u64>
        requires { room self.now < 2 ^ 64 }
        ensures { MatchOption result (NoneFrom (has self.now) from) (IsFirstFrom (has self.now) from) }
    {
        first_in(self.words.as_slice(), from)
    }

    /// The least address of the set from `from` on that is below `to`. Words after `to` are not read.
    pub fn next_before(&self, from: u64, to: u64) -> Option<u64>
        requires { room self.now < 2 ^ 64 }
        ensures { MatchOption result (NoneBetween (has self.now) from to) (IsFirstBetween (has self.now) from to) }
    {
        let first = first_in(self.words_below(to), from)?;
        if first < to { Some(first) } else { None }
    }

    /// The least address from `from` on and below `to` that is not in the set. Words after `to` are not read.
    pub fn next_absent_before(&self, from: u64, to: u64) -> Option<u64>
        requires { room self.now < 2 ^ 64 }
        ensures { MatchOption result (NoneBetween (λ k. not (has self.now k)) from to) (IsFirstBetween (λ k. not (has self.now k)) from to) }
    {
        let first = first_not_in(self.words_below(to), from);
        if first < to { Some(first) } else { None }
    }

    /// The greatest address of the set that is below `limit`. Words after `limit` are not read.
    pub fn last_below(&self, limit: u64) -> Option<u64>
        requires { limit < room self.now }
        ensures { MatchOption result (NoneBelow (has self.now) limit) (IsLastBelow (has self.now) limit) }
    {
        last_in(self.words.as_slice(), limit)
    }

    /// All words.
    #[inline]
    pub fn words(&self) -> &[u64]
        ensures { result.now ≡ self.now }
    {
        self.words.as_slice()
    }

    /// The words with the bits of the addresses below `to`.
    #[inline]
    pub fn words_below(&self, to: u64) -> &[u64]
        ensures { result.now ≡ take ((to + 63) / 64) self.now }
    {
        let count = self.words.len().min(to.div_ceil(64) as usize);
        &self.words[..count]
    }

    /// The number of addresses of the set from `from` up to but excluding `to`.
    #[inline]
    pub fn count(&self, from: u64, to: u64) -> u64
        requires ordered { from ≤ to }
        requires inside { to < room self.now }
        ensures { result ≡ count_by (has self.now) (range_with_len from (to - from)) }
    {
        let first = (from / 64) as usize;
        let last = (to / 64) as usize;
        let whole = ones_of(&self.words[first..last]);
        whole + self.count_below(to) - self.count_below(from)
    }

    /// The number of addresses of the set that are below `i` and in the same word.
    #[inline]
    fn count_below(&self, i: u64) -> u64
        requires { i < room self.now }
        ensures { result ≡ count_by (has self.now) (range_with_len (i - i % 64) (i % 64)) }
    {
        let below = (1 << (i % 64)) - 1;
        ones(self.words[(i / 64) as usize] & below)
    }
}

/// The least address from `from` on that is in the set of these words.
fn first_in(words: &[u64], from: u64) -> Option<u64>
    requires { room words.now < 2 ^ 64 }
    ensures { MatchOption result (NoneFrom (has words.now) from) (IsFirstFrom (has words.now) from) }
{
    let start = (from / 64) as usize;
    let rest = *words.get(start)? & (u64::MAX << (from % 64));
    if rest != 0 {
        return Some(64 * start as u64 + lowest(rest));
    }
    let behind = &words[start + 1..];
    let i = first_nonzero(behind)?;
    Some(64 * (start + 1 + i) as u64 + lowest(behind[i]))
}

/// The least address from `from` on that is not in the set of these words.
fn first_not_in(words: &[u64], from: u64) -> u64
    requires { room words.now < 2 ^ 64 }
    ensures { IsFirstFrom (λ k. not (has words.now k)) from result }
{
    let start = (from / 64) as usize;
    let Some(word) = words.get(start) else {
        return from;
    };
    let rest = complement(*word) & (u64::MAX << (from % 64));
    if rest != 0 {
        return 64 * start as u64 + lowest(rest);
    }
    let behind = &words[start + 1..];
    match first_not_full(behind) {
        Some(i) => 64 * (start + 1 + i) as u64 + lowest(complement(behind[i])),
        None => 64 * words.len() as u64,
    }
}

/// The greatest address below `limit` that is in the set of these words.
fn last_in(words: &[u64], limit: u64) -> Option<u64>
    requires { limit < room words.now }
    ensures { MatchOption result (NoneBelow (has words.now) limit) (IsLastBelow (has words.now) limit) }
{
    let start = (limit / 64) as usize;
    let rest = words[start] & ((1 << (limit % 64)) - 1);
    if rest != 0 {
        return Some(64 * start as u64 + highest(rest));
    }
    let before = &words[..start];
    let i = last_nonzero(before)?;
    Some(64 * i as u64 + highest(before[i]))
}

/// The index of the last word with a bit that is set.
fn last_nonzero(words: &[u64]) -> Option<usize>
    ensures { MatchOption result (All (λ word. word ≡ 0) words.now) (IsLastWord words.now) }
{
    let mut end = words.len();
    while end > 0 {
        end -= 1;
        if words[end] != 0 {
            return Some(end);
        }
    }
    None
}

fn first_nonzero(words: &[u64]) -> Option<usize>
    ensures { result ≡ position (λ word. not (word == 0)) words.now }
{
    words.iter().position(|word| *word != 0)
}

/// The bits that are not set in a word.
#[inline]
fn complement(word: u64) -> u64
    ensures bits { (j : ℕ) → j < 64 → bit_at result j ≡ 1 - bit_at word j }
    ensures some { (word ≡ 2 ^ 64 - 1 → ⊥) → 0 < result }
{
    !word
}

/// The index of the first word with a bit that is not set.
fn first_not_full(words: &[u64]) -> Option<usize>
    ensures { result ≡ position (λ word. not (word == 2 ^ 64 - 1)) words.now }
{
    words.iter().position(|word| *word != u64::MAX)
}

/// The index of the lowest bit that is set in a word.
#[inline]
fn lowest(word: u64) -> u64
    requires { 0 < word }
    ensures { IsLowestBit word result }
{
    u64::from(word.trailing_zeros())
}

/// The index of the highest bit that is set in a word.
#[inline]
fn highest(word: u64) -> u64
    requires { 0 < word }
    ensures { IsHighestBit word result }
{
    u64::from(word.ilog2())
}

/// The number of bits that are set in these words.
pub fn ones_of(words: &[u64]) -> u64
    requires { length words.now < 2 ^ 58 }
    ensures { result ≡ count_by (has words.now) (range_with_len 0 (64 * length words.now)) }
{
    let mut count = 0;
    for word in words {
        count += ones(*word);
    }
    count
}

/// The number of bits that are set in a word.
#[inline]
fn ones(word: u64) -> u64
    ensures value { result ≡ count_ones (word % 2 ^ 64) }
    ensures few { result ≤ 64 }
{
    u64::from(word.count_ones())
}
