//! Makes a live list of mark bits, in one thread or in parts by several.
ghost use Rattle.heap_marking.specs.LiveList.{IsRange, MayWrite, addresses_from};
ghost use Rattle.std.specs.Prelude.{◌≡◌, ◌<◌, ◌≤◌, ◌+◌, ◌^◌, ◌++◌, OnOk, IfOk, length, map, take};
ghost use Rattle.object_heap.specs.Bits.{addresses_between, addresses_of, ones_of};

use object_heap::{Bits, ones_of};
use std::alloc::{AllocError, Global};
use std::thread::{Threads, join_mut};
use thread_row::Many;

/// The least number of words of bits that are worth a thread.
const LEAST_WORDS: usize = 4_096;

/// The addresses of a set, ascending.
pub(crate) fn marked_addresses(alloc: Global, bits: &Bits) -> Result<Vec<u64>, AllocError>
    requires few { length bits.now < 2 ^ 58 }
    ensures { IfOk result (λ live. live.items ≡ addresses_of bits.now) }
{
    let words = bits.words();
    marked_between(alloc, words, 0, words.len())
}

/// Like [`marked_addresses`], in several threads if the set is large: each writes a part of the list, which is allocated
/// once.
pub(crate) fn list_in_threads<T: Threads + Sync>(
    alloc: Global,
    bits: &Bits,
    many: &Many<'_, T>,
) -> Result<Vec<u64>, AllocError>
    requires few { length bits.now < 2 ^ 58 }
    ensures { IfOk result (λ live. live.items ≡ addresses_of bits.now) }
{
    let words = bits.words();
    let count = many.most.min(words.len() / LEAST_WORDS);
    if count < 2 {
        return marked_addresses(alloc, bits);
    }
    let writer = ListWriter {
        words,
        share: words.len().div_ceil(count),
        threads: many.threads,
    };
    let mut live = vec![in alloc; 0u64; ones_between(words, 0, words.len())]?;
    writer.start(live.as_mut_slice());
    Ok(live)
}

/// What the threads share that write a list.
#[derive(Drop)]
struct ListWriter<'a, T: Threads + Sync> {
    words: &'a [u64],
    /// The number of words of bits whose addresses a thread writes.
    share: usize,
    threads: &'a T,
}

impl<T: Threads + Sync> ListWriter<'_, T> {
    /// Writes all addresses. An extra thread does nothing: the system delays the first one that the caller starts.
    fn start(&self, list: &mut [u64])
        requires { MayWrite self.now.words.now self.now.share 0 (length list.old) }
        ensures { list.new ≡ addresses_from self.now.words.now 0 }
    {
        let mut write = ||
            requires { MayWrite self.now.words.now self.now.share 0 (length list.now) }
            ensures { list.exit.now ≡ addresses_from self.entry.now.words.now 0 }
        { self.write(0, list) };
        join_mut(self.threads, &mut || {}, &mut write);
    }

    /// Writes the addresses of the words from index `first` on. Each share of words but the last gets a thread, which
    /// this one starts.
    #[cycle(parts)]
    fn write(&self, first: usize, list: &mut [u64])
        requires { MayWrite self.now.words.now self.now.share first (length list.old) }
        ensures { list.new ≡ addresses_from self.now.words.now first }
    {
        let words = self.words;
        let rest = words.len() - first;
        if rest <= self.share {
            write_between(words, first, words.len(), list);
            return;
        }
        let count = ones_between(words, first, first + self.share);
        let (low, high) = list.split_at_mut(count);
        self.write_both(first, low, high);
    }

    /// Writes the addresses of a share of words from index `first` on, in a new thread, and those of the words after it.
    #[cycle(parts)]
    fn write_both(&self, first: usize, low: &mut [u64], high: &mut [u64])
        requires low { length low.old ≡ length (addresses_between self.now.words.now first (first + self.now.share)) }
        requires high { MayWrite self.now.words.now self.now.share (first + self.now.share) (length high.old) }
        ensures low { low.new ≡ addresses_between self.now.words.now first (first + self.now.share) }
        ensures high { high.new ≡ addresses_from self.now.words.now (first + self.now.share) }
    {
        let words = self.words;
        let middle = first + self.share;
        let mut lower = ||
            requires { IsRange words.now first middle × (length low.now ≡ length (addresses_between words.now first middle)) }
            ensures { low.exit.now ≡ addresses_between words.entry.now first middle }
        { write_between(words, first, middle, low) };
        let mut upper = ||
            requires { MayWrite self.now.words.now self.now.share middle (length high.now) }
            ensures { high.exit.now ≡ addresses_from self.entry.now.words.now middle }
        { self.write(middle, high) };
        join_mut(self.threads, &mut lower, &mut upper);
    }
}

/// The number of addresses that [`marked_between`] lists.
fn ones_between(words: &[u64], first: usize, last: usize) -> usize
    requires { IsRange words.now first last }
    ensures { result ≡ length (addresses_between words.now first last) }
{
    ones_of(&words[first..last]) as usize
}

/// Writes the addresses that [`marked_between`] lists to a slice that has room for just these.
fn write_between(words: &[u64], first: usize, last: usize, list: &mut [u64])
    requires range { IsRange words.now first last }
    requires room { length list.old ≡ length (addresses_between words.now first last) }
    ensures { list.new ≡ addresses_between words.now first last }
{
    let mut next = 0;
    for index in first..last {
        next = write_ones(list, next, 64 * index as u64, words[index]);
    }
}

/// Writes the indices of the bits that are set in a word, ascending, each plus `base`, from index `first` of the list
/// on. Returns the index after them.
fn write_ones(list: &mut [u64], first: usize, base: u64, word: u64) -> usize
    requires base { base + 64 ≤ 2 ^ 64 }
    requires room { first + length (ones_of word) ≤ length list.old }
    ensures next { result ≡ first + length (ones_of word) }
    ensures room { length list.new ≡ length list.old }
    ensures written { take result list.new ≡ take first list.old ++ map (λ j. base + j) (ones_of word) }
{
    let mut next = first;
    let mut rest = word;
    while rest != 0 {
        let place = u64::from(rest.trailing_zeros());
        list[next] = base + place;
        next += 1;
        rest &= !(1 << place);
    }
    next
}

/// The addresses of the set of these words from the word with index `first` up to that with index `last`, ascending.
fn marked_between(
    alloc: Global,
    words: &[u64],
    first: usize,
    last: usize,
) -> Result<Vec<u64>, AllocError>
    requires { IsRange words.now first last }
    ensures { IfOk result (λ live. live.items ≡ addresses_between words.now first last) }
{
    let mut live = Vec::with_capacity(alloc, ones_between(words, first, last))?;
    for index in first..last {
        push_ones(&mut live, 64 * index as u64, words[index])?;
    }
    Ok(live)
}

/// Appends the indices of the bits that are set in a word, ascending, each plus `base`.
fn push_ones(live: &mut Vec<u64>, base: u64, word: u64) -> Result<(), AllocError>
    requires { base + 64 ≤ 2 ^ 64 }
    ensures { OnOk result (live.new.items ≡ live.old.items ++ map (λ j. base + j) (ones_of word)) }
{
    let mut rest = word;
    while rest != 0 {
        let place = u64::from(rest.trailing_zeros());
        live.push(base + place)?;
        rest &= !(1 << place);
    }
    Ok(())
}
