//! An overlapping move of words to lower indices of a slice, in chunks of a fixed length.
ghost use Rattle.std.specs.Prelude.{◌≡◌, ◌+◌, ◌<◌, ◌≤◌, ◌++◌, drop, length};
ghost use Rattle.raw_region.specs.Region.{with_words, part};

// The lengths of chunks, in words. Fewer words than `SHORT` are moved one by one.
const LONG: usize = 4_096;

const MIDDLE: usize = 256;

const SHORT: usize = 16;

/// Moves the `n` words at index `from` down to index `to`. The two ranges may overlap.
pub(crate) fn move_down(words: &mut [u64], from: usize, to: usize, n: usize)
    requires downward { to ≤ from }
    requires source { from + n ≤ length words.old }
    ensures { words.new ≡ with_words words.old to (part words.old from n) }
{
    let mut moved = 0;
    while moved < n {
        moved += move_first(words, from + moved, to + moved, n - moved);
    }
}

/// Moves the first of the `n` words, by the longest chunk that fits, and returns how many.
fn move_first(words: &mut [u64], from: usize, to: usize, n: usize) -> usize
    requires some { 0 < n }
    requires downward { to ≤ from }
    requires source { from + n ≤ length words.old }
    ensures some { 0 < result }
    ensures within { result ≤ n }
    ensures value { words.new ≡ with_words words.old to (part words.old from result) }
{
    if LONG <= n {
        move_chunk::<LONG>(words, from, to);
        LONG
    } else if MIDDLE <= n {
        move_chunk::<MIDDLE>(words, from, to);
        MIDDLE
    } else if SHORT <= n {
        move_chunk::<SHORT>(words, from, to);
        SHORT
    } else {
        words.copy_within(from..from + n, to);
        n
    }
}

/// Moves `N` words through an array. LLVM compiles this to one `memmove`, but std's `copy_within` to
/// a loop over single words.
#[inline(always)]
fn move_chunk<const N: usize>(words: &mut [u64], from: usize, to: usize)
    requires downward { to ≤ from }
    requires source { from + N ≤ length words.old }
    ensures { words.new ≡ with_words words.old to (part words.old from N) }
{
    let chunk = *words[from..].first_chunk::<N>().unwrap();
    put_chunk(&mut words[to..], chunk);
}

/// Replaces the first `N` words by the chunk.
#[inline(always)]
fn put_chunk<const N: usize>(words: &mut [u64], chunk: [u64; N])
    requires { N ≤ length words.old }
    ensures { words.new ≡ chunk.entry ++ drop N words.old }
{
    if let Some(place) = words.first_chunk_mut::<N>() {
        *place = chunk;
    }
}
