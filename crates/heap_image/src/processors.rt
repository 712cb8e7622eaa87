//! The threads of all processors.

use rayon::current_num_threads;
use std::thread::Threads;
use thread_row::Many;

/// As many threads as there are processors, the caller's included.
pub fn all_processors<T: Threads + Sync>(threads: &T) -> Many<'_, T> {
    Many {
        threads,
        most: current_num_threads(threads),
    }
}
