//! What workers fill.
use super::Timeline;
use scheduler::{Event, Schedule};
use std::alloc::{AllocError, Global};

/// The number of regions that a worker completes.
pub(crate) fn regions_of(timeline: &Timeline, worker: u32) -> usize {
    timeline
        .bars
        .iter()
        .filter(|bar| bar.claimed.worker == worker && bar.completed.is_some())
        .count()
}

/// For each worker the number of words that it writes.
pub(crate) fn words_by_worker(alloc: Global, schedule: &Schedule) -> Result<Vec<u64>, AllocError> {
    let mut words = vec![in alloc; 0; schedule.workers() as usize]?;
    for i in 0..schedule.len() {
        let (worker, event, _) = schedule.line(i);
        if let Event::Copy(_, more) = event {
            add(&mut words, worker, u64::from(more));
        }
    }
    Ok(words)
}

/// Adds words to those of a worker.
fn add(words: &mut [u64], worker: u32, more: u64) {
    let at = worker as usize;
    if at < words.len() {
        words[at] = words[at].saturating_add(more);
    }
}
