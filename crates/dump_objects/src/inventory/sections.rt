//! An index that narrows the search for an id among ascending ids.
ghost use Rattle.std.specs.Prelude.{◌<◌};

use std::alloc::{AllocError, Global};

/// The range of ids of a dump, divided into sections of equal width.
///
/// There are about as many sections as ids, which are mostly spread evenly, so a section has few. However they are spread,
/// the ids of a section ascend, so it can be searched by bisection.
#[derive(Drop)]
pub struct Sections {
    low: u64,
    /// The base-2 logarithm of the width of a section.
    width_log: u32,
    /// For each section, how many ids are below it; last, the number of all ids.
    below: Vec<usize>,
    ghost narrow: { width_log < 64 },
}

impl Sections {
    /// No ids.
    pub fn new(alloc: Global) -> Sections {
        Sections {
            low: 0,
            width_log: 0,
            below: Vec::new(alloc),
        }
    }

    /// Sections for `count` ids from `low` to `high`.
    pub fn between(alloc: Global, low: u64, high: u64, count: usize) -> Sections {
        let most = (count as u64).max(1);
        let widest = high.saturating_sub(low) / most;
        Sections {
            low,
            width_log: (64 - widest.leading_zeros()).min(63),
            below: Vec::new(alloc),
        }
    }

    /// Adds the next id, of which `index` are before it.
    pub fn add(&mut self, id: u64, index: usize) -> Result<(), AllocError> {
        let section = (id.saturating_sub(self.low) >> self.width_log) as usize;
        for _ in self.below.len()..=section {
            self.below.push(index)?;
        }
        Ok(())
    }

    /// Ends the last section after `count` ids.
    pub fn end(&mut self, count: usize) -> Result<(), AllocError> {
        self.below.push(count)?;
        Ok(())
    }

    /// The range of indexes in which an id is, if it is there.
    pub fn around(&self, id: u64) -> Option<(usize, usize)> {
        let section = (id.checked_sub(self.low)? >> self.width_log) as usize;
        let from = *self.below.get(section)?;
        let to = *self.below.get(section.saturating_add(1))?;
        Some((from, to))
    }
}
