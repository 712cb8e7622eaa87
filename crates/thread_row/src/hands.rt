//! Who does the parts of some work: several threads, or the caller's thread alone.

use std::thread::Threads;

/// Who does the parts of some work. A crate's own loops are methods of a trait of its own above this one.
pub trait Hands {
    /// That several threads may hold what starts them.
    ghost may_start: { Type 0 };

    /// The largest number of threads that work, the caller's included. No contract depends on it.
    fn most(&self) -> usize;
}

/// At most `most` threads, the caller's included.
#[derive(Drop)]
pub struct Many<'a, T: Threads + Sync> {
    pub threads: &'a T,
    pub most: usize,
}

impl<T: Threads + Sync> Hands for Many<'_, T> {
    ghost use denote.Param.Send.{IsSync};

    ghost may_start = { IsSync T.row };

    fn most(&self) -> usize {
        self.most
    }
}

/// The caller's thread alone.
#[derive(Drop)]
pub struct Alone;

impl Hands for Alone {
    ghost may_start = { Unit {0} };

    fn most(&self) -> usize {
        1
    }
}
