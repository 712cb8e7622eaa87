//! Pairs of objects before and after a collection.
pub(crate) mod walk;

use crate::graph::Object;
use std::alloc::{AllocError, Global};

/// Which object before is which object after.
#[derive(Drop)]
pub struct Pairing {
    /// For each object before, its partner's index, counted from 1, or 0.
    pub(crate) partners: Vec<u32>,
    /// For each object after, its partner's index, counted from 1, or 0.
    pub(crate) sources: Vec<u32>,
}

impl Pairing {
    ghost use Rattle.std.specs.Prelude.{◌≡◌, ◌+◌, IfOk, not, ◌==◌, slice_index, MatchOption};
    ghost use Rattle.object_pairs.specs.Pairing.{IsPairing};

    /// No pairs.
    fn new(alloc: Global, before: &[Object], after: &[Object]) -> Result<Pairing, AllocError>
        ensures { IfOk result (λ pairing. IsPairing before.now after.now pairing) }
    {
        Ok(Pairing {
            partners: vec![in alloc; 0; before.len()]?,
            sources: vec![in alloc; 0; after.len()]?,
        })
    }

    /// The partner of the object before with this index.
    pub fn partner(&self, index: usize) -> Option<usize>
        ensures { MatchOption result (slice_index self.now.partners.items index ≡ 0)
            (λ j. slice_index self.now.partners.items index ≡ j + 1) }
    {
        if index >= self.partners.len() {
            return None;
        }
        (self.partners[index] as usize).checked_sub(1)
    }

    /// Whether the object after with this index has a partner.
    pub fn has_source(&self, index: usize) -> bool
        ensures { result ≡ not (slice_index self.now.sources.items index == 0) }
    {
        index < self.sources.len() && self.sources[index] != 0
    }

    /// Pairs the objects with these indexes, if they are alike and neither has a partner. Returns whether they are paired now.
    fn join(&mut self, before: &[Object], after: &[Object], i: u32, j: u32) -> bool
        requires { IsPairing before.now after.now self.old }
        ensures { IsPairing before.now after.now self.new }
    {
        let (source, target) = (i as usize, j as usize);
        if source >= self.partners.len() || target >= self.sources.len() {
            return false;
        }
        if self.partners[source] != 0 || self.sources[target] != 0 {
            return false;
        }
        let (Some(number), Some(partner)) = (i.checked_add(1), j.checked_add(1)) else {
            return false;
        };
        if !before[source].is_alike(&after[target]) {
            return false;
        }
        self.partners[source] = partner;
        self.sources[target] = number;
        true
    }
}
