//! What two dumps say of a collection.
ghost use Rattle.std.specs.Prelude.{◌≡◌, ◌<◌, ◌^◌, ◌++◌, ◌∷◌, [], IfOk, OnOk, length, map, slice_index};
ghost use Rattle.std.specs.List.{list_all, range_with_len};
ghost use Rattle.object_pairs.specs.Moves.{moves_in};
ghost use Rattle.object_pairs.specs.Pairing.{IsPairing};
ghost use Rattle.object_pairs.specs.Comparison.{IsComparison, are_comparable, conflicts_of, figures_at, is_dense, verdict_of};
ghost use Rattle.object_pairs.specs.Spaces.{end_of_space, starts_of};

use crate::figures::SpaceFigures;
use crate::graph::id_at;
use crate::moves::moves_in;
use crate::paired::Paired;
use crate::paired::conflict::Conflict;
use crate::spaces::starts_of;
use std::alloc::{AllocError, Global};

/// What two dumps say of a collection. What a `u64` cannot hold is [`u64::MAX`].
#[derive(Drop)]
pub struct Comparison {
    /// How many objects the heap had before.
    pub before: usize,
    /// How many it has after.
    pub after: usize,
    /// How many of them are the same.
    pub paired: usize,
    /// How many references of these are in each conflict.
    pub cleared: u64,
    pub filled: u64,
    pub elsewhere: u64,
    /// How many have other data, by their checksums.
    pub changed: u64,
    /// The spaces of the heap before, by ascending ids.
    pub spaces: Vec<SpaceFigures>,
}

/// What the figures say.
#[derive(Clone, Copy, PartialEq, Eq)]
pub enum Verdict {
    /// Each space keeps its order and its distances.
    Slid,
    /// Some space doesn't.
    Broken,
    /// Too few objects are paired, or too many references are in conflict.
    Incomparable,
}

impl Verdict {
    ghost use Rattle.std.specs.Prelude.{◌≡◌};
    ghost use Rattle.object_pairs.specs.Comparison.{status_of};

    /// The exit status that says so.
    pub fn status(self) -> u8
        ensures { result ≡ status_of self }
    {
        match self {
            Verdict::Slid => 0,
            Verdict::Broken => 1,
            Verdict::Incomparable => 3,
        }
    }
}

impl Comparison {
    /// Compares two heaps by the pairs of their objects. Memory is the only error.
    pub fn of(alloc: Global, paired: &Paired<'_>) -> Result<Comparison, AllocError>
        requires pairing { IsPairing paired.now.before.now.objects.items paired.now.after.now.objects.items paired.now.pairing.now }
        ensures { IfOk result (λ comparison. IsComparison paired.now.before.now paired.now.after.now
            paired.now.pairing.now.partners.items comparison) }
    {
        Ok(Comparison {
            before: paired.before.objects.len(),
            after: paired.after.objects.len(),
            paired: paired.paired(),
            cleared: paired.conflicts(Conflict::Cleared),
            filled: paired.conflicts(Conflict::Filled),
            elsewhere: paired.conflicts(Conflict::Elsewhere),
            changed: paired.changed(),
            spaces: spaces_of(alloc, paired)?,
        })
    }

    /// How many references are in conflict.
    pub fn conflicts(&self) -> u64
        ensures { result ≡ conflicts_of self.now }
    {
        self.cleared
            .saturating_add(self.filled)
            .saturating_add(self.elsewhere)
    }

    /// What the figures say.
    pub fn verdict(&self) -> Verdict
        ensures { result ≡ verdict_of self.now }
    {
        if !self.is_comparable() {
            return Verdict::Incomparable;
        }
        if self.is_dense() {
            Verdict::Slid
        } else {
            Verdict::Broken
        }
    }

    /// Whether at least half of the objects after are paired, and no more than 1 per cent and ten of their references are in conflict.
    fn is_comparable(&self) -> bool
        ensures { result ≡ are_comparable self.now }
    {
        let most = (self.paired / 100) as u64;
        self.paired != 0
            && self.after / 2 <= self.paired
            && self.conflicts() <= most.saturating_add(10)
    }

    /// Whether each space keeps its order and its distances.
    fn is_dense(&self) -> bool
        ensures { result ≡ list_all is_dense self.now.spaces.items }
    {
        for space in &self.spaces {
            if !space.is_dense() {
                return false;
            }
        }
        true
    }
}

impl SpaceFigures {
    /// Whether the space keeps its order and its distances.
    fn is_dense(&self) -> bool
        ensures { result ≡ is_dense self.now }
    {
        self.descents == 0 && self.holes == 0
    }
}

/// The figures of the spaces of the heap before.
fn spaces_of(alloc: Global, paired: &Paired<'_>) -> Result<Vec<SpaceFigures>, AllocError>
    requires { IsPairing paired.now.before.now.objects.items paired.now.after.now.objects.items paired.now.pairing.now }
    ensures { IfOk result (λ spaces. spaces.items ≡ map
        (figures_at paired.now.before.now.objects.items paired.now.after.now.objects.items paired.now.pairing.now.partners.items)
        (range_with_len 0 (length (starts_of paired.now.before.now.objects.items)))) }
{
    let starts = starts_of(alloc, &paired.before.objects)?;
    let mut spaces = Vec::new(alloc);
    for index in 0..starts.len() {
        let figures = figures_at(alloc, paired, &starts, index)?;
        spaces.push(figures)?;
    }
    Ok(spaces)
}

/// The figures of the space with this index.
fn figures_at(
    alloc: Global,
    paired: &Paired<'_>,
    starts: &[usize],
    index: usize,
) -> Result<SpaceFigures, AllocError>
    requires starts { starts.now ≡ starts_of paired.now.before.now.objects.items }
    requires inside { index < length starts.now }
    ensures { IfOk result (λ figures. figures ≡ figures_at paired.now.before.now.objects.items paired.now.after.now.objects.items
        paired.now.pairing.now.partners.items index) }
{
    let (first, end) = (
        starts[index],
        end_of_space(starts, paired.before.objects.len(), index),
    );
    let start = id_at(&paired.before.objects, first);
    let moves = moves_in(alloc, paired, first, end)?;
    Ok(SpaceFigures::of(start, &moves))
}

/// The index behind the last object of the space with this index, of `count` objects.
fn end_of_space(starts: &[usize], count: usize, index: usize) -> usize
    requires { index < length starts.now }
    ensures { result ≡ end_of_space starts.now count index }
{
    if index + 1 < starts.len() {
        starts[index + 1]
    } else {
        count
    }
}
