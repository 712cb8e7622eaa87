//! Sums over the objects of an imported image.
ghost use Rattle.std.specs.Prelude.{◌≡◌, max, ◌<◌, ◌≤◌, ◌++◌, ◌∷◌, [], List, All, IfOk, vec_len, slice_index_or, ℕ};
ghost use Rattle.heap_dump.specs.Totals.{AreClassTotals, IsRanking, are_none, sums_in, sums_of, words_in};
ghost use Rattle.heap_dump.specs.declared.listing.ListedObject.{ListedObject};

use crate::listing::ListedObject;
use std::alloc::{AllocError, Global};

/// How many live and dead objects there are, and their words in the image and in the machine. What a `u64` cannot hold is
/// [`u64::MAX`].
#[derive(Clone, Copy)]
pub struct Totals {
    pub live_objects: u64,
    pub live_words: u64,
    pub dead_objects: u64,
    pub dead_words: u64,
    /// The words of all of them in the machine.
    pub machine_words: u64,
}

impl Totals {
    /// Those of no object.
    fn none() -> Totals
        ensures { result ≡ sums_of [] }
    {
        Totals {
            live_objects: 0,
            live_words: 0,
            dead_objects: 0,
            dead_words: 0,
            machine_words: 0,
        }
    }

    /// With one object more.
    fn with(self, object: &ListedObject) -> Totals
        ensures { (objects : List ListedObject) → self ≡ sums_of objects
            → result ≡ sums_of (objects ++ object.now ∷ []) }
    {
        let machine_words = self.machine_words.saturating_add(object.machine_words);
        if object.is_live {
            Totals {
                live_objects: self.live_objects.saturating_add(1),
                live_words: self.live_words.saturating_add(object.words),
                dead_objects: self.dead_objects,
                dead_words: self.dead_words,
                machine_words,
            }
        } else {
            Totals {
                live_objects: self.live_objects,
                live_words: self.live_words,
                machine_words,
                dead_objects: self.dead_objects.saturating_add(1),
                dead_words: self.dead_words.saturating_add(object.words),
            }
        }
    }

    /// Sums these objects.
    pub(crate) fn of(objects: &[ListedObject]) -> Totals
        ensures { result ≡ sums_of objects.now }
    {
        let mut totals = Totals::none();
        for object in objects {
            totals = totals.with(object);
        }
        totals
    }

    /// The words of all objects.
    pub fn words(&self) -> u64
        ensures { result ≡ words_in self.now }
    {
        self.live_words.saturating_add(self.dead_words)
    }

    /// Whether there is no object.
    pub fn is_empty(&self) -> bool
        ensures { result ≡ are_none self.now }
    {
        self.live_objects == 0 && self.dead_objects == 0
    }
}

/// The objects of a class.
#[derive(Clone, Copy)]
pub struct ClassTotals {
    /// The number of the class.
    pub class: u32,
    pub totals: Totals,
}

impl ClassTotals {
    /// With one object more.
    fn with(self, object: &ListedObject) -> ClassTotals
        ensures class { result.class ≡ self.class }
        ensures totals { (objects : List ListedObject) → self.totals ≡ sums_of objects
            → result.totals ≡ sums_of (objects ++ object.now ∷ []) }
    {
        ClassTotals {
            class: self.class,
            totals: self.totals.with(object),
        }
    }
}

/// Ranks the classes that have objects by their words, the most first. Of two with as many words the lower number is
/// first.
pub(crate) fn ranking(
    alloc: Global,
    objects: &[ListedObject],
) -> Result<Vec<ClassTotals>, AllocError>
    ensures { IfOk result (λ ranked. IsRanking objects.now ranked.items) }
{
    let mut ranked = class_totals(alloc, objects)?;
    ranked.retain(|class| !class.totals.is_empty());
    ranked.sort_by_key(|class| u64::MAX - class.totals.words())?;
    Ok(ranked)
}

/// Sums the objects of each class, in the order of class numbers.
fn class_totals(alloc: Global, objects: &[ListedObject]) -> Result<Vec<ClassTotals>, AllocError>
    ensures { IfOk result (λ totals. AreClassTotals objects.now totals.items) }
{
    let mut totals = no_totals(alloc, class_count(objects))?;
    for object in objects {
        let class = object.class as usize;
        totals[class] = totals[class].with(object);
    }
    Ok(totals)
}

/// The number after the largest class number, or 0.
fn class_count(objects: &[ListedObject]) -> usize
    ensures below { All (λ o. o.class < result) objects.now }
    ensures few { result ≤ 4294967296 }
{
    let mut count = 0;
    for object in objects {
        count = larger(count, object.class as usize + 1);
    }
    count
}

/// The larger of two numbers.
fn larger(one: usize, other: usize) -> usize
    ensures { result ≡ max one other }
{
    if one < other { other } else { one }
}

/// The sums of so many classes without objects.
fn no_totals(alloc: Global, count: usize) -> Result<Vec<ClassTotals>, AllocError>
    requires { count ≤ 4294967296 }
    ensures len { IfOk result (λ totals. vec_len totals ≡ count) }
    ensures each { IfOk result (λ totals. (k : ℕ) (d : ClassTotals) → k < count
        → slice_index_or totals.items k d ≡ sums_in k []) }
{
    let mut totals = Vec::with_capacity(alloc, count)?;
    for class in 0..count {
        totals.push(ClassTotals {
            class: class as u32,
            totals: Totals::none(),
        })?;
    }
    Ok(totals)
}
