//! `Plan`: what a collection will do to an image.

ghost use Rattle.std.specs.Prelude.{◌≡◌, ◌+◌, ◌<◌, ◌≤◌, length, map, All, IfOk, IfErr, IsTrue, Contains, string_bytes};
ghost use Rattle.raw_region.specs.Region.{with_words, part};
ghost use Rattle.object_heap.specs.HeapImage.{IsValid, region_count, region_words, is_live_word, is_null_or_live};
ghost use Rattle.image_streams.specs.declared.fault.Fault.TheVariants.{Memory};
ghost use Rattle.summary.specs.WordMoves.{slid};
ghost use Rattle.summary.specs.NewAddresses.{prefix_end, new_address, new_top};
ghost use Rattle.summary.specs.Compaction.{redirected};
ghost use Rattle.summary.specs.RegionData.{region_data, deferred, fill_count};
ghost use Rattle.summary.specs.Plan.{sources, sources_from};
ghost use Rattle.summary.specs.Report.{report};

pub(crate) mod counting;
mod deferred;
mod ranks;
mod redirections;
pub(crate) mod region_counts;
pub(crate) mod region_places;
pub(crate) mod sources;

use crate::reads::Reads;
use crate::region_data::RegionData;
use crate::region_table::RegionTable;
use crate::report_text::report_of_table;
use crate::surveyor::Surveyor;
use crate::word_places::WordPlaces;
use counting::count_regions;
use deferred::deferred_places;
use heap_image::{Fault, Image};
use mark_bitmap::{Listed, Marks};
use raw_region::Region;
pub(crate) use redirections::RedirectionSlices;
use redirections::Redirections;
use std::alloc::{AllocError, Global};
use std::marker::Model;

/// What a collection will do to an image: what each region holds and reads, and where each live object goes.
///
/// A contract sees a plan as the image that it was made of, as it was then. The image itself is not kept.
pub struct Plan {
    table: RegionTable,
    redirections: Redirections,
    /// For each region, the place in it where the new words of a deferred object begin, counted from 1; 0 for none.
    deferred: Vec<u32>,
}

impl Drop for Plan {
    fn drop(self) {
        let Self {
            table,
            redirections,
            deferred,
        } = self;
    }
}

impl Model for Plan {
    ghost use Rattle.object_heap.specs.HeapImage.{HeapImage};
    ghost use Rattle.summary.specs.Plan.{IsPlan};

    ghost Value = { HeapImage };

    ghost view = { λ p. p.table };

    ghost invariant = { λ p. IsPlan p.table p.redirections p.deferred.items };
}

impl Plan {
    /// Makes the plan of an image with these marks. The surveyor's threads count the regions.
    ///
    /// The only error is [`Fault::Memory`], if an allocation fails.
    pub fn of<S: Surveyor>(
        alloc: Global,
        image: &Image,
        marks: &Marks,
        surveyor: &S,
    ) -> Result<Plan, Fault>
        requires start { S.may_start }
        requires marks { marks.now ≡ image.now }
        ensures plan { IfOk result (λ plan. plan ≡ image.now) }
        ensures fault { IfErr result (λ fault. fault ≡ Memory) }
    {
        Plan::of_listed(alloc, &Listed::of_image(image), marks, surveyor)
    }

    /// Makes the plan of what is listed, with these marks.
    pub(crate) fn of_listed<S: Surveyor>(
        alloc: Global,
        image: &Listed<'_>,
        marks: &Marks,
        surveyor: &S,
    ) -> Result<Plan, Fault>
        requires start { S.may_start }
        requires marks { marks.now ≡ image.now }
        ensures plan { IfOk result (λ plan. plan ≡ image.now) }
        ensures fault { IfErr result (λ fault. fault ≡ Memory) }
    {
        let counts = count_regions(alloc, image, marks, surveyor)?;
        let table = RegionTable::of(alloc, image, counts.as_slice())?;
        let redirections = Redirections::of(alloc, image, marks, table.prefix_end())?;
        let deferred = deferred_places(alloc, image, marks, &redirections)?;
        Ok(Plan {
            table,
            redirections,
            deferred,
        })
    }

    /// The logarithm, to base 2, of the number of words of a region.
    pub fn region_log(&self) -> u32
        ensures value { result ≡ self.now.region_log }
        ensures valid { IsValid self.now }
    {
        self.table.region_log()
    }

    /// The number of words of a region.
    pub fn region_words(&self) -> u64
        ensures value { result ≡ region_words self.now }
        ensures some { 0 < result }
        ensures few { result ≤ 1048576 }
        ensures valid { IsValid self.now }
    {
        self.table.region_words()
    }

    /// The address at which the dense prefix ends. Objects that begin below it stay.
    pub fn prefix_end(&self) -> u64
        ensures value { result ≡ prefix_end self.now }
        ensures valid { IsValid self.now }
    {
        self.table.prefix_end()
    }

    /// The first free address after the collection.
    pub fn new_top(&self) -> u64
        ensures { result ≡ new_top self.now }
    {
        self.table.new_top()
    }

    /// The number of regions.
    pub fn regions(&self) -> u32
        ensures value { result ≡ region_count self.now }
        ensures valid { IsValid self.now }
    {
        self.table.regions().len() as u32
    }

    /// What region `r` holds and where it goes.
    pub fn region(&self, r: u32) -> RegionData
        requires { r < region_count self.now }
        ensures { result ≡ region_data self.now r }
    {
        self.table.regions()[r as usize].to_data()
    }

    /// The new address of the live object at `a`.
    #[inline]
    pub fn new_address(&self, a: u64) -> u64
        requires { Contains self.now.live a }
        ensures { result ≡ new_address self.now a }
    {
        self.redirections.new_address(a)
    }

    /// Where each live word goes, for who asks of many.
    pub fn word_places(&self) -> WordPlaces<'_>
        ensures { result ≡ self.now }
    {
        WordPlaces::new(
            self.redirections.as_slices(),
            u64::from(self.regions()) * self.region_words(),
        )
    }

    /// The reference to the same object after the collection; null stays null.
    #[inline]
    pub fn redirected(&self, reference: u64) -> u64
        requires { IsTrue (is_null_or_live self.now reference) }
        ensures { result ≡ redirected self.now reference }
    {
        self.redirections.redirected(reference)
    }

    /// Redirects the `n` references of a region from index `at` on.
    pub fn redirect(&self, region: &mut Region, at: usize, n: usize)
        requires inside { at + n ≤ length region.old }
        requires sound { All (λ w. IsTrue (is_null_or_live self.now w)) (part region.old at n) }
        ensures value { region.new ≡ with_words region.old at (map (redirected self.now) (part region.old at n)) }
        ensures same_length { length region.new ≡ length region.old }
    {
        self.redirections
            .redirect_all(&mut region.words_mut()[at..at + n]);
    }

    /// The new address of the deferred object whose new words begin in region `d`. `None` if there is no such object or
    /// no such region.
    pub fn deferred(&self, d: u32) -> Option<u64>
        ensures { result ≡ deferred self.now d }
    {
        if d >= self.regions() {
            return None;
        }
        match self.deferred[d as usize] {
            0 => None,
            place => Some(u64::from(d) * self.region_words() + u64::from(place) - 1),
        }
    }

    /// How many regions are to be filled: those from 0 on that begin below the new top.
    pub fn fill_regions(&self) -> u32
        ensures { result ≡ fill_count self.now }
    {
        self.table.new_top().div_ceil(self.table.region_words()) as u32
    }

    /// The regions that region `d` reads, ascending, including `d` itself if it takes words from itself. Empty if there
    /// is no region `d`.
    pub fn reads(&self, d: u32) -> Reads<'_>
        ensures { result ≡ sources self.now d }
    {
        self.reads_from(d, 0)
    }

    /// The regions at or after region `from` that region `d` reads, ascending.
    pub fn reads_from(&self, d: u32, from: u32) -> Reads<'_>
        ensures { result ≡ sources_from self.now d from }
    {
        Reads::of(&self.table, d, from)
    }

    /// A line for each region: its number, partial and live words, destination, count and source, each right-aligned in
    /// 8 columns, with a space between and `-` for no source.
    pub fn report(&self, alloc: Global) -> Result<String, AllocError>
        ensures { IfOk result (λ text. string_bytes text ≡ report self.now) }
    {
        report_of_table(alloc, &self.table)
    }
}

/// The report of a plan: see [`Plan::report`].
pub fn report(alloc: Global, plan: &Plan) -> Result<String, AllocError>
    ensures { IfOk result (λ text. string_bytes text ≡ report plan.now) }
{
    plan.report(alloc)
}
