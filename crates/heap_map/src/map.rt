ghost use Rattle.std.specs.Prelude.{◌≡◌, ◌+◌, ◌<◌, ◌≤◌, IfOk, vec_len};
ghost use Rattle.object_heap.specs.HeapImage.{IsValid, heap_words, last_end, live_words};
ghost use Rattle.summary.specs.Compaction.{compact};
ghost use Rattle.summary.specs.NewAddresses.{new_top, prefix_end};
ghost use Rattle.heap_map.specs.Cells.{area_of, cell_at, cell_count, cell_start, cells_after, cells_before, cells_of};

use crate::area::Area;
use crate::cell::Cell;
use crate::laws::live_word_after;
use heap_image::Image;
use std::alloc::{AllocError, Global};
use summary::Survey;
use summary::laws::live_words::live_words_by_blocks;

/// The largest number of cells of a map.
pub const MAX_CELLS: u32 = 100_000;

/// A heap as a strip of cells in address order. Each word is in exactly one cell.
#[derive(Drop)]
pub struct Map {
    pub cells: Vec<Cell>,
    ghost few: { vec_len cells ≤ 100000 },
}

impl Map {
    /// Maps the heap as it is to `most` cells, or to one per word if it has fewer words.
    pub fn before(
        alloc: Global,
        image: &Image,
        survey: &Survey,
        most: u32,
    ) -> Result<Map, AllocError>
        requires same { survey.now ≡ image.now }
        requires some { 1 ≤ most }
        requires few { most ≤ 100000 }
        ensures { IfOk result (λ map. map.cells.items ≡ cells_before image.now most) }
    {
        let sketch = Sketch::before(image, survey);
        let count = image.len().min(u64::from(most));
        let mut cells = Vec::new(alloc);
        for i in 0..count {
            let (from, to) = (start_of(image, count, i), start_of(image, count, i + 1));
            let live = survey.marks().live_words(from, to);
            cells.push(sketch.cell(from, to, live))?;
        }
        Ok(Map { cells })
    }

    /// Maps the heap as its collection will leave it to `most` cells, or to one per word if it has fewer words.
    pub fn after(
        alloc: Global,
        image: &Image,
        survey: &Survey,
        most: u32,
    ) -> Result<Map, AllocError>
        requires same { survey.now ≡ image.now }
        requires some { 1 ≤ most }
        requires few { most ≤ 100000 }
        ensures { IfOk result (λ map. map.cells.items ≡ cells_after image.now most) }
    {
        let sketch = Sketch::after(survey);
        let count = image.len().min(u64::from(most));
        let mut cells = Vec::new(alloc);
        for i in 0..count {
            let (from, to) = (start_of(image, count, i), start_of(image, count, i + 1));
            let live = live_after(survey, from, to);
            cells.push(sketch.cell(from, to, live))?;
        }
        Ok(Map { cells })
    }
}

/// The addresses that divide a heap into areas.
#[derive(Clone, Copy)]
struct Sketch {
    /// The end of the dense prefix.
    prefix: u64,
    /// The end of the last live object.
    top: u64,
}

impl Sketch {
    /// The bounds in the heap as it is.
    fn before(image: &Image, survey: &Survey) -> Sketch
        requires { survey.now ≡ image.now }
        ensures prefix { result.prefix ≡ prefix_end image.now }
        ensures top { result.top ≡ last_end image.now }
    {
        Sketch {
            prefix: survey.plan().prefix_end(),
            top: last_end(image),
        }
    }

    /// The bounds in the compacted heap.
    fn after(survey: &Survey) -> Sketch
        ensures prefix { result.prefix ≡ prefix_end survey.now }
        ensures top { result.top ≡ new_top survey.now }
    {
        Sketch {
            prefix: survey.plan().prefix_end(),
            top: survey.plan().new_top(),
        }
    }

    /// The cell of the words from `from` up to `to`, of which `live` are live.
    fn cell(self, from: u64, to: u64, live: u64) -> Cell
        requires { from ≤ to }
        ensures { result ≡ record { from = from; to = to; live = live; area = area_of self.prefix self.top from to live } }
    {
        Cell {
            from,
            to,
            live,
            area: self.area(from, to, live),
        }
    }

    /// The area in which most words from `from` up to `to` lie, of which `live` are live.
    fn area(self, from: u64, to: u64, live: u64) -> Area
        requires { from ≤ to }
        ensures { result ≡ area_of self.prefix self.top from to live }
    {
        let all = to - from;
        let low = self.prefix.min(to).saturating_sub(from);
        let high = self.prefix.max(self.top).min(to).saturating_sub(from);
        let (moving, free) = (high.saturating_sub(low), all.saturating_sub(high));
        if moving <= low && free <= low {
            if live == all {
                Area::Prefix
            } else {
                Area::Fillers
            }
        } else if free <= moving {
            Area::Moving
        } else {
            Area::Free
        }
    }
}

/// The first word of cell `i` of `count` cells.
fn start_of(image: &Image, count: u64, i: u64) -> u64
    requires some { 1 ≤ count }
    requires few { count ≤ 100000 }
    requires within { i ≤ count }
    ensures value { result ≡ cell_start (heap_words image.now) count i }
    ensures inside { result ≤ heap_words image.now }
{
    i * image.len() / count
}

/// The number of words from `from` up to `to` that are live after the collection: in the dense prefix those that are live
/// now, from there up to the new top all.
fn live_after(survey: &Survey, from: u64, to: u64) -> u64
    requires ordered { from ≤ to }
    requires inside { to ≤ heap_words survey.now }
    ensures { result ≡ live_words (compact survey.now) from to }
{
    live_word_after();
    live_words_by_blocks();
    let plan = survey.plan();
    let low = plan.prefix_end().min(to).max(from);
    let high = plan.new_top().min(to).max(low);
    survey.marks().live_words(from, low) + (high - low)
}

/// The end of the last live object, or 0 if there is none.
fn last_end(image: &Image) -> u64
    ensures { result ≡ last_end image.now }
{
    match image.live().last() {
        Some(a) => *a + image.size_at(*a),
        None => 0,
    }
}
