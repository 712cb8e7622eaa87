//! A heap of cells whose words and roots the caller keeps.
ghost use Rattle.std.specs.Prelude.{◌≡◌, Some, IfOk, OnErr};
ghost use Rattle.object_heap.specs.declared.version.Version.TheVariants.{Three};
ghost use Rattle.object_heap.specs.HeapImage.{HeapImage, IsValid};
ghost use Rattle.heap_image.specs.ImageText.{text};
ghost use Rattle.summary.specs.Compaction.{compact};
ghost use Rattle.caller_heap.specs.HeapWords.{heap_bytes};
ghost use Rattle.library_uses.specs.Settings.{settings_of};

use caller_heap::{HeapSettings, collect_words};
use heap_image::{Fault, Version};
use std::alloc::Global;

/// A heap that allocates at its top.
#[derive(Drop)]
pub struct Cells {
    pub words: Vec<u64>,
    pub roots: Vec<u64>,
    /// The first free address.
    pub top: u64,
    /// The logarithm of the number of words of a region.
    pub region_log: u32,
}

/// Compacts the heap in place. No dead word stays.
pub fn compact_cells(alloc: Global, cells: &mut Cells) -> Result<(), Fault>
    ensures { IfOk result (λ _. (image : HeapImage) × IsValid image
        × (heap_bytes Three (settings_of cells.old.region_log) cells.old.words.items cells.old.roots.items ≡ text image)
        × (cells.new.words.items ≡ (compact image).words) × ((compact image).roots ≡ Some cells.new.roots.items)) }
{
    let settings = HeapSettings {
        region_log: cells.region_log,
        allowance: 0,
    };
    let words = cells.words.as_mut_slice();
    let roots = cells.roots.as_mut_slice();
    let figures = collect_words(alloc, Version::Three, settings, words, roots)?;
    cells.top = figures.new_top;
    Ok(())
}
