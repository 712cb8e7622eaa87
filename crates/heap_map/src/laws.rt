//! Laws about the cells of a map. The functions have no effect: the contract of each is a law.
ghost use Rattle.std.specs.Prelude.{◌≡◌, true, false, ℕ, ◌+◌, ◌-◌, ◌*◌, ◌<◌, ◌≤◌, List, flat_map, length, sum_by};
ghost use Rattle.object_heap.specs.HeapImage.{HeapImage, IsValid, heap_words, is_live_word, live_words};
ghost use Rattle.summary.specs.Compaction.{compact};
ghost use Rattle.summary.specs.NewAddresses.{new_top, prefix_end};
ghost use Rattle.heap_map.specs.Cells.{cell_start, cells_of};
ghost use Rattle.heap_map.specs.Text.{area_mark, shade_mark};
ghost use Rattle.heap_map.specs.declared.cell.Cell.{Cell};
ghost use Rattle.heap_map.specs.declared.style.Glyphs.{Glyphs};
ghost use Rattle.heap_map.specs.declared.style.Glyphs.TheVariants.{Blocks, Letters};

use summary::laws::compaction::{compaction_is_valid, compaction_keeps_the_graph};
use summary::laws::live_words::{live_words_by_blocks, words_of_objects};
use summary::laws::new_addresses::{
    new_address_by_counting, new_top_by_counting, no_gaps_above_the_prefix,
    objects_keep_their_order,
};
use summary::laws::region_data::regions_to_fill;

/// The cells follow each other without gaps, from the first word to the last. No cell is empty unless there are more cells
/// than words.
pub fn cells_lie_in_a_row()
    ensures first { (words n : ℕ) → cell_start words n 0 ≡ 0 }
    ensures last { (words n : ℕ) → 0 < n → cell_start words n n ≡ words }
    ensures ordered { (words n i k : ℕ) → i ≤ k → cell_start words n i ≤ cell_start words n k }
    ensures some { (words n i : ℕ) → 0 < n → n ≤ words → cell_start words n i < cell_start words n (i + 1) }
{}

/// Each word is in exactly one cell.
pub fn each_word_is_in_one_cell()
    ensures one { (words n q : ℕ) → 0 < n → q < words
        → (i : ℕ) × (i < n) × (cell_start words n i ≤ q) × (q < cell_start words n (i + 1)) }
    ensures only { (words n q i k : ℕ) → cell_start words n i ≤ q → q < cell_start words n (i + 1)
        → cell_start words n k ≤ q → q < cell_start words n (k + 1) → i ≡ k }
{
    cells_lie_in_a_row();
}

/// The live words of the cells add up to those of the heap.
pub fn live_words_of_cells_add_up()
    ensures { (heap : HeapImage) (prefix top n : ℕ) → 0 < n
        → sum_by (λ cell. cell.live) (cells_of heap prefix top n) ≡ live_words heap 0 (heap_words heap) }
{
    live_words_by_blocks();
    cells_lie_in_a_row();
}

/// Which words are live after the collection: below the prefix end those that were live before, from there up to the
/// new top all, and above it none.
pub fn live_word_after()
    ensures below { (image : HeapImage) → IsValid image → (p : ℕ) → p < prefix_end image
        → is_live_word (compact image) p ≡ is_live_word image p }
    ensures moved { (image : HeapImage) → IsValid image → (p : ℕ) → prefix_end image ≤ p → p < new_top image
        → is_live_word (compact image) p ≡ true }
    ensures free { (image : HeapImage) → IsValid image → (p : ℕ) → new_top image ≤ p
        → is_live_word (compact image) p ≡ false }
{
    compaction_is_valid();
    compaction_keeps_the_graph();
    words_of_objects();
    no_gaps_above_the_prefix();
    objects_keep_their_order();
    new_address_by_counting();
}

/// How many words are live after the collection in each of these three parts, and that the total is the same as before.
pub fn live_words_after()
    ensures below { (image : HeapImage) → IsValid image → (from to : ℕ) → to ≤ prefix_end image
        → live_words (compact image) from to ≡ live_words image from to }
    ensures moved { (image : HeapImage) → IsValid image → (from to : ℕ) → prefix_end image ≤ from → to ≤ new_top image
        → live_words (compact image) from to ≡ to - from }
    ensures free { (image : HeapImage) → IsValid image → (from to : ℕ) → new_top image ≤ from
        → live_words (compact image) from to ≡ 0 }
    ensures all { (image : HeapImage) → IsValid image
        → live_words (compact image) 0 (heap_words image) ≡ live_words image 0 (heap_words image) }
{
    live_word_after();
    new_top_by_counting();
    live_words_by_blocks();
    regions_to_fill();
}

/// Without colours, a row has one character for each cell: one byte for a letter, three for a block.
pub fn rows_have_a_character_for_each_cell()
    ensures letters { (cells : List Cell)
        → length (flat_map (shade_mark (record { glyphs = Letters; is_coloured = false })) cells) ≡ length cells }
    ensures blocks { (cells : List Cell)
        → length (flat_map (shade_mark (record { glyphs = Blocks; is_coloured = false })) cells) ≡ 3 * length cells }
    ensures areas { (glyphs : Glyphs) (cells : List Cell)
        → length (flat_map (area_mark (record { glyphs = glyphs; is_coloured = false })) cells) ≡ length cells }
{}
