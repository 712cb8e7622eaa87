//! `RegionBoard::new`.
ghost use Rattle.std.specs.Prelude.{◌≡◌, ℕ, ◌+◌, ◌<◌, ◌≤◌, suc, [], length, vec_len, IfOk, IfErr, slice_index, slice_index_or, slice_get};
ghost use Rattle.std.specs.Vec.{vec_capacity};
ghost use Rattle.box_row.specs.Rows.{items, spot};
ghost use Rattle.scheduler.specs.MoveTable.{MoveTable, IsMoveTable, region_count};
ghost use Rattle.scheduler.specs.Scheduler.{ArePairCounts};
ghost use Rattle.scheduler.specs.State.{opening, unsettled};
ghost use Rattle.claim_board.specs.Boards.{ArePasses, AllBare};
ghost use Rattle.claim_board.specs.Holdings.{AreMoved, AreLaid, words_of};
ghost use Rattle.claim_board.specs.Places.{ArePlaces};
ghost use Rattle.claim_board.specs.RegionBoards.{moves as moves_of, worker_count, identity, original_words, moved_words};
ghost use Rattle.claim_board.specs.Rule.{word_of};
ghost use Rattle.claim_board.specs.Slots.{all_slots};

use super::holding::Holding;
use super::places::Places;
use super::region_board::RegionBoard;
use super::sharing::share_all;
use super::uniting::unite_all;
use crate::make::{deal, opening_words};
use crate::pass::Pass;
use crate::rule::Held;
use crate::rule::foreseen::{Foresees, foresee};
use crate::rule::table_key::TableKey;
use atomic_table::{Refused, Table};
use box_row::Row;
use raw_region::Region;
use scheduler::{GivenMoves, Moves, count_sources};
use std::alloc::{AllocError, Global};
use std::marker::{Brand, PhantomData};
use std::snapshot::Snapshot;

/// Which words each region has once it is filled, for proofs only.
pub trait MovedWords {
    ghost use Rattle.std.specs.Prelude.{ℕ, List};

    /// Those of each region, in order. A region that isn't to be filled may have any.
    ghost words: { List (List ℕ) };
}

impl MovedWords for Brand {
    ghost use Rattle.std.specs.Prelude.{[]};

    ghost words = { [] };
}

/// The regions with their moved words, each in its place, for proofs only.
pub trait MovedRegions {
    ghost use Rattle.std.specs.Prelude.{List};
    ghost use Rattle.claim_board.specs.declared.regions.holding.Holding.{Holding};

    /// As the slots have them.
    ghost regions: { List Holding };
}

impl MovedRegions for Brand {
    ghost use Rattle.std.specs.Prelude.{[]};

    ghost regions = { [] };
}

/// These regions, as values of the slots.
pub struct Moving<E> {
    regions: PhantomData<E>,
}

impl<E: MovedRegions> Foresees<Held> for Moving<E> {
    ghost items = { E.regions };
}

/// All that a board needs room for, before the first region is shared out.
pub struct Parts {
    moves: GivenMoves,
    sources: Vec<usize>,
    places: Places,
    words: Vec<u64>,
    /// An empty value for each slot.
    values: Vec<Option<Holding>>,
    passes: Vec<Pass>,
    ghost lawful: { IsMoveTable moves },
    ghost counted: { ArePairCounts moves (λ pair. pair.0) moves.pairs sources.items },
    ghost placed: { ArePlaces moves places },
    ghost sized: { vec_len words ≡ suc (region_count moves) },
    ghost opened: { (r : ℕ) → r < region_count moves → slice_index words.items r ≡ word_of moves opening r },
    ghost remaining: { slice_index words.items (region_count moves) ≡ unsettled moves opening },
    ghost slotted: { vec_len values ≡ all_slots moves },
    ghost empty: { passes.items ≡ [] },
}

/// Allocates empty values.
fn empty_values(alloc: Global, count: usize) -> Result<Vec<Option<Holding>>, AllocError>
    ensures { IfOk result (λ values. vec_len values ≡ count) }
{
    let mut values = Vec::with_capacity(alloc, count)?;
    for _ in 0..count {
        values.push(None)?;
    }
    Ok(values)
}

/// Allocates all that a board needs.
fn allocate<M: Moves>(alloc: Global, moves: &M, workers: u32) -> Result<Parts, AllocError>
    ensures moves { IfOk result (λ parts. parts.moves ≡ M.table moves.now) }
    ensures passes { IfOk result (λ parts. workers ≤ vec_capacity parts.passes) }
{
    let moves = GivenMoves::copy_of(alloc, moves)?;
    let sources = count_sources(alloc, &moves)?;
    let words = opening_words(alloc, &moves)?;
    let places = Places::find(alloc, &moves)?;
    let values = empty_values(alloc, places.pairs + sources.len())?;
    let passes = Vec::with_capacity(alloc, workers as usize)?;
    Ok(Parts {
        moves,
        sources,
        places,
        words,
        values,
        passes,
    })
}

/// Makes a board of what was allocated. The regions leave their row for the slots. If memory runs out, they come back with the
/// same words.
fn assemble<E: MovedRegions>(
    alloc: Global,
    parts: Parts,
    workers: u32,
    mut row: Row<Region>,
) -> Result<(RegionBoard, Vec<Pass>), Vec<Region>>
    requires workers { (1 ≤ workers) × (workers ≤ 64) }
    requires room { workers ≤ vec_capacity parts.passes }
    requires all { (length (items row) ≡ region_count parts.moves) × (row.count ≡ region_count parts.moves) }
    requires moved { AreMoved parts.moves E.regions × AreLaid parts.moves (spot row) E.regions }
    ensures moves { IfOk result (λ made. moves_of made.0 ≡ parts.moves) }
    ensures workers { IfOk result (λ made. worker_count made.0 ≡ workers) }
    ensures passes { IfOk result (λ made. (vec_len made.1 ≡ workers) × ArePasses (identity made.0) made.1.items) }
    ensures bare { IfOk result (λ made. AllBare made.1.items) }
    ensures original { IfOk result (λ made. (r : ℕ) → r < region_count parts.moves → original_words made.0 r ≡ slice_index_or (items row) r []) }
    ensures moved { IfOk result (λ made. (r : ℕ) → moved_words made.0 r ≡ words_of (slice_get E.regions r)) }
    ensures back { IfErr result (λ back. (length back.items ≡ region_count parts.moves) × ((r : ℕ) → r < region_count parts.moves → slice_index_or back.items r [] ≡ slice_index_or (items row) r [])) }
{
    let Parts {
        moves,
        sources,
        places,
        words,
        mut values,
        passes,
    } = parts;
    share_all(&mut row, &mut values, &places);
    let key = TableKey {
        moves,
        workers,
        values: Snapshot::of(&values),
        moved: foresee::<Held, Moving<E>>(),
    };
    match Table::new(alloc, words.as_slice(), values, &key) {
        Ok((table, place)) => {
            let passes = deal(&table.shared, place, workers, passes);
            let TableKey { moves, .. } = key;
            let board = RegionBoard {
                table,
                moves,
                sources,
                places,
                row,
                workers,
            };
            Ok((board, passes))
        }
        Err(Refused { mut slots }) => Err(unite_all(&mut slots, &places, row)),
    }
}

impl RegionBoard {
    /// Makes a board of these moves, which keeps these regions, and a pass for each of 1 to 64 workers, which has seen no
    /// calls and holds nothing. The caller's proof picks, at `E`, which words each region to be filled will have. If memory runs out, the
    /// regions come back with the same words.
    pub fn new<M: Moves, E: MovedWords>(
        alloc: Global,
        moves: &M,
        workers: u32,
        regions: Vec<Region>,
    ) -> Result<(RegionBoard, Vec<Pass>), Vec<Region>>
        requires workers { (1 ≤ workers) × (workers ≤ 64) }
        requires all { length regions.items ≡ region_count (M.table moves.now) }
        requires moved { length E.words ≡ region_count (M.table moves.now) }
        ensures moves { IfOk result (λ made. moves_of made.0 ≡ M.table moves.now) }
        ensures workers { IfOk result (λ made. worker_count made.0 ≡ workers) }
        ensures passes { IfOk result (λ made. (vec_len made.1 ≡ workers) × ArePasses (identity made.0) made.1.items) }
        ensures bare { IfOk result (λ made. AllBare made.1.items) }
        ensures original { IfOk result (λ made. (r : ℕ) → r < region_count (M.table moves.now) → original_words made.0 r ≡ slice_index_or regions.items r []) }
        ensures moved { IfOk result (λ made. (r : ℕ) → r < region_count (M.table moves.now) → moved_words made.0 r ≡ slice_index_or E.words r []) }
        ensures back { IfErr result (λ back. (length back.items ≡ region_count (M.table moves.now)) × ((r : ℕ) → r < region_count (M.table moves.now) → slice_index_or back.items r [] ≡ slice_index_or regions.items r [])) }
    {
        let row = Row::of(alloc, regions)?;
        let Ok(parts) = allocate(alloc, moves, workers) else {
            return Err(row.into_values());
        };
        assemble::<Brand>(alloc, parts, workers, row)
    }
}
