//! `Board::new`, and the board's moves.
ghost use Rattle.std.specs.Prelude.{◌≡◌, ℕ, ◌+◌, ◌<◌, ◌≤◌, suc, [], vec_len, IfOk, slice_index, cond};
ghost use Rattle.std.specs.Vec.{vec_capacity};
ghost use Rattle.scheduler.specs.MoveTable.{IsMoveTable, region_count};
ghost use Rattle.scheduler.specs.State.{opening, unsettled};
ghost use Rattle.claim_board.specs.Views.{fresh};
ghost use Rattle.claim_board.specs.Rule.{word_of};
ghost use Rattle.claim_board.specs.Boards.{moves as moves_of, worker_count, identity, ArePasses, AllBare};

use crate::board::Board;
use crate::pass::Pass;
use crate::rule::foreseen::foresee;
use crate::rule::table_key::TableKey;
use crate::rule::{Deal, Held, Place, Words};
use atomic_table::Table;
use scheduler::{GivenMoves, Moves, count_readers, count_sources, how_counts_go_down};
use std::alloc::{AllocError, Global};
use std::marker::Brand;
use std::snapshot::Snapshot;

/// The first value of the word of a region with this number of readers.
fn opening_word(readers: usize, fill: bool) -> u64
    requires { readers ≤ 2 }
    ensures { result ≡ readers + cond fill 0 16 }
{
    if fill {
        readers as u64
    } else {
        readers as u64 + 16
    }
}

/// The first values of the words: one for each region, and then the number of regions to be filled.
pub(crate) fn opening_words(alloc: Global, moves: &GivenMoves) -> Result<Vec<u64>, AllocError>
    ensures lawful { IfOk result (λ _. IsMoveTable moves.now) }
    ensures size { IfOk result (λ v. vec_len v ≡ suc (region_count moves.now)) }
    ensures words { IfOk result (λ v. (r : ℕ) → r < region_count moves.now → slice_index v.items r ≡ word_of moves.now opening r) }
    ensures remaining { IfOk result (λ v. slice_index v.items (region_count moves.now) ≡ unsettled moves.now opening) }
{
    how_counts_go_down();
    let readers = count_readers(alloc, moves)?;
    let regions = moves.regions();
    let mut words = Vec::with_capacity(alloc, regions as usize + 1)?;
    for region in 0..regions {
        words.push(opening_word(readers[region as usize], moves.to_fill(region)))?;
    }
    words.push(moves.fill_count() as u64)?;
    Ok(words)
}

/// Makes a pass for each worker, in an empty list with room for them.
pub(crate) fn deal(
    words: &Words,
    mut place: Place,
    workers: u32,
    mut passes: Vec<Pass>,
) -> Vec<Pass>
    requires place { (place.table_id ≡ words.now.table_id) × (0 < words.now.table_id.words) × (0 < workers) × (place.me ≡ (record { note = []; holds = fresh 0 workers }, [])) }
    requires empty { passes.items ≡ [] }
    requires room { workers ≤ vec_capacity passes }
    ensures passes { (vec_len result ≡ workers) × ArePasses words.now.table_id result.items }
    ensures bare { AllBare result.items }
{
    for _ in 1..workers {
        let one = words.split_seat::<Deal>(&mut place);
        passes.push_reserved(Pass { place: one });
    }
    passes.push_reserved(Pass { place });
    passes
}

impl Board {
    /// Makes a board of these moves, and a pass for each of 1 to 64 workers, which has seen no calls.
    /// Fails only if memory runs out.
    pub fn new<M: Moves>(
        alloc: Global,
        moves: &M,
        workers: u32,
    ) -> Result<(Board, Vec<Pass>), AllocError>
        requires { (1 ≤ workers) × (workers ≤ 64) }
        ensures moves { IfOk result (λ made. moves_of made.0 ≡ M.table moves.now) }
        ensures workers { IfOk result (λ made. worker_count made.0 ≡ workers) }
        ensures passes { IfOk result (λ made. (vec_len made.1 ≡ workers) × ArePasses (identity made.0) made.1.items) }
    {
        let moves = GivenMoves::copy_of(alloc, moves)?;
        let sources = count_sources(alloc, &moves)?;
        let words = opening_words(alloc, &moves)?;
        let passes = Vec::with_capacity(alloc, workers as usize)?;
        let nothing: Vec<Option<Held>> = Vec::new(alloc);
        let key = TableKey {
            moves,
            workers,
            values: Snapshot::of(&nothing),
            moved: foresee::<Held, Brand>(),
        };
        let (table, place) = Table::of_words(alloc, words.as_slice(), &key)?;
        let passes = deal(&table.shared, place, workers, passes);
        let TableKey { moves, .. } = key;
        let board = Board {
            table,
            moves,
            sources,
            workers,
        };
        Ok((board, passes))
    }

    /// The board's moves, for `Ticket::open`. They have no index: a plan, or `IndexedMoves` of the same moves, finds the
    /// next source faster.
    pub fn moves(&self) -> &GivenMoves
        ensures { result.now ≡ moves_of self.now }
    {
        &self.moves
    }
}
