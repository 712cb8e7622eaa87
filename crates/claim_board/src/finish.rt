//! `Board::finish`.
ghost use Rattle.std.specs.Prelude.{◌≡◌, suc, List, [], vec_len, IsSome, IfSome, IfNone, ◌↔◌};
ghost use Rattle.scheduler.specs.declared.entry.Entry.{Entry};
ghost use Rattle.scheduler.specs.MoveTable.{region_count};
ghost use Rattle.scheduler.specs.State.{unsettled};
ghost use Rattle.scheduler.specs.History.{IsLegal, state_of};
ghost use Rattle.claim_board.specs.Rule.{surveys};
ghost use Rattle.claim_board.specs.Boards.{moves, worker_count, identity, AllOf, AllBare, AllStand, Covers};
ghost use Rattle.claim_board.specs.Finishes.{history};
ghost use Rattle.atomic_table.specs.Table.{step};
ghost use mathlib.Core.Option.{none};

use crate::board::Board;
use crate::finished::Finished;
use crate::pass::Pass;
use crate::rule::{About, Gather, Held, Place, Surveys, Words};
use std::marker::Brand;
use std::snapshot::Snapshot;

/// Loads the number of regions to be filled that aren't settled. The seat then sees the whole history.
pub(crate) fn survey<E: About<Held>>(words: &Words, seat: &mut Place, remaining: usize) -> u64
    requires seat { seat.old.table_id ≡ words.now.table_id }
    requires size { words.now.table_id.words ≡ suc (region_count words.now.key.moves) }
    requires remaining { remaining ≡ region_count words.now.key.moves }
    requires about { (E.moves ≡ words.now.key.moves) × (E.workers ≡ words.now.key.workers) }
    ensures table { seat.new.table_id ≡ seat.old.table_id }
    ensures surveys { surveys E.moves E.workers (step words.now.table_id.slots remaining 0 0 none) seat.old.me result seat.new.me }
{
    words.load::<Surveys<E>>(seat, remaining)
}

/// Joins all passes in one seat; none if there are no passes.
pub(crate) fn gather(words: &Words, mut passes: Vec<Pass>) -> Option<Place>
    requires size { words.now.table_id.words ≡ suc (region_count words.now.key.moves) }
    requires all { AllOf words.now.table_id passes.items }
    requires bare { AllBare passes.items }
    ensures none { IfNone result (passes.items ≡ []) }
    ensures seat { IfSome result (λ seat. seat.table_id ≡ words.now.table_id) }
    ensures covers { IfSome result (λ seat. Covers words.now.key.workers seat.me.0.holds passes.items) }
{
    let Pass { mut place } = passes.pop()?;
    while let Some(pass) = passes.pop() {
        let Pass { place: other } = pass;
        words.join_seat::<Gather>(&mut place, other);
    }
    Some(place)
}

impl Board {
    /// Ends the board and its passes. Returns `Some` if and only if no pass of the board is missing and
    /// all regions to be filled are settled. All calls of the passes form one legal history, which
    /// begins with what each pass had seen; `Finished` keeps it.
    pub fn finish(self, passes: Vec<Pass>) -> Option<Finished>
        requires { AllOf (identity self) passes.items }
        ensures { (h : List Entry) × IsLegal (moves self) (worker_count self) h × AllStand h passes.items
            × (IsSome result ↔ ((vec_len passes ≡ worker_count self) × (unsettled (moves self) (state_of h) ≡ 0)))
            × IfSome result (λ f. history f ≡ h) }
    {
        let count = passes.len();
        let mut place = gather(&self.table.shared, passes)?;
        let unsettled = survey::<Brand>(&self.table.shared, &mut place, self.sources.len());
        if count == self.workers as usize && unsettled == 0 {
            Some(Finished {
                last: Snapshot::of(&place),
            })
        } else {
            None
        }
    }
}
