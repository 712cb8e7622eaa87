//! `Board::meet`.
ghost use Rattle.std.specs.Prelude.{◌≡◌, suc};
ghost use Rattle.scheduler.specs.MoveTable.{region_count};
ghost use Rattle.scheduler.specs.History.{IsLegal, BeginsWith, calls_by};
ghost use Rattle.claim_board.specs.Rule.{sees, takes_note};
ghost use Rattle.claim_board.specs.Views.{seen_of};
ghost use Rattle.claim_board.specs.Notes.{HasNote};
ghost use Rattle.claim_board.specs.Boards.{moves, worker_count, identity, board_of, worker, seen, mine, held, Stays};
ghost use Rattle.atomic_table.specs.Table.{step};
ghost use mathlib.Core.Option.{none};

use crate::board::Board;
use crate::pass::Pass;
use crate::rule::{About, Held, Note, Place, Sees, Takes, Words};
use std::marker::Brand;

/// Makes the seat see the whole history.
fn see<E: About<Held>>(words: &Words, seat: &mut Place)
    requires seat { seat.old.table_id ≡ words.now.table_id }
    requires size { words.now.table_id.words ≡ suc (region_count words.now.key.moves) }
    requires about { (E.moves ≡ words.now.key.moves) × (E.workers ≡ words.now.key.workers) }
    requires note { HasNote seat.old.me.0 }
    ensures { (seat.new.table_id ≡ seat.old.table_id) × sees E.moves E.workers (step words.now.table_id.slots 0 0 0 none) seat.old.me 0 seat.new.me }
{
    words.load::<Sees<E>>(seat, 0);
}

/// Makes the seat see the history that another seat has passed to it.
fn adopt_history(words: &Words, seat: &mut Place)
    requires seat { seat.old.table_id ≡ words.now.table_id }
    requires size { words.now.table_id.words ≡ suc (region_count words.now.key.moves) }
    requires note { HasNote seat.old.me.0 }
    requires longer { BeginsWith seat.old.me.0.note (seen_of seat.old.me.0) }
    ensures { (seat.new.table_id ≡ seat.old.table_id) × takes_note (step words.now.table_id.slots 0 0 0 none) seat.old.me 0 seat.new.me }
{
    words.load::<Takes>(seat, 0);
}

/// Exchanges what two passes have seen, of a board of either kind.
pub(crate) fn exchange(words: &Words, a: &mut Pass, b: &mut Pass)
    requires boards { (board_of a.old ≡ words.now.table_id) × (board_of b.old ≡ words.now.table_id) }
    requires size { words.now.table_id.words ≡ suc (region_count words.now.key.moves) }
    ensures stay { Stays a.old a.new × Stays b.old b.new }
    ensures held { (held a.new ≡ held a.old) × (held b.new ≡ held b.old) }
    ensures same { seen b.new ≡ seen a.new }
    ensures begins { BeginsWith (seen a.new) (seen a.old) × BeginsWith (seen a.new) (seen b.old) }
    ensures legal { IsLegal words.now.key.moves words.now.key.workers (seen a.new) }
    ensures calls { (calls_by (worker a.old) (seen a.new) ≡ mine a.old) × (calls_by (worker b.old) (seen a.new) ≡ mine b.old) }
{
    let from_a = words.split_seat::<Note>(&mut a.place);
    words.join_seat::<Note>(&mut b.place, from_a);
    see::<Brand>(words, &mut b.place);
    let from_b = words.split_seat::<Note>(&mut b.place);
    words.join_seat::<Note>(&mut a.place, from_b);
    adopt_history(words, &mut a.place);
}

impl Board {
    /// Exchanges what two workers have seen. Afterwards both have seen the same legal history, which
    /// begins with what each had seen. Not an event. For library users; the collector doesn't need it.
    pub fn meet(&self, a: &mut Pass, b: &mut Pass)
        requires boards { (board_of a.old ≡ identity self.now) × (board_of b.old ≡ identity self.now) }
        ensures stay { Stays a.old a.new × Stays b.old b.new }
        ensures same { seen b.new ≡ seen a.new }
        ensures begins { BeginsWith (seen a.new) (seen a.old) × BeginsWith (seen a.new) (seen b.old) }
        ensures legal { IsLegal (moves self.now) (worker_count self.now) (seen a.new) }
        ensures calls { (calls_by (worker a.old) (seen a.new) ≡ mine a.old) × (calls_by (worker b.old) (seen a.new) ≡ mine b.old) }
    {
        exchange(&self.table.shared, a, b);
    }
}
