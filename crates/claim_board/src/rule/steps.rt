//! The six kinds of atomic step, each on one word. The caller's proof says, through `E`, which entry the step adds. A claim
//! takes slots of the table, a drain and a completion give one back.
ghost use Rattle.std.specs.Prelude.{◌≡◌, ℕ, ◌<◌, suc, [], false, IsTrue, Some};
ghost use Rattle.scheduler.specs.declared.event.Event.TheVariants.{Claim, Look, Drain, Complete, Settle, Poll};
ghost use Rattle.scheduler.specs.MoveTable.{region_count};
ghost use Rattle.scheduler.specs.State.{is_pending, IsFilling};
ghost use Rattle.scheduler.specs.History.{state_of};
ghost use Rattle.claim_board.specs.Rule.{claim_reply, drain_reply, complete_reply, settle_reply, poll_reply, look_reply};
ghost use Rattle.claim_board.specs.Slots.{moved_and_added, slots, IsOfKey, GivesRight, GivesRegion};
ghost use Rattle.claim_board.specs.Views.{IsPassView, worker_of, mine_of};
ghost use Rattle.atomic_table.specs.Table.{step};
ghost use mathlib.Core.Option.{none};

use super::table_key::TableKey;
use super::view::View;
use super::{About, Adds, Law};
use atomic_table::{Seat, Shared};
use scheduler::{
    how_counts_go_down, shares_follow_the_state, what_legal_histories_keep, what_own_calls_tell,
};

pub(crate) type Words<X> = Shared<Option<X>, View, TableKey<X>, Law>;

pub(crate) type Place<X> = Seat<Option<X>, View>;

/// The word of a region that may be claimed.
const FREE: u64 = 0;
/// The word of a region that is claimed and not completed.
pub(crate) const CLAIMED: u64 = 8;
/// The bit that a completion sets in it.
const COMPLETES: u64 = 4;

/// Compare-exchange from 0 to 8 on the word of the region. Where it finds 0, the seat takes the slots of the region, of its
/// readers and of its sources.
pub(crate) fn claim<X, E: About<X>>(words: &Words<X>, seat: &mut Place<X>, region: usize) -> u64
    requires seat { seat.old.table_id ≡ words.now.table_id }
    requires size { words.now.table_id.words ≡ suc (region_count words.now.key.moves) }
    requires key { IsOfKey words.now.key E.moves E.workers E.slots E.first }
    requires about { (E.event ≡ Claim region) × (E.reply ≡ claim_reply) }
    requires pass { IsPassView seat.old.me.0 }
    requires region { region < region_count words.now.key.moves }
    ensures table { seat.new.table_id ≡ seat.old.table_id }
    ensures added { moved_and_added E.moves E.slots E.first E.workers E.event E.reply (step words.now.table_id.slots region 0 8 none) seat.old.me result seat.new.me }
    ensures bare { slots words.now.key ≡ 0 → seat.old.me.1 ≡ [] → seat.new.me.1 ≡ [] }
{
    what_legal_histories_keep();
    shares_follow_the_state();
    words.compare_exchange::<Adds<E>>(seat, region, FREE, CLAIMED)
}

/// Load of the word of the region.
pub(crate) fn look<X, E: About<X>>(words: &Words<X>, seat: &mut Place<X>, region: usize) -> u64
    requires seat { seat.old.table_id ≡ words.now.table_id }
    requires size { words.now.table_id.words ≡ suc (region_count words.now.key.moves) }
    requires key { IsOfKey words.now.key E.moves E.workers E.slots E.first }
    requires about { (E.event ≡ Look region) × (E.reply ≡ look_reply) }
    requires pass { IsPassView seat.old.me.0 }
    requires region { region < region_count words.now.key.moves }
    ensures table { seat.new.table_id ≡ seat.old.table_id }
    ensures added { moved_and_added E.moves E.slots E.first E.workers E.event E.reply (step words.now.table_id.slots region 0 0 none) seat.old.me result seat.new.me }
    ensures bare { slots words.now.key ≡ 0 → seat.old.me.1 ≡ [] → seat.new.me.1 ≡ [] }
{
    what_legal_histories_keep();
    how_counts_go_down();
    words.load::<Adds<E>>(seat, region)
}

/// Fetch-sub of 1 on the word of the source. The seat gives back the slot of the pair.
pub(crate) fn drain<X, E: About<X>>(
    words: &Words<X>,
    seat: &mut Place<X>,
    destination: usize,
    source: usize,
) -> u64
    requires seat { seat.old.table_id ≡ words.now.table_id }
    requires size { words.now.table_id.words ≡ suc (region_count words.now.key.moves) }
    requires key { IsOfKey words.now.key E.moves E.workers E.slots E.first }
    requires about { (E.event ≡ Drain destination source) × (E.reply ≡ drain_reply) }
    requires pass { IsPassView seat.old.me.0 }
    requires region { source < region_count words.now.key.moves }
    requires held { GivesRight words.now.key destination source seat.old.me.1 }
    requires filling { IsFilling (state_of (mine_of seat.old.me.0)) (worker_of seat.old.me.0) destination }
    requires pending { IsTrue (is_pending words.now.key.moves (state_of (mine_of seat.old.me.0)) destination source) }
    ensures table { seat.new.table_id ≡ seat.old.table_id }
    ensures added { moved_and_added E.moves E.slots E.first E.workers E.event E.reply (step words.now.table_id.slots source 1 0 none) seat.old.me result seat.new.me }
    ensures bare { slots words.now.key ≡ 0 → seat.old.me.1 ≡ [] → seat.new.me.1 ≡ [] }
{
    what_legal_histories_keep();
    what_own_calls_tell();
    how_counts_go_down();
    shares_follow_the_state();
    words.fetch_sub::<Adds<E>>(seat, source, 1)
}

/// Fetch-or of 4 on the word of the region. The seat gives back the slot of the region.
pub(crate) fn complete<X, E: About<X>>(words: &Words<X>, seat: &mut Place<X>, region: usize)
    requires seat { seat.old.table_id ≡ words.now.table_id }
    requires size { words.now.table_id.words ≡ suc (region_count words.now.key.moves) }
    requires key { IsOfKey words.now.key E.moves E.workers E.slots E.first }
    requires about { (E.event ≡ Complete region) × (E.reply ≡ complete_reply) }
    requires pass { IsPassView seat.old.me.0 }
    requires region { region < region_count words.now.key.moves }
    requires held { GivesRegion words.now.key region seat.old.me.1 }
    requires filling { IsFilling (state_of (mine_of seat.old.me.0)) (worker_of seat.old.me.0) region }
    requires drained { (s : ℕ) → is_pending words.now.key.moves (state_of (mine_of seat.old.me.0)) region s ≡ false }
    ensures table { seat.new.table_id ≡ seat.old.table_id }
    ensures added { (found : ℕ) × moved_and_added E.moves E.slots E.first E.workers E.event E.reply (step words.now.table_id.slots region 4 0 none) seat.old.me found seat.new.me }
    ensures bare { slots words.now.key ≡ 0 → seat.old.me.1 ≡ [] → seat.new.me.1 ≡ [] }
{
    what_own_calls_tell();
    shares_follow_the_state();
    let _ = words.fetch_or::<Adds<E>>(seat, region, COMPLETES);
}

/// Fetch-sub of 1 on the remaining word.
pub(crate) fn settle<X, E: About<X>>(
    words: &Words<X>,
    seat: &mut Place<X>,
    remaining: usize,
    region: usize,
) -> u64
    requires seat { seat.old.table_id ≡ words.now.table_id }
    requires size { words.now.table_id.words ≡ suc (region_count words.now.key.moves) }
    requires key { IsOfKey words.now.key E.moves E.workers E.slots E.first }
    requires about { (E.event ≡ Settle region) × (E.reply ≡ settle_reply) }
    requires pass { IsPassView seat.old.me.0 }
    requires remaining { remaining ≡ region_count words.now.key.moves }
    requires claimed { (state_of (mine_of seat.old.me.0)).claimed region ≡ Some (worker_of seat.old.me.0) }
    requires filled { IsTrue ((state_of (mine_of seat.old.me.0)).filled region) }
    requires unsettled { (state_of (mine_of seat.old.me.0)).settled region ≡ false }
    ensures table { seat.new.table_id ≡ seat.old.table_id }
    ensures added { moved_and_added E.moves E.slots E.first E.workers E.event E.reply (step words.now.table_id.slots remaining 1 0 none) seat.old.me result seat.new.me }
    ensures bare { slots words.now.key ≡ 0 → seat.old.me.1 ≡ [] → seat.new.me.1 ≡ [] }
{
    what_legal_histories_keep();
    what_own_calls_tell();
    how_counts_go_down();
    words.fetch_sub::<Adds<E>>(seat, remaining, 1)
}

/// Load of the remaining word.
pub(crate) fn poll<X, E: About<X>>(words: &Words<X>, seat: &mut Place<X>, remaining: usize) -> u64
    requires seat { seat.old.table_id ≡ words.now.table_id }
    requires size { words.now.table_id.words ≡ suc (region_count words.now.key.moves) }
    requires key { IsOfKey words.now.key E.moves E.workers E.slots E.first }
    requires about { (E.event ≡ Poll) × (E.reply ≡ poll_reply) }
    requires pass { IsPassView seat.old.me.0 }
    requires remaining { remaining ≡ region_count words.now.key.moves }
    ensures table { seat.new.table_id ≡ seat.old.table_id }
    ensures added { moved_and_added E.moves E.slots E.first E.workers E.event E.reply (step words.now.table_id.slots remaining 0 0 none) seat.old.me result seat.new.me }
    ensures bare { slots words.now.key ≡ 0 → seat.old.me.1 ≡ [] → seat.new.me.1 ≡ [] }
{
    words.load::<Adds<E>>(seat, remaining)
}
