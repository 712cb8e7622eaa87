//! The six calls of a board. Each makes one atomic step on one word, and never repeats it. The functions are those of both
//! kinds of board; they say in `moves_slots` which slots the pass takes or gives back.
ghost use Rattle.std.specs.Prelude.{◌≡◌, ◌==◌, ◌-◌, ℕ, ◌<◌, count_by, true, IfSome, is_some, if◌then◌else◌};
ghost use Rattle.atomic_table.specs.Table.{rest};
ghost use Rattle.scheduler.specs.declared.event.Event.TheVariants.{Claim, Look, Drain, Complete, Settle, Poll};
ghost use Rattle.scheduler.specs.declared.reply.Reply.TheVariants.{Yes, No, All, More, Done as Completed};
ghost use Rattle.scheduler.specs.MoveTable.{IsMoveTable, region_count};
ghost use Rattle.scheduler.specs.Scheduler.{ArePairCounts};
ghost use Rattle.claim_board.specs.Rule.{look_reply, drain_reply};
ghost use Rattle.claim_board.specs.Slots.{GivesRight, GivesRegion};
ghost use Rattle.claim_board.specs.Boards.{moves, worker_count, identity, board_of, caller, seen, worker, mine, Appends, AppendsTo, TakesStep, MakesStep, IsLaidOut, held, MovesSlots};
ghost use Rattle.claim_board.specs.Drains.{reply_of};
ghost use Rattle.claim_board.specs.Grants.{IsGranted};
ghost use Rattle.claim_board.specs.Tickets.{IsUnused, IsTicketOf, IsClosedOf, IsWrittenOf, IsDoneOf};

use crate::board::Board;
use crate::pass::Pass;
use crate::rule::{Held, Words, steps};
use crate::tokens::closed::Closed;
use crate::tokens::done::Done;
use crate::tokens::drained::Drained;
use crate::tokens::ticket::Ticket;
use crate::tokens::written::Written;
use scheduler::{
    Reply, how_counts_go_down, legal_histories_are_orderly, pairs_slide_down, what_own_calls_tell,
};
use std::marker::Brand;
use std::snapshot::Snapshot;

/// The word of a completed region.
pub(crate) const COMPLETED: u64 = 12;
/// Added to the number of readers in the word of a region that isn't to be filled.
const OUTSIDE: u64 = 16;

/// The status of a region whose word has this value.
fn status_of_word(found: u64) -> Reply
    ensures { result ≡ look_reply found }
{
    if found == COMPLETED {
        Reply::Filled
    } else if found == steps::CLAIMED {
        Reply::Claimed
    } else if found < OUTSIDE {
        Reply::Open(found as u32)
    } else {
        Reply::Outside((found % OUTSIDE) as u32)
    }
}

/// The reply to a drain that found this value in the source's word.
fn drain_reply(found: u64) -> Drained
    ensures { reply_of result ≡ drain_reply found }
{
    if found == 1 || found == OUTSIDE + 1 {
        Drained::Last
    } else {
        Drained::NotLast
    }
}

/// Claims a region. The ticket's sources are counted by `sources`.
pub(crate) fn claim(
    words: &Words,
    sources: &Vec<usize>,
    pass: &mut Pass,
    region: u32,
) -> Option<Ticket>
    requires board { board_of pass.old ≡ words.now.table_id }
    requires laid_out { IsLaidOut words.now.table_id words.now.key }
    requires counted { ArePairCounts words.now.key.moves (λ pair. pair.0) words.now.key.moves.pairs sources.now.items }
    requires region { region < region_count words.now.key.moves }
    ensures entry { AppendsTo words.now.key.moves words.now.key.workers pass.old pass.new (Claim region) (if is_some result then Yes else No) }
    ensures step { MakesStep words.now.key.moves (Claim region) pass.old pass.new }
    ensures ticket { IfSome result (λ t. (t.region ≡ region) × IsUnused t × IsTicketOf words.now.key.moves (caller pass.new) t) }
    ensures left { IfSome result (λ t. t.left ≡ count_by (λ pair. region == pair.0) words.now.key.moves.pairs) }
    ensures granted { IfSome result (λ _. IsGranted words.now.key.moves words.now.key.workers region (seen pass.new)) }
    ensures moves_slots { (found : ℕ) × (is_some result ≡ (found == 0)) × MovesSlots words.now.key (Claim region) found (held pass.old) (held pass.new) }
{
    what_own_calls_tell();
    legal_histories_are_orderly();
    let found = steps::claim::<Held, Brand>(words, &mut pass.place, region as usize);
    if found == 0 {
        Some(Ticket {
            region,
            next: 0,
            left: sources[region as usize],
            right_is_out: false,
            from: Some(Snapshot::of(&pass.place)),
        })
    } else {
        None
    }
}

/// Looks at a region.
pub(crate) fn look(words: &Words, pass: &mut Pass, region: u32) -> Reply
    requires board { board_of pass.old ≡ words.now.table_id }
    requires laid_out { IsLaidOut words.now.table_id words.now.key }
    requires region { region < region_count words.now.key.moves }
    ensures entry { AppendsTo words.now.key.moves words.now.key.workers pass.old pass.new (Look region) result }
    ensures step { MakesStep words.now.key.moves (Look region) pass.old pass.new }
    ensures moves_slots { held pass.new ≡ held pass.old }
{
    status_of_word(steps::look::<Held, Brand>(words, &mut pass.place, region as usize))
}

/// Drains a pair. The pass gives its right to read back.
pub(crate) fn drain(words: &Words, pass: &mut Pass, ticket: &mut Ticket, closed: Closed) -> Drained
    requires board { board_of pass.old ≡ words.now.table_id }
    requires laid_out { IsLaidOut words.now.table_id words.now.key }
    requires lawful { IsMoveTable words.now.key.moves }
    requires ticket { IsTicketOf words.now.key.moves (caller pass.old) ticket.old }
    requires closed { IsClosedOf words.now.key.moves (caller pass.old) ticket.old closed }
    requires held { GivesRight words.now.key closed.destination closed.source (held pass.old) }
    ensures entry { AppendsTo words.now.key.moves words.now.key.workers pass.old pass.new (Drain closed.destination closed.source) (reply_of result) }
    ensures step { MakesStep words.now.key.moves (Drain closed.destination closed.source) pass.old pass.new }
    ensures ticket { IsTicketOf words.now.key.moves (caller pass.new) ticket.new }
    ensures left { ticket.new.left ≡ ticket.old.left - 1 }
    ensures same { (ticket.new.region ≡ ticket.old.region) × (ticket.new.next ≡ ticket.old.next) × (ticket.new.right_is_out ≡ ticket.old.right_is_out) × (ticket.new.from ≡ ticket.old.from) }
    ensures moves_slots { held pass.new ≡ rest (held pass.old) }
{
    how_counts_go_down();
    pairs_slide_down();
    let Closed {
        destination,
        source,
        ticket: _,
    } = closed;
    ticket.left -= 1;
    drain_reply(steps::drain::<Held, Brand>(
        words,
        &mut pass.place,
        destination as usize,
        source as usize,
    ))
}

/// Completes a region. The pass gives it back.
pub(crate) fn complete(words: &Words, pass: &mut Pass, ticket: Ticket, written: Written) -> Done
    requires board { board_of pass.old ≡ words.now.table_id }
    requires laid_out { IsLaidOut words.now.table_id words.now.key }
    requires lawful { IsMoveTable words.now.key.moves }
    requires ticket { IsTicketOf words.now.key.moves (caller pass.old) ticket }
    requires none_left { ticket.left ≡ 0 }
    requires written { IsWrittenOf ticket written }
    requires held { GivesRegion words.now.key ticket.region (held pass.old) }
    ensures entry { AppendsTo words.now.key.moves words.now.key.workers pass.old pass.new (Complete ticket.region) Completed }
    ensures step { MakesStep words.now.key.moves (Complete ticket.region) pass.old pass.new }
    ensures done { (result.region ≡ ticket.region) × IsDoneOf (caller pass.new) result }
    ensures moves_slots { held pass.new ≡ rest (held pass.old) }
{
    how_counts_go_down();
    let Ticket {
        region,
        next: _,
        left: _,
        right_is_out: _,
        from,
    } = ticket;
    let Written {
        region: _,
        ticket: _,
    } = written;
    steps::complete::<Held, Brand>(words, &mut pass.place, region as usize);
    Done { region, from }
}

/// Settles a region. Returns whether all are settled now.
pub(crate) fn settle(words: &Words, pass: &mut Pass, remaining: usize, done: Done) -> bool
    requires board { board_of pass.old ≡ words.now.table_id }
    requires laid_out { IsLaidOut words.now.table_id words.now.key }
    requires remaining { remaining ≡ region_count words.now.key.moves }
    requires done { IsDoneOf (caller pass.old) done }
    ensures entry { AppendsTo words.now.key.moves words.now.key.workers pass.old pass.new (Settle done.region) (if result then All else More) }
    ensures step { MakesStep words.now.key.moves (Settle done.region) pass.old pass.new }
    ensures moves_slots { held pass.new ≡ held pass.old }
{
    let Done { region, from: _ } = done;
    steps::settle::<Held, Brand>(words, &mut pass.place, remaining, region as usize) == 1
}

/// Whether all regions to be filled are settled.
pub(crate) fn poll(words: &Words, pass: &mut Pass, remaining: usize) -> bool
    requires board { board_of pass.old ≡ words.now.table_id }
    requires laid_out { IsLaidOut words.now.table_id words.now.key }
    requires remaining { remaining ≡ region_count words.now.key.moves }
    ensures entry { AppendsTo words.now.key.moves words.now.key.workers pass.old pass.new Poll (if result then All else More) }
    ensures step { MakesStep words.now.key.moves Poll pass.old pass.new }
    ensures moves_slots { held pass.new ≡ held pass.old }
{
    steps::poll::<Held, Brand>(words, &mut pass.place, remaining) == 0
}

impl Board {
    /// Claims a region. Returns a ticket if and only if the region is to be filled, unclaimed and without
    /// pending readers. A claimed region never has pending readers. `None` changes nothing.
    pub fn claim(&self, pass: &mut Pass, region: u32) -> Option<Ticket>
        requires board { board_of pass.old ≡ identity self.now }
        requires region { region < region_count (moves self.now) }
        ensures entry { Appends self.now pass.old pass.new (Claim region) (if is_some result then Yes else No) }
        ensures step { TakesStep self.now (Claim region) pass.old pass.new }
        ensures ticket { IfSome result (λ t. (t.region ≡ region) × IsUnused t × IsTicketOf (moves self.now) (caller pass.new) t) }
        ensures left { IfSome result (λ t. t.left ≡ count_by (λ pair. region == pair.0) (moves self.now).pairs) }
        ensures granted { IfSome result (λ _. IsGranted (moves self.now) (worker_count self.now) region (seen pass.new)) }
    {
        claim(&self.table.shared, &self.sources, pass, region)
    }

    /// The status of a region at this moment: claimed, filled, or its number of pending readers.
    pub fn look(&self, pass: &mut Pass, region: u32) -> Reply
        requires board { board_of pass.old ≡ identity self.now }
        requires region { region < region_count (moves self.now) }
        ensures entry { Appends self.now pass.old pass.new (Look region) result }
        ensures step { TakesStep self.now (Look region) pass.old pass.new }
    {
        look(&self.table.shared, pass, region)
    }

    /// Reports that all words that the ticket's region takes from a source are copied. Returns `Last` if
    /// the source has no pending readers left.
    pub fn drain(&self, pass: &mut Pass, ticket: &mut Ticket, closed: Closed) -> Drained
        requires board { board_of pass.old ≡ identity self.now }
        requires ticket { IsTicketOf (moves self.now) (caller pass.old) ticket.old }
        requires closed { IsClosedOf (moves self.now) (caller pass.old) ticket.old closed }
        ensures entry { Appends self.now pass.old pass.new (Drain closed.destination closed.source) (reply_of result) }
        ensures step { TakesStep self.now (Drain closed.destination closed.source) pass.old pass.new }
        ensures ticket { IsTicketOf (moves self.now) (caller pass.new) ticket.new }
        ensures left { ticket.new.left ≡ ticket.old.left - 1 }
        ensures same { (ticket.new.region ≡ ticket.old.region) × (ticket.new.next ≡ ticket.old.next) × (ticket.new.right_is_out ≡ ticket.old.right_is_out) × (ticket.new.from ≡ ticket.old.from) }
    {
        drain(&self.table.shared, pass, ticket, closed)
    }

    /// Reports that all words of the ticket's region are written.
    pub fn complete(&self, pass: &mut Pass, ticket: Ticket, written: Written) -> Done
        requires board { board_of pass.old ≡ identity self.now }
        requires ticket { IsTicketOf (moves self.now) (caller pass.old) ticket }
        requires none_left { ticket.left ≡ 0 }
        requires written { IsWrittenOf ticket written }
        ensures entry { Appends self.now pass.old pass.new (Complete ticket.region) Completed }
        ensures step { TakesStep self.now (Complete ticket.region) pass.old pass.new }
        ensures done { (result.region ≡ ticket.region) × IsDoneOf (caller pass.new) result }
    {
        complete(&self.table.shared, pass, ticket, written)
    }

    /// Reports that the worker is done with the region. Returns whether all regions to be filled are
    /// settled now.
    pub fn settle(&self, pass: &mut Pass, done: Done) -> bool
        requires board { board_of pass.old ≡ identity self.now }
        requires done { IsDoneOf (caller pass.old) done }
        ensures entry { Appends self.now pass.old pass.new (Settle done.region) (if result then All else More) }
        ensures step { TakesStep self.now (Settle done.region) pass.old pass.new }
    {
        settle(&self.table.shared, pass, self.sources.len(), done)
    }

    /// Whether all regions to be filled are settled.
    pub fn poll(&self, pass: &mut Pass) -> bool
        requires { board_of pass.old ≡ identity self.now }
        ensures entry { Appends self.now pass.old pass.new Poll (if result then All else More) }
        ensures step { TakesStep self.now Poll pass.old pass.new }
    {
        poll(&self.table.shared, pass, self.sources.len())
    }
}
