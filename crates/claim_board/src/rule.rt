//! The rule of the board's table, and what each kind of step adds to a history or shows of it. It is generic in what a slot
//! holds, `X`. A table may have no slots.

pub(crate) mod foreseen;
pub(crate) mod key;
pub(crate) mod steps;
pub(crate) mod table_key;
pub(crate) mod view;

use crate::regions::holding::Holding;
use atomic_table::{Join, Play, Split, TableRule};
use std::marker::{Brand, PhantomData};
use table_key::TableKey;
use view::View;

/// What a slot of a board holds.
pub(crate) type Held = Holding;

/// The words and slots of a board, as threads share them.
pub(crate) type Words = steps::Words<Held>;

/// A seat of a board.
pub(crate) type Place = steps::Place<Held>;

/// The words have the values that one legal history determines, and the slots what it says of the regions.
pub struct Law;

impl<X> TableRule<Option<X>, View, TableKey<X>> for Law {
    ghost use Rattle.claim_board.specs.Slots.{kept, all_workers};

    ghost holds = { kept };

    ghost first = { all_workers };
}

/// The entry that a step adds, and the slots of the table that it may move.
pub trait About<X> {
    ghost use Rattle.std.specs.Prelude.{ℕ, Option};
    ghost use Rattle.scheduler.specs.MoveTable.{MoveTable};
    ghost use Rattle.scheduler.specs.declared.event.Event.{Event};
    ghost use Rattle.scheduler.specs.declared.reply.Reply.{Reply};

    ghost moves: { MoveTable };

    ghost workers: { ℕ };

    ghost event: { Event };

    /// The reply, from the value that the step finds.
    ghost reply: { ℕ → Reply };

    /// The number of slots.
    ghost slots: { ℕ };

    /// The first value of each slot.
    ghost first: { ℕ → Option X };
}

impl About<Held> for Brand {
    ghost use Rattle.std.specs.Prelude.{[], None};
    ghost use Rattle.scheduler.specs.declared.event.Event.TheVariants.{Poll};
    ghost use Rattle.scheduler.specs.declared.reply.Reply.TheVariants.{More};

    ghost moves = { record { fill = []; pairs = [] } };

    ghost workers = { 0 };

    ghost event = { Poll };

    ghost reply = { λ _. More };

    ghost slots = { 0 };

    ghost first = { λ _. None };
}

/// The step adds one entry, and moves what the entry says.
pub struct Adds<E> {
    about: PhantomData<E>,
}

impl<X, E: About<X>> Play<Option<X>, View> for Adds<E> {
    ghost use Rattle.claim_board.specs.Slots.{moved_and_added};

    ghost then = { moved_and_added E.moves E.slots E.first E.workers E.event E.reply };
}

/// The first of the seat's workers gets its own seat.
pub struct Deal;

impl Split<View> for Deal {
    ghost use Rattle.claim_board.specs.Rule.{others_of, first_of};

    ghost left = { others_of };

    ghost right = { first_of };
}

/// One seat passes what it has seen to another.
pub struct Note;

impl Split<View> for Note {
    ghost use Rattle.claim_board.specs.Rule.{note_of};

    ghost left = { λ v. v };

    ghost right = { note_of };
}

impl Join<View> for Note {
    ghost use Rattle.claim_board.specs.Rule.{informed, nobody};

    ghost both = { informed };

    ghost spent = { nobody };
}

/// One seat takes over the workers of another.
pub struct Gather;

impl Join<View> for Gather {
    ghost use Rattle.claim_board.specs.Rule.{gathered, nobody};

    ghost both = { gathered };

    ghost spent = { nobody };
}

/// The seat sees the whole history.
pub struct Sees<E> {
    about: PhantomData<E>,
}

impl<X, E: About<X>> Play<Option<X>, View> for Sees<E> {
    ghost use Rattle.claim_board.specs.Rule.{sees};

    ghost then = { sees E.moves E.workers };
}

/// The seat sees the history that was passed to it.
pub struct Takes;

impl<X> Play<Option<X>, View> for Takes {
    ghost use Rattle.claim_board.specs.Rule.{takes_note};

    ghost then = { takes_note };
}

/// The seat sees the whole history, with the number of regions that aren't settled.
pub struct Surveys<E> {
    about: PhantomData<E>,
}

impl<X, E: About<X>> Play<Option<X>, View> for Surveys<E> {
    ghost use Rattle.claim_board.specs.Rule.{surveys};

    ghost then = { surveys E.moves E.workers };
}
