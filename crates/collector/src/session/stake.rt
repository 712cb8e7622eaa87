//! What a share has of its session, which it gives back.
ghost use Rattle.std.specs.Prelude.{◌≡◌, ℕ, ◌+◌, ◌≤◌, IfSome};
ghost use Rattle.claim_board.specs.Boards.{board_of};
ghost use Rattle.claim_board.specs.RegionBoards.{identity};
ghost use Rattle.collector.specs.Rest.{Rests};
ghost use Rattle.collector.specs.SessionIds.{SessionView};
ghost use Rattle.collector.specs.Stakes.{IsOfHeap, IsStakeOf};

use super::Session;
use super::session_id::SessionId;
use claim_board::Pass;
use counted_slot::Fits;
use read_shares::{Deed, ReadShare, unite};
use std::alloc::Global;

/// The right to have a session back, and all parts of it that no stake has.
#[derive(Drop)]
pub(crate) struct SessionDeed {
    pub(crate) deed: Deed<Option<Session>, Global>,
    pub(crate) rest: ReadShare<Option<Session>>,
}

/// Parts of a session, its worker's pass, and in one of its shares the right to have the session back.
#[derive(Drop)]
pub(crate) struct Stake {
    pub(crate) session: ReadShare<Option<Session>>,
    pub(crate) pass: Pass,
    pub(crate) lead: Option<SessionDeed>,
}

impl Fits for Stake {
    ghost use Rattle.collector.specs.Stakes.{IsStakeOf};

    type Tag = SessionId;

    ghost fits = { λ id stake. IsStakeOf id 1 stake };
}

impl Stake {
    /// Adds the parts of another stake in the same session.
    pub(crate) fn join(&mut self, other: Stake)
        requires { (id : SessionView) × (parts : ℕ) × (parts ≤ 64) × IsStakeOf id 1 self.old × IsStakeOf id parts other }
        ensures { (id : SessionView) (parts : ℕ) → IsStakeOf id 1 self.old → IsStakeOf id parts other
            → IsStakeOf id (parts + 1) self.new }
    {
        self.session.join(other.session);
    }

    /// The session and a pass of its board, for the stakes of all workers joined into one that has the right to have it
    /// back. `None` if it hasn't.
    pub(crate) fn into_session(self) -> Option<(Session, Pass)>
        requires { (id : SessionView) × IsStakeOf id id.workers self }
        ensures heap { (id : SessionView) → IsStakeOf id id.workers self → IfSome result (λ r. IsOfHeap id.heap r.0) }
        ensures seated { IfSome result (λ r. board_of r.1 ≡ identity r.0.shared.desk) }
        ensures rests { IfSome result (λ r. Rests r.1) }
    {
        let Stake {
            session,
            pass,
            lead,
        } = self;
        let SessionDeed { deed, mut rest } = lead?;
        rest.join(session);
        let session = Box::into_inner(unite(deed, rest))?;
        Some((session, pass))
    }
}
