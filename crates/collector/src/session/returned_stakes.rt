//! Where the shares of a session leave what they have of it.
ghost use Rattle.std.specs.Prelude.{◌≡◌, ◌<◌, ◌≤◌, ◌+◌, All, IfOk, IfSome, vec_len};
ghost use Rattle.claim_board.specs.Boards.{board_of};
ghost use Rattle.claim_board.specs.RegionBoards.{identity};
ghost use Rattle.collector.specs.Rest.{Rests};
ghost use Rattle.collector.specs.Stakes.{IsOfHeap, IsStakeOf};

use super::Session;
use super::session_id::SessionId;
use super::stake::Stake;
use claim_board::Pass;
use counted_slot::{Counted, FREE, TAKEN};
use std::alloc::{AllocError, Global};
use std::marker::Model;

/// A slot for each worker of a session, in which its share leaves its stake.
pub(crate) struct ReturnedStakes {
    id: SessionId,
    slots: Vec<Counted<Option<Stake>>>,
}

impl Drop for ReturnedStakes {
    /// Once all stakes are back, the session is dropped with them.
    fn drop(self) {
        drop(self.into_session());
    }
}

impl Model for ReturnedStakes {
    ghost use Rattle.collector.specs.SessionIds.{AreSlots, SessionView};

    ghost Value = { SessionView };

    ghost view = { λ r. r.id };

    ghost invariant = { λ r. AreSlots r.id r.slots.items };
}

impl ReturnedStakes {
    /// Free slots for the workers of a session.
    pub(crate) fn new(alloc: Global, id: SessionId) -> Result<ReturnedStakes, AllocError>
        requires some { 1 ≤ id.workers }
        requires few { id.workers ≤ 64 }
        ensures { IfOk result (λ returned. returned ≡ id) }
    {
        let mut slots = Vec::with_capacity(alloc, id.workers() as usize)?;
        for _ in 0..id.workers() {
            slots.push_reserved(Counted::new(None, &id));
        }
        Ok(ReturnedStakes { id, slots })
    }

    /// Leaves the stake of this worker in its slot. No one else turns the slot, so the turn wins. No contract says so; if it
    /// lost, the session would never come back.
    pub(crate) fn put(&self, number: u32, stake: Stake)
        requires inside { number < self.now.workers }
        requires stake { IsStakeOf self.now 1 stake }
    {
        let (found, claim) = self.slots[number as usize].turn(FREE, TAKEN);
        if found == FREE {
            claim.put(Some(stake), FREE);
        } else {
            claim.done();
        }
    }

    /// The session and a pass of its board, if all stakes are back.
    pub(crate) fn into_session(self) -> Option<(Session, Pass)>
        ensures heap { IfSome result (λ r. IsOfHeap self.heap r.0) }
        ensures seated { IfSome result (λ r. board_of r.1 ≡ identity r.0.shared.desk) }
        ensures rests { IfSome result (λ r. Rests r.1) }
    {
        let ReturnedStakes { id: _, mut slots } = self;
        let mut stake = slots.pop()?.into_inner()?;
        while let Some(slot) = slots.pop() {
            let mut below = slot.into_inner()?;
            below.join(stake);
            stake = below;
        }
        stake.into_session()
    }
}
