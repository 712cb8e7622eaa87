//! The memory of a session and its shares, which is taken before there is a session.
ghost use Rattle.std.specs.Prelude.{◌≡◌, ◌+◌, ◌<◌, ◌≤◌, [], All, IfOk, vec_len};
ghost use Rattle.std.specs.Arc.{arc_value};
ghost use Rattle.std.specs.Vec.{vec_capacity};
ghost use Rattle.collector.specs.Rest.{Rests, AreOf};
ghost use Rattle.collector.specs.Sessions.{heap_of};
ghost use Rattle.collector.specs.Stakes.{IsOfHeap, Leads};

use super::Session;
use super::returned_stakes::ReturnedStakes;
use super::session_id::SessionId;
use super::share::Share;
use super::stake::SessionDeed;
use crate::workers::worker::Worker;
use read_shares::{Term, share_out_for};
use std::alloc::{AllocError, Global};
use std::mem;
use std::sync::Arc;

/// The memory of a session of 1 to 64 workers, and of their shares.
#[derive(Drop)]
pub(crate) struct SessionRoom {
    pub(crate) id: SessionId,
    term: Term,
    /// `None`, until the session is there.
    session: Box<Option<Session>, Global>,
    /// Where each share will leave its stake: one value, with an owner for each worker.
    returned: Vec<Arc<ReturnedStakes, Global>>,
    /// Empty, with room for all shares.
    shares: Vec<Share>,
    ghost term_known: { id.origin ≡ term.origin },
    ghost some: { 1 ≤ id.workers },
    ghost few: { id.workers ≤ 64 },
    ghost same: { All (λ r. arc_value r ≡ id) returned.items },
    ghost count: { vec_len returned ≡ id.workers },
    ghost none: { shares.items ≡ [] },
    ghost capacity: { id.workers ≤ vec_capacity shares },
}

impl SessionRoom {
    /// Takes all memory that the shares of a session need that will be shared out for this term. `own` is its id again.
    pub(crate) fn new(
        alloc: Global,
        term: Term,
        id: SessionId,
        own: SessionId,
    ) -> Result<SessionRoom, AllocError>
        requires term { id.origin ≡ term.origin }
        requires same { own ≡ id }
        requires some { 1 ≤ id.workers }
        requires few { id.workers ≤ 64 }
        ensures { IfOk result (λ room. room.id ≡ id) }
    {
        let workers = id.workers();
        let Ok(session) = Box::new(alloc, None) else {
            return Err(AllocError);
        };
        let returned = owners(alloc, own)?;
        let shares = Vec::with_capacity(alloc, workers as usize)?;
        Ok(SessionRoom {
            id,
            term,
            session,
            returned,
            shares,
        })
    }

    /// Puts a session into its room, and deals it to its workers. Takes no memory.
    pub(crate) fn deal(self, session: Session, workers: Vec<Worker>) -> Vec<Share>
        requires heap { IsOfHeap self.id.heap session }
        requires count { vec_len workers ≡ self.id.workers }
        requires queues { vec_len workers ≤ vec_len session.shared.thieves }
        requires seats { AreOf session.shared.desk workers.items }
        requires rest { All (λ w. Rests w.seat.pass) workers.items }
        ensures count { vec_len result ≡ vec_len workers }
        ensures heap { All (λ share. heap_of share ≡ self.id.heap) result.items }
    {
        let SessionRoom {
            id,
            term,
            session: mut room,
            returned,
            shares,
        } = self;
        drop(mem::replace(&mut *room, Some(session)));
        let (deed, rest) = share_out_for(term, room);
        deal_out(&id, SessionDeed { deed, rest }, workers, (returned, shares))
    }
}

/// One owner for each worker of the place where the shares of a session will leave their stakes.
fn owners(alloc: Global, id: SessionId) -> Result<Vec<Arc<ReturnedStakes, Global>>, AllocError>
    requires some { 1 ≤ id.workers }
    requires few { id.workers ≤ 64 }
    ensures same { IfOk result (λ owners. All (λ r. arc_value r ≡ id) owners.items) }
    ensures count { IfOk result (λ owners. vec_len owners ≡ id.workers) }
{
    let workers = id.workers();
    let mut owners = Vec::with_capacity(alloc, workers as usize)?;
    let Ok(first) = Arc::new(alloc, ReturnedStakes::new(alloc, id)?) else {
        return Err(AllocError);
    };
    for _ in 1..workers {
        owners.push_reserved(Arc::try_clone(&first)?);
    }
    owners.push_reserved(first);
    Ok(owners)
}

/// Deals a session to its workers, into a list that has room for all shares. The last share of the list, that of worker 0,
/// has the lead.
fn deal_out(
    id: &SessionId,
    mut lead: SessionDeed,
    mut workers: Vec<Worker>,
    room: (Vec<Arc<ReturnedStakes, Global>>, Vec<Share>),
) -> Vec<Share>
    requires lead { Leads id.now 0 lead workers.items }
    requires count { vec_len workers ≡ id.now.workers }
    requires some { 1 ≤ id.now.workers }
    requires few { id.now.workers ≤ 64 }
    requires returned { All (λ r. arc_value r ≡ id.now) room.0.items × (vec_len room.0 ≡ id.now.workers) }
    requires room { (room.1.items ≡ []) × (id.now.workers ≤ vec_capacity room.1) }
    ensures count { vec_len result ≡ id.now.workers }
    ensures heap { All (λ share. heap_of share ≡ id.now.heap) result.items }
{
    let (mut returned, mut shares) = room;
    while workers.len() > 1 {
        let (Some(worker), Some(own)) = (workers.pop(), returned.pop()) else {
            unreachable!();
        };
        let session = lead.rest.split_one();
        let number = workers.len() as u32;
        shares.push_reserved(Share::new(session, None, worker, number, own));
    }
    let (Some(worker), Some(own)) = (workers.pop(), returned.pop()) else {
        unreachable!();
    };
    let session = lead.rest.split_one();
    shares.push_reserved(Share::new(session, Some(lead), worker, 0, own));
    shares
}
