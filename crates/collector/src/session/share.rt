ghost use Rattle.std.specs.Prelude.{◌≡◌, ◌<◌, length, vec_len, IfOk, IfErr, IfSome};
ghost use Rattle.std.specs.Arc.{arc_value};
ghost use Rattle.object_heap.specs.HeapImage.{region_count};
ghost use Rattle.heap_image.specs.ImageText.{with_tail};
ghost use Rattle.summary.specs.Compaction.{compact};
ghost use Rattle.claim_board.specs.Boards.{board_of};
ghost use Rattle.claim_board.specs.RegionBoards.{identity};
ghost use Rattle.collector.specs.Collections.{figures_of};
ghost use Rattle.collector.specs.NewPlaces.{IsNewPlace};
ghost use Rattle.collector.specs.Rest.{Rests};
ghost use Rattle.collector.specs.Slides.{slid_regions};
ghost use Rattle.collector.specs.Stakes.{IsOfHeap, IsStake};

use super::Session;
use super::new_place::NewPlace;
use super::progress::Progress;
use super::returned_stakes::ReturnedStakes;
use super::stake::{SessionDeed, Stake};
use crate::outcome::{Figures, Outcome};
use crate::workers::worker::Worker;
use claim_board::Pass;
use crossbeam_utils::Backoff;
use heap_image::{Fault, Image};
use raw_region::Region;
use read_shares::ReadShare;
use std::alloc::Global;
use std::sync::Arc;
use std::sync::atomic::Ordering;
use summary::WordPlaces;

/// One worker's part in a session, which one thread at a time may use. The last share that is dropped frees the session.
pub struct Share {
    session: ReadShare<Option<Session>>,
    lead: Option<SessionDeed>,
    worker: Worker,
    number: u32,
    pub(crate) returned: Arc<ReturnedStakes, Global>,
    ghost stake: { IsStake (arc_value returned) 1 session worker.seat.pass lead },
    ghost numbered: { number < (arc_value returned).workers },
}

impl Drop for Share {
    fn drop(self) {
        drop(self.leave());
    }
}

impl Share {
    ghost use Rattle.collector.specs.Sessions.{heap_of, image_of, held_of};

    /// The part of the worker with this number, which has not begun. It will leave its stake there.
    pub(crate) fn new(
        session: ReadShare<Option<Session>>,
        lead: Option<SessionDeed>,
        worker: Worker,
        number: u32,
        returned: Arc<ReturnedStakes, Global>,
    ) -> Share
        requires stake { IsStake (arc_value returned) 1 session worker.seat.pass lead }
        requires numbered { number < (arc_value returned).workers }
        ensures { result.returned ≡ returned }
    {
        Share {
            session,
            lead,
            worker,
            number,
            returned,
        }
    }

    /// Fills regions that are ready, at most `turns`. Returns at once if none is ready. Allocates nothing, never waits, and
    /// can't fail.
    pub fn work(&mut self, turns: u64) -> Progress
        ensures { heap_of self.new ≡ heap_of self.old }
    {
        let Some(session) = self.session.get() else {
            unreachable!();
        };
        session.work(self.number, &mut self.worker, turns)
    }

    /// Fills regions until all are settled, and spins while none is ready. Allocates nothing, and can't fail.
    pub fn work_all(&mut self)
        ensures { heap_of self.new ≡ heap_of self.old }
    {
        let backoff = Backoff::new();
        for _ in 0..u64::MAX {
            if self.work(u64::MAX) == Progress::Settled {
                break;
            }
            backoff.spin();
        }
    }

    /// Ends the session, and returns the compaction and its figures. `others` are the shares of all other workers. Fills
    /// what is left to fill, and cleans up, in the caller's thread.
    ///
    /// Fails with fault 12 if these aren't all shares of one session. The image is lost then.
    pub fn end(mut self, others: Vec<Share>) -> Result<Outcome, Fault>
        ensures image { IfOk result (λ outcome. outcome.image ≡ compact (image_of self)) }
        ensures figures { IfOk result (λ outcome. outcome.figures ≡ figures_of (image_of self)) }
        ensures fault { IfErr result (λ fault. fault ≡ Fault.Workers) }
    {
        if self.workers() != others.len() + 1 {
            return Err(Fault::Workers);
        }
        self.fill_rest();
        drop(others);
        let ended = match self.into_session() {
            Some((session, pass)) => session.finish(pass),
            None => None,
        };
        match ended {
            Some(outcome) => Ok(outcome),
            None => Err(Fault::Workers),
        }
    }

    /// Ends a session that slides opaque objects, and returns its regions and figures, as [`end`](Share::end) does an image's.
    /// References are the host's: nothing in the objects is redirected.
    ///
    /// Fails with fault 12 if these aren't all shares of one such session. The regions are lost then.
    pub fn end_slide(mut self, others: Vec<Share>) -> Result<(Vec<Region>, Figures), Fault>
        ensures words { IfOk result (λ done. IfSome (held_of self) (λ blocks. done.0.items ≡ slid_regions (image_of self) blocks)) }
        ensures figures { IfOk result (λ done. done.1 ≡ figures_of (image_of self)) }
        ensures fault { IfErr result (λ fault. fault ≡ Fault.Workers) }
    {
        if self.workers() != others.len() + 1 {
            return Err(Fault::Workers);
        }
        self.fill_rest();
        drop(others);
        let Some((session, pass)) = self.into_session() else {
            return Err(Fault::Workers);
        };
        match session.finish_slide(pass) {
            Some(done) => Ok(done),
            None => Err(Fault::Workers),
        }
    }

    /// Returns the image of a session in which no region was claimed, by its last share. `None` if there are other shares, or
    /// a region was claimed.
    pub fn give_back(self) -> Option<Image>
        ensures { IfSome result (λ image. image ≡ image_of self) }
    {
        let (session, _pass) = self.into_session()?;
        session.into_image()
    }

    /// Where the session takes the word at this address, the first of its object or not. It is known from the beginning.
    pub fn new_place(&self, address: u64) -> NewPlace
        ensures { IsNewPlace (image_of self.now) address result }
    {
        NewPlace::of(&self.places(), address)
    }

    /// Where each word goes, for who asks of many.
    pub fn places(&self) -> WordPlaces<'_>
        ensures { result ≡ image_of self.now }
    {
        self.session().shared.survey.plan().word_places()
    }

    /// How many regions the heap of the session has.
    pub fn regions(&self) -> u32
        ensures { result ≡ region_count (image_of self.now) }
    {
        self.session().shared.survey.plan().regions()
    }

    /// How many live addresses the session's image has in version 1, otherwise how many roots.
    pub fn numbers(&self) -> usize
        ensures { result ≡ length (with_tail (image_of self.now)).live }
    {
        self.session().numbers
    }

    /// Counts this share as presented to end its session.
    pub fn count_in(&self) {
        self.session().presented.fetch_add(1, Ordering::SeqCst);
    }

    /// Takes this share out of that count.
    pub fn count_out(&self) {
        self.session().presented.fetch_sub(1, Ordering::SeqCst);
    }

    /// Whether exactly `shares` shares are counted, and the session has no other.
    pub fn are_all_counted(&self, shares: usize) -> bool {
        self.session().presented.load(Ordering::SeqCst) == shares && self.workers() == shares
    }

    /// The number of workers of the session.
    fn workers(&self) -> usize {
        self.session().shared.thieves.len()
    }

    fn session(&self) -> &Session
        ensures image { result.now.shared.survey ≡ image_of self.now }
    {
        match self.session.get() {
            Some(session) => session,
            None => unreachable!(),
        }
    }

    /// Fills what is left to fill, once no other share works.
    fn fill_rest(&mut self)
        ensures { heap_of self.new ≡ heap_of self.old }
    {
        let Some(session) = self.session.get() else {
            unreachable!();
        };
        session.fill_rest(self.number, &mut self.worker.seat);
    }

    /// The session whose last share this is, and a pass of its board.
    fn into_session(self) -> Option<(Session, Pass)>
        ensures heap { IfSome result (λ r. IsOfHeap (heap_of self) r.0) }
        ensures seated { IfSome result (λ r. board_of r.1 ≡ identity r.0.shared.desk) }
        ensures rests { IfSome result (λ r. Rests r.1) }
    {
        match Arc::try_unwrap(self.leave()) {
            Ok(returned) => returned.into_session(),
            Err(_others) => None,
        }
    }

    /// Leaves the stake of this share where those of the session come together.
    fn leave(self) -> Arc<ReturnedStakes, Global>
        ensures { result ≡ self.returned }
    {
        let Share {
            session,
            lead,
            worker,
            number,
            returned,
        } = self;
        let pass = worker.into_pass();
        returned.put(
            number,
            Stake {
                session,
                pass,
                lead,
            },
        );
        returned
    }
}
