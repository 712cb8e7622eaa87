use crate::collection::Run;
use crate::timed_gate::TimedGate;
use collector::Gate;
use std::sync::Wait;
use std::sync::atomic::{AtomicU64, Ordering};
use std::time::{Clock, Duration};

/// How often a worker sleeps in vain, and for how many milliseconds: a tenth of a second in all.
const PAUSES: u32 = 10;

const PAUSE_MILLISECONDS: u64 = 10;

/// A timed gate at which workers take turns, if the run says so. There are rounds, and in each every worker fills one
/// region: whoever has filled waits until the others have.
///
/// It waits behind the fill, with its region completed. If it waited before the next fill, it would have claimed what
/// another is to take, often the only region that is ready. So whatever is free goes to those that are still to fill.
///
/// The wait is bounded. After one in vain a new round begins, without those for whom it waited, until they fill again: such
/// a worker has no processor, no thread of its own, or nothing left to fill.
#[derive(Drop)]
pub struct TurnGate<'h, H> {
    rt: &'h H,
    timed: TimedGate<'h, H>,
    /// A bit for each worker that takes part in the next round, from bit 0 on.
    present: AtomicU64,
    /// The bits of the workers that are still to fill in this round.
    awaited: AtomicU64,
    /// The number of rounds that have ended. It wraps around.
    round: AtomicU64,
    takes_turns: bool,
}

impl<'h, H: Clock> TurnGate<'h, H> {
    /// The gate of this run.
    pub fn new(rt: &'h H, run: &Run<'_, H>) -> TurnGate<'h, H> {
        let all = all_workers(run.workers);
        TurnGate {
            rt,
            timed: TimedGate::new(rt, run.times.watch()),
            present: AtomicU64::new(all),
            awaited: AtomicU64::new(all),
            round: AtomicU64::new(0),
            takes_turns: run.turns,
        }
    }

    /// The gate that records the times.
    pub fn timed(&self) -> &TimedGate<'h, H> {
        &self.timed
    }

    /// Ends the round in which nobody is awaited any more.
    fn end_round(&self) {
        let present = self.present.load(Ordering::SeqCst);
        self.awaited.store(present, Ordering::SeqCst);
        self.round.fetch_add(1, Ordering::SeqCst);
        self.round.wake_all();
    }
}

impl<H: Clock + Wait> TurnGate<'_, H> {
    /// Ends the worker's turn, and waits for the end of the round.
    fn end_turn(&self, worker: u32) {
        let others = !bit_of(worker);
        let round = self.round.load(Ordering::SeqCst);
        if self.awaited.fetch_and(others, Ordering::SeqCst) & others == 0 {
            return self.end_round();
        }
        let pause = Duration::from_millis(PAUSE_MILLISECONDS);
        for _ in 0..PAUSES {
            self.round
                .park_timeout(self.rt, (round & 0xffff_ffff) as u32, pause);
            if self.round.load(Ordering::SeqCst) != round {
                return;
            }
        }
        let awaited = self.awaited.load(Ordering::SeqCst);
        self.present.fetch_and(!awaited, Ordering::SeqCst);
        self.end_round();
    }
}

impl<H: Clock + Wait> Gate for TurnGate<'_, H> {
    ghost may_refuse = { λ _ _ _. ⊥ };

    fn before_fill(&self, worker: u32, region: u32) -> bool {
        self.present.fetch_or(bit_of(worker), Ordering::SeqCst);
        self.timed.before_fill(worker, region)
    }

    fn after_complete(&self, worker: u32, region: u32) {
        self.timed.after_complete(worker, region);
        if self.takes_turns {
            self.end_turn(worker);
        }
    }
}

/// The bits of this number of workers, of which a collection has at most 64.
fn all_workers(workers: u32) -> u64 {
    let others = 64u32.saturating_sub(workers);
    u64::MAX.checked_shr(others).unwrap_or(0)
}

fn bit_of(worker: u32) -> u64 {
    1u64.rotate_left(worker)
}
