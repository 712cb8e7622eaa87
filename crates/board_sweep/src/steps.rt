//! The lines of `board --steps`: the calls of both sweeps in one order, each with its answer.
ghost use Rattle.std.specs.Prelude.{◌≡◌, ◌<◌};

use crate::two_workers::three_regions;
use scheduler::{Event, GivenMoves, Moves, Reply, Scheduler};
use std::alloc::{AllocError, Global};

/// In how many rounds both sweeps end. A worker makes at most 11 calls: 3 claims, 2 drains, 3 completions, and settles 3
/// regions.
const ROUNDS: u32 = 11;

/// A line for each call of both workers, in the order in which worker 0 makes two calls, then worker 1 makes one, and so
/// on.
///
/// The scheduler of one thread answers. It defines what a board answers to the same calls in this order.
pub fn steps_of_two_workers(alloc: Global) -> Result<String, AllocError> {
    let mut text = String::new(alloc);
    let mut calls = Calls::new(alloc)?;
    let mut first = Sweep::new();
    let mut second = Sweep::new();
    for _ in 0..ROUNDS {
        calls.make_next(0, &mut first, &mut text)?;
        calls.make_next(0, &mut first, &mut text)?;
        calls.make_next(1, &mut second, &mut text)?;
    }
    Ok(text)
}

/// How far a worker's sweep has come.
#[derive(Clone, Copy)]
struct Sweep {
    region: u32,
    stage: Stage,
}

/// What a worker does next with the region of its sweep.
#[derive(Clone, Copy)]
enum Stage {
    Claim,
    /// Drain the next source from this one on, or else complete the region.
    Fill(u32),
    Settle,
}

impl Sweep {
    fn new() -> Sweep {
        Sweep {
            region: 0,
            stage: Stage::Claim,
        }
    }

    /// The next call. None once the sweep has ended.
    fn next(&self, moves: &GivenMoves) -> Option<Event> {
        if self.region >= moves.regions() {
            return None;
        }
        Some(match self.stage {
            Stage::Claim => Event::Claim(self.region),
            Stage::Fill(from) => match moves.next_source(self.region, from) {
                Some(source) => Event::Drain(self.region, source),
                None => Event::Complete(self.region),
            },
            Stage::Settle => Event::Settle(self.region),
        })
    }

    /// The sweep after a call that was answered so.
    fn after(self, event: Event, reply: Reply) -> Sweep {
        let region = self.region;
        let stage = match (event, reply) {
            (Event::Claim(_), Reply::Yes) => Stage::Fill(0),
            (Event::Drain(_, source), _) => Stage::Fill(source.saturating_add(1)),
            (Event::Complete(_), _) => Stage::Settle,
            _ => {
                return Sweep {
                    region: region.saturating_add(1),
                    stage: Stage::Claim,
                };
            }
        };
        Sweep { region, stage }
    }
}

/// The calls so far.
#[derive(Drop)]
struct Calls {
    moves: GivenMoves,
    scheduler: Scheduler,
    /// The pairs that are drained.
    drained: Vec<(u32, u32)>,
    ghost manned: { scheduler.workers ≡ 2 },
}

impl Calls {
    fn new(alloc: Global) -> Result<Calls, AllocError> {
        let moves = three_regions(alloc)?;
        let scheduler = Scheduler::new(alloc, &moves, 2)?;
        Ok(Calls {
            moves,
            scheduler,
            drained: Vec::new(alloc),
        })
    }

    /// Makes the next call of this worker's sweep, if there is one, and appends its line.
    fn make_next(
        &mut self,
        worker: u32,
        sweep: &mut Sweep,
        text: &mut String,
    ) -> Result<(), AllocError>
        requires { worker < 2 }
    {
        let Some(event) = sweep.next(&self.moves) else {
            return Ok(());
        };
        // A sweep makes no call that isn't allowed.
        let Ok(reply) = self.scheduler.step(worker, event) else {
            return Ok(());
        };
        write!(text, "worker {worker} ")?;
        push_call(text, event)?;
        self.push_answer(text, event, reply)?;
        if let Event::Drain(destination, source) = event {
            self.drained.push((destination, source))?;
        }
        *sweep = sweep.after(event, reply);
        Ok(())
    }

    /// Appends the reply with its reason.
    fn push_answer(
        &mut self,
        text: &mut String,
        event: Event,
        reply: Reply,
    ) -> Result<(), AllocError> {
        match (event, reply) {
            (Event::Claim(region), Reply::No) => self.push_refusal(text, region),
            (Event::Drain(_, source), Reply::Last) => {
                writeln!(text, "{reply}, nothing is pending on {source}")
            }
            _ => writeln!(text, "{reply}"),
        }
    }

    /// Appends why a claim of this region is refused.
    fn push_refusal(&mut self, text: &mut String, region: u32) -> Result<(), AllocError> {
        match self.scheduler.step(0, Event::Look(region)) {
            Ok(Reply::Claimed) => text.push_str("no, claimed already\n"),
            Ok(Reply::Filled) => text.push_str("no, filled already\n"),
            _ => {
                text.push_str("no, pending:")?;
                push_pending(text, self.moves.pairs(), self.drained.as_slice(), region)?;
                text.push_str("\n")
            }
        }
    }
}

/// Appends the call.
fn push_call(text: &mut String, event: Event) -> Result<(), AllocError> {
    match event {
        Event::Claim(region) => write!(text, "claims {region}: "),
        Event::Drain(destination, source) => write!(text, "drains {source} into {destination}: "),
        Event::Complete(region) => write!(text, "completes {region}: "),
        Event::Settle(region) => write!(text, "settles {region}: "),
        other => write!(text, "{other}: "),
    }
}

/// Appends the pairs with this source that aren't drained.
fn push_pending(
    text: &mut String,
    pairs: &[(u32, u32)],
    drained: &[(u32, u32)],
    source: u32,
) -> Result<(), AllocError> {
    for &(destination, other) in pairs {
        if other == source && !is_among(drained, destination, source) {
            write!(text, " {source} into {destination}")?;
        }
    }
    Ok(())
}

fn is_among(pairs: &[(u32, u32)], destination: u32, source: u32) -> bool {
    pairs
        .iter()
        .any(|pair| pair.0 == destination && pair.1 == source)
}
