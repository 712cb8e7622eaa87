//! `Ledger`: the word machine without its heap.

ghost use Rattle.std.specs.Prelude.{◌≡◌, ◌+◌, ◌^◌, ◌<◌, ◌≤◌, ◌↔◌, ℕ, length, slice_index, IsTrue, IfOk, OnErr, IfErr};
ghost use Rattle.scheduler.specs.MoveTable.{reads};
ghost use Rattle.scheduler.specs.State.{AllAreSettled, Allows};
ghost use Rattle.scheduler.specs.Scheduler.{state_in};
ghost use Rattle.scheduler.specs.History.{entry};
ghost use Rattle.scheduler.specs.ImageMoves.{image_table};
ghost use Rattle.history.specs.Slide.{Machine, IsMachineStep, IsCopiedOut, AllowsWords, words_of};
ghost use Rattle.history.specs.WordMachine.{image_slide, machine_start};
ghost use Rattle.history.specs.Replay.{IsCallOfLine};
ghost use Rattle.history.specs.Ledger.{IsLedger, Tells, Leads, RefusesLine, HasCause, AreWrittenBy, taken_up_to};
ghost use Rattle.history.specs.Replayed.{places_of};
ghost use Rattle.scheduler.specs.declared.reply.Reply.{Reply};

use super::line_cause::LineCause;
use scheduler::{Event, Illegal, Line, Reply, Scheduler, moves_of_images};
use std::alloc::{AllocError, Global};
use summary::Plan;
use summary::laws::plan_laws;
use summary::laws::plans::planned_image_is_valid;

/// The scheduler and the number of words written in each region: the word machine without its heap.
pub(crate) struct Ledger {
    scheduler: Scheduler,
    /// For each region, the number of its words below the new top that are written.
    written: Vec<u32>,
}

impl Drop for Ledger {
    fn drop(self) {
        let Self { scheduler, written } = self;
    }
}

impl Ledger {
    /// Makes the ledger of the word machine at the start.
    pub(crate) fn new(alloc: Global, plan: &Plan, workers: u32) -> Result<Ledger, AllocError>
        requires { (1 ≤ workers) × (workers ≤ 64) }
        ensures kept { IfOk result (IsLedger plan.now workers) }
        ensures opening { IfOk result (λ ledger. Tells ledger (machine_start plan.now)) }
    {
        let scheduler = Scheduler::new(alloc, plan, workers)?;
        let written = vec![in alloc; 0; Plan::regions(plan) as usize]?;
        Ok(Ledger { scheduler, written })
    }

    /// Makes the call of a line. Returns the reply if the word machine allows the event and the line has
    /// this reply or none, and otherwise the cause. After an error the ledger must not be used again.
    pub(crate) fn follow(&mut self, plan: &Plan, line: Line) -> Result<Reply, LineCause>
        requires kept { IsLedger plan.now self.old.scheduler.workers self.old }
        requires worker { line.worker < self.old.scheduler.workers }
        ensures kept { IfOk result (λ reply. IsLedger plan.now self.old.scheduler.workers self.new) }
        ensures call { IfOk result (λ reply. IsCallOfLine line (entry line.worker line.event reply)) }
        ensures leads { IfOk result (λ reply. Leads plan.now self.old.scheduler.workers self.old (entry line.worker line.event reply) self.new) }
        ensures refused { OnErr result (RefusesLine plan.now self.old.scheduler.workers self.old line) }
        ensures cause { IfErr result (HasCause plan.now self.old.scheduler.workers self.old line) }
    {
        let Ok(reply) = self.step(plan, line.worker, line.event) else {
            return Err(LineCause::NotAllowed);
        };
        match line.reply {
            Some(expected) if expected != reply => Err(LineCause::OtherReply(reply)),
            _ => Ok(reply),
        }
    }

    /// Whether all regions to be filled are settled.
    pub(crate) fn is_done(&self) -> bool
        ensures { IsTrue result ↔ AllAreSettled self.now.scheduler.moves (state_in self.now.scheduler) }
    {
        self.scheduler.is_done()
    }

    /// The number of words of a region that are written.
    fn written(&self, region: u32) -> u32
        ensures { result ≡ slice_index self.now.written.items region }
    {
        self.written.get(region as usize).copied().unwrap_or(0)
    }

    /// The first address that an event writes and the number of words, if the word machine allows it.
    pub(crate) fn places(&self, plan: &Plan, event: Event) -> (u64, u32)
        ensures { result ≡ places_of plan.now self.now event }
    {
        match event {
            Event::Copy(region, words) => {
                let start = u64::from(region) * plan.region_words();
                (start + u64::from(self.written(region)), words)
            }
            _ => (0, 0),
        }
    }

    /// One step of the word machine.
    fn step(&mut self, plan: &Plan, worker: u32, event: Event) -> Result<Reply, Illegal>
        requires kept { IsLedger plan.now self.old.scheduler.workers self.old }
        requires worker { worker < self.old.scheduler.workers }
        ensures kept { IfOk result (λ reply. IsLedger plan.now self.old.scheduler.workers self.new) }
        ensures leads { IfOk result (λ reply. Leads plan.now self.old.scheduler.workers self.old (entry worker event reply) self.new) }
        ensures illegal { OnErr result ((w : Machine) → Tells self.old w → (reply : Reply)
            → ¬ (IsMachineStep (image_table plan.now) (image_slide plan.now) self.old.scheduler.workers w (entry worker event reply))) }
    {
        if !self.scheduler.allows(worker, event) || !self.allows_words(plan, event) {
            return Err(Illegal);
        }
        plan_laws();
        planned_image_is_valid(plan);
        let reply = self.scheduler.step(worker, event)?;
        note(&mut self.written, event);
        Ok(reply)
    }

    /// Whether the written words allow an event that the scheduler allows.
    fn allows_words(&self, plan: &Plan, event: Event) -> bool
        requires { (d s : ℕ) → event ≡ Event.Drain d s → IsTrue (reads (image_table plan.now) d s) }
        ensures { (w : Machine) → Tells self.now w → IsTrue result ↔ AllowsWords (image_slide plan.now) w event }
    {
        match event {
            Event::Drain(destination, source) => self.is_copied_out(plan, destination, source),
            Event::Complete(region) => u64::from(self.written(region)) == words_of(plan, region),
            Event::Copy(region, words) => {
                u64::from(self.written(region)) + u64::from(words) <= words_of(plan, region)
            }
            Event::Claim(_) | Event::Look(_) | Event::Settle(_) | Event::Poll => true,
        }
    }

    /// Whether all words that go from the source to the destination are written.
    fn is_copied_out(&self, plan: &Plan, destination: u32, source: u32) -> bool
        requires { IsTrue (reads (image_table plan.now) destination source) }
        ensures { (w : Machine) → Tells self.now w → IsTrue result ↔ IsCopiedOut (image_slide plan.now) w destination source }
    {
        plan_laws();
        moves_of_images();
        planned_image_is_valid(plan);
        u64::from(self.written(destination)) >= taken_up_to(plan, destination, source)
    }
}

/// Counts the words that the event writes.
fn note(written: &mut [u32], event: Event)
    requires { (d n : ℕ) → event ≡ Event.Copy d n → (d < length written.old) × (slice_index written.old d + n < 2 ^ 32) }
    ensures { AreWrittenBy event written.old written.new }
{
    if let Event::Copy(region, words) = event {
        written[region as usize] += words;
    }
}

/// The number of words of a region below the new top.
fn words_of(plan: &Plan, region: u32) -> u64
    ensures { result ≡ words_of (image_slide plan.now) region }
{
    let size = plan.region_words();
    let start = u64::from(region) * size;
    size.min(plan.new_top().saturating_sub(start))
}

/// The number of words from the destination's start up to the last one that comes from the source.
fn taken_up_to(plan: &Plan, destination: u32, source: u32) -> u64
    requires { IsTrue (reads (image_table plan.now) destination source) }
    ensures { result ≡ taken_up_to plan.now destination source }
{
    plan_laws();
    moves_of_images();
    let size = plan.region_words();
    let region = plan.region(source);
    let end = region.destination + u64::from(region.partial) + u64::from(region.live);
    size.min(end.saturating_sub(u64::from(destination) * size))
}
