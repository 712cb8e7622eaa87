ghost use Rattle.std.specs.Prelude.{◌≡◌, ◌<◌, ◌^◌, ◌⊎◌, ℕ, IfOk, IfErr, length, string_bytes};
ghost use Rattle.image_streams.specs.declared.fault.Fault.{Fault};
ghost use Rattle.history.specs.Replay.{IsRefusedAt};
ghost use Rattle.history.specs.ScheduleText.{schedule_text};
ghost use Rattle.schedule_timeline.specs.TimelineFigures.{BeginsWithFigures, IsFiguresLine};
ghost use Rattle.schedule_timeline.specs.FirstCalls.{AreGrantedBelow};
ghost use Rattle.schedule_timeline.specs.Log.{HasAllReplies, log_of};
ghost use Rattle.schedule_timeline.specs.Page.{Has};
ghost use Rattle.schedule_timeline.specs.Timeline.{IsTimelineOf, bars_of, ending_of, freed_pair, freeings_of};

pub(crate) mod bar;
pub(crate) mod call;
mod deed;
pub(crate) mod ending;
pub(crate) mod filled;
mod first_calls;
pub(crate) mod freeing;
pub(crate) mod idle;
pub(crate) mod lane;
pub(crate) mod mark;
pub(crate) mod scale;
pub(crate) mod share;

use crate::drawing::draw;
use crate::entry_at::entry_at;
use crate::figures::TimelineFigures;
use crate::laws::grants_are_inside;
use crate::names::Names;
use crate::page::page_of;
use crate::strips::write_lanes;
use bar::Bar;
use deed::{Deed, granted_region};
use ending::Ending;
use first_calls::{call_at, call_of, first_calls};
use freeing::Freeing;
use heap_image::{Fault, Image};
use heap_map::Style;
use history::{Replied, reply};
use scheduler::{Entry, Event, Reply, Schedule};
use std::alloc::{AllocError, Global};
use summary::{Plan, Survey};

/// The largest number of lines. No memory holds more.
const MAX_LINES: usize = 0x7fff_ffff_ffff_ffff;

/// A schedule that the word machine of an image accepts, with the bars of granted regions and the marks of drains that
/// free a region. The lines of the schedule's text are the time.
#[derive(Drop)]
pub struct Timeline {
    /// The schedule. Each line has its reply.
    pub schedule: Schedule,
    /// A bar for each grant, in the order of the grants.
    pub bars: Vec<Bar>,
    /// A mark for each drain that frees a region, in the order of the drains.
    pub freeings: Vec<Freeing>,
    pub ending: Ending,
}

impl Timeline {
    /// Runs a schedule on the word machine of an image, without moving a word, and collects its bars and marks.
    ///
    /// Fails with [`Fault::Schedule`] and the number of the first line that the word machine refuses, or with
    /// [`Fault::Memory`]. The timeline keeps the schedule in 12 bytes a line.
    pub fn of(
        alloc: Global,
        image: &Image,
        survey: &Survey,
        schedule: &Schedule,
    ) -> Result<Timeline, Fault>
        requires same { survey.now ≡ image.now }
        ensures ok { IfOk result (IsTimelineOf image.now schedule.now) }
        ensures fault { IfErr result (λ fault. (fault ≡ Fault.Memory) ⊎ ((line : ℕ) × (fault ≡ Fault.Schedule line) × IsRefusedAt image.now schedule.now line)) }
    {
        grants_are_inside();
        let plan = survey.plan();
        let Replied { lines, is_settled } = reply(alloc, plan, schedule)?;
        if lines.len() > MAX_LINES {
            return Err(Fault::Memory);
        }
        let regions = plan.regions();
        Ok(Timeline {
            bars: bars_of(alloc, &lines, regions)?,
            freeings: freeings_of(alloc, &lines, regions)?,
            schedule: lines,
            ending: ending_of(is_settled),
        })
    }

    /// The line of figures, with its line feed.
    pub fn line(&self, alloc: Global) -> Result<String, AllocError>
        ensures { IfOk result (λ text. IsFiguresLine self.now (string_bytes text)) }
    {
        let mut text = String::new(alloc);
        writeln!(text, "{}", TimelineFigures::of(self))?;
        Ok(text)
    }

    /// The timeline as text: the line of figures, two rows for each worker, the legend and a list of freed regions. A
    /// row has one cell per line of the schedule, but no more than `width`.
    pub fn text(&self, alloc: Global, style: Style, width: u32) -> Result<String, AllocError>
        ensures { IfOk result (λ text. BeginsWithFigures self.now (string_bytes text)) }
    {
        let mut text = self.line(alloc)?;
        let mut lanes = String::new(alloc);
        write_lanes(alloc, &mut lanes, self, style, width)?;
        text.push_str(&lanes)?;
        Ok(text)
    }

    /// The timeline as an SVG document, with the names of its files.
    pub fn svg(&self, alloc: Global, names: Names<'_>) -> Result<String, AllocError> {
        draw(alloc, self, names)
    }

    /// The timeline as an HTML page, for the plan of its image, with the names of its files. The page contains the
    /// schedule's text and a script that steps through its lines.
    pub fn page(
        &self,
        alloc: Global,
        plan: &Plan,
        names: Names<'_>,
        words: &str,
    ) -> Result<Vec<u8>, AllocError>
        ensures { IfOk result (λ page. Has (schedule_text self.now.schedule) page.items) }
    {
        page_of(alloc, plan, &self.schedule, names, words)
    }
}

/// How a schedule ends.
fn ending_of(is_settled: bool) -> Ending
    ensures { result ≡ ending_of is_settled }
{
    if is_settled {
        Ending::Finished
    } else {
        Ending::Open
    }
}

/// The bars of a schedule in which each line has its reply and only regions below `regions` are granted.
fn bars_of(alloc: Global, schedule: &Schedule, regions: u32) -> Result<Vec<Bar>, AllocError>
    requires replies { HasAllReplies schedule.now }
    requires few { length schedule.now.lines < 2 ^ 63 }
    requires below { AreGrantedBelow regions (log_of schedule.now) }
    ensures { IfOk result (λ bars. bars.items ≡ bars_of (log_of schedule.now)) }
{
    let completions = first_calls(alloc, schedule, regions, Deed::Completion)?;
    let settlings = first_calls(alloc, schedule, regions, Deed::Settling)?;
    let mut bars = Vec::new(alloc);
    for i in 0..schedule.len() {
        let entry = entry_at(schedule, i);
        if let Some(region) = granted_region(&entry) {
            bars.push(Bar {
                region,
                claimed: call_at(i, &entry),
                completed: call_of(&completions, region),
                settled: call_of(&settlings, region),
            })?;
        }
    }
    Ok(bars)
}

/// The marks of a schedule in which each line has its reply and only regions below `regions` are granted.
fn freeings_of(alloc: Global, schedule: &Schedule, regions: u32) -> Result<Vec<Freeing>, AllocError>
    requires replies { HasAllReplies schedule.now }
    requires few { length schedule.now.lines < 2 ^ 63 }
    requires below { AreGrantedBelow regions (log_of schedule.now) }
    ensures { IfOk result (λ freeings. freeings.items ≡ freeings_of (log_of schedule.now)) }
{
    let grants = first_calls(alloc, schedule, regions, Deed::Grant)?;
    let mut freeings = Vec::new(alloc);
    for i in 0..schedule.len() {
        let entry = entry_at(schedule, i);
        if let Some((destination, source)) = freed_pair(&entry) {
            freeings.push(Freeing {
                drain: call_at(i, &entry),
                destination,
                source,
                taken: call_of(&grants, source),
            })?;
        }
    }
    Ok(freeings)
}

/// The destination and the source of a drain that frees its source.
fn freed_pair(entry: &Entry) -> Option<(u32, u32)>
    ensures { result ≡ freed_pair entry.now.event entry.now.reply }
{
    match (entry.event, entry.reply) {
        (Event::Drain(destination, source), Reply::Last) => Some((destination, source)),
        _ => None,
    }
}
