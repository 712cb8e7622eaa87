//! Writes a timeline as an HTML page that needs no other file.
ghost use Rattle.std.specs.Prelude.{◌≡◌, ◌++◌, ℕ, List, IfOk, OnOk, string_bytes};
ghost use Rattle.history.specs.ScheduleText.{schedule_text};
ghost use Rattle.schedule_timeline.specs.Page.{Has};

mod page_layout;
mod page_script;
mod small_heap;
mod words_script;

use crate::names::{Names, write_names};
use history::append_schedule;
use page_layout::{AFTER_SCHEDULE, BEFORE_HEAP, BEFORE_MOVES, BEFORE_SCHEDULE, HEAD, TAIL};
use page_script::SCRIPT;
use scheduler::Schedule;
pub use small_heap::heap_words;
use std::alloc::{AllocError, Global};
use summary::Plan;
use words_script::WORDS_SCRIPT;

/// The page of a schedule, of the moves of a plan and of the words of its heap, if these are given. It contains the schedule's
/// text.
pub(crate) fn page_of(
    alloc: Global,
    plan: &Plan,
    schedule: &Schedule,
    names: Names<'_>,
    words: &str,
) -> Result<Vec<u8>, AllocError>
    ensures { IfOk result (λ page. Has (schedule_text schedule.now) page.items) }
{
    let mut page = front_of(alloc, plan, names, words)?;
    append_schedule(&mut page, schedule)?;
    write_back(&mut page)?;
    Ok(page.into_bytes())
}

/// The part before the schedule's text: the layout, the names of the files, the words and the moves.
fn front_of(
    alloc: Global,
    plan: &Plan,
    names: Names<'_>,
    words: &str,
) -> Result<String, AllocError> {
    let mut front = String::new(alloc);
    front.push_str(HEAD)?;
    write_names(&mut front, names)?;
    front.push_str(BEFORE_HEAP)?;
    front.push_str(words)?;
    front.push_str(BEFORE_MOVES)?;
    write_moves(&mut front, plan)?;
    front.push_str(BEFORE_SCHEDULE)?;
    Ok(front)
}

/// Writes the part after the schedule's text: the scripts.
fn write_back(page: &mut String) -> Result<(), AllocError>
    ensures { OnOk result ((back : List ℕ) × (string_bytes page.new ≡ string_bytes page.old ++ back)) }
{
    page.push_str(AFTER_SCHEDULE)?;
    page.push_str(WORDS_SCRIPT)?;
    page.push_str(SCRIPT)?;
    page.push_str(TAIL)?;
    Ok(())
}

/// Writes a line with the numbers of regions, of regions to fill and of those of the dense prefix, and the lines of each
/// destination.
fn write_moves(text: &mut String, plan: &Plan) -> Result<(), AllocError> {
    let regions = plan.regions();
    let filled = plan.fill_regions();
    let prefix = plan.prefix_end() / plan.region_words().max(1);
    writeln!(text, "regions {regions} filled {filled} prefix {prefix}")?;
    for destination in 0..regions {
        write_sources(text, plan, destination)?;
    }
    Ok(())
}

/// Writes a line for each source of a destination, itself included: both, and up to which word the destination is written
/// once all words from there are.
fn write_sources(text: &mut String, plan: &Plan, destination: u32) -> Result<(), AllocError> {
    for source in plan.reads(destination) {
        let end = taken_up_to(plan, destination, source);
        writeln!(text, "{destination} {source} {end}")?;
    }
    Ok(())
}

/// The number of words from the start of a destination up to the last one that comes from a source.
fn taken_up_to(plan: &Plan, destination: u32, source: u32) -> u64 {
    if source >= plan.regions() {
        return 0;
    }
    let size = plan.region_words();
    let from = plan.region(source);
    let end = from
        .destination
        .saturating_add(u64::from(from.partial))
        .saturating_add(u64::from(from.live));
    size.min(end.saturating_sub(u64::from(destination).saturating_mul(size)))
}
