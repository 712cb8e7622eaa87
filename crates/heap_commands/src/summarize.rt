//! The command `summary`. A module of that name would hide the crate `summary`.
ghost use Rattle.std.specs.Prelude.{◌≡◌, codes, ℕ, List, IfOk, IfErr, IfSome, string_bytes};
ghost use Rattle.heap_image.specs.Refusals.{IsReason};
ghost use Rattle.heap_commands.specs.Summarize.{IsSummary, IsSummaryOf, heading, summary_of};

use command_files::{WorkDone, open_image};
use command_host::ImageFile;
use command_line::Summary;
use command_support::{Screen, Trouble};
use heap_image::{Fault, Image, Intake, all_processors, read_image};
use std::alloc::Global;
use std::os::unix::fs::FileExt;
use std::rt::Files;
use std::thread::Threads;
use std::time::Clock;
use summary::{Plan, Survey};

/// The names of the columns, above their numbers.
const HEADING: &str = "  region  partial     live     dest    count   source\n";

/// Returns what `summary` prints of the image in a file. A terminal gets the names of the columns.
pub fn answer<'a, R: Files + AllocGlobal + Threads + Clock + Sync>(
    rt: &R,
    screen: Screen,
    request: Summary<'a>,
) -> Result<WorkDone<'a>, Trouble>
where
    R::File: FileExt + Sync,
    ensures { IfOk result (λ done. IsSummary done.text.items) }
{
    let image = open_image(rt, request.image, request.shape)?;
    let mut image = ImageFile::untimed(rt, image);
    let headed = (request.heading || screen.is_terminal) && !request.json;
    match summarize(rt.alloc(), &mut image, headed, rt) {
        Ok(text) => Ok(WorkDone::printing(text.into_bytes())),
        Err(fault) => Err(Trouble::from(fault).if_image(image.watched())),
    }
}

/// Reads an image, and returns the summary of its regions, with the names of the columns if it is `headed`.
pub fn summarize<R: Intake, T: Threads + Sync>(
    alloc: Global,
    input: &mut R,
    headed: bool,
    threads: &T,
) -> Result<String, Fault>
    ensures summary { IfOk result (λ text.
        IsSummaryOf headed (R.left input.old) (R.left input.new) (string_bytes text)) }
    ensures fault { IfErr result (λ fault. IfSome (R.left input.old) (λ bytes. IsReason bytes fault)) }
{
    let image = read_image(alloc, input, &all_processors(threads))?;
    summary_text(alloc, &image, headed, threads)
}

/// The summary of an image. The only fault is that memory runs out.
fn summary_text(
    alloc: Global,
    image: &Image,
    headed: bool,
    threads: &(impl Threads + Sync),
) -> Result<String, Fault>
    ensures summary { IfOk result (λ text. string_bytes text ≡ summary_of headed image.now) }
    ensures fault { IfErr result (λ fault. fault ≡ Fault.Memory) }
{
    let survey = Survey::of(alloc, image, &all_processors(threads))?;
    text_of(alloc, survey.plan(), headed)
}

/// The ends of the dense prefix and of the compacted heap, perhaps the names of the columns, then a line for each region.
fn text_of(alloc: Global, plan: &Plan, headed: bool) -> Result<String, Fault>
    ensures summary { IfOk result (λ text. string_bytes text ≡ summary_of headed plan.now) }
    ensures fault { IfErr result (λ fault. fault ≡ Fault.Memory) }
{
    let mut text = String::new(alloc);
    writeln!(text, "prefix {} top {}", plan.prefix_end(), plan.new_top())?;
    text.push_str(heading_if(headed))?;
    text.push_str(plan.report(alloc)?.as_str())?;
    Ok(text)
}

/// The names of the columns, if they are wanted.
fn heading_if(wanted: bool) -> &'static str
    ensures { result.now ≡ heading wanted }
{
    if wanted { HEADING } else { "" }
}
