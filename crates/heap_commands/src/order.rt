ghost use Rattle.std.specs.Prelude.{◌≡◌, ◌++◌, codes, ℕ, List, IfOk, IfErr, IfSome, string_bytes};
ghost use Rattle.heap_image.specs.Refusals.{IsReason};
ghost use Rattle.work_order.specs.WorkOrder.{order_text};
ghost use Rattle.heap_commands.specs.Order.{IsOrder, IsOrderOf};

use command_files::{WorkDone, open_image};
use command_host::ImageFile;
use command_line::Order;
use command_support::Trouble;
use heap_image::{Fault, Intake, all_processors, read_image};
use std::alloc::{AllocError, Global};
use std::os::unix::fs::FileExt;
use std::rt::Files;
use std::thread::Threads;
use std::time::Clock;
use summary::Survey;
use work_order::WorkOrder;

/// Returns what `order` prints of the image in a file.
pub fn answer<'a, R: Files + AllocGlobal + Threads + Clock + Sync>(
    rt: &R,
    request: Order<'a>,
) -> Result<WorkDone<'a>, Trouble>
where
    R::File: FileExt + Sync,
    ensures { IfOk result (λ done. IsOrder done.text.items) }
{
    let image = open_image(rt, request.image, request.shape)?;
    let mut image = ImageFile::untimed(rt, image);
    match order(rt.alloc(), &mut image, rt) {
        Ok(text) => Ok(WorkDone::printing(text.into_bytes())),
        Err(fault) => Err(Trouble::from(fault).if_image(image.watched())),
    }
}

/// Reads an image, and returns the line that says how much parallelism the order of work in its collection allows.
pub fn order<R: Intake, T: Threads + Sync>(
    alloc: Global,
    input: &mut R,
    threads: &T,
) -> Result<String, Fault>
    ensures order { IfOk result (λ text.
        IsOrderOf (R.left input.old) (R.left input.new) (string_bytes text)) }
    ensures fault { IfErr result (λ fault. IfSome (R.left input.old) (λ bytes. IsReason bytes fault)) }
{
    let image = read_image(alloc, input, &all_processors(threads))?;
    let survey = Survey::of(alloc, &image, &all_processors(threads))?;
    let order = WorkOrder::of(alloc, survey.plan())?;
    Ok(text_of(alloc, order)?)
}

/// The line for an order of work.
fn text_of(alloc: Global, order: WorkOrder) -> Result<String, AllocError>
    ensures { IfOk result (λ text. string_bytes text
        ≡ order_text order.words order.chain ++ codes "\n") }
{
    let mut text = String::new(alloc);
    writeln!(text, "{order}")?;
    Ok(text)
}
