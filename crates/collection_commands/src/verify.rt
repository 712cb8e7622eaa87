ghost use Rattle.std.specs.Prelude.{◌≡◌, codes, ℕ, List, IfOk, IfErr, MatchOption};
ghost use Rattle.image_streams.specs.declared.fault.Fault.TheVariants.{Memory};
ghost use Rattle.verification.specs.declared.verdict.Verdict.TheVariants.{Same};
ghost use Rattle.collection_commands.specs.Verify.{IsVerdictOf, IsVerdictOn, IsUnverified, verdict_of};

use crate::explanation::{explanation_of_file, explanation_of_images};
use collector::{Verdict, verify, verify_below_top};
use command_files::{WorkDone, two_inputs};
use command_host::ImageFile;
use command_line::Verify;
use command_support::{Difference, Failure, FileWord, Role, Screen, Trouble, Watched};
use command_times::{Phase, PhaseTimes, Stats};
use heap_image::{Fault, Image, Intake, all_processors, read_image};
use rayon::current_num_threads;
use std::alloc::Global;
use std::fs::OpenFile;
use std::os::unix::fs::FileExt;
use std::rt::Files;
use std::thread::Threads;
use std::time::Clock;

/// Compares the image in one file with the compaction of another, and returns what `verify` prints if they are equal. A
/// difference is explained if the request asks for it, or if a person reads standard error.
pub fn answer<'a, R: Files + AllocGlobal + Threads + Clock + Sync>(
    rt: &R,
    screen: Screen,
    request: Verify<'a>,
) -> Result<WorkDone<'a>, Trouble>
where
    R::File: FileExt + Sync,
    ensures { IfOk result (λ done. done.text.items ≡ codes "same\n") }
{
    let times = PhaseTimes::start(rt, request.stats);
    let before = FileWord::new(Role::Before, request.before);
    let after = FileWord::new(Role::After, request.after);
    let wishes = Wishes {
        explain: request.explain || screen.shows_errors,
        ignore_free: request.ignore_free,
    };
    let (was, is) = two_inputs(rt, before, after)?;
    let readers = current_num_threads(rt);
    let was = was.with_shape(request.shape);
    let mut was = ImageFile::read_ahead(rt, was, readers, &times, Phase::ReadBefore);
    let mut is = ImageFile::read_ahead(rt, is, readers, &times, Phase::ReadAfter);
    let verified = verify_images(rt, &times, &mut was, &mut is, wishes);
    times.end(Phase::Compare);
    match verified {
        Ok(compared) => report(rt.alloc(), compared, after, Stats::of_comparison(&times)),
        Err(refused) => {
            let (was, is) = (was.into_inner(), is.into_inner());
            Err(trouble(rt, refused, &was, &is, wishes))
        }
    }
}

/// The failure of a comparison, with lines that explain it if they are wanted.
fn trouble<'a, R: AllocGlobal + Threads + Sync, F: OpenFile + FileExt + Sync + Drop>(
    rt: &R,
    refused: Refused,
    before: &Watched<'a, F>,
    after: &Watched<'a, F>,
    wishes: Wishes,
) -> Trouble {
    let Refused { why, was } = refused;
    let lines = match was {
        Some(was) if wishes.explain => explanation_of_file(rt, was, after, wishes.ignore_free),
        _other => None,
    };
    trouble_of(why, before, after).explained(lines)
}

/// What the command prints of a comparison, or the difference that was found in this file.
fn report<'a>(
    alloc: Global,
    compared: Compared,
    after: FileWord<'a>,
    stats: Stats,
) -> Result<WorkDone<'a>, Trouble>
    ensures { IfOk result (λ done. done.text.items ≡ codes "same\n") }
{
    match difference(compared.verdict) {
        None => {
            let text = Vec::from_slice(alloc, b"same\n")?;
            Ok(WorkDone::printing(text).with_stats(stats))
        }
        Some(difference) => {
            let trouble = Trouble::new(Failure::Differs(difference)).about(after);
            Err(trouble.explained(compared.explanation))
        }
    }
}

/// The difference that a verdict names, if it names one.
fn difference(verdict: Verdict) -> Option<Difference>
    ensures { MatchOption result (verdict ≡ Same) (λ difference. verdict ≡ verdict_of difference) }
{
    match verdict {
        Verdict::Same => None,
        Verdict::Shape => Some(Difference::Shape),
        Verdict::Word(address) => Some(Difference::Word(address)),
        Verdict::Live(index) => Some(Difference::Live(index)),
        Verdict::Root(index) => Some(Difference::Root(index)),
    }
}

/// Says which file a fault is about.
fn trouble_of<'a, F: Drop>(
    unverified: Unverified,
    before: &Watched<'a, F>,
    after: &Watched<'a, F>,
) -> Trouble {
    match unverified {
        Unverified::Before(fault) => Trouble::from(fault).if_image(before),
        Unverified::After(fault) => Trouble::from(fault).if_image(after),
        Unverified::Neither(fault) => Trouble::from(fault),
    }
}

/// A fault of a comparison, and which image it is about.
#[derive(Clone, Copy)]
pub enum Unverified {
    /// A fault of the image before the collection, or of reading it.
    Before(Fault),
    /// A fault of the image after the collection, or of reading it.
    After(Fault),
    /// A fault of the comparison.
    Neither(Fault),
}

/// How to compare.
#[derive(Clone, Copy)]
pub struct Wishes {
    /// Whether to explain a difference.
    pub explain: bool,
    /// Whether words at or above the new top count as equal.
    pub ignore_free: bool,
}

/// The verdict of a comparison.
#[derive(Drop)]
pub struct Compared {
    /// That the images are equal, or their first difference.
    pub verdict: Verdict,
    /// The lines that explain a difference. None if they aren't wanted, or if memory ran out while they were made.
    pub explanation: Option<String>,
}

/// A fault of a comparison.
#[derive(Drop)]
pub struct Refused {
    pub why: Unverified,
    /// The image before the collection, if only the other is at fault.
    pub was: Option<Image>,
}

/// Reads two images, and compares the second with the compaction of the first. The verdict is that they are equal, or
/// the first difference.
///
/// A fault is the first of `before`, else the first of `after`, or that memory ran out.
pub fn verify_images<H: AllocGlobal + Threads + Clock + Sync, R: Intake, S: Intake>(
    rt: &H,
    times: &PhaseTimes<'_, H>,
    before: &mut R,
    after: &mut S,
    wishes: Wishes,
) -> Result<Compared, Refused>
    ensures verdict { IfOk result (λ compared. IsVerdictOf wishes.ignore_free (R.left before.old) (R.left before.new)
        (S.left after.old) (S.left after.new) compared.verdict) }
    ensures fault { IfErr result (λ refused. IsUnverified (R.left before.old) (R.left before.new) (S.left after.old) refused.why) }
{
    let alloc = rt.alloc();
    let was = match read_image(alloc, before, &all_processors(rt)) {
        Ok(image) => image,
        Err(fault) => return Err(refusal(Unverified::Before(fault), None)),
    };
    times.end(Phase::CheckBefore);
    let is = match read_image(alloc, after, &all_processors(rt)) {
        Ok(image) => image,
        Err(fault) => return Err(refusal(Unverified::After(fault), Some(was))),
    };
    times.end(Phase::CheckAfter);
    let verdict = match verdict_on(alloc, &was, &is, rt, wishes.ignore_free) {
        Ok(verdict) => verdict,
        Err(fault) => return Err(refusal(Unverified::Neither(fault), None)),
    };
    let explanation = if wishes.explain && verdict != Verdict::Same {
        explanation_of_images(alloc, was, &is, wishes.ignore_free, rt).ok()
    } else {
        None
    };
    Ok(Compared {
        verdict,
        explanation,
    })
}

fn refusal(why: Unverified, was: Option<Image>) -> Refused
    ensures { result.why ≡ why }
{
    Refused { why, was }
}

/// The verdict on the words of all addresses, or on those below the new top.
fn verdict_on(
    alloc: Global,
    was: &Image,
    is: &Image,
    threads: &(impl Threads + Sync),
    ignore_free: bool,
) -> Result<Verdict, Fault>
    ensures verdict { IfOk result (IsVerdictOn ignore_free was.now is.now) }
    ensures fault { IfErr result (λ fault. fault ≡ Memory) }
{
    let verifier = all_processors(threads);
    if ignore_free {
        verify_below_top(alloc, was, is, &verifier)
    } else {
        verify(alloc, was, is, &verifier)
    }
}
