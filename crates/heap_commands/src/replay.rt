ghost use Rattle.std.specs.Prelude.{◌≡◌, ◌++◌, ℕ, List, IfOk, IfErr, IfSome, codes};
ghost use Rattle.image_streams.specs.declared.fault.Fault.TheVariants.{Memory};
ghost use Rattle.history.specs.ScheduleText.{schedule_text};
ghost use Rattle.history.specs.Replayed.{IsReplayed};
ghost use Rattle.heap_commands.specs.Replay.{IsReplayText, IsReplayOf, end_line};
ghost use Rattle.heap_commands.specs.Unreplayed.{IsReplayRefused, IsScheduleUnread, IsUnreplayed};

use command_files::{ImageAndSchedule, Opened, WorkDone};
use command_host::ImageFile;
use command_line::Replay;
use command_support::{LineReason, Trouble, Watched};
use heap_image::{Fault, FromRead, Image, Intake, all_processors, read_image};
use history::{End, Replayed, explain, read_schedule_from, replay, write_schedule};
use scheduler::Schedule;
use std::alloc::{AllocError, Global};
use std::os::unix::fs::FileExt;
use std::rt::Files;
use std::thread::Threads;
use std::time::Clock;
use summary::{Plan, Survey};

/// Replays the schedule of one file on the image of another, and returns what `replay` prints.
pub fn answer<'a, R: Files + AllocGlobal + Threads + Clock + Sync>(
    rt: &R,
    request: Replay<'a>,
) -> Result<WorkDone<'a>, Trouble>
where
    R::File: FileExt + Sync,
    ensures { IfOk result (λ done. IsReplayText done.text.items) }
{
    let inputs = ImageAndSchedule {
        image: request.image,
        shape: request.shape,
        schedule: request.schedule,
    };
    let Opened {
        image,
        mut schedule,
    } = inputs.open(rt)?;
    let mut image = ImageFile::untimed(rt, image);
    match replay_text(
        rt.alloc(),
        &mut image,
        &mut FromRead::new(&mut schedule),
        rt,
    ) {
        Ok(text) => Ok(WorkDone::printing(text)),
        Err(unreplayed) => Err(replay_trouble(unreplayed, image.watched(), &schedule)),
    }
}

/// The failure of a command that follows a schedule on an image: which file it is about, and which line of the schedule.
pub(crate) fn replay_trouble<'a, F: Drop>(
    unreplayed: Unreplayed,
    image: &Watched<'a, F>,
    schedule: &Watched<'a, F>,
) -> Trouble {
    let Unreplayed { fault, line } = unreplayed;
    Trouble::from(fault).if_image(image).if_line(schedule, line)
}

/// Why a schedule isn't replayed.
#[derive(Clone, Copy)]
pub struct Unreplayed {
    pub fault: Fault,
    /// Of fault 14, why the line is refused. None if memory ran out before the reason was known.
    pub line: Option<LineReason>,
}

impl From<Fault> for Unreplayed {
    ghost from_gives = { λ fault unreplayed. unreplayed.fault ≡ fault };

    fn from(fault: Fault) -> Unreplayed {
        Unreplayed { fault, line: None }
    }
}

impl From<AllocError> for Unreplayed {
    ghost from_gives = { λ _ unreplayed. unreplayed.fault ≡ Memory };

    fn from(_refused: AllocError) -> Unreplayed {
        Unreplayed::from(Fault::Memory)
    }
}

/// Replays a schedule on a copy of the image that is read from `input`. Returns the lines of the schedule, each with
/// its reply, and whether the collection is finished.
pub fn replay_text<R: Intake, S: Intake, T: Threads + Sync>(
    alloc: Global,
    input: &mut R,
    source: &mut S,
    threads: &T,
) -> Result<Vec<u8>, Unreplayed>
    ensures replay { IfOk result (λ shown. IsReplayOf (R.left input.old) (R.left input.new)
        (S.left source.old) shown.items) }
    ensures fault { IfErr result (λ unreplayed. IsUnreplayed (R.left input.old) (R.left input.new)
        (S.left source.old) unreplayed.fault) }
{
    let replayed = replay_from(alloc, input, source, threads)?;
    text_of(alloc, &replayed)
}

/// Reads an image and a schedule, and replays the schedule on a copy of the image.
fn replay_from<R: Intake, S: Intake, T: Threads + Sync>(
    alloc: Global,
    input: &mut R,
    source: &mut S,
    threads: &T,
) -> Result<Replayed, Unreplayed>
    ensures replay { IfOk result (λ replayed. IsReplayOf (R.left input.old) (R.left input.new)
        (S.left source.old) (schedule_text replayed.lines ++ end_line replayed.ended)) }
    ensures fault { IfErr result (λ unreplayed. IsUnreplayed (R.left input.old) (R.left input.new)
        (S.left source.old) unreplayed.fault) }
{
    let image = read_image(alloc, input, &all_processors(threads))?;
    let schedule = schedule_in(alloc, source)?;
    replay_on(alloc, &image, schedule, threads)
}

/// Replays a schedule on an image. The schedule is dropped once its replay, which has its own copy, is made.
fn replay_on(
    alloc: Global,
    image: &Image,
    schedule: Schedule,
    threads: &(impl Threads + Sync),
) -> Result<Replayed, Unreplayed>
    ensures replay { IfOk result (IsReplayed image.now schedule) }
    ensures fault { IfErr result (λ unreplayed. IsReplayRefused image.now schedule unreplayed.fault) }
{
    let survey = Survey::of(alloc, image, &all_processors(threads))?;
    match replay(alloc, image, &survey, &schedule) {
        Ok(replayed) => Ok(replayed),
        Err(fault) => Err(refused(alloc, survey.plan(), &schedule, fault)),
    }
}

/// The lines of a replay, and how it ended. The only fault is that memory runs out.
fn text_of(alloc: Global, replayed: &Replayed) -> Result<Vec<u8>, Unreplayed>
    ensures text { IfOk result (λ text. text.items
        ≡ schedule_text replayed.now.lines ++ end_line replayed.now.ended) }
    ensures fault { IfErr result (λ unreplayed. unreplayed.fault ≡ Memory) }
{
    let mut text = write_schedule(alloc, &replayed.lines)?;
    text.extend_from_slice(end_line(&replayed.ended).as_bytes())?;
    Ok(text)
}

/// Reads a schedule to the end of the device, line by line.
pub fn schedule_in<S: Intake>(alloc: Global, source: &mut S) -> Result<Schedule, Unreplayed>
    ensures text { IfOk result (λ schedule. IfSome (S.left source.old) (λ bytes. bytes ≡ schedule_text schedule)) }
    ensures fault { IfErr result (λ unreplayed. IsScheduleUnread (S.left source.old) unreplayed.fault) }
{
    match read_schedule_from(alloc, source) {
        Ok(schedule) => Ok(schedule),
        Err(fault) => Err(malformed(fault)),
    }
}

/// A fault of reading a schedule. Fault 14 has its reason: the line is malformed.
fn malformed(fault: Fault) -> Unreplayed
    ensures { result.fault ≡ fault }
{
    let line = match fault {
        Fault::Schedule(_) => Some(LineReason::Malformed),
        _ => None,
    };
    Unreplayed { fault, line }
}

/// A fault of replaying a schedule. Fault 14 has its reason where memory is left to find it.
pub fn refused(alloc: Global, plan: &Plan, schedule: &Schedule, fault: Fault) -> Unreplayed
    ensures { result.fault ≡ fault }
{
    let line = match explain(alloc, plan, schedule) {
        Ok(Some(refused)) if fault == Fault::Schedule(refused.number) => {
            Some(LineReason::Refused(refused.cause))
        }
        _ => None,
    };
    Unreplayed { fault, line }
}

/// The last line: whether all regions to be filled are settled.
fn end_line(ended: &End) -> &'static str
    ensures { result.now ≡ end_line ended.now }
{
    match ended {
        End::Finished(_) => "finished\n",
        End::Open => "open\n",
    }
}
