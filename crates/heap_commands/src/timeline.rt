ghost use Rattle.std.specs.Prelude.{◌≡◌, ◌≢◌, ◌⊎◌, codes, ℕ, List, IfOk, IfErr, OnErr, IsTrue, string_bytes};
ghost use Rattle.std.specs.Io.KnownBytes.{Appends};
ghost use Rattle.image_streams.specs.declared.fault.Fault.{Fault};
ghost use Rattle.history.specs.ScheduleText.{schedule_text};
ghost use Rattle.schedule_timeline.specs.Page.{Has};
ghost use Rattle.schedule_timeline.specs.Timeline.{IsTimelineOf};
ghost use Rattle.schedule_timeline.specs.TimelineFigures.{BeginsWithFigures};
ghost use Rattle.heap_commands.specs.Timeline.{HasLanes, HasPicture, IsFollowed, IsPictureOf, IsTimeline};
ghost use Rattle.heap_commands.specs.Unreplayed.{IsReplayRefused, IsUnreplayed};

use crate::map::style_on;
use crate::replay::{Unreplayed, refused, replay_trouble, schedule_in};
use command_files::{
    FileTarget, ImageAndSchedule, Late, Opened, SystemFile, WorkDone, different_target,
    output_must_differ, reject_same_file,
};
use command_host::ImageFile;
use command_line::Timeline;
use command_support::{Failure, FileWord, Role, Screen, Trouble};
use heap_image::{
    Fault, FromRead, Image, Intake, Outlet, ToWrite, all_processors, give_all, read_image,
};
use heap_map::Style;
use schedule_timeline::{Names, heap_words};
use scheduler::Schedule;
use std::alloc::{AllocError, Global};
use std::os::unix::fs::FileExt;
use std::rt::Files;
use std::thread::Threads;
use std::time::Clock;
use summary::Survey;

/// The number of columns that a lane's name and edges take.
const BESIDE_LANES: u32 = 12;

/// Follows the schedule of one file on the image of another, and returns what `timeline` prints. A drawing or a page
/// goes to a third file where the request names one.
pub fn answer<'a, R: Files + AllocGlobal + Threads + Clock + Sync>(
    rt: &R,
    screen: Screen,
    request: Timeline<'a>,
) -> Result<WorkDone<'a>, Trouble>
where
    R::File: FileExt + SystemFile + Sync,
    ensures { IfOk result (λ done. IsTimeline done.text.items) }
{
    let inputs = ImageAndSchedule {
        image: request.image,
        shape: request.shape,
        schedule: request.schedule,
    };
    let lanes = Lanes {
        style: style_on(screen, request.look),
        width: screen.cells_beside(BESIDE_LANES, request.width),
    };
    let (form, file) = match (request.svg, request.html) {
        (Some(_), Some(_)) => return Err(two_pictures(rt.alloc())?),
        (None, None) => return print_lanes(rt, inputs, lanes),
        (Some(svg), None) => (Form::Drawing, svg),
        (None, Some(html)) => (Form::Page, html),
    };
    let wanted = Wanted {
        form,
        names: Names {
            heap: request.image,
            schedule: request.schedule,
        },
    };
    let file = FileWord::new(Role::Drawing, file);
    write_picture(rt, inputs, wanted, file, request.atomic)
}

/// How lanes are printed.
#[derive(Clone, Copy)]
pub struct Lanes {
    /// The characters of the lanes, and whether they are coloured.
    pub style: Style,
    /// The largest number of cells of a lane.
    pub width: u32,
}

/// A picture to write.
#[derive(Clone, Copy)]
pub struct Wanted<'a> {
    pub form: Form,
    /// The names of the files that it shows.
    pub names: Names<'a>,
}

/// The form of a picture.
#[derive(Clone, Copy)]
pub enum Form {
    /// SVG.
    Drawing,
    /// HTML.
    Page,
}

/// The failure of a request for both a drawing and a page.
fn two_pictures(alloc: Global) -> Result<Trouble, AllocError> {
    let text = "pcompact: --svg and --html cannot be used together\n";
    Ok(Trouble::new(Failure::usage(alloc, text)?))
}

/// Prints the lanes of the schedule in a file.
fn print_lanes<'a, R: Files + AllocGlobal + Threads + Clock + Sync>(
    rt: &R,
    inputs: ImageAndSchedule<'a>,
    lanes: Lanes,
) -> Result<WorkDone<'a>, Trouble>
where
    R::File: FileExt + Sync,
    ensures { IfOk result (λ done. IsTimeline done.text.items) }
{
    let Opened {
        image,
        mut schedule,
    } = inputs.open(rt)?;
    let mut image = ImageFile::untimed(rt, image);
    match lanes_text(rt, &mut image, &mut FromRead::new(&mut schedule), lanes) {
        Ok(text) => Ok(WorkDone::printing(text.into_bytes())),
        Err(unreplayed) => Err(replay_trouble(unreplayed, image.watched(), &schedule)),
    }
}

/// Writes a drawing or a page of the schedule in a file to another file, and prints the figures.
fn write_picture<'a, R: Files + AllocGlobal + Threads + Clock + Sync>(
    rt: &R,
    inputs: ImageAndSchedule<'a>,
    wanted: Wanted<'_>,
    file: FileWord<'a>,
    atomic: bool,
) -> Result<WorkDone<'a>, Trouble>
where
    R::File: FileExt + SystemFile + Sync,
    ensures { IfOk result (λ done. IsTimeline done.text.items) }
{
    let opened = inputs.open(rt)?;
    let target = picture_target(rt, &opened, file, atomic)?;
    write_picture_to(rt, opened, wanted, target)
}

/// Writes a drawing or a page of the schedule in a file to this file, and prints the figures.
fn write_picture_to<'a, R: Files + AllocGlobal + Threads + Clock + Sync>(
    rt: &R,
    opened: Opened<'a, R::File>,
    wanted: Wanted<'_>,
    target: FileTarget<'a, R::File>,
) -> Result<WorkDone<'a>, Trouble>
where
    R::File: FileExt + SystemFile + Sync,
    ensures { IfOk result (λ done. IsTimeline done.text.items) }
{
    let Opened {
        image,
        mut schedule,
    } = opened;
    let mut late = Late::new(rt, target);
    let mut image = ImageFile::untimed(rt, image);
    let written = write_into(
        rt,
        &mut image,
        &mut FromRead::new(&mut schedule),
        &mut ToWrite::new(&mut late),
        wanted,
    );
    match written {
        Ok(TimelinePicture { line, .. }) => late.ended(line),
        Err(unreplayed) => Err(late.failed(replay_trouble(unreplayed, image.watched(), &schedule))),
    }
}

/// The file for a picture, which must be neither of the files that are read.
fn picture_target<'a, H: Files + AllocGlobal>(
    host: &H,
    opened: &Opened<'a, H::File>,
    file: FileWord<'a>,
    atomic: bool,
) -> Result<FileTarget<'a, H::File>, Trouble> {
    let Opened { image, schedule } = opened;
    output_must_differ(host.alloc(), schedule.word(), file)?;
    let id = schedule.id()?;
    let target = different_target(host, image, file, atomic)?;
    reject_same_file(host, target, schedule.word(), id)
}

/// Reads an image from `input` and a schedule from `source`, and returns the lanes of the schedule as text.
pub fn lanes_text<R: Intake, S: Intake, T: AllocGlobal + Threads + Sync>(
    rt: &T,
    input: &mut R,
    source: &mut S,
    lanes: Lanes,
) -> Result<String, Unreplayed>
    ensures lanes { IfOk result (λ text. HasLanes (R.left input.old) (R.left input.new)
        (S.left source.old) (string_bytes text)) }
    ensures fault { IfErr result (λ unreplayed. IsUnreplayed (R.left input.old) (R.left input.new)
        (S.left source.old) unreplayed.fault) }
{
    let followed = follow(rt, input, source)?;
    lanes_of(rt.alloc(), &followed, lanes)
}

/// The lanes of a schedule on its image, as text. The only fault is that memory runs out.
fn lanes_of(alloc: Global, followed: &Followed, lanes: Lanes) -> Result<String, Unreplayed>
    ensures lanes { IfOk result (λ text. BeginsWithFigures followed.now.timeline (string_bytes text)) }
    ensures fault { IfErr result (λ unreplayed. unreplayed.fault ≡ Fault.Memory) }
{
    let Lanes { style, width } = lanes;
    Ok(followed.timeline.text(alloc, style, width)?)
}

/// Reads an image from `input` and a schedule from `source`, and writes a drawing or a page of the schedule. Returns
/// the picture, whose bytes were written, with the line of its figures.
///
/// Nothing is written before the whole picture is made, and nothing is allocated once a byte is written.
pub fn write_into<R: Intake, S: Intake, O: Outlet, T: AllocGlobal + Threads + Sync>(
    rt: &T,
    input: &mut R,
    source: &mut S,
    output: &mut O,
    wanted: Wanted<'_>,
) -> Result<TimelinePicture, Unreplayed>
    ensures picture { IfOk result (λ picture. HasPicture wanted.entry.form (R.left input.old) (R.left input.new)
        (S.left source.old) (string_bytes picture.line) picture.bytes.items) }
    ensures bytes { IfOk result (λ picture. Appends (O.took output.old) (O.took output.new) picture.bytes.items) }
    // Only the device stops it once it writes.
    ensures nothing_yet { IfErr result (λ unreplayed. unreplayed.fault ≢ Fault.Io → output.new ≡ output.old) }
    ensures written { OnErr result ((output.new ≡ output.old) ⊎ IsTrue (O.has_failed output.new)) }
    ensures fault { IfErr result (λ unreplayed. IsUnreplayed (R.left input.old) (R.left input.new)
        (S.left source.old) unreplayed.fault
        ⊎ ((unreplayed.fault ≡ Fault.Io) × IsTrue (O.has_failed output.new))) }
{
    let picture = make_picture(rt, input, source, wanted)?;
    match give_all(output, &picture.bytes) {
        Ok(()) => Ok(picture),
        Err(failed) => Err(Unreplayed::from(Fault::from(failed))),
    }
}

/// A drawing or a page, and the line with its figures.
#[derive(Drop)]
pub struct TimelinePicture {
    /// The figures, for standard output.
    pub line: String,
    /// The drawing or the page.
    pub bytes: Vec<u8>,
}

/// Reads an image and a schedule, and makes the picture of the schedule.
fn make_picture<R: Intake, S: Intake, T: AllocGlobal + Threads + Sync>(
    rt: &T,
    input: &mut R,
    source: &mut S,
    wanted: Wanted<'_>,
) -> Result<TimelinePicture, Unreplayed>
    ensures picture { IfOk result (λ picture. HasPicture wanted.entry.form (R.left input.old) (R.left input.new)
        (S.left source.old) (string_bytes picture.line) picture.bytes.items) }
    ensures fault { IfErr result (λ unreplayed. IsUnreplayed (R.left input.old) (R.left input.new)
        (S.left source.old) unreplayed.fault) }
{
    let followed = follow(rt, input, source)?;
    picture_of(rt.alloc(), &followed, wanted)
}

/// Makes the picture of a schedule on its image. The only fault is that memory runs out.
fn picture_of(
    alloc: Global,
    followed: &Followed,
    wanted: Wanted<'_>,
) -> Result<TimelinePicture, Unreplayed>
    ensures picture { IfOk result (λ picture. IsPictureOf wanted.entry.form followed.now.timeline (string_bytes picture.line) picture.bytes.items) }
    ensures fault { IfErr result (λ unreplayed. unreplayed.fault ≡ Fault.Memory) }
{
    let line = followed.timeline.line(alloc)?;
    let bytes = bytes_of(alloc, followed, wanted)?;
    Ok(TimelinePicture { line, bytes })
}

/// Makes a drawing or a page of a schedule.
fn bytes_of(alloc: Global, followed: &Followed, wanted: Wanted<'_>) -> Result<Vec<u8>, AllocError>
    ensures { IfOk result (λ bytes. wanted.entry.form ≡ Form.Page → Has (schedule_text followed.now.timeline.schedule) bytes.items) }
{
    let (plan, words) = (followed.survey.plan(), followed.words.as_str());
    match wanted.form {
        Form::Drawing => Ok(followed.timeline.svg(alloc, wanted.names)?.into_bytes()),
        Form::Page => followed.timeline.page(alloc, plan, wanted.names, words),
    }
}

/// A schedule on its image.
#[derive(Drop)]
struct Followed {
    /// The plan of the image's collection.
    survey: Survey,
    /// The schedule with its bars and marks.
    timeline: schedule_timeline::Timeline,
    /// The words of a small heap, for a page.
    words: String,
}

/// Reads an image and a schedule, and follows the schedule on the image.
fn follow<R: Intake, S: Intake, T: AllocGlobal + Threads + Sync>(
    rt: &T,
    input: &mut R,
    source: &mut S,
) -> Result<Followed, Unreplayed>
    ensures timeline { IfOk result (λ followed. IsFollowed (R.left input.old) (R.left input.new)
        (S.left source.old) followed.timeline) }
    ensures fault { IfErr result (λ unreplayed. IsUnreplayed (R.left input.old) (R.left input.new)
        (S.left source.old) unreplayed.fault) }
{
    let alloc = rt.alloc();
    let image = read_image(alloc, input, &all_processors(rt))?;
    let schedule = schedule_in(alloc, source)?;
    follow_on(alloc, &image, &schedule, rt)
}

/// Follows a schedule on an image.
fn follow_on(
    alloc: Global,
    image: &Image,
    schedule: &Schedule,
    threads: &(impl Threads + Sync),
) -> Result<Followed, Unreplayed>
    ensures timeline { IfOk result (λ followed. IsTimelineOf image.now schedule.now followed.timeline) }
    ensures fault { IfErr result (λ unreplayed. IsReplayRefused image.now schedule.now unreplayed.fault) }
{
    let survey = Survey::of(alloc, image, &all_processors(threads))?;
    let words = heap_words(alloc, image, &survey)?;
    match schedule_timeline::Timeline::of(alloc, image, &survey, schedule) {
        Ok(timeline) => Ok(Followed {
            survey,
            timeline,
            words,
        }),
        Err(fault) => Err(refused(alloc, survey.plan(), schedule, fault)),
    }
}
